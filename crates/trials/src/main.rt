//! Random lists of calls on the table, against a program that knows only truth tables.
//!
//! Arguments, both may be left out: the seed, and the number of calls for each labelling and radix.

#![tactic(auto)]

mod arguments;
mod calls;
mod cards;
mod fault;
mod function;
mod labels;
mod meaning;
mod model;
mod numbers;
mod random;
mod readings;
mod rounds;
mod shape;
mod tally;
mod trial;
mod walks;

use fault::Fault;
use labels::{Kind, Labels};
use mvl::complement::Complement;
use mvl::cyclic::Cyclic;
use mvl::labelling::Labelling;
use mvl::plain::Plain;
use mvl::refusal::Refusal;
use random::Random;
use rounds::Round;
use std::env;
use tally::Tally;

// The seed, and the number of calls for each labelling and radix.
#[derive(Clone, Copy)]
struct Plan {
    seed: u64,
    calls: usize,
}

impl Plan {
    fn read(rt: &HostRuntime) -> anyhow::Result<Plan> {
        let mut plan = Plan {
            seed: 1,
            calls: 25_000,
        };
        // As if counted in a byte, with the program's name as 0: the 257th and the 258th argument are a seed and a number of calls again.
        for (i, word) in env::args(rt)?.enumerate() {
            match i % 256 {
                1 => plan.seed = word.as_str().parse::<u64>()?,
                2 => plan.calls = word.as_str().parse::<usize>()?,
                _ => {}
            }
        }
        Ok(plan)
    }

    // An arm for each kind, since a kind names a type.
    // How many calls were played with labels of one kind and radix: none where the labelling does not serve that radix.
    fn play(&self, rt: &HostRuntime, labels: Labels) -> anyhow::Result<usize> {
        match labels.kind {
            Kind::Plain => self.play_on(rt, labels, Plain::new(labels.radix)),
            Kind::Complement => self.play_on(rt, labels, Complement::new(labels.radix)),
            Kind::Cyclic => self.play_on(rt, labels, Cyclic::new(labels.radix)),
        }
    }

    fn play_on<L: Labelling + Copy + Drop>(
        &self,
        rt: &HostRuntime,
        labels: Labels,
        made: Result<L, Refusal>,
    ) -> anyhow::Result<usize> {
        let Ok(labelling) = made else {
            return Ok(0);
        };
        let seed = self.seed.wrapping_mul(64).wrapping_add(labels.number());
        let mut round = Round {
            heap: rt.alloc(),
            labelling,
            labels,
            random: Random::new(seed),
            tally: Tally::new(),
        };
        let ended = round.play(self.calls);
        self.tell(rt, labels, &round.tally, ended)?;
        Ok(round.tally.calls)
    }

    // What came of it: a line of counts, or a difference.
    fn tell(
        &self,
        rt: &HostRuntime,
        labels: Labels,
        tally: &Tally,
        ended: Result<(), Fault>,
    ) -> anyhow::Result<()> {
        if let Err(Fault::Differs(difference)) = ended {
            let seed = self.seed;
            let calls = tally.calls;
            println!(rt; "{labels}: seed {seed}, after {calls} calls: {difference}")?;
        }
        ended?;
        println!(rt; "{labels}: {tally}")?;
        Ok(())
    }
}

fn run(rt: &HostRuntime) -> anyhow::Result<()> {
    let plan = Plan::read(rt)?;
    let mut calls = 0usize;
    for kind in [Kind::Plain, Kind::Complement, Kind::Cyclic] {
        for radix in 2..5 {
            calls = calls.wrapping_add(plan.play(rt, Labels { kind, radix })?);
        }
    }
    println!(rt; "trials: {calls} calls, 0 differences")?;
    Ok(())
}

fn main(rt: HostRuntime) -> anyhow::Result<()> {
    run(&rt)
}
