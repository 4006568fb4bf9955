//! How fast a table is read, built and filled.
//!
//! Without arguments only check sums and counts are printed. The argument `time` has the times printed too.

#![tactic(auto)]

mod building;
mod fault;
mod filling;
mod part;
mod random;
mod reading;
mod rounds;
mod telling;

use building::{largest, opened, sum, threshold};
use filling::{functions, literals};
use part::Part;
use reading::readings;
use rounds::rounds;
use std::env;
use std::time::Instant;
use telling::Teller;

// How many pairs of edges the walks of one building come to. No call tells it: bench/baseline.c counts them.
const STEPS_OF_SUM_12: u64 = 29826151;

const STEPS_OF_SUM_8: u64 = 116499;

const STEPS_OF_LARGEST: u64 = 26211;

const STEPS_OF_THRESHOLD: u64 = 6752;

// How many random functions nearly fill a table.
const FILL: u32 = 350;

fn asked_for(rt: &HostRuntime) -> anyhow::Result<Teller<'_>> {
    let mut words = env::args(rt)?;
    let timed = words.any(|word| word.as_str() == "time");
    Ok(Teller { rt, timed })
}

// The sum of twelve variables is built, and read a million times.
fn read(teller: Teller) -> anyhow::Result<()> {
    // Timed by hand, since the table goes on to the readings.
    let start = Instant::now(teller.rt)?;
    let mut table = opened(teller.rt.alloc(), &[4; 12])?;
    let e = sum(&mut table, 12)?;
    let spent = start.elapsed(teller.rt)?;
    let mut part = Part::new();
    part.add(u64::from(e.number()), STEPS_OF_SUM_12);
    teller.tell("sum of 12", "step", part, spent)?;
    teller.time("readings", "visit", || readings(&table, e, 1000000))
}

fn build(teller: Teller) -> anyhow::Result<()> {
    let heap = teller.rt.alloc();
    teller.time("sum of 8", "step", || {
        rounds(heap, |table| sum(table, 8), STEPS_OF_SUM_8)
    })?;
    teller.time("largest of 8", "step", || {
        rounds(heap, largest, STEPS_OF_LARGEST)
    })?;
    teller.time("threshold of 8", "step", || {
        rounds(heap, threshold, STEPS_OF_THRESHOLD)
    })
}

// A table is filled by random functions, asked for the same again and for others, and for literals.
fn fill(teller: Teller) -> anyhow::Result<()> {
    let mut table = opened(teller.rt.alloc(), &[4; 8])?;
    teller.time("filling", "function", || {
        functions(&mut table, 3, 1, FILL)
    })?;
    teller.time("asked again", "function", || {
        functions(&mut table, 3, 100, FILL)
    })?;
    teller.time("others", "function", || {
        functions(&mut table, 4, 1, 100000)
    })?;
    teller.time("literals", "call", || { Ok(literals(&mut table, 1000000)) })
}

fn run(rt: &HostRuntime) -> anyhow::Result<()> {
    let teller = asked_for(rt)?;
    read(teller)?;
    build(teller)?;
    fill(teller)
}

fn main(rt: HostRuntime) -> anyhow::Result<()> {
    run(&rt)
}
