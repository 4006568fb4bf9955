//! Cards are filled, well and badly.

use crate::fault::{Fault, agree_refused, granted};
use crate::random::Random;
use crate::rounds::Round;
use crate::shape::Shape;
use mvl::labelling::Labelling;
use mvl::refusal::Refusal;
use std::array;
use tables::parts::card::Card;

/// What a card is filled with.
#[derive(Clone, Copy)]
pub(crate) struct Filling {
    pub(crate) shape: Shape,
    pub(crate) capacity: usize,
}

impl Filling {
    /// Any shape and capacity, at times that of a new card.
    pub(crate) fn random(random: &mut Random) -> Filling {
        let shape = some_shape(random);
        let capacity = some_capacity(random);
        if random.once_in(20) {
            return Filling {
                shape: Shape {
                    n: 1,
                    sizes: [2; 4],
                },
                capacity: 0,
            };
        }
        Filling { shape, capacity }
    }

    /// Whether a new card has this shape and capacity.
    pub(crate) fn is_new(&self) -> bool {
        self.shape.sizes() == [2].as_slice() && self.capacity == 0
    }
}

impl<L: Labelling + Copy + Drop> Round<L> {
    /// The good fill, and at times a bad one before or after it.
    pub(crate) fn fill(&mut self, card: &mut Card, filling: &Filling) -> Result<(), Fault> {
        if self.random.once_in(2) {
            self.fill_badly(card, filling)?;
        }
        let found = card.fill(filling.shape.sizes(), filling.capacity);
        granted("a card is refused with", found)?;
        self.tally.grant();
        if self.random.once_in(2) {
            self.fill_badly(card, filling)?;
        }
        Ok(())
    }

    // A number of sizes, a size or a capacity that is out of range.
    fn fill_badly(&mut self, card: &mut Card, filling: &Filling) -> Result<(), Fault> {
        // An array, of which as many are handed in as the trial wants: a Vec of them would read no plainer.
        let mut sizes = [3u8; 13];
        let mut n = filling.shape.n;
        let mut capacity = self.random.below(2001);
        match self.random.below(4) {
            0 => n = 0,
            1 => n = 13,
            2 => capacity = self.random.below(3).wrapping_mul(1000).wrapping_add(2001),
            _ => sizes[0] = self.random.byte(2).wrapping_mul(200).wrapping_add(5),
        }
        if self.random.once_in(8) {
            sizes[0] = self.random.byte(2);
        }
        let found = card.fill(&sizes[..n], capacity);
        let judged = Refusal::BadCard;
        agree_refused("a card is refused with", Some(judged), found.err())?;
        self.tally.refuse(judged);
        Ok(())
    }
}

fn some_shape(random: &mut Random) -> Shape {
    let sizes = array::from_fn(|_| random.byte(3).wrapping_add(2));
    let n = match random.below(8) {
        0 => 1,
        1 => 2,
        2..=4 => 3,
        _ => 4,
    };
    Shape { n, sizes }
}

fn some_capacity(random: &mut Random) -> usize {
    match random.below(20) {
        0 => 0,
        1..=8 => random.below(13),
        9..=18 => random.below(60),
        _ => random.below(3).wrapping_mul(1000),
    }
}
