//! An operation that answers by a rule, and what a rule is.

ghost use Rattle.std.specs.Prelude.{◌≡◌, ℕ, ◌<◌};
ghost use Rattle.mvl.specs.Operations.{Binary, Closed};
ghost use Rattle.mvl.specs.Answers.{Small, MadeFor, Asks, Tells};

use crate::operand::operand;
use crate::operation::{Operation, Shortcut};
use mvl::radix::Radix;
use mvl::refusal::Refusal;
use std::marker::PhantomData;

// How an operation answers at any radix. No other crate can call its functions.
pub(crate) trait Rule {
    // What the operation means at a radix.
    ghost binary: { ℕ → Binary };

    // The answer for a pair of values.
    fn answer(radix: Radix, left: u8, right: u8) -> u8
        requires left { left < radix.value }
        requires right { right < radix.value }
        ensures { Asks (binary radix.value) left right (Ok result) };

    // The value that every right operand gives with a left one, if they all give one.
    fn decided(radix: Radix, left: u8) -> Option<u8>
        requires { left < radix.value }
        ensures { Tells (binary radix.value) left (Ok result) };

    ghost radix_is: { (p : ℕ) → (binary p).radix ≡ p };

    ghost closed: { (p : ℕ) → Small p → Closed (binary p) };
}

/// The operation of rule `R` at a radix.
#[derive(Clone, Copy)]
pub struct Ruled<R> {
    radix: Radix,
    rule: PhantomData<R>,
}

impl<R> Ruled<R> {
    /// For a radix from 2 to 4; any other is refused with 1.
    pub fn new(radix: u8) -> Result<Ruled<R>, Refusal>
        ensures { MadeFor (λ o. o.radix.value) Small radix result }
    {
        let radix = Radix::try_from(radix)?;
        Ok(Ruled {
            radix,
            rule: PhantomData,
        })
    }
}

impl<R: Rule> Operation for Ruled<R> {
    ghost meaning = { λ o. R.binary o.radix.value };

    ghost closed = { λ o. R.closed o.radix.value (o.radix.low, o.radix.high) };

    fn radix(&self) -> u8 {
        self.radix.get()
    }

    fn ask(&self, left: u8, right: u8) -> Result<u8, Refusal> {
        let left = operand(self.radix, left)?;
        let right = operand(self.radix, right)?;
        Ok(R::answer(self.radix, left, right))
    }
}

impl<R: Rule> Shortcut for Ruled<R> {
    fn tell(&self, left: u8) -> Result<Option<u8>, Refusal> {
        Ok(R::decided(self.radix, operand(self.radix, left)?))
    }
}
