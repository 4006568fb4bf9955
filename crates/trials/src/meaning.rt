//! What an operation answers, as the rules have it and nothing else.

ghost use Rattle.std.specs.Prelude.{◌≡◌};

use crate::function::Function;
use crate::labels::Labels;
use crate::shape::Shape;

/// The radix, and for each value below it a row with the answer for it and each value below the radix.
// An array, as of a function.
#[derive(Clone, Copy)]
pub(crate) struct Meaning {
    pub(crate) radix: u8,
    answers: [[u8; 4]; 4],
}

impl Meaning {
    /// By the answer for each pair of values.
    pub(crate) fn of<F: Fn(u8, u8) -> u8>(radix: u8, answer: F) -> Meaning
        requires { F.IsAlwaysCallable answer }
    {
        let mut answers = [[0; 4]; 4];
        for (row, a) in answers.iter_mut().zip(0..radix) {
            for (place, b) in row.iter_mut().zip(0..radix) {
                *place = answer(a, b);
            }
        }
        Meaning { radix, answers }
    }

    pub(crate) fn at(&self, a: u8, b: u8) -> u8 {
        let row = self.answers.get(usize::from(a));
        row.and_then(|row| row.get(usize::from(b)))
            .copied()
            .unwrap_or(0)
    }

    /// The operands and the answer carried by labels.
    pub(crate) fn turned(&self, labels: &Labels, left: u8, right: u8, answer: u8) -> Meaning {
        Meaning::of(self.radix, |a, b| {
            let below = self.at(labels.carry(left, a), labels.carry(right, b));
            labels.carry(answer, below)
        })
    }

    /// The answer for two functions, value by value.
    pub(crate) fn combined(&self, shape: &Shape, f: &Function, g: &Function) -> Function {
        Function::of(shape, |i| self.at(f.at(i), g.at(i)))
    }
}
