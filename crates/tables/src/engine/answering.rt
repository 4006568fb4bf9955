//! The answers of an operation, in an array.

ghost use Rattle.std.specs.Prelude.{◌≡◌, ◌/◌, ◌%◌, ◌<◌};
ghost use Rattle.tables.specs.Walks.{Tabulates};

use operations::operation::Operation;
use std::array;

// The answer for the pair of `x / 4` and `x % 4`, if there is one.
fn answer<O: Operation>(operation: &O, x: u8) -> u8
    ensures { x / 4 < (O.meaning operation.now).radix → x % 4 < (O.meaning operation.now).radix → result ≡ (O.meaning operation.now).answer (x / 4) (x % 4) }
{
    operation.ask(x / 4, x % 4).unwrap_or(0)
}

/// The answer for the pair (a, b) at 4 * a + b.
pub(crate) fn answers_of<O: Operation>(operation: &O) -> [u8; 16]
    ensures { Tabulates (O.meaning operation.now) result }
{
    array::from_fn(|x| answer(operation, x as u8))
}
