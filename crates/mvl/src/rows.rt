//! The rows of a chart, filled with what a labelling answers.

ghost use Rattle.std.specs.Prelude.{◌≤◌};
ghost use Rattle.mvl.specs.Answers.{HomeIs};
ghost use Rattle.mvl.specs.Rows.{Answered};

use crate::labelling::Labelling;
use crate::refusal::Refusal;
use std::array;

/// The home of `value`: the inverse of its home label carries it there.
pub(crate) fn home_of<L: Labelling>(l: &L, value: u8) -> Result<u8, Refusal>
    ensures { HomeIs (L.meaning l.now) value result }
{
    let label = l.home_label(value)?;
    let back = l.inverse(label)?;
    l.carry(back, value)
}

/// What is answered to 0, 1 and so on, and 0 where that is refused.
pub(crate) fn row<const N: usize, F: Fn(u8) -> Result<u8, Refusal>>(ask: F) -> [u8; N]
    requires short { N ≤ 16 }
    requires callable { F.IsAlwaysCallable ask }
    ensures { Answered N (F.post ask) result }
{
    array::from_fn(|x| ask(x as u8).unwrap_or(0))
}
