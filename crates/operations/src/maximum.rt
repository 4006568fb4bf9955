//! MAX: the larger of two values.

ghost use Rattle.std.specs.Prelude.{ℕ, ◌<◌, ◌≤◌};
ghost use Rattle.mvl.specs.Operations.{maximum as maximum_of};
ghost use Rattle.std.proofs.Common.{rules};

use crate::ruled::{Rule, Ruled};
use mvl::radix::Radix;

/// For a radix from 2 to 4.
pub type Maximum = Ruled<Larger>;

/// The rule of MAX.
#[derive(Clone, Copy)]
pub struct Larger;

impl Rule for Larger {
    ghost binary = { maximum_of };

    ghost radix_is = { Prim.search rules };

    ghost closed = { Prim.search rules };

    fn answer(_radix: Radix, left: u8, right: u8) -> u8 {
        left.max(right)
    }

    // The largest value is the larger of any two.
    fn decided(radix: Radix, left: u8) -> Option<u8> {
        (left == radix.get() - 1).then_some(left)
    }
}
