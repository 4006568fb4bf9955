//! MIN: the smaller of two values.

ghost use Rattle.std.specs.Prelude.{ℕ, ◌<◌, ◌≤◌};
ghost use Rattle.mvl.specs.Operations.{minimum as minimum_of};
ghost use Rattle.std.proofs.Common.{rules};

use crate::ruled::{Rule, Ruled};
use mvl::radix::Radix;

/// For a radix from 2 to 4.
pub type Minimum = Ruled<Smaller>;

/// The rule of MIN.
#[derive(Clone, Copy)]
pub struct Smaller;

impl Rule for Smaller {
    ghost binary = { minimum_of };

    ghost radix_is = { Prim.search rules };

    ghost closed = { Prim.search rules };

    fn answer(_radix: Radix, left: u8, right: u8) -> u8 {
        left.min(right)
    }

    // 0 is the smaller of any two.
    fn decided(_radix: Radix, left: u8) -> Option<u8> {
        (left == 0).then_some(0)
    }
}
