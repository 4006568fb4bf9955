//! The cyclic sum: the sum of two values modulo the radix.

ghost use Rattle.std.specs.Prelude.{ℕ, ◌<◌, ◌≤◌};
ghost use Rattle.mvl.specs.Operations.{cyclic_sum as cyclic_sum_of};
ghost use Rattle.std.proofs.Common.{rules};

use crate::ruled::{Rule, Ruled};
use mvl::radix::Radix;

/// For a radix from 2 to 4.
pub type CyclicSum = Ruled<SumModulo>;

/// The rule of the cyclic sum.
#[derive(Clone, Copy)]
pub struct SumModulo;

impl Rule for SumModulo {
    ghost binary = { cyclic_sum_of };

    ghost radix_is = { Prim.search rules };

    ghost closed = { Prim.search rules };

    fn answer(radix: Radix, left: u8, right: u8) -> u8 {
        (left + right) % radix.get()
    }

    // Another right operand always gives another sum.
    fn decided(_radix: Radix, _left: u8) -> Option<u8> {
        None
    }
}
