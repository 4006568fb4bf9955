//! The truncated sum: the sum of two values, or the largest value where that is smaller.

ghost use Rattle.std.specs.Prelude.{ℕ, ◌<◌, ◌≤◌};
ghost use Rattle.mvl.specs.Operations.{truncated_sum as truncated_sum_of};
ghost use Rattle.std.proofs.Common.{rules};

use crate::ruled::{Rule, Ruled};
use mvl::radix::Radix;

/// For a radix from 2 to 4.
pub type TruncatedSum = Ruled<SumUpToLargest>;

/// The rule of the truncated sum.
#[derive(Clone, Copy)]
pub struct SumUpToLargest;

impl Rule for SumUpToLargest {
    ghost binary = { truncated_sum_of };

    ghost radix_is = { Prim.search rules };

    ghost closed = { Prim.search rules };

    fn answer(radix: Radix, left: u8, right: u8) -> u8 {
        (left + right).min(radix.get() - 1)
    }

    // The largest value stays, whatever is added.
    fn decided(radix: Radix, left: u8) -> Option<u8> {
        (left == radix.get() - 1).then_some(left)
    }
}
