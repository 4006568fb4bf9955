//! What is to be an operand, held against the radix.

ghost use Rattle.mvl.specs.Answers.{Within};
ghost use Rattle.mvl.specs.declared.refusal.Refusal.TheVariants.{NoValue};

use mvl::radix::Radix;
use mvl::refusal::Refusal;

/// `value`, where it is below the radix; any other is refused with 5.
pub(crate) fn operand(radix: Radix, value: u8) -> Result<u8, Refusal>
    ensures { Within radix.value NoValue value value result }
{
    if value < radix.get() {
        Ok(value)
    } else {
        Err(Refusal::NoValue)
    }
}
