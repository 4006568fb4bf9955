//! What is to be a value or a label, held against how many there are.

ghost use Rattle.mvl.specs.Answers.{Within};
ghost use Rattle.mvl.specs.declared.refusal.Refusal.TheVariants.{NoValue, NoLabel};

use crate::refusal::Refusal;

/// `value`, where it is below `radix`; any other is refused with 5.
pub(crate) fn value_below(value: u8, radix: u8) -> Result<u8, Refusal>
    ensures { Within radix NoValue value value result }
{
    below(value, radix, Refusal::NoValue)
}

/// `label`, where it is below `labels`; any other is refused with 6.
pub(crate) fn label_below(label: u8, labels: u8) -> Result<u8, Refusal>
    ensures { Within labels NoLabel label label result }
{
    below(label, labels, Refusal::NoLabel)
}

fn below(number: u8, bound: u8, refusal: Refusal) -> Result<u8, Refusal>
    ensures { Within bound refusal number number result }
{
    if number < bound {
        Ok(number)
    } else {
        Err(refusal)
    }
}
