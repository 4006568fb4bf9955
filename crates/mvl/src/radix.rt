//! The radix: how many values there are.

ghost use Rattle.std.specs.Prelude.{◌≡◌, ◌≤◌};
ghost use Rattle.mvl.specs.Answers.{Small, MadeFor};

use crate::refusal::Refusal;

/// From 2 to 4.
#[derive(Clone, Copy, Debug, PartialEq, Eq)]
pub struct Radix {
    value: u8,
    ghost low: { 2 ≤ value },
    ghost high: { value ≤ 4 },
}

impl Radix {
    /// The number of values.
    pub fn get(self) -> u8
        ensures { result ≡ self.value }
    {
        self.value
    }
}

/// A number that is no radix is refused with 1.
impl TryFrom<u8> for Radix {
    type Error = Refusal;

    ghost try_from_gives = { MadeFor (λ r. r.value) Small };

    fn try_from(number: u8) -> Result<Radix, Refusal> {
        if number < 2 || number > 4 {
            return Err(Refusal::Unserved);
        }
        Ok(Radix { value: number })
    }
}
