//! The labelling with two labels, of which label 1 turns the values about.

ghost use Rattle.std.specs.Prelude.{◌≡◌, ◌%◌};
ghost use Rattle.mvl.specs.Labellings.{complement as complement_of};
ghost use Rattle.mvl.specs.Answers.{Even, MadeFor};
ghost use Rattle.mvl.specs.Lawful.{even_lawful};

use crate::bounds::{label_below, value_below};
use crate::labelling::Labelling;
use crate::radix::Radix;
use crate::refusal::Refusal;

#[derive(Clone, Copy)]
pub struct Complement {
    radix: Radix,
    ghost even: { radix.value % 2 ≡ 0 },
}

impl Complement {
    /// For radix 2 and radix 4: at an odd radix label 1 would carry the middle value to itself, as label 0 does. Any other is refused with 1.
    pub fn new(radix: u8) -> Result<Complement, Refusal>
        ensures { MadeFor (λ l. l.radix.value) Even radix result }
    {
        let radix = Radix::try_from(radix)?;
        if radix.get() % 2 != 0 {
            return Err(Refusal::Unserved);
        }
        Ok(Complement { radix })
    }
}

impl Labelling for Complement {
    ghost meaning = { λ l. complement_of l.radix.value };

    ghost lawful = { λ l. even_lawful complement_of tt tt l.radix.value l.radix.low l.radix.high l.even };

    fn radix(&self) -> u8 {
        self.radix.get()
    }

    fn labels(&self) -> u8 {
        2
    }

    fn carry(&self, label: u8, value: u8) -> Result<u8, Refusal> {
        let value = value_below(value, self.radix())?;
        if label_below(label, self.labels())? == 0 {
            Ok(value)
        } else {
            Ok(self.radix() - 1 - value)
        }
    }

    fn product(&self, a: u8, b: u8) -> Result<u8, Refusal> {
        let a = label_below(a, self.labels())?;
        let b = label_below(b, self.labels())?;
        Ok((a + b) % 2)
    }

    fn inverse(&self, a: u8) -> Result<u8, Refusal> {
        label_below(a, self.labels())
    }

    fn home_label(&self, value: u8) -> Result<u8, Refusal> {
        let value = value_below(value, self.radix())?;
        if value < self.radix() / 2 {
            Ok(0)
        } else {
            Ok(1)
        }
    }
}
