//! The labelling with one label, which leaves every value as it is.

ghost use Rattle.mvl.specs.Labellings.{plain as plain_of};
ghost use Rattle.mvl.specs.Answers.{Small, MadeFor};
ghost use Rattle.mvl.specs.Lawful.{each_lawful};

use crate::bounds::{label_below, value_below};
use crate::labelling::Labelling;
use crate::radix::Radix;
use crate::refusal::Refusal;

#[derive(Clone, Copy)]
pub struct Plain {
    radix: Radix,
}

impl Plain {
    /// For a radix from 2 to 4; any other is refused with 1.
    pub fn new(radix: u8) -> Result<Plain, Refusal>
        ensures { MadeFor (λ l. l.radix.value) Small radix result }
    {
        let radix = Radix::try_from(radix)?;
        Ok(Plain { radix })
    }
}

impl Labelling for Plain {
    ghost meaning = { λ l. plain_of l.radix.value };

    ghost lawful = { λ l. each_lawful plain_of tt tt tt l.radix.value l.radix.low l.radix.high };

    fn radix(&self) -> u8 {
        self.radix.get()
    }

    fn labels(&self) -> u8 {
        1
    }

    fn carry(&self, label: u8, value: u8) -> Result<u8, Refusal> {
        let value = value_below(value, self.radix())?;
        label_below(label, self.labels())?;
        Ok(value)
    }

    fn product(&self, a: u8, b: u8) -> Result<u8, Refusal> {
        label_below(a, self.labels())?;
        label_below(b, self.labels())?;
        Ok(0)
    }

    fn inverse(&self, a: u8) -> Result<u8, Refusal> {
        label_below(a, self.labels())?;
        Ok(0)
    }

    fn home_label(&self, value: u8) -> Result<u8, Refusal> {
        value_below(value, self.radix()).map(|_| 0)
    }
}
