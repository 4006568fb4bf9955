//! The labelling with a label for each value: label k adds k, modulo the radix.

ghost use Rattle.mvl.specs.Labellings.{cyclic as cyclic_of};
ghost use Rattle.mvl.specs.Answers.{Small, MadeFor};
ghost use Rattle.mvl.specs.Lawful.{each_lawful};

use crate::bounds::{label_below, value_below};
use crate::labelling::Labelling;
use crate::radix::Radix;
use crate::refusal::Refusal;

#[derive(Clone, Copy)]
pub struct Cyclic {
    radix: Radix,
}

impl Cyclic {
    /// For a radix from 2 to 4; any other is refused with 1.
    pub fn new(radix: u8) -> Result<Cyclic, Refusal>
        ensures { MadeFor (λ l. l.radix.value) Small radix result }
    {
        let radix = Radix::try_from(radix)?;
        Ok(Cyclic { radix })
    }
}

impl Labelling for Cyclic {
    ghost meaning = { λ l. cyclic_of l.radix.value };

    ghost lawful = { λ l. each_lawful cyclic_of tt tt tt l.radix.value l.radix.low l.radix.high };

    fn radix(&self) -> u8 {
        self.radix.get()
    }

    fn labels(&self) -> u8 {
        self.radix.get()
    }

    fn carry(&self, label: u8, value: u8) -> Result<u8, Refusal> {
        let value = value_below(value, self.radix())?;
        let label = label_below(label, self.labels())?;
        Ok((value + label) % self.radix())
    }

    fn product(&self, a: u8, b: u8) -> Result<u8, Refusal> {
        let a = label_below(a, self.labels())?;
        let b = label_below(b, self.labels())?;
        Ok((a + b) % self.radix())
    }

    fn inverse(&self, a: u8) -> Result<u8, Refusal> {
        let a = label_below(a, self.labels())?;
        Ok((self.radix() - a) % self.radix())
    }

    fn home_label(&self, value: u8) -> Result<u8, Refusal> {
        value_below(value, self.radix())
    }
}
