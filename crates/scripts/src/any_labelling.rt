//! A labelling of any kind.

ghost use Rattle.scripts.specs.Kinds.{MakesLabelling};
ghost use Rattle.scripts.specs.Meanings.{labelling_meaning};
ghost use Rattle.scripts.specs.Lawful.{labelling_laws};

use crate::kinds::LabellingKind;
use mvl::complement::Complement;
use mvl::cyclic::Cyclic;
use mvl::labelling::Labelling;
use mvl::plain::Plain;
use mvl::refusal::Refusal;

#[derive(Clone, Copy)]
pub enum AnyLabelling {
    Plain(Plain),
    Complement(Complement),
    Cyclic(Cyclic),
}

impl AnyLabelling {
    // A labelling of a kind, for a radix that the kind serves. An arm for each kind, since a kind names a type.
    pub(crate) fn new(kind: LabellingKind, radix: u8) -> Result<AnyLabelling, Refusal>
        ensures { MakesLabelling kind radix result }
    {
        match kind {
            LabellingKind::Plain => Ok(AnyLabelling::Plain(Plain::new(radix)?)),
            LabellingKind::Complement => Ok(AnyLabelling::Complement(Complement::new(radix)?)),
            LabellingKind::Cyclic => Ok(AnyLabelling::Cyclic(Cyclic::new(radix)?)),
        }
    }
}

// Each method is passed on by hand: the gate refuses a function that hands out a `dyn` value.
impl Labelling for AnyLabelling {
    ghost meaning = { labelling_meaning };

    ghost lawful = { λ l. labelling_laws l };

    fn radix(&self) -> u8 {
        match self {
            AnyLabelling::Plain(l) => l.radix(),
            AnyLabelling::Complement(l) => l.radix(),
            AnyLabelling::Cyclic(l) => l.radix(),
        }
    }

    fn labels(&self) -> u8 {
        match self {
            AnyLabelling::Plain(l) => l.labels(),
            AnyLabelling::Complement(l) => l.labels(),
            AnyLabelling::Cyclic(l) => l.labels(),
        }
    }

    fn carry(&self, label: u8, value: u8) -> Result<u8, Refusal> {
        match self {
            AnyLabelling::Plain(l) => l.carry(label, value),
            AnyLabelling::Complement(l) => l.carry(label, value),
            AnyLabelling::Cyclic(l) => l.carry(label, value),
        }
    }

    fn product(&self, a: u8, b: u8) -> Result<u8, Refusal> {
        match self {
            AnyLabelling::Plain(l) => l.product(a, b),
            AnyLabelling::Complement(l) => l.product(a, b),
            AnyLabelling::Cyclic(l) => l.product(a, b),
        }
    }

    fn inverse(&self, a: u8) -> Result<u8, Refusal> {
        match self {
            AnyLabelling::Plain(l) => l.inverse(a),
            AnyLabelling::Complement(l) => l.inverse(a),
            AnyLabelling::Cyclic(l) => l.inverse(a),
        }
    }

    fn home_label(&self, value: u8) -> Result<u8, Refusal> {
        match self {
            AnyLabelling::Plain(l) => l.home_label(value),
            AnyLabelling::Complement(l) => l.home_label(value),
            AnyLabelling::Cyclic(l) => l.home_label(value),
        }
    }
}
