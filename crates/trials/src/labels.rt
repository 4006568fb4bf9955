//! What labels do to values, as the rules have it and nothing else.

use std::fmt;

// An enum and matches, not the library's trait: the model has to know nothing of what it tests.
#[derive(Clone, Copy)]
pub(crate) enum Kind {
    Plain = 1,
    Complement = 2,
    Cyclic = 3,
}

/// A labelling by its name and radix.
#[derive(Clone, Copy)]
pub(crate) struct Labels {
    pub(crate) kind: Kind,
    pub(crate) radix: u8,
}

/// The name and the radix, as `cyclic 4`.
impl fmt::Display for Labels {
    fn fmt<W: fmt::Write>(&self, f: &mut fmt::Formatter<W>) -> fmt::Result {
        let name = match self.kind {
            Kind::Plain => "plain",
            Kind::Complement => "complement",
            Kind::Cyclic => "cyclic",
        };
        let radix = self.radix;
        write!(f, "{name} {radix}")
    }
}

impl Labels {
    /// Another number for each.
    pub(crate) fn number(&self) -> u64 {
        u64::from(self.radix) + 8 * (self.kind as u64)
    }

    pub(crate) fn count(&self) -> u8 {
        match self.kind {
            Kind::Plain => 1,
            Kind::Complement => 2,
            Kind::Cyclic => self.radix,
        }
    }

    pub(crate) fn carry(&self, k: u8, v: u8) -> u8 {
        let p = self.radix.max(1);
        match self.kind {
            Kind::Plain => v,
            Kind::Complement if k == 0 => v,
            Kind::Complement => p.wrapping_sub(1).wrapping_sub(v),
            Kind::Cyclic => v.wrapping_add(k) % p,
        }
    }

    /// The least value from which some label carries to `v`; none where `v` is no value.
    pub(crate) fn home(&self, v: u8) -> Option<u8> {
        (0..self.radix).find(|home| self.leading(*home, v).is_some())
    }

    /// The label that carries `from` to `to`, if one does.
    pub(crate) fn leading(&self, from: u8, to: u8) -> Option<u8> {
        (0..self.count()).find(|k| self.carry(*k, from) == to)
    }

    /// The label that carries `v` home.
    pub(crate) fn homing(&self, v: u8) -> Option<u8> {
        self.leading(v, self.home(v)?)
    }
}
