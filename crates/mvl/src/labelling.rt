//! What a labelling means, which laws it keeps, and what it is asked.

ghost use Rattle.std.specs.Prelude.{◌≡◌};
ghost use Rattle.mvl.specs.Labels.{Meaning, Laws};
ghost use Rattle.mvl.specs.Answers.{Carries, Multiplies, Inverts, Homes};

use crate::refusal::Refusal;

// Plain, Complement and Cyclic are three impls of it: a rule of the project names them so, and each carries values by a formula of its own.
/// Labels that carry values to values. Asking alters nothing. A value that is not below the radix is refused with 5, a label that is none
/// with 6, the smaller number first.
pub trait Labelling {
    /// The radix, the number of labels, and where each label carries each value.
    ghost meaning: { Self → Meaning };

    fn radix(&self) -> u8
        ensures { result ≡ (meaning self.now).radix };

    fn labels(&self) -> u8
        ensures { result ≡ (meaning self.now).labels };

    /// Where `label` carries `value`.
    fn carry(&self, label: u8, value: u8) -> Result<u8, Refusal>
        ensures { Carries (meaning self.now) label value result };

    /// The label that does what `b` first and `a` second do.
    fn product(&self, a: u8, b: u8) -> Result<u8, Refusal>
        ensures { Multiplies (meaning self.now) a b result };

    /// The label that carries back what `a` carried.
    fn inverse(&self, a: u8) -> Result<u8, Refusal>
        ensures { Inverts (meaning self.now) a result };

    /// The label that carries the home of `value` to it: the home is the least value from which some label does.
    fn home_label(&self, value: u8) -> Result<u8, Refusal>
        ensures { Homes (meaning self.now) value result };

    ghost lawful: { (l : Self) → Laws (meaning l) };
}
