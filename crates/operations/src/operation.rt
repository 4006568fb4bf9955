//! What an operation means and is asked, and what a shortcut tells besides.

ghost use Rattle.std.specs.Prelude.{◌≡◌};
ghost use Rattle.mvl.specs.Operations.{Binary, Closed};
ghost use Rattle.mvl.specs.Answers.{Asks, Tells};

use mvl::refusal::Refusal;

/// A value for each ordered pair of values. Asking alters nothing. An operand that is not below the radix is refused with 5.
pub trait Operation {
    /// The radix, and the answer for each pair.
    ghost meaning: { Self → Binary };

    fn radix(&self) -> u8
        ensures { result ≡ (meaning self.now).radix };

    /// The answer for the pair of `left` and `right`.
    fn ask(&self, left: u8, right: u8) -> Result<u8, Refusal>
        ensures { Asks (meaning self.now) left right result };

    ghost closed: { (o : Self) → Closed (meaning o) };
}

/// An operation that knows where its left operand alone decides the answer.
pub trait Shortcut: Operation {
    /// The value that every right operand gives with `left`, none where they give several; 5 where `left` is too large.
    fn tell(&self, left: u8) -> Result<Option<u8>, Refusal>
        ensures { Tells (Self.meaning self.now) left result };
}
