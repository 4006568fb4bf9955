//! Why a call is refused.

ghost use Rattle.std.specs.Prelude.{◌≡◌, Some};
ghost use Rattle.mvl.specs.Numbers.{number as number_of};
ghost use Rattle.mvl.specs.Reasons.{reason as reason_of, text};

use std::fmt;

/// One name for each reason, and its number.
#[derive(Clone, Copy, Debug, PartialEq, Eq)]
pub enum Refusal {
    Unserved = 1,
    BadCard = 2,
    NoEdge = 3,
    NoVariable = 4,
    NoValue = 5,
    NoLabel = 6,
    WrongLength = 7,
    WrongRadix = 8,
    ShortMemory = 9,
    BrokenImage = 10,
    TooWide = 11,
    NoPlace = 12,
    OtherHeader = 13,
    NoRoom = 14,
}

impl Refusal {
    /// The number of the reason, from 1 to 14.
    pub fn number(&self) -> u8
        ensures { result ≡ number_of self.now }
    {
        *self as u8
    }

    /// The reason in words.
    fn reason(&self) -> &'static str
        ensures { result.now ≡ reason_of self.now }
    {
        match self {
            Refusal::Unserved => "it does not serve this radix",
            Refusal::BadCard => "a count, size or capacity of the card is out of range",
            Refusal::NoEdge => "the edge is not one of this table",
            Refusal::NoVariable => "there is no such variable",
            Refusal::NoValue => "a value or byte is too large for its use",
            Refusal::NoLabel => "there is no such label",
            Refusal::WrongLength => "a length is wrong",
            Refusal::WrongRadix => "the radices differ",
            Refusal::ShortMemory => "the memory is shorter than the image",
            Refusal::BrokenImage => "the image is broken",
            Refusal::TooWide => "the variable has more values than the radix",
            Refusal::NoPlace => "there is no place below to exchange with",
            Refusal::OtherHeader => "the header is another table's",
            Refusal::NoRoom => "there are not enough free nodes",
        }
    }
}

/// The number and the reason, as `5 (a value or byte is too large for its use)`.
impl fmt::Display for Refusal {
    ghost output = { λ r. Some (text r) };

    fn fmt<W: fmt::Write>(&self, f: &mut fmt::Formatter<W>) -> fmt::Result {
        let number = self.number();
        let reason = self.reason();
        write!(f, "{number} ({reason})")
    }
}
