//! The numbers of refusals, as the rules have them.

ghost use Rattle.std.specs.Prelude.{◌≡◌};
ghost use Rattle.mvl.specs.Numbers.{number};

use mvl::refusal::Refusal;

/// The number that a refusal should have.
// By hand, and not by the library's method: what is expected is not read from what is tested.
pub(crate) fn expected_number(refusal: Refusal) -> u8
    ensures { result ≡ number refusal }
{
    match refusal {
        Refusal::Unserved => 1,
        Refusal::BadCard => 2,
        Refusal::NoEdge => 3,
        Refusal::NoVariable => 4,
        Refusal::NoValue => 5,
        Refusal::NoLabel => 6,
        Refusal::WrongLength => 7,
        Refusal::WrongRadix => 8,
        Refusal::ShortMemory => 9,
        Refusal::BrokenImage => 10,
        Refusal::TooWide => 11,
        Refusal::NoPlace => 12,
        Refusal::OtherHeader => 13,
        Refusal::NoRoom => 14,
    }
}
