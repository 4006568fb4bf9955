//! An operation whose answers are filled in.

ghost use Rattle.std.specs.Prelude.{◌≡◌, ℕ, ◌*◌, ◌<◌, ◌≤◌, length, slice_index};

use mvl::radix::Radix;

/// The answer for the pair (a, b) stands at byte radix × a + b; all are 0 until they are filled, and those past radix × radix stay so.
// An array beside the radix: an operation is held by value, and asks for no memory.
#[derive(Clone, Copy)]
pub struct TableOperation {
    pub(crate) radix: Radix,
    pub(crate) bytes: [u8; 16],
    ghost long: { length bytes ≡ 16 },
    ghost within: { (x : ℕ) → slice_index bytes x < radix.value },
    ghost padded: { (x : ℕ) → radix.value * radix.value ≤ x → slice_index bytes x ≡ 0 },
}
