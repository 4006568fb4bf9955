//! The card of a table.

ghost use Rattle.std.specs.Prelude.{◌≤◌};
ghost use Rattle.tables.specs.Orders.{Undoes, Sized};

/// The variables, from 1 to 12, each of size 2 to 4, the place of each in the order and the variable of each place, and how many nodes the
/// table may have, at most 2,000.
// Rows side by side, with their length: a rule of the project wants a card by value, with order and place as rows that undo one another.
#[derive(Clone, Copy)]
pub struct Card {
    pub(crate) order: [u8; 12],
    pub(crate) place: [u8; 12],
    pub(crate) sizes: [u8; 12],
    pub(crate) n: usize,
    pub(crate) capacity: usize,
    ghost some: { 1 ≤ n },
    ghost few: { n ≤ 12 },
    ghost room: { capacity ≤ 2000 },
    ghost placed: { Undoes n order place },
    ghost ordered: { Undoes n place order },
    ghost sized: { Sized n sizes },
}
