//! The store of a table.

ghost use Rattle.std.specs.Prelude.{◌≡◌, ◌≤◌, length, vec_len, vec_capacity, vec_items};
ghost use Rattle.tables.specs.Chains.{Chained};
ghost use Rattle.tables.specs.Unique.{Chained-prop};

use crate::parts::link::Link;
use crate::parts::node::Node;

/// The records of the nodes, in memory that is reserved when the table is opened, and the heads of the chains by which they are found.
// Records named by number, and no boxes: a rule of the project wants them in a plain store, and a node's number is part of its edge's.
// A limit beside the Vec, which may have more room: by it the store's own invariant says how many records there may be, and each method that
// it stays.
#[derive(Drop)]
pub(crate) struct Store {
    pub(crate) nodes: Vec<Node>,
    pub(crate) heads: [Link; 1024],
    pub(crate) limit: usize,
    ghost within: { vec_len nodes ≤ limit },
    ghost wide: { length heads ≡ 1024 },
    ghost room: { limit ≤ vec_capacity nodes },
    ghost chained: { Chained (vec_items nodes) heads } by { Chained-prop (vec_items nodes) heads },
}
