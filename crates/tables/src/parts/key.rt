//! What a node is known by.

ghost use Rattle.std.specs.Prelude.{◌≡◌, ◌<◌};
ghost use Rattle.tables.specs.Records.{hash_of};

use crate::parts::edge::Edge;

/// A variable, and an edge for each value of it. The edges beyond are edge 0, so that equal nodes have equal keys.
// An array, though a variable may have fewer values: records are of one length, in memory that is reserved when the table is opened.
#[derive(Clone, Copy, PartialEq, Eq)]
pub(crate) struct Key {
    pub(crate) variable: u8,
    pub(crate) edges: [Edge; 4],
}

impl Key {
    // Written out: the definition of the chain is this formula.
    /// Its chain: the middle bits of a sum of products with odd numbers of 26 bits, so that each bit of a word can move each bit.
    pub(crate) fn hash(self) -> usize
        ensures value { result ≡ hash_of self }
        ensures bound { result < 1024 }
    {
        let a = self.edges[0].word as u64 * 52711627 + self.edges[1].word as u64 * 36174071;
        let b = self.edges[2].word as u64 * 61845893 + self.edges[3].word as u64 * 45019357;
        ((self.variable as u64 * 40503459 + (a + b)) / 65536 % 1024) as usize
    }
}
