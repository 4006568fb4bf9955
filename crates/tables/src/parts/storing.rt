//! A store is opened, read, added to and cut.

ghost use Rattle.std.specs.Prelude.{◌≡◌, ◌-◌, ◌<◌, ◌≤◌, [], ◌∷◌, ◌++◌, length, take, IfOk, slice_index_or};
ghost use Rattle.tables.specs.Records.{at, none, hash_of};
ghost use Rattle.tables.specs.Stores.{items, Opened};

use crate::parts::key::Key;
use crate::parts::link::Link;
use crate::parts::node::Node;
use crate::parts::store::Store;
use std::alloc::{AllocError, Global};

impl Store {
    pub(crate) fn open(heap: Global, limit: usize) -> Result<Store, AllocError>
        ensures { IfOk result (λ s. Opened limit s) }
    {
        let nodes = Vec::with_capacity(heap, limit)?;
        let heads = [Link::NONE; 1024];
        Ok(Store {
            nodes,
            heads,
            limit,
        })
    }

    pub(crate) fn len(&self) -> usize
        ensures { result ≡ length (items self.now) }
    {
        self.nodes.len()
    }

    pub(crate) fn read(&self, i: usize) -> Node
        requires { i < length (items self.now) }
        ensures { result ≡ at (items self.now) i }
    {
        self.nodes[i]
    }

    /// The key of a record.
    pub(crate) fn key(&self, i: usize) -> &Key
        requires { i < length (items self.now) }
        ensures { result.now ≡ (at (items self.now) i).key }
    {
        &self.nodes[i].key
    }

    /// One record more, at the head of its chain.
    pub(crate) fn push(&mut self, key: Key)
        requires room { length (items self.old) < self.old.limit }
        requires small { self.old.limit ≤ 2000 }
        ensures limit { self.new.limit ≡ self.old.limit }
        ensures items { items self.new ≡ items self.old ++ record { key = key; next = slice_index_or self.old.heads (hash_of key) none } ∷ [] }
    {
        let h = key.hash();
        let next = self.heads[h];
        self.heads[h] = Link::new(self.nodes.len());
        self.nodes.push_reserved(Node { key, next });
    }

    // Read and cut off: `Vec::pop` would leave a case that cannot be.
    /// The last record, taken back.
    fn pop(&mut self)
        requires { 0 < length (items self.old) }
        ensures limit { self.new.limit ≡ self.old.limit }
        ensures items { items self.new ≡ take (length (items self.old) - 1) (items self.old) }
    {
        let r = self.nodes.len() - 1;
        let node = self.read(r);
        let h = node.key.hash();
        self.heads[h] = node.next;
        self.nodes.truncate(r);
    }

    /// The records from the end, taken back to a length.
    pub(crate) fn cut(&mut self, len: usize)
        requires { len ≤ length (items self.old) }
        ensures limit { self.new.limit ≡ self.old.limit }
        ensures items { items self.new ≡ take len (items self.old) }
    {
        // A range would count numbers that are not used.
        while self.len() > len {
            self.pop();
        }
    }
}
