//! A node is looked up in its chain.

ghost use Rattle.std.specs.Prelude.{◌<◌};
ghost use Rattle.tables.specs.Stores.{items};
ghost use Rattle.tables.specs.Finds.{Finds};

use crate::parts::key::Key;
use crate::parts::store::Store;

impl Store {
    /// The number of the node of this key.
    pub(crate) fn find(&self, key: Key) -> Option<usize>
        ensures { Finds (items self.now) key result }
    {
        // A loop: a chain has no length beforehand.
        let mut link = self.heads[key.hash()];
        while let Some(r) = link.record() {
            let node = self.read(r);
            if node.key == key {
                return Some(r);
            }
            link = node.next;
        }
        None
    }
}
