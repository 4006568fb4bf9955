//! The record of a node.

use crate::parts::key::Key;
use crate::parts::link::Link;

/// A node, in its chain.
#[derive(Clone, Copy)]
pub(crate) struct Node {
    pub(crate) key: Key,
    pub(crate) next: Link,
}
