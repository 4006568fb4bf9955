//! The tasks of walks.

use crate::parts::edge::Edge;

/// The two edges of a task. A restriction has any edge on the right, and never looks at it.
// One type for all walks: for another each walk would need its own child and its own meaning.
#[derive(Clone, Copy)]
pub(crate) struct Task {
    pub(crate) left: Edge,
    pub(crate) right: Edge,
}

/// What a task comes to: an edge that serves for it, or the variable of the node that it needs.
// No Result and no ControlFlow: neither of the two is an error or a way to go on, and these names say which is which.
#[derive(Clone, Copy)]
pub(crate) enum Next {
    Settled(Edge),
    Split(u8),
}
