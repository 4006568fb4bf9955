//! The parts of a table.

pub mod card;
pub(crate) mod cards;
pub mod edge;
pub(crate) mod finding;
pub(crate) mod holding;
pub(crate) mod key;
pub(crate) mod link;
pub(crate) mod node;
pub(crate) mod store;
pub(crate) mod storing;
pub(crate) mod target;
