//! The calls of a table.

pub(crate) mod asking;
pub(crate) mod evaluating;
pub mod reading;
pub mod table;
pub(crate) mod testing;
pub(crate) mod variables;
pub(crate) mod walks;
