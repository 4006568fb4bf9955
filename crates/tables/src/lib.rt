//! Tables of reduced ordered decision diagrams.
//!
//! `parts` is plain data with invariants: edges, nodes, the card, the store of the nodes. `engine` works on the parts, and its functions
//! require what the caller has tested. `calls` requires nothing: what is handed in is tested, and refused by number.

#![tactic(auto)]

pub mod calls;
mod engine;
pub mod parts;
