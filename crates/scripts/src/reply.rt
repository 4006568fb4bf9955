//! What a command is answered, and what it may lack.

use crate::grid::Grid;
use mvl::refusal::Refusal;

/// What a command is answered.
// A Result in each of three: the other two are never refused.
#[derive(Clone, Copy)]
pub enum Reply {
    /// To a choice, a fill or a turn.
    Done(Result<(), Refusal>),
    /// To a question for a value or a label.
    Answer(Result<u8, Refusal>),
    /// To `tell`.
    Told(Result<Option<u8>, Refusal>),
    /// To `values` and `labels`.
    Shown(Grid),
    /// To `say`.
    Said,
}

/// What has to be at hand for a command, and is not.
#[derive(Clone, Copy, Debug, PartialEq, Eq)]
pub enum Missing {
    Labelling,
    Operation,
    /// A table operation that is not turned.
    Table,
    /// An operation that is not turned.
    Unturned,
}
