//! What an evaluation answers.

/// The value of an edge at an assignment, and the number of nodes on the path to it.
#[derive(Clone, Copy, Debug, PartialEq, Eq)]
pub struct Reading {
    pub value: u8,
    pub visited: u8,
}
