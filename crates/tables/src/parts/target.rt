//! What an edge leads to, and the number that stands for it in an edge.

ghost use Rattle.std.specs.Prelude.{◌≡◌, ◌<◌};
ghost use Rattle.tables.specs.Edges.{goal, target_of, Numbered};

/// A value, or a node.
// An enum has no ghost field: the functions that code it say and ask that it has a number (`Numbered`).
#[derive(Clone, Copy)]
pub(crate) enum Target {
    Terminal(u8),
    Node(usize),
}

impl Target {
    /// The target of a number.
    pub(crate) fn of(number: u16) -> Target
        requires { number < 16384 }
        ensures value { target_of result ≡ goal number }
        ensures bound { Numbered result }
    {
        if number < 4 {
            Target::Terminal(number as u8)
        } else {
            Target::Node((number - 4) as usize)
        }
    }

    /// Its number.
    pub(crate) fn number(self) -> u16
        requires { Numbered self }
        ensures value { goal result ≡ target_of self }
        ensures bound { result < 16384 }
    {
        match self {
            Target::Terminal(v) => v as u16,
            Target::Node(r) => (r + 4) as u16,
        }
    }
}
