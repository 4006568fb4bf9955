//! An edge, as one number.

ghost use Rattle.std.specs.Prelude.{◌≡◌, ◌/◌, ◌<◌};
ghost use Rattle.tables.specs.Edges.{arrow, target_of, Numbered};
ghost use Rattle.diagrams.specs.Diagram.{edge_to};

use crate::parts::target::Target;

/// 16,384 times the label, and the target: 0 to 3 are the terminals, 4 + r is node r. Any number makes an edge: whether it is one of a
/// table, each call tests.
#[derive(Clone, Copy, Debug, PartialEq, Eq)]
pub struct Edge {
    pub(crate) word: u16,
}

// Functions with names, as callers know them: a `From` beside each would say the same again.
impl Edge {
    /// Edge 0: what a variable's size leaves unused.
    pub(crate) const UNUSED: Edge = Edge { word: 0 };

    /// The edge of a number.
    pub fn new(number: u16) -> Edge
        ensures { result ≡ record { word = number } }
    {
        Edge { word: number }
    }

    /// The number of an edge.
    pub fn number(self) -> u16
        ensures { result ≡ self.word }
    {
        self.word
    }

    /// The edge of a label to a target.
    pub(crate) fn to(label: u8, target: Target) -> Edge
        requires label { label < 4 }
        requires target { Numbered target }
        ensures { arrow result ≡ edge_to label (target_of target) }
    {
        Edge {
            word: label as u16 * 16384 + target.number(),
        }
    }

    pub(crate) fn label(self) -> u8
        ensures value { result ≡ self.word / 16384 }
        ensures bound { result < 4 }
    {
        (self.number() / 16384) as u8
    }

    pub(crate) fn target(self) -> Target
        ensures value { target_of result ≡ (arrow self).target }
        ensures bound { Numbered result }
    {
        Target::of(self.number() % 16384)
    }
}
