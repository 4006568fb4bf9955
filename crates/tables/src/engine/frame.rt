//! What is left to do of one node.

ghost use Rattle.std.specs.Prelude.{◌<◌};
ghost use Rattle.tables.specs.Walks.{Begins, Extended};

use crate::engine::task::Task;
use crate::parts::edge::Edge;

/// A task, the variable of its node, how many of the node's edges are made, and these: an array with a count, and no `Vec`, since a rule of the
/// project wants walks in fixed memory.
#[derive(Clone, Copy)]
pub(crate) struct Frame {
    pub(crate) task: Task,
    pub(crate) variable: u8,
    pub(crate) done: u8,
    pub(crate) edges: [Edge; 4],
}

impl Frame {
    /// No edge is made yet.
    pub(crate) fn of(task: Task, variable: u8) -> Frame
        ensures { Begins task variable result }
    {
        Frame {
            task,
            variable,
            done: 0,
            edges: [Edge::UNUSED; 4],
        }
    }

    /// One edge more.
    pub(crate) fn add(&mut self, edge: Edge)
        requires { self.old.done < 4 }
        ensures { Extended self.old edge self.new }
    {
        self.edges[self.done as usize] = edge;
        self.done += 1;
    }
}
