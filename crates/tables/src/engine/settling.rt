//! What a walk does with a task.

ghost use Rattle.diagrams.specs.Walk.{Walk as Way};
ghost use Rattle.tables.specs.Walks.{WalkIn, TaskIn, ComesTo};

use crate::engine::task::{Next, Task};
use crate::parts::holding::Diagrams;

/// What is done to the edges of every task.
pub(crate) trait Walk {
    /// The walk of the theory.
    ghost way: { Self → Way };

    // Each of the two is a fact of a table together with a walk or a task, so that no type of one of them can hold it.
    /// An edge that serves for the task, or the variable at which it is taken apart.
    fn settle(&self, diagrams: &Diagrams, task: Task) -> Next
        requires fair { WalkIn diagrams.now (way self.now) }
        requires of { TaskIn diagrams.now task }
        ensures { ComesTo diagrams.now (way self.now) task result };
}
