//! The left edge of every task restricted to a value of a variable.

ghost use Rattle.diagrams.specs.Walk.{restricts};

use crate::engine::settling::Walk;
use crate::engine::task::{Next, Task};
use crate::parts::holding::Diagrams;

/// The variable, and its value.
#[derive(Clone, Copy)]
pub(crate) struct Restricting {
    pub(crate) variable: u8,
    pub(crate) value: u8,
}

impl Walk for Restricting {
    ghost way = { λ w. restricts w.variable w.value };

    // An edge that leads to a node of the variable or below it is followed, and else its target's variable is next.
    fn settle(&self, diagrams: &Diagrams, task: Task) -> Next {
        let top = diagrams.level(task.left);
        if top < diagrams.card.place[self.variable as usize] as usize {
            return Next::Split(diagrams.card.order[top]);
        }
        Next::Settled(diagrams.branch(self.variable, self.value, task.left))
    }
}
