//! An operation applied to the two edges of every task.

ghost use Rattle.diagrams.specs.Walk.{applies};
ghost use Rattle.tables.specs.Walks.{told};

use crate::engine::labels::carry;
use crate::engine::rows::constant_edge;
use crate::engine::settling::Walk;
use crate::engine::task::{Next, Task};
use crate::parts::holding::Diagrams;
use crate::parts::target::Target;

/// The operation's answer for (a, b) is at 4 * a + b.
// An array, as a chart's: it is made once for each walk, without memory.
#[derive(Clone, Copy)]
pub(crate) struct Applying {
    pub(crate) answers: [u8; 16],
}

impl Walk for Applying {
    ghost way = { λ w. applies (told w.answers) };

    // Two terminals give a constant, and else the topmost target's variable is next.
    fn settle(&self, diagrams: &Diagrams, task: Task) -> Next {
        let (Target::Terminal(a), Target::Terminal(b)) = (task.left.target(), task.right.target())
        else {
            let top = diagrams.level(task.left).min(diagrams.level(task.right));
            return Next::Split(diagrams.card.order[top]);
        };
        let a = carry(&diagrams.chart, task.left.label(), a);
        let b = carry(&diagrams.chart, task.right.label(), b);
        Next::Settled(constant_edge(&diagrams.chart, self.answers[(4 * a + b) as usize]))
    }
}
