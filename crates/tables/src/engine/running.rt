//! A walk, with a stack.

ghost use Rattle.tables.specs.Walks.{WalkIn, TaskIn, SplitsAt, Walks};

use crate::engine::frame::Frame;
use crate::engine::settling::Walk;
use crate::engine::task::{Next, Task};
use crate::parts::edge::Edge;
use crate::parts::holding::Diagrams;
use mvl::refusal::Refusal;

impl Diagrams {
    // The frame at the top makes its next edge, or the node of all its edges, which is then the next edge of the frame below. A frame above
    // another is of a variable below the other's, so that twelve are enough.
    // A loop over a plain stack, and neither recursion nor a `Vec`: a rule of the project wants walks in fixed memory.
    fn run<W: Walk>(&mut self, walk: &W, task: Task, variable: u8) -> Result<Edge, Refusal>
        requires fair { WalkIn self.old (W.way walk.now) }
        requires splits { SplitsAt self.old (W.way walk.now) task variable }
        ensures { Walks self.old (W.way walk.now) task result self.new }
    {
        let mut frames = [Frame::of(task, variable); 12];
        let mut k = 0usize;
        loop {
            let top = frames[k];
            if top.done < self.card.sizes[top.variable as usize] {
                let next = self.child(top.task, top.variable, top.done);
                match walk.settle(self, next) {
                    Next::Settled(r) => frames[k].add(r),
                    Next::Split(y) => {
                        k += 1;
                        frames[k] = Frame::of(next, y);
                    }
                }
            } else {
                let made = self.make(top.variable, top.edges)?;
                if k == 0 {
                    return Ok(made);
                }
                k -= 1;
                frames[k].add(made);
            }
        }
    }

    /// The edge of a task. Where there is no room for it, nodes may have been added all the same.
    pub(crate) fn try_walk<W: Walk>(&mut self, walk: &W, task: Task) -> Result<Edge, Refusal>
        requires fair { WalkIn self.old (W.way walk.now) }
        requires of { TaskIn self.old task }
        ensures { Walks self.old (W.way walk.now) task result self.new }
    {
        match walk.settle(self, task) {
            Next::Settled(r) => Ok(r),
            Next::Split(y) => self.run(walk, task, y),
        }
    }
}
