//! An operation applied to two edges, and an edge restricted.

ghost use Rattle.diagrams.specs.Calls.{asks, apply as applying, restrict as restricting};
ghost use Rattle.tables.specs.Edges.{arrow};
ghost use Rattle.tables.specs.Did.{answer_of, Did};
ghost use Rattle.tables.specs.Walks.{WalkIn, TaskIn, Walked};

use crate::engine::answering::answers_of;
use crate::engine::applying::Applying;
use crate::engine::restricting::Restricting;
use crate::engine::settling::Walk;
use crate::engine::task::Task;
use crate::parts::edge::Edge;
use crate::parts::holding::Diagrams;
use mvl::refusal::Refusal;
use operations::operation::Operation;

impl Diagrams {
    // The edge of a task. Where there is no room for it, what was added is taken back.
    fn walk<W: Walk>(&mut self, walk: &W, task: Task) -> Result<Edge, Refusal>
        requires fair { WalkIn self.old (W.way walk.now) }
        requires of { TaskIn self.old task }
        ensures { Walked self.old (W.way walk.now) task result self.new }
    {
        let before = self.store.len();
        let walked = self.try_walk(walk, task);
        if walked.is_err() {
            self.store.cut(before);
        }
        walked
    }

    pub(crate) fn apply<O: Operation>(
        &mut self,
        operation: &O,
        e: Edge,
        f: Edge,
    ) -> Result<Edge, Refusal>
        ensures { Did self.old (asks (applying (O.meaning operation.now).radix (O.meaning operation.now).answer (arrow e) (arrow f))) (answer_of result) self.new }
    {
        self.fit(operation.radix(), e, f)?;
        let answers = answers_of(operation);
        self.walk(&Applying { answers }, Task { left: e, right: f })
    }

    pub(crate) fn restrict(&mut self, e: Edge, x: u8, v: u8) -> Result<Edge, Refusal>
        ensures { Did self.old (asks (restricting (arrow e) x v)) (answer_of result) self.new }
    {
        self.known(e)?;
        self.size_above(x, v)?;
        let walk = Restricting {
            variable: x,
            value: v,
        };
        self.walk(&walk, Task { left: e, right: e })
    }
}
