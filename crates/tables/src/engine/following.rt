//! Edges of a table are followed.

ghost use Rattle.std.specs.Prelude.{◌≡◌, ◌<◌, slice_index};
ghost use Rattle.diagrams.specs.Diagram.{level as level_of, Of};
ghost use Rattle.diagrams.specs.Walk.{follow, child as child_of};
ghost use Rattle.tables.specs.Cards.{shape_of};
ghost use Rattle.tables.specs.Edges.{arrow};
ghost use Rattle.tables.specs.Did.{meaning_of, nodes_of};
ghost use Rattle.tables.specs.Walks.{task_of, TaskIn};

use crate::engine::rows::turned_edge;
use crate::engine::task::Task;
use crate::parts::edge::Edge;
use crate::parts::holding::Diagrams;
use crate::parts::target::Target;

impl Diagrams {
    /// The place of an edge's target: a terminal stands below every variable, in place n, as the definition has it.
    pub(crate) fn level(&self, e: Edge) -> usize
        requires { Of (meaning_of self.now) (nodes_of self.now) (arrow e) }
        ensures { result ≡ level_of (shape_of self.now.card) (nodes_of self.now) (arrow e).target }
    {
        match e.target() {
            Target::Terminal(_) => self.card.n,
            Target::Node(r) => self.card.place[self.store.key(r).variable as usize] as usize,
        }
    }

    /// The edge where variable `x` has value `i`: a node of `x` is gone through, any other target stays.
    pub(crate) fn branch(&self, x: u8, i: u8, e: Edge) -> Edge
        requires value { i < slice_index self.now.card.sizes x }
        requires of { Of (meaning_of self.now) (nodes_of self.now) (arrow e) }
        ensures { arrow result ≡ follow (meaning_of self.now) (nodes_of self.now) x i (arrow e) }
    {
        let Target::Node(r) = e.target() else {
            return e;
        };
        let key = self.store.key(r);
        if key.variable != x {
            return e;
        }
        turned_edge(&self.chart, e.label(), key.edges[i as usize])
    }

    /// The task where variable `x` has value `i`.
    pub(crate) fn child(&self, task: Task, x: u8, i: u8) -> Task
        requires value { i < slice_index self.now.card.sizes x }
        requires of { TaskIn self.now task }
        ensures { task_of result ≡ child_of (meaning_of self.now) (nodes_of self.now) x i (task_of task) }
    {
        Task {
            left: self.branch(x, i, task.left),
            right: self.branch(x, i, task.right),
        }
    }
}
