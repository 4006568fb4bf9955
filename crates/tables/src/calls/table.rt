//! A table of decision diagrams over a labelling.

ghost use Rattle.std.specs.Prelude.{◌≡◌, IfOk};
ghost use Rattle.mvl.specs.Clipped.{clipped};
ghost use Rattle.diagrams.specs.Calls.{constant as constantly, variable as varying, literal as choosing, turn as turning, apply as applying, restrict as restricting};
ghost use Rattle.tables.specs.Edges.{arrow};
ghost use Rattle.tables.specs.Did.{meaning_of, table_of, Fresh};
ghost use Rattle.tables.specs.Does.{Does};
ghost use Rattle.tables.specs.Evaluates.{Evaluates};

use crate::calls::reading::Reading;
use crate::parts::card::Card;
use crate::parts::edge::Edge;
use crate::parts::holding::Diagrams;
use mvl::chart::Chart;
use mvl::labelling::Labelling;
use mvl::refusal::Refusal;
use operations::operation::Operation;
use std::alloc::{AllocError, Global};

// Each call is handed on to `Diagrams`, where it is proved: the invariant of a generic owner of memory cannot name what L means.
/// Every function has one edge. What a call refuses it refuses by the smallest number that applies, and leaves the table as it was.
#[derive(Drop)]
pub struct Table<L: Labelling> {
    labelling: L,
    inner: Diagrams,
}

impl<L: Labelling> Table<L> {
    /// An empty table. Want of memory is the one way to fail, and no later call asks for memory.
    pub fn open(heap: Global, card: Card, labelling: L) -> Result<Table<L>, AllocError>
    where
        L: Drop,
        ensures { IfOk result (λ t. (t.labelling ≡ labelling) × (meaning_of t.inner ≡ clipped (L.meaning labelling)) × Fresh card t.inner) }
    {
        let chart = Chart::of(&labelling);
        let inner = Diagrams::open(heap, card, chart)?;
        Ok(Table { labelling, inner })
    }

    /// The edge whose function is `v` everywhere. Refused: 5 where `v` is not below the radix.
    pub fn constant(&mut self, v: u8) -> Result<Edge, Refusal>
        ensures { Does self.old (constantly v) result self.new }
    {
        self.inner.constant(v)
    }

    /// The value of variable `x`. Refused: 4 where there is no such variable, 11 where its size exceeds the radix, 14 where there is no room.
    pub fn variable(&mut self, x: u8) -> Result<Edge, Refusal>
        ensures { Does self.old (varying x) result self.new }
    {
        self.inner.variable(x)
    }

    /// The largest value where variable `x` has value `v`, else 0. Refused: 4, 5 where `v` is not below the size of `x`, 14.
    pub fn literal(&mut self, x: u8, v: u8) -> Result<Edge, Refusal>
        ensures { Does self.old (choosing x v) result self.new }
    {
        self.inner.literal(x, v)
    }

    /// The function of `e` carried by label `k`. Refused: 3 where `e` is no edge of the table, 6 where there is no such label.
    pub fn turn(&mut self, e: Edge, k: u8) -> Result<Edge, Refusal>
        ensures { Does self.old (turning (arrow e) k) result self.new }
    {
        self.inner.turn(e, k)
    }

    /// The operation's answer for the values of `e` and `f`. Refused: 3 for either edge, 8 where the operation's radix is not the table's, 14.
    pub fn apply<O: Operation>(&mut self, operation: &O, e: Edge, f: Edge) -> Result<Edge, Refusal>
        ensures { Does self.old (applying (O.meaning operation.now).radix (O.meaning operation.now).answer (arrow e) (arrow f)) result self.new }
    {
        self.inner.apply(operation, e, f)
    }

    /// The function of `e` with variable `x` fixed at `v`. Refused: 3, 4, 5 where `v` is not below the size of `x`, 14.
    pub fn restrict(&mut self, e: Edge, x: u8, v: u8) -> Result<Edge, Refusal>
        ensures { Does self.old (restricting (arrow e) x v) result self.new }
    {
        self.inner.restrict(e, x, v)
    }

    /// The value of `e` where variable x has the value `assignment[x]`, and the number of nodes on the path. Refused: 3, 7 where there are not
    /// as many bytes as variables, 5 where a byte is not below its variable's size.
    pub fn evaluate(&self, e: Edge, assignment: &[u8]) -> Result<Reading, Refusal>
        ensures { Evaluates (meaning_of self.now.inner) (table_of self.now.inner) (arrow e) assignment.now result }
    {
        self.inner.evaluate(e, assignment)
    }
}
