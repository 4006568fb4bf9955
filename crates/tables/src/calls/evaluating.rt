//! The value of an edge at an assignment.

ghost use Rattle.std.specs.Prelude.{◌≡◌, ◌≤◌, length};
ghost use Rattle.diagrams.specs.Shape.{Assignment};
ghost use Rattle.diagrams.specs.Diagram.{value as valued, visits, Over};
ghost use Rattle.tables.specs.Edges.{arrow};
ghost use Rattle.tables.specs.Cards.{shape_of};
ghost use Rattle.tables.specs.Did.{meaning_of, nodes_of, table_of};
ghost use Rattle.tables.specs.Evaluates.{assigned, Allows, Evaluates};

use crate::calls::reading::Reading;
use crate::engine::labels::{carry, product};
use crate::parts::edge::Edge;
use crate::parts::holding::Diagrams;
use crate::parts::target::Target;
use mvl::refusal::Refusal;

impl Diagrams {
    fn follow(&self, e: Edge, assignment: &[u8]) -> Reading
        requires over { Over (meaning_of self.now) (nodes_of self.now) (arrow e) }
        requires length { length assignment.now ≡ self.now.card.n }
        requires assigns { Assignment (shape_of self.now.card) (assigned assignment.now) }
        ensures value { result.value ≡ valued (meaning_of self.now) (shape_of self.now.card) (nodes_of self.now) (arrow e) (assigned assignment.now) }
        ensures visited { result.visited ≡ visits (nodes_of self.now) self.now.card.n (arrow e).target (assigned assignment.now) }
        ensures bound { result.visited ≤ self.now.card.n }
    {
        let mut label = e.label();
        let mut target = e.target();
        let mut visited = 0u8;
        // A loop that counts: a path has no length beforehand, and how many nodes it has is part of the answer.
        loop {
            match target {
                Target::Terminal(v) => {
                    let value = carry(&self.chart, label, v);
                    return Reading { value, visited };
                }
                Target::Node(r) => {
                    let key = self.store.key(r);
                    let value = assignment[key.variable as usize];
                    let edge = key.edges[value as usize];
                    label = product(&self.chart, label, edge.label());
                    target = edge.target();
                    visited += 1;
                }
            }
        }
    }

    // Whether each value is below the size of its variable.
    fn allows(&self, assignment: &[u8]) -> bool
        requires { length assignment.now ≡ self.now.card.n }
        ensures { Allows self.now.card assignment.now result }
    {
        // As many sizes as variables: with all twelve the test was not inlined, and a reading took a seventh longer.
        assignment
            .iter()
            .zip(&self.card.sizes[..self.card.n])
            .all(|(value, size)| value < size)
    }

    pub(crate) fn evaluate(&self, e: Edge, assignment: &[u8]) -> Result<Reading, Refusal>
        ensures { Evaluates (meaning_of self.now) (table_of self.now) (arrow e) assignment.now result }
    {
        self.known(e)?;
        if assignment.len() != self.card.n {
            return Err(Refusal::WrongLength);
        }
        if !self.allows(assignment) {
            return Err(Refusal::NoValue);
        }
        Ok(self.follow(e, assignment))
    }
}
