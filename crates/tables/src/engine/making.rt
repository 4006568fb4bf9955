//! A node is made: normalised, looked up, added where it is missing.

ghost use Rattle.diagrams.specs.Make.{Asks};
ghost use Rattle.tables.specs.Edges.{arrows};
ghost use Rattle.tables.specs.Cards.{shape_of};
ghost use Rattle.tables.specs.Did.{meaning_of, nodes_of};
ghost use Rattle.tables.specs.Makes.{MakesNode};

use crate::engine::labels::inverse;
use crate::engine::rows::{alike, turned};
use crate::parts::edge::Edge;
use crate::parts::holding::Diagrams;
use crate::parts::key::Key;
use crate::parts::target::Target;
use mvl::refusal::Refusal;

impl Diagrams {
    /// The edge to what reads `edges` at the values of `x`.
    pub(crate) fn make(&mut self, x: u8, edges: [Edge; 4]) -> Result<Edge, Refusal>
        requires { Asks (meaning_of self.old) (shape_of self.old.card) (nodes_of self.old) x (arrows edges) }
        ensures { MakesNode self.old x edges result self.new }
    {
        let size = self.card.sizes[x as usize];
        if alike(edges, size) {
            return Ok(edges[0]);
        }
        let label = edges[0].label();
        let normal = turned(&self.chart, inverse(&self.chart, label), edges, size);
        let key = Key {
            variable: x,
            edges: normal,
        };
        if let Some(r) = self.store.find(key) {
            return Ok(Edge::to(label, Target::Node(r)));
        }
        let r = self.store.len();
        if r >= self.card.capacity {
            return Err(Refusal::NoRoom);
        }
        self.store.push(key);
        Ok(Edge::to(label, Target::Node(r)))
    }
}
