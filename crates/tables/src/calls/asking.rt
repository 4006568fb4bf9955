//! Opening, and the calls that make no node.

ghost use Rattle.std.specs.Prelude.{◌≡◌, IfOk};
ghost use Rattle.diagrams.specs.Calls.{asks, constant as constantly, turn as turning};
ghost use Rattle.diagrams.specs.Refusals.{is_edge};
ghost use Rattle.tables.specs.Edges.{arrow};
ghost use Rattle.tables.specs.Did.{meaning_of, nodes_of, answer_of, Did, Opens};

use crate::engine::labels::home;
use crate::engine::rows::{constant_edge, turned_edge};
use crate::parts::card::Card;
use crate::parts::edge::Edge;
use crate::parts::holding::Diagrams;
use crate::parts::store::Store;
use crate::parts::target::Target;
use mvl::chart::Chart;
use mvl::refusal::Refusal;
use std::alloc::{AllocError, Global};

impl Diagrams {
    pub(crate) fn open(heap: Global, card: Card, chart: Chart) -> Result<Diagrams, AllocError>
        ensures { IfOk result (λ d. Opens chart card d) }
    {
        let store = Store::open(heap, card.capacity)?;
        Ok(Diagrams { chart, card, store })
    }

    /// Whether an edge is one of the table.
    pub(crate) fn has(&self, e: Edge) -> bool
        ensures { result ≡ is_edge (meaning_of self.now) (nodes_of self.now) (arrow e) }
    {
        if e.label() >= self.chart.labels {
            return false;
        }
        match e.target() {
            Target::Terminal(v) => v < self.chart.radix && home(&self.chart, v) == v,
            Target::Node(r) => r < self.store.len(),
        }
    }

    pub(crate) fn constant(&mut self, v: u8) -> Result<Edge, Refusal>
        ensures { Did self.old (asks (constantly v)) (answer_of result) self.new }
    {
        if v >= self.chart.radix {
            return Err(Refusal::NoValue);
        }
        Ok(constant_edge(&self.chart, v))
    }

    pub(crate) fn turn(&mut self, e: Edge, k: u8) -> Result<Edge, Refusal>
        ensures { Did self.old (asks (turning (arrow e) k)) (answer_of result) self.new }
    {
        self.known(e)?;
        if k >= self.chart.labels {
            return Err(Refusal::NoLabel);
        }
        Ok(turned_edge(&self.chart, k, e))
    }
}
