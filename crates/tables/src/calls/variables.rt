//! The diagrams of one variable.

ghost use Rattle.diagrams.specs.Calls.{asks, variable as varying, literal as choosing};
ghost use Rattle.tables.specs.Did.{answer_of, Did};

use crate::engine::rows::{chosen, constants};
use crate::parts::edge::Edge;
use crate::parts::holding::Diagrams;
use mvl::refusal::Refusal;

impl Diagrams {
    pub(crate) fn variable(&mut self, x: u8) -> Result<Edge, Refusal>
        ensures { Did self.old (asks (varying x)) (answer_of result) self.new }
    {
        let size = self.size(x)?;
        if size > self.chart.radix {
            return Err(Refusal::TooWide);
        }
        let edges = constants(&self.chart, size);
        self.make(x, edges)
    }

    pub(crate) fn literal(&mut self, x: u8, v: u8) -> Result<Edge, Refusal>
        ensures { Did self.old (asks (choosing x v)) (answer_of result) self.new }
    {
        let size = self.size_above(x, v)?;
        let edges = chosen(&self.chart, v, size);
        self.make(x, edges)
    }
}
