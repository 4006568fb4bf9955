//! A table beside its model: what a call answered is compared, and what the table has is read again.

use crate::fault::{Fault, agree, agree_refused, granted};
use crate::function::Function;
use crate::model::{Kept, Model};
use crate::random::Random;
use crate::tally::Tally;
use mvl::labelling::Labelling;
use mvl::refusal::Refusal;
use std::alloc::Global;
use tables::calls::reading::Reading;
use tables::calls::table::Table;
use tables::parts::edge::Edge;

#[derive(Drop)]
pub(crate) struct Trial<'a, L: Labelling> {
    pub(crate) heap: Global,
    pub(crate) labelling: L,
    pub(crate) table: Table<L>,
    pub(crate) model: Model,
    pub(crate) random: &'a mut Random,
    pub(crate) tally: &'a mut Tally,
    /// The number of nodes after some call that added several.
    pub(crate) mark: Option<usize>,
}

impl<L: Labelling> Trial<'_, L> {
    /// What a call answered, against the function that it should have or the reason for which it should be refused. The room is
    /// tested here.
    pub(crate) fn settle(
        &mut self,
        judged: Result<Function, Refusal>,
        found: Result<Edge, Refusal>,
    ) -> Result<(), Fault> {
        match judged {
            Err(refusal) => self.refused(refusal, found),
            Ok(f) => {
                let missing = self.model.missing(self.heap, &f)?;
                let free = self.model.capacity.wrapping_sub(self.model.nodes.len());
                if missing.len() > free {
                    return self.refused(Refusal::NoRoom, found);
                }
                self.granted(f, &missing, found)
            }
        }
    }

    fn refused(&mut self, refusal: Refusal, found: Result<Edge, Refusal>) -> Result<(), Fault> {
        agree_refused("refused with", Some(refusal), found.err())?;
        self.tally.refuse(refusal);
        self.look(&[])
    }

    fn granted(
        &mut self,
        f: Function,
        missing: &[Function],
        found: Result<Edge, Refusal>,
    ) -> Result<(), Fault> {
        let edge = granted("refused with", found)?;
        self.tally.grant();
        self.keep(f, edge)?;
        self.look(missing)?;
        self.decode(f, edge)?;
        if missing.len() > 1 && self.random.once_in(2) {
            self.mark = Some(self.model.nodes.len());
        }
        Ok(())
    }

    // The number of an edge is its label and target, whose function is known by now.
    fn decode(&self, f: Function, edge: Edge) -> Result<(), Fault> {
        let same = self.model.edge(edge.number()) == Some(f);
        agree(
            "label and target lead to the function",
            1,
            usize::from(same),
        )
    }

    // An edge is that of an earlier one exactly where the functions are the same.
    fn keep(&mut self, f: Function, edge: Edge) -> Result<(), Fault> {
        let number = edge.number();
        let earlier = self
            .model
            .kept
            .iter()
            .find(|kept| kept.function == f || kept.number == number);
        match earlier {
            Some(kept) if kept.function == f => agree(
                "the edge of a function",
                usize::from(kept.number),
                usize::from(number),
            ),
            Some(_) => agree("edges of two functions that are one", 0, 1),
            None => {
                let visits = f.visits(&self.model.shape);
                self.model.kept.push(Kept {
                    number,
                    function: f,
                    visits,
                })?;
                Ok(())
            }
        }
    }

    // After a call: the nodes that are new, and everything that was kept.
    fn look(&mut self, missing: &[Function]) -> Result<(), Fault> {
        self.probe(missing)?;
        if self.random.once_in(12) {
            return self.read_all();
        }
        self.read_some()
    }

    // The table has the nodes that it had and those that were missing, and no other.
    fn probe(&mut self, missing: &[Function]) -> Result<(), Fault> {
        let before = self.model.nodes.len();
        for r in 0..self.model.capacity.wrapping_add(2) {
            let here = self.read(edge_of(r), 0).is_ok();
            if self.model.nodes.contains_key(&r) {
                agree("a node stays", 1, usize::from(here))?;
            } else if here {
                self.new_node(r, missing)?;
            }
        }
        agree(
            "nodes added",
            missing.len(),
            self.model.nodes.len().wrapping_sub(before),
        )
    }

    fn new_node(&mut self, r: usize, missing: &[Function]) -> Result<(), Fault> {
        // A loop, and not `Function::of`: a reading may be refused, and `?` ends it.
        let mut function = Function::zero();
        for i in 0..self.model.shape.count() {
            let reading = granted("a node is read", self.read(edge_of(r), i))?;
            function.set(i, reading.value);
        }
        if !missing.contains(&function) || self.model.has(&function) {
            return agree("a node that is not missing is added", 0, 1);
        }
        self.model.nodes.insert(r, function)?;
        Ok(())
    }

    fn read(&self, edge: Edge, i: usize) -> Result<Reading, Refusal> {
        let bytes = self.model.shape.bytes(i);
        self.table.evaluate(edge, &bytes[..self.model.shape.n])
    }

    /// Every kept edge at one assignment.
    pub(crate) fn read_some(&mut self) -> Result<(), Fault> {
        let i = self.random.below(self.model.shape.count());
        self.read_kept(i)
    }

    /// Every kept edge and every node at every assignment.
    pub(crate) fn read_all(&self) -> Result<(), Fault> {
        for i in 0..self.model.shape.count() {
            self.read_kept(i)?;
            self.read_nodes(i)?;
        }
        Ok(())
    }

    // Compared here and where an evaluation is played, each in words of its own.
    fn read_kept(&self, i: usize) -> Result<(), Fault> {
        for kept in self.model.kept.iter() {
            let reading = granted("a kept edge is read", self.read(Edge::new(kept.number), i))?;
            agree(
                "the value of a kept edge",
                usize::from(kept.function.at(i)),
                usize::from(reading.value),
            )?;
            agree(
                "the nodes on its path",
                usize::from(kept.visits.at(i)),
                usize::from(reading.visited),
            )?;
        }
        Ok(())
    }

    fn read_nodes(&self, i: usize) -> Result<(), Fault> {
        for (number, function) in self.model.nodes.iter() {
            let reading = granted("a node is read", self.read(edge_of(*number), i))?;
            agree(
                "the value of a node",
                usize::from(function.at(i)),
                usize::from(reading.value),
            )?;
        }
        Ok(())
    }
}

// The edge with label 0 to node `r`: a target has fourteen bits.
fn edge_of(r: usize) -> Edge {
    Edge::new((r.wrapping_add(4) & 0x3fff) as u16)
}
