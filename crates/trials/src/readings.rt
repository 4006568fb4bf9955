//! Evaluations, with good and bad arguments.

use crate::arguments::Handed;
use crate::fault::{Fault, agree, agree_refused};
use crate::function::Function;
use crate::trial::Trial;
use mvl::labelling::Labelling;
use mvl::refusal::Refusal;
use tables::calls::reading::Reading;

impl<L: Labelling + Copy> Trial<'_, L> {
    pub(crate) fn play_evaluate(&mut self) -> Result<(), Fault> {
        let e = self.some_edge();
        let i = self.random.below(self.model.shape.count());
        let mut bytes = self.model.shape.bytes(i);
        let n = if self.random.once_in(6) {
            self.random.below(5)
        } else {
            self.model.shape.n
        };
        if self.random.once_in(6) {
            let x = self.random.below(4);
            bytes[x] = self.random.byte(6);
        }
        let assignment = &bytes[..n];
        let judged = self.judge_evaluate(&e, assignment);
        let found = self.table.evaluate(e.edge, assignment);
        self.settle_reading(judged, assignment, found)
    }

    // The function that is read.
    fn judge_evaluate(&self, e: &Handed, assignment: &[u8]) -> Result<Function, Refusal> {
        let f = e.function.ok_or(Refusal::NoEdge)?;
        let sizes = self.model.shape.sizes();
        if assignment.len() != sizes.len() {
            return Err(Refusal::WrongLength);
        }
        if assignment
            .iter()
            .zip(sizes)
            .any(|(value, size)| value >= size)
        {
            return Err(Refusal::NoValue);
        }
        Ok(f)
    }

    fn settle_reading(
        &mut self,
        judged: Result<Function, Refusal>,
        assignment: &[u8],
        found: Result<Reading, Refusal>,
    ) -> Result<(), Fault> {
        agree_refused("an evaluation is refused with", judged.err(), found.err())?;
        match (judged, found) {
            (Ok(f), Ok(reading)) => {
                self.tally.grant();
                self.compare(&f, assignment, &reading)?;
            }
            (Err(refusal), _) | (_, Err(refusal)) => self.tally.refuse(refusal),
        }
        self.read_some()
    }

    fn compare(&self, f: &Function, assignment: &[u8], reading: &Reading) -> Result<(), Fault> {
        let shape = &self.model.shape;
        let i = shape.index(assignment);
        agree(
            "the value",
            usize::from(f.at(i)),
            usize::from(reading.value),
        )?;
        agree(
            "the nodes on the path",
            usize::from(f.visits(shape).at(i)),
            usize::from(reading.visited),
        )
    }
}
