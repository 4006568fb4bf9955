//! Apply and restrict, with good and bad arguments.

use crate::arguments::Handed;
use crate::fault::{Fault, agree_refused, granted};
use crate::function::Function;
use crate::meaning::Meaning;
use crate::trial::Trial;
use mvl::labelling::Labelling;
use mvl::refusal::Refusal;
use operations::cyclic_sum::CyclicSum;
use operations::maximum::Maximum;
use operations::minimum::Minimum;
use operations::operation::Operation;
use operations::table_operation::TableOperation;
use operations::truncated_sum::TruncatedSum;
use operations::turned::Turned;

impl<L: Labelling + Copy> Trial<'_, L> {
    pub(crate) fn play_restrict(&mut self) -> Result<(), Fault> {
        let e = self.some_edge();
        let x = self.some_variable();
        let v = self.some_value(x);
        let judged = self.judge_restrict(&e, usize::from(x), v);
        let found = self.table.restrict(e.edge, x, v);
        self.settle(judged, found)
    }

    fn judge_restrict(&self, e: &Handed, x: usize, v: u8) -> Result<Function, Refusal> {
        let f = e.function.ok_or(Refusal::NoEdge)?;
        self.judge_value(x, v)?;
        let shape = &self.model.shape;
        Ok(Function::of(shape, |i| f.at(shape.fixed(i, x, v))))
    }

    /// Any operation, mostly of the table's radix.
    pub(crate) fn play_apply(&mut self) -> Result<(), Fault> {
        let p = if self.random.once_in(12) {
            self.random.byte(3).wrapping_add(2)
        } else {
            self.model.labels.radix
        };
        // By a number that is drawn, each with a type of its own.
        match self.random.below(6) {
            0 => self.operate(Minimum::new(p), Meaning::of(p, |a, b| a.min(b))),
            1 => self.operate(Maximum::new(p), Meaning::of(p, |a, b| a.max(b))),
            2 => self.operate(
                CyclicSum::new(p),
                Meaning::of(p, |a, b| a.wrapping_add(b) % p.max(1)),
            ),
            3 => self.operate(
                TruncatedSum::new(p),
                Meaning::of(p, |a, b| a.wrapping_add(b).min(p.wrapping_sub(1))),
            ),
            _ => self.operate_filled(p),
        }
    }

    // A table operation that is filled with random bytes, at times with too many, too few or too large ones.
    fn operate_filled(&mut self, p: u8) -> Result<(), Fault> {
        let mut table = granted("an operation is refused with", TableOperation::new(p))?;
        let square = usize::from(p).wrapping_mul(usize::from(p));
        let long = self.random.once_in(16);
        let large = self.random.once_in(16);
        let count = square.wrapping_add(usize::from(long));
        let end = p.wrapping_add(u8::from(large));
        let bytes: Vec<u8> = (0..count)
            .map(|_| self.random.byte(end))
            .collect(self.heap)?;
        let judged = judge_fill(p, &bytes);
        let found = table.fill(&bytes);
        agree_refused("a filling is refused with", judged.err(), found.err())?;
        let meaning = judged.unwrap_or(Meaning::of(p, |_, _| 0));
        self.operate(Ok(table), meaning)
    }

    // The operation as it is, or turned. Its meaning goes beside it: each operation has a type of its own, and the model only one for all.
    fn operate<O: Operation + Copy>(
        &mut self,
        made: Result<O, Refusal>,
        meaning: Meaning,
    ) -> Result<(), Fault> {
        let operation = granted("an operation is refused with", made)?;
        if self.random.once_in(3) {
            self.operate_turned(operation, meaning)
        } else {
            self.with(&operation, &meaning)
        }
    }

    fn operate_turned<O: Operation + Copy>(
        &mut self,
        operation: O,
        meaning: Meaning,
    ) -> Result<(), Fault> {
        let labels = self.model.labels.count();
        let g = labels.wrapping_add(u8::from(self.random.once_in(12)));
        let i = self.random.byte(g);
        let j = self.random.byte(g);
        let k = self.random.byte(g);
        let judged = self.judge_set(&meaning, i, j, k);
        let mut turned = Turned::new(operation, self.labelling);
        let found = turned.set(i, j, k);
        agree_refused("a setting is refused with", judged.err(), found.err())?;
        self.with(&turned, &judged.unwrap_or(meaning))
    }

    fn judge_set(&self, meaning: &Meaning, i: u8, j: u8, k: u8) -> Result<Meaning, Refusal> {
        let labels = &self.model.labels;
        if i.max(j).max(k) >= labels.count() {
            return Err(Refusal::NoLabel);
        }
        if meaning.radix != labels.radix {
            return Err(Refusal::WrongRadix);
        }
        Ok(meaning.turned(labels, i, j, k))
    }

    // One apply.
    fn with<O: Operation>(&mut self, operation: &O, meaning: &Meaning) -> Result<(), Fault> {
        let e = self.some_edge();
        let f = self.some_edge();
        let judged = self.judge_apply(meaning, &e, &f);
        let found = self.table.apply(operation, e.edge, f.edge);
        self.settle(judged, found)
    }

    fn judge_apply(&self, meaning: &Meaning, e: &Handed, f: &Handed) -> Result<Function, Refusal> {
        let (Some(a), Some(b)) = (e.function, f.function) else {
            return Err(Refusal::NoEdge);
        };
        if meaning.radix != self.model.labels.radix {
            return Err(Refusal::WrongRadix);
        }
        Ok(meaning.combined(&self.model.shape, &a, &b))
    }
}

// The meaning of a table operation that is filled with some bytes.
fn judge_fill(p: u8, bytes: &[u8]) -> Result<Meaning, Refusal> {
    if bytes.len() != usize::from(p).wrapping_mul(usize::from(p)) {
        return Err(Refusal::WrongLength);
    }
    if bytes.iter().any(|byte| *byte >= p) {
        return Err(Refusal::NoValue);
    }
    Ok(Meaning::of(p, |a, b| {
        let i = usize::from(p)
            .wrapping_mul(usize::from(a))
            .wrapping_add(usize::from(b));
        bytes.get(i).copied().unwrap_or(0)
    }))
}
