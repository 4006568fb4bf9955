//! The calls that are played, with good and bad arguments.

use crate::fault::Fault;
use crate::function::Function;
use crate::trial::Trial;
use mvl::labelling::Labelling;
use mvl::refusal::Refusal;

impl<L: Labelling + Copy> Trial<'_, L> {
    /// Calls in a row, and then everything is read once more.
    pub(crate) fn run(&mut self) -> Result<(), Fault> {
        let calls = self.random.below(120).wrapping_add(20);
        for _ in 0..calls {
            self.play()?;
        }
        self.read_all()
    }

    // By a number that is drawn, of which each call has a range: the ranges weigh them. Each call draws, judges and asks by itself, since all
    // have other arguments; what they share is `settle`.
    fn play(&mut self) -> Result<(), Fault> {
        match self.random.below(32) {
            0 => self.play_constant(),
            1..=2 => self.play_variable(),
            3..=6 => self.play_literal(),
            7..=8 => self.play_turn(),
            9..=10 => self.play_evaluate(),
            11..=14 => self.play_restrict(),
            _ => self.play_apply(),
        }
    }

    fn play_constant(&mut self) -> Result<(), Fault> {
        let p = self.model.labels.radix;
        let v = self.random.byte(p.wrapping_add(2));
        let judged = if v >= p {
            Err(Refusal::NoValue)
        } else {
            Ok(Function::constant(&self.model.shape, v))
        };
        let found = self.table.constant(v);
        self.settle(judged, found)
    }

    fn play_variable(&mut self) -> Result<(), Fault> {
        let x = self.some_variable();
        let judged = self.judge_variable(usize::from(x));
        let found = self.table.variable(x);
        self.settle(judged, found)
    }

    fn judge_variable(&self, x: usize) -> Result<Function, Refusal> {
        let shape = &self.model.shape;
        if self.judge_size(x)? > usize::from(self.model.labels.radix) {
            return Err(Refusal::TooWide);
        }
        Ok(Function::of(shape, |i| shape.digit(i, x)))
    }

    // The size of a variable, if there is one.
    fn judge_size(&self, x: usize) -> Result<usize, Refusal> {
        if x >= self.model.shape.n {
            return Err(Refusal::NoVariable);
        }
        Ok(self.model.shape.size(x))
    }

    /// Whether there is such a variable, and then whether it has such a value.
    pub(crate) fn judge_value(&self, x: usize, v: u8) -> Result<(), Refusal> {
        if usize::from(v) >= self.judge_size(x)? {
            return Err(Refusal::NoValue);
        }
        Ok(())
    }

    fn play_literal(&mut self) -> Result<(), Fault> {
        let x = self.some_variable();
        let v = self.some_value(x);
        let judged = self.judge_literal(usize::from(x), v);
        let found = self.table.literal(x, v);
        self.settle(judged, found)
    }

    fn judge_literal(&self, x: usize, v: u8) -> Result<Function, Refusal> {
        self.judge_value(x, v)?;
        let shape = &self.model.shape;
        let top = self.model.labels.radix.wrapping_sub(1);
        Ok(Function::of(shape, |i| { if shape.digit(i, x) == v { top } else { 0 } }))
    }

    fn play_turn(&mut self) -> Result<(), Fault> {
        let e = self.some_edge();
        let k = self.some_label();
        let judged = match e.function {
            None => Err(Refusal::NoEdge),
            Some(_) if k >= self.model.labels.count() => Err(Refusal::NoLabel),
            Some(f) => Ok(f.carried(&self.model.shape, &self.model.labels, k)),
        };
        let found = self.table.turn(e.edge, k);
        self.settle(judged, found)
    }
}
