//! Truth tables, and the node functions that a diagram of one has.

ghost use Rattle.std.specs.Prelude.{◌≡◌};

use crate::labels::Labels;
use crate::shape::Shape;

/// The value at each assignment, and 0 behind them.
// An array that reads 0 beyond its end: a Vec would make each of the many copies a call that can fail, and an index would have to be shown to fit.
// The shape is handed in: a function that held it would be copied and compared with it.
#[derive(Clone, Copy, PartialEq, Eq)]
pub(crate) struct Function {
    values: [u8; 256],
}

impl Function {
    pub(crate) fn zero() -> Function {
        Function { values: [0; 256] }
    }

    /// By the value at each assignment.
    pub(crate) fn of<F: Fn(usize) -> u8>(shape: &Shape, value: F) -> Function
        requires { F.IsAlwaysCallable value }
    {
        let mut function = Function::zero();
        // A loop: `array::from_fn` would ask at all 256 places, and most shapes have far fewer assignments.
        for (place, i) in function.values.iter_mut().zip(0..shape.count()) {
            *place = value(i);
        }
        function
    }

    pub(crate) fn constant(shape: &Shape, v: u8) -> Function {
        Function::of(shape, |_| v)
    }

    pub(crate) fn at(&self, i: usize) -> u8 {
        self.values.get(i).copied().unwrap_or(0)
    }

    pub(crate) fn set(&mut self, i: usize, v: u8) {
        if let Some(value) = self.values.get_mut(i) {
            *value = v;
        }
    }

    /// Each value carried by label `k`.
    pub(crate) fn carried(&self, shape: &Shape, labels: &Labels, k: u8) -> Function {
        Function::of(shape, |i| labels.carry(k, self.at(i)))
    }

    // A subfunction is named by its place and start here, below and in the model: a type of these two would read no plainer.
    /// Whether the subfunction from place `x` on that begins at assignment `start` depends on the variable of that place.
    pub(crate) fn depends(&self, shape: &Shape, x: usize, start: usize) -> bool {
        let below = shape.width(x.wrapping_add(1));
        (below..shape.width(x)).any(|i| {
            self.at(start.wrapping_add(i)) != self.at(start.wrapping_add(i % below))
        })
    }

    /// The function of the node that stands for that subfunction: carried by the label that leaves the least value at assignment 0.
    pub(crate) fn node(&self, shape: &Shape, labels: &Labels, x: usize, start: usize) -> Function {
        let width = shape.width(x);
        let k = labels.homing(self.at(start)).unwrap_or(0);
        Function::of(shape, |i| {
            labels.carry(k, self.at(start.wrapping_add(i % width)))
        })
    }

    /// For each assignment the number of places at which the subfunction on its path depends on the variable.
    pub(crate) fn visits(&self, shape: &Shape) -> Function {
        let mut visits = Function::zero();
        for x in 0..shape.n {
            self.visit(&mut visits, shape, x);
        }
        visits
    }

    // One more at each assignment whose subfunction at place `x` depends on the variable: tested once for all that share it.
    fn visit(&self, visits: &mut Function, shape: &Shape, x: usize) {
        let width = shape.width(x);
        for (block, values) in visits.values.chunks_mut(width).enumerate() {
            let start = block.wrapping_mul(width);
            if start < shape.count() && self.depends(shape, x, start) {
                for visited in values {
                    *visited = visited.wrapping_add(1);
                }
            }
        }
    }
}
