//! The variables, and their assignments by number.

ghost use Rattle.std.specs.Prelude.{◌<◌, ◌≤◌};

use std::array;

/// The number of variables, at most 4, and the size of each.
// An array: a Vec would make each copy a call that can fail.
#[derive(Clone, Copy)]
pub(crate) struct Shape {
    pub(crate) n: usize,
    pub(crate) sizes: [u8; 4],
    ghost few: { n ≤ 4 },
}

impl Shape {
    /// The size of each variable.
    pub(crate) fn sizes(&self) -> &[u8] {
        &self.sizes[..self.n]
    }

    /// The size of variable `x`; 1 where there is none, so that a width goes on.
    pub(crate) fn size(&self, x: usize) -> usize
        ensures some { 0 < result }
        ensures byte { result < 256 }
    {
        self.sizes()
            .get(x)
            .map_or(1, |size| usize::from(*size))
            .max(1)
    }

    /// The number of assignments of the variables from `x` on. Those of one assignment of the variables above stand side by side.
    pub(crate) fn width(&self, x: usize) -> usize
        ensures { 0 < result }
    {
        (x..4)
            .fold(1usize, |width, y| width.wrapping_mul(self.size(y)))
            .max(1)
    }

    /// The number of assignments.
    pub(crate) fn count(&self) -> usize
        ensures { 0 < result }
    {
        self.width(0)
    }

    /// The value of variable `x` at assignment `i`.
    pub(crate) fn digit(&self, i: usize, x: usize) -> u8 {
        let below = self.width(x.wrapping_add(1));
        (i / below % self.size(x)) as u8
    }

    /// The number of assignment `i` with `x` fixed at `v`.
    pub(crate) fn fixed(&self, i: usize, x: usize, v: u8) -> usize {
        let below = self.width(x.wrapping_add(1));
        let old = usize::from(self.digit(i, x));
        i.wrapping_sub(old.wrapping_mul(below))
            .wrapping_add(usize::from(v).wrapping_mul(below))
    }

    /// The number of an assignment, by the value of each variable.
    pub(crate) fn index(&self, assignment: &[u8]) -> usize {
        assignment.iter().enumerate().fold(0usize, |i, (x, value)| {
            i.wrapping_mul(self.size(x))
                .wrapping_add(usize::from(*value))
        })
    }

    /// The bytes of assignment `i`; of four variables.
    pub(crate) fn bytes(&self, i: usize) -> [u8; 4] {
        array::from_fn(|x| self.digit(i, x))
    }
}
