//! What a part of the work comes to.

/// A sum over all that was answered, and how often the smallest piece of work was done.
#[derive(Clone, Copy)]
pub(crate) struct Part {
    pub(crate) check: u64,
    pub(crate) count: u64,
}

impl Part {
    pub(crate) fn new() -> Part {
        Part { check: 0, count: 0 }
    }

    /// A new answer: every earlier one weighs differently, so that their order matters.
    pub(crate) fn add(&mut self, answer: u64, count: u64) {
        self.check = self.check.wrapping_mul(31).wrapping_add(answer);
        self.count = self.count.wrapping_add(count);
    }
}
