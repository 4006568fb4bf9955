//! How many calls were granted, and refused with which number.

use crate::numbers::expected_number;
use mvl::refusal::Refusal;
use std::fmt;

/// The refusals are counted by number.
// In an array: they are printed in this order, and to count cannot fail.
#[derive(Clone, Copy)]
pub(crate) struct Tally {
    pub(crate) calls: usize,
    granted: usize,
    refused: [usize; 15],
}

impl Tally {
    pub(crate) fn new() -> Tally {
        Tally {
            calls: 0,
            granted: 0,
            refused: [0; 15],
        }
    }

    pub(crate) fn grant(&mut self) {
        self.calls = self.calls.wrapping_add(1);
        self.granted = self.granted.wrapping_add(1);
    }

    pub(crate) fn refuse(&mut self, refusal: Refusal) {
        self.calls = self.calls.wrapping_add(1);
        let number = usize::from(expected_number(refusal));
        if let Some(times) = self.refused.get_mut(number) {
            *times = times.wrapping_add(1);
        }
    }
}

/// As `9 calls, 6 granted, refused 3: 1 5: 2`.
impl fmt::Display for Tally {
    fn fmt<W: fmt::Write>(&self, f: &mut fmt::Formatter<W>) -> fmt::Result {
        let calls = self.calls;
        let granted = self.granted;
        write!(f, "{calls} calls, {granted} granted, refused")?;
        for (number, times) in self.refused.iter().enumerate() {
            if *times > 0 {
                write!(f, " {number}: {times}")?;
            }
        }
        Ok(())
    }
}
