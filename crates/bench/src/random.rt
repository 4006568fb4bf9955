//! Numbers that look random and are the same in every run.

use std::array;

#[derive(Clone, Copy)]
pub(crate) struct Random {
    state: u64,
}

impl Random {
    pub(crate) fn new(seed: u64) -> Random {
        Random { state: seed }
    }

    /// 32 bits.
    pub(crate) fn next(&mut self) -> u64 {
        let product = self.state.wrapping_mul(6364136223846793005);
        self.state = product.wrapping_add(1442695040888963407);
        self.state >> 32
    }

    /// A number below 8.
    pub(crate) fn variable(&mut self) -> u8 {
        let bits = self.next();
        ((bits >> 8) & 7) as u8
    }

    /// Values below 4, at most sixteen, by two bits each.
    pub(crate) fn values<const N: usize>(&mut self) -> [u8; N] {
        let mut bits = self.next();
        array::from_fn(|_| {
            let value = (bits & 3) as u8;
            bits >>= 2;
            value
        })
    }
}
