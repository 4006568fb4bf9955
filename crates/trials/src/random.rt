//! Numbers that look random and are the same in every run.

ghost use Rattle.std.specs.Prelude.{◌<◌};

#[derive(Clone, Copy)]
pub(crate) struct Random {
    state: u64,
}

impl Random {
    pub(crate) fn new(seed: u64) -> Random {
        let state = seed.wrapping_mul(6364136223846793005) ^ 0x9e3779b97f4a7c15;
        Random {
            state: state.max(1),
        }
    }

    // A shift register with three taps.
    fn next(&mut self) -> u64 {
        let mut x = self.state;
        x ^= x << 13;
        x ^= x >> 7;
        x ^= x << 17;
        self.state = x;
        x >> 11
    }

    /// A number below `n`; 0 where that is 0.
    pub(crate) fn below(&mut self, n: usize) -> usize
        ensures { 0 < n → result < n }
    {
        self.next() as usize % n.max(1)
    }

    /// A byte below `n`, from the last bits alone; 0 where that is 0.
    // Not by `below`, which draws other bits: the lists of calls are to stay what they are.
    pub(crate) fn byte(&mut self, n: u8) -> u8
        ensures { 0 < n → result < n }
    {
        (self.next() & 0xff) as u8 % n.max(1)
    }

    /// Whether it is the one case in `n`.
    pub(crate) fn once_in(&mut self, n: usize) -> bool {
        self.below(n) == 0
    }
}
