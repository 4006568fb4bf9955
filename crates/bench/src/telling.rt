//! Work is timed, and a line of it printed.

ghost use Rattle.std.specs.Prelude.{◌≡◌};

use crate::fault::Fault;
use crate::part::Part;
use std::time::{Duration, Instant};

/// Where lines are printed, and whether times are.
#[derive(Clone, Copy)]
pub(crate) struct Teller<'a> {
    pub(crate) rt: &'a HostRuntime,
    pub(crate) timed: bool,
}

impl Teller<'_> {
    /// Some work, and the line of it. The clock is read right before the work and right after it.
    pub(crate) fn time<F: FnOnce() -> Result<Part, Fault>>(
        self,
        name: &str,
        unit: &str,
        work: F,
    ) -> anyhow::Result<()>
        requires { F.IsAlwaysCallable work }
    {
        let start = Instant::now(self.rt)?;
        let part = work()?;
        let spent = start.elapsed(self.rt)?;
        self.tell(name, unit, part, spent)
    }

    /// The line of a part of the work.
    pub(crate) fn tell(
        self,
        name: &str,
        unit: &str,
        part: Part,
        spent: Duration,
    ) -> anyhow::Result<()> {
        let check = part.check;
        let count = part.count;
        print!(self.rt; "{name}: check {check}, {count} {unit}s")?;
        if self.timed {
            let nanos = u64::try_from(spent.as_nanos()).unwrap_or(u64::MAX);
            // Reckoned in whole numbers, so that no float is rounded.
            let micros = nanos / 1000;
            let tenths = nanos.wrapping_mul(10) / count.max(1);
            let whole = tenths / 10;
            let rest = tenths % 10;
            print!(self.rt; ", {micros} us, {whole}.{rest} ns a {unit}")?;
        }
        println!(self.rt; "")?;
        Ok(())
    }
}
