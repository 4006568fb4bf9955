//! A function of eight variables, built many times in an empty table.

ghost use Rattle.std.specs.Prelude.{◌≡◌};

use crate::building::opened;
use crate::fault::Fault;
use crate::part::Part;
use crate::random::Random;
use mvl::cyclic::Cyclic;
use std::alloc::Global;
use tables::calls::table::Table;
use tables::parts::edge::Edge;

// The values at some readings.
fn sampled(table: &Table<Cyclic>, e: Edge, random: &mut Random) -> Result<u64, Fault> {
    let mut part = Part::new();
    for _ in 0..8 {
        let values: [u8; 8] = random.values();
        let reading = table.evaluate(e, &values)?;
        part.add(u64::from(reading.value), 1);
    }
    Ok(part.check)
}

/// A function, built in 64 tables; a pair of edges is a piece of work, and one building comes to `steps` of them.
pub(crate) fn rounds<F: Fn(&mut Table<Cyclic>) -> Result<Edge, Fault>>(
    heap: Global,
    build: F,
    steps: u64,
) -> Result<Part, Fault>
    requires { F.IsAlwaysCallable build }
{
    let mut random = Random::new(2);
    let mut part = Part::new();
    for _ in 0..64 {
        let mut table = opened(heap, &[4; 8])?;
        let e = build(&mut table)?;
        let values = sampled(&table, e, &mut random)?;
        part.add(values.wrapping_add(u64::from(e.number())), steps);
    }
    Ok(part)
}
