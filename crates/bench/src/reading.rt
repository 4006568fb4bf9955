//! Random readings of a function.

use crate::fault::Fault;
use crate::part::Part;
use crate::random::Random;
use mvl::cyclic::Cyclic;
use tables::calls::table::Table;
use tables::parts::edge::Edge;

/// The values of a function of twelve variables; a visited node is a piece of work.
pub(crate) fn readings(table: &Table<Cyclic>, e: Edge, count: u32) -> Result<Part, Fault> {
    let mut random = Random::new(1);
    let mut part = Part::new();
    for _ in 0..count {
        let values: [u8; 12] = random.values();
        let reading = table.evaluate(e, &values)?;
        part.add(u64::from(reading.value), u64::from(reading.visited));
    }
    Ok(part)
}
