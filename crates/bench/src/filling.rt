//! A table that fills up, and is asked for nodes that it has and for nodes that it lacks.

use crate::fault::Fault;
use crate::part::Part;
use crate::random::Random;
use mvl::cyclic::Cyclic;
use mvl::refusal::Refusal;
use operations::table_operation::TableOperation;
use tables::calls::table::Table;
use tables::parts::edge::Edge;

// What a call answered, as a number: bench/baseline.c has the same, so that check sums can be compared.
fn number(found: Result<Edge, Refusal>) -> u64 {
    match found {
        Ok(e) => u64::from(e.number()),
        Err(why) => 65536 + u64::from(why.number()),
    }
}

fn random_operation(random: &mut Random) -> Result<TableOperation, Fault> {
    let mut operation = TableOperation::new(4)?;
    let answers: [u8; 16] = random.values();
    operation.fill(&answers)?;
    Ok(operation)
}

// A random function of three variables, or the refusal.
fn random_function(table: &mut Table<Cyclic>, random: &mut Random) -> Result<u64, Fault> {
    let inner = random_operation(random)?;
    let outer = random_operation(random)?;
    let a = table.variable(random.variable())?;
    let b = table.variable(random.variable())?;
    let c = table.variable(random.variable())?;
    let found = table.apply(&inner, a, b);
    Ok(number(found.and_then(|e| table.apply(&outer, e, c))))
}

/// Random functions from a seed, again and again the same; a function is a piece of work.
pub(crate) fn functions(
    table: &mut Table<Cyclic>,
    seed: u64,
    times: u32,
    count: u32,
) -> Result<Part, Fault> {
    let mut part = Part::new();
    for _ in 0..times {
        add_functions(&mut part, table, seed, count)?;
    }
    Ok(part)
}

fn add_functions(
    part: &mut Part,
    table: &mut Table<Cyclic>,
    seed: u64,
    count: u32,
) -> Result<(), Fault> {
    let mut random = Random::new(seed);
    for _ in 0..count {
        part.add(random_function(table, &mut random)?, 1);
    }
    Ok(())
}

/// The literals, again and again; a call is a piece of work.
pub(crate) fn literals(table: &mut Table<Cyclic>, count: u32) -> Part {
    let mut part = Part::new();
    for i in 0..count {
        let x = (i & 7) as u8;
        let v = ((i >> 3) & 3) as u8;
        part.add(number(table.literal(x, v)), 1);
    }
    part
}
