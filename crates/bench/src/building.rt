//! Functions of four-valued variables, built by applying operations.

use crate::fault::Fault;
use mvl::cyclic::Cyclic;
use operations::cyclic_sum::CyclicSum;
use operations::maximum::Maximum;
use operations::operation::Operation;
use operations::table_operation::TableOperation;
use operations::truncated_sum::TruncatedSum;
use std::alloc::Global;
use tables::calls::table::Table;
use tables::parts::card::Card;
use tables::parts::edge::Edge;

/// An empty table of variables of these sizes, with a label for each of four values, and room for 2,000 nodes.
pub(crate) fn opened(heap: Global, sizes: &[u8]) -> Result<Table<Cyclic>, Fault> {
    let labelling = Cyclic::new(4)?;
    let mut card = Card::new();
    card.fill(sizes, 2000)?;
    Ok(Table::open(heap, card, labelling)?)
}

// The variables from `first` to before `end`, joined from the left.
fn joined<O: Operation>(
    table: &mut Table<Cyclic>,
    operation: &O,
    first: u8,
    end: u8,
) -> Result<Edge, Fault> {
    let e = table.variable(first)?;
    (first.wrapping_add(1)..end).try_fold(e, |e, x| {
        let f = table.variable(x)?;
        Ok(table.apply(operation, e, f)?)
    })
}

/// The sum of the first `n` variables, modulo 4.
pub(crate) fn sum(table: &mut Table<Cyclic>, n: u8) -> Result<Edge, Fault> {
    joined(table, &CyclicSum::new(4)?, 0, n)
}

/// The largest of eight variables.
pub(crate) fn largest(table: &mut Table<Cyclic>) -> Result<Edge, Fault> {
    joined(table, &Maximum::new(4)?, 0, 8)
}

// Whether the left value is at least the right one: 3 or 0.
fn at_least() -> Result<TableOperation, Fault> {
    let mut operation = TableOperation::new(4)?;
    operation.fill(&[3, 0, 0, 0, 3, 3, 0, 0, 3, 3, 3, 0, 3, 3, 3, 3])?;
    Ok(operation)
}

/// Whether the first four of eight variables have a sum of at least 2, or the last four: 3 or 0.
pub(crate) fn threshold(table: &mut Table<Cyclic>) -> Result<Edge, Fault> {
    let plus = TruncatedSum::new(4)?;
    let larger = Maximum::new(4)?;
    let compare = at_least()?;
    let left = joined(table, &plus, 0, 4)?;
    let right = joined(table, &plus, 4, 8)?;
    let both = table.apply(&larger, left, right)?;
    let two = table.constant(2)?;
    Ok(table.apply(&compare, both, two)?)
}
