//! Edges and rows of edges: compared, turned, and made of constants.

ghost use Rattle.std.specs.Prelude.{◌≡◌, ℕ, ◌-◌, ◌<◌, ◌≤◌, if◌then◌else◌, nat_eq};
ghost use Rattle.mvl.specs.Charts.{chart_meaning};
ghost use Rattle.diagrams.specs.Diagram.{turned as turning};
ghost use Rattle.diagrams.specs.Build.{constant_edge};
ghost use Rattle.tables.specs.Edges.{arrow, arrows};
ghost use Rattle.tables.specs.Finds.{Alikes, Filled, FilledBy};

use crate::engine::labels::{home, home_label, product};
use crate::parts::edge::Edge;
use crate::parts::target::Target;
use mvl::chart::Chart;

/// Whether the first edges, as many as a variable's size, are one.
pub(crate) fn alike(edges: [Edge; 4], size: u8) -> bool
    requires { size ≤ 4 }
    ensures { Alikes edges size result }
{
    edges[..size as usize].iter().all(|e| *e == edges[0])
}

// What `edge` gives each value below a size, and the others unused.
// A size comes from a card's row as a number, and its bound from the card: a type of sizes would be made here only to be taken apart.
fn filled<F: Fn(u8) -> Edge>(size: u8, edge: F) -> [Edge; 4]
    requires few { size ≤ 4 }
    requires known { (i : ℕ) → i < size → F.pre edge i }
    ensures { FilledBy (F.post edge) size result }
{
    let mut row = [Edge::UNUSED; 4];
    // A loop: `array::from_fn` would test each of the four places against the size, and reads no plainer.
    for i in 0..size {
        row[i as usize] = edge(i);
    }
    row
}

/// An edge with a label more.
pub(crate) fn turned_edge(chart: &Chart, k: u8, e: Edge) -> Edge
    requires label { k < chart.now.labels }
    requires own { (arrow e).label < chart.now.labels }
    ensures { arrow result ≡ turning (chart_meaning chart.now) k (arrow e) }
{
    Edge::to(product(chart, k, e.label()), e.target())
}

/// The first edges with a label more, and the others unused.
pub(crate) fn turned(chart: &Chart, k: u8, edges: [Edge; 4], size: u8) -> [Edge; 4]
    requires label { k < chart.now.labels }
    requires size { size ≤ 4 }
    requires labels { (i : ℕ) → i < size → (arrows edges i).label < chart.now.labels }
    ensures { Filled (λ i. turning (chart_meaning chart.now) k (arrows edges i)) size result }
{
    filled(size, |i| turned_edge(chart, k, edges[i as usize]))
}

/// The edge of a value.
pub(crate) fn constant_edge(chart: &Chart, v: u8) -> Edge
    requires { v < chart.now.radix }
    ensures { arrow result ≡ constant_edge (chart_meaning chart.now) v }
{
    Edge::to(home_label(chart, v), Target::Terminal(home(chart, v)))
}

/// The edge of each value below a size, and the others unused.
pub(crate) fn constants(chart: &Chart, size: u8) -> [Edge; 4]
    requires { size ≤ chart.now.radix }
    ensures { Filled (constant_edge (chart_meaning chart.now)) size result }
{
    filled(size, |v| constant_edge(chart, v))
}

// What the literal of `v` gives at `i`.
fn chosen_value(chart: &Chart, v: u8, i: u8) -> u8
    ensures value { result ≡ (if nat_eq i v then chart.now.radix - 1 else 0) }
    ensures bound { result < chart.now.radix }
{
    if i == v { chart.radix - 1 } else { 0 }
}

/// The edge of the largest value at `v`, that of 0 at the other values below a size, and the others unused.
pub(crate) fn chosen(chart: &Chart, v: u8, size: u8) -> [Edge; 4]
    requires { size ≤ 4 }
    ensures { Filled (λ i. constant_edge (chart_meaning chart.now) (if nat_eq i v then chart.now.radix - 1 else 0)) size result }
{
    filled(size, |i| constant_edge(chart, chosen_value(chart, v, i)))
}
