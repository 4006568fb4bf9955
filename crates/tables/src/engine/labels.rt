//! The answers of a chart, read from its rows.
//!
//! Free functions: `Chart` is another crate's type, and has methods of these names that test what they are handed, which a walk need not do
//! again. What they ask is a bound of the chart at hand, which no type of a label or a value can hold.

ghost use Rattle.std.specs.Prelude.{◌≡◌, ◌<◌};
ghost use Rattle.mvl.specs.Labels.{product as times, inverse as back, home as base, home_label as lifted};
ghost use Rattle.mvl.specs.Charts.{chart_meaning};

use mvl::chart::Chart;

pub(crate) fn carry(chart: &Chart, k: u8, v: u8) -> u8
    requires label { k < chart.now.labels }
    requires value { v < chart.now.radix }
    ensures value { result ≡ (chart_meaning chart.now).carry k v }
    ensures bound { result < chart.now.radix }
{
    chart.carries[(4 * k + v) as usize]
}

pub(crate) fn product(chart: &Chart, a: u8, b: u8) -> u8
    requires first { a < chart.now.labels }
    requires second { b < chart.now.labels }
    ensures value { result ≡ times (chart_meaning chart.now) a b }
    ensures bound { result < chart.now.labels }
{
    chart.products[(4 * a + b) as usize]
}

pub(crate) fn inverse(chart: &Chart, a: u8) -> u8
    requires { a < chart.now.labels }
    ensures value { result ≡ back (chart_meaning chart.now) a }
    ensures bound { result < chart.now.labels }
{
    chart.inverses[a as usize]
}

pub(crate) fn home(chart: &Chart, v: u8) -> u8
    requires { v < chart.now.radix }
    ensures value { result ≡ base (chart_meaning chart.now) v }
    ensures bound { result < chart.now.radix }
{
    chart.homes[v as usize]
}

pub(crate) fn home_label(chart: &Chart, v: u8) -> u8
    requires { v < chart.now.radix }
    ensures value { result ≡ lifted (chart_meaning chart.now) v }
    ensures bound { result < chart.now.labels }
{
    chart.home_labels[v as usize]
}
