//! A chart is made of any labelling, and is one itself.

ghost use Rattle.std.specs.Prelude.{◌≡◌};
ghost use Rattle.mvl.specs.Answers.{HomeIs};
ghost use Rattle.mvl.specs.Clipped.{clipped};
ghost use Rattle.mvl.specs.Charts.{chart_meaning};
ghost use Rattle.mvl.specs.Charted.{chart_laws};

use crate::bounds::{label_below, value_below};
use crate::chart::Chart;
use crate::labelling::Labelling;
use crate::refusal::Refusal;
use crate::rows::{home_of, row};

impl Chart {
    /// The chart of `l`: the same radix, as many labels, and each of them carries each value to the same.
    pub fn of<L: Labelling>(l: &L) -> Chart
        ensures { chart_meaning result ≡ clipped (L.meaning l.now) }
    {
        Chart {
            radix: l.radix(),
            labels: l.labels(),
            carries: row(|x| l.carry(x / 4, x % 4)),
            products: row(|x| l.product(x / 4, x % 4)),
            inverses: row(|a| l.inverse(a)),
            homes: row(|value| home_of(l, value)),
            home_labels: row(|value| l.home_label(value)),
        }
    }

    /// The least value from which some label carries to `value`. A value that is not below the radix is refused with 5.
    pub fn home(&self, value: u8) -> Result<u8, Refusal>
        ensures { HomeIs (chart_meaning self.now) value result }
    {
        let value = value_below(value, self.radix())?;
        Ok(self.homes[value as usize])
    }
}

impl Labelling for Chart {
    ghost meaning = { chart_meaning };

    ghost lawful = { λ l. chart_laws l };

    fn radix(&self) -> u8 {
        self.radix
    }

    fn labels(&self) -> u8 {
        self.labels
    }

    fn carry(&self, label: u8, value: u8) -> Result<u8, Refusal> {
        let value = value_below(value, self.radix())?;
        let label = label_below(label, self.labels())?;
        Ok(self.carries[(4 * label + value) as usize])
    }

    fn product(&self, a: u8, b: u8) -> Result<u8, Refusal> {
        let a = label_below(a, self.labels())?;
        let b = label_below(b, self.labels())?;
        Ok(self.products[(4 * a + b) as usize])
    }

    fn inverse(&self, a: u8) -> Result<u8, Refusal> {
        let a = label_below(a, self.labels())?;
        Ok(self.inverses[a as usize])
    }

    fn home_label(&self, value: u8) -> Result<u8, Refusal> {
        let value = value_below(value, self.radix())?;
        Ok(self.home_labels[value as usize])
    }
}
