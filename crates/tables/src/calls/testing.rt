//! What calls test of what they are handed.

ghost use Rattle.std.specs.Prelude.{◌≡◌, IfOk, slice_index};
ghost use Rattle.tables.specs.Tested.{Tested, Known, no_variable, no_value, unfit};

use crate::parts::edge::Edge;
use crate::parts::holding::Diagrams;
use mvl::refusal::Refusal;

impl Diagrams {
    /// Refuses an edge that is none of the table.
    pub(crate) fn known(&self, e: Edge) -> Result<(), Refusal>
        ensures { Known self.now e result }
    {
        if !self.has(e) {
            return Err(Refusal::NoEdge);
        }
        Ok(())
    }

    /// The size of variable `x`. Refused where there is no such variable.
    pub(crate) fn size(&self, x: u8) -> Result<u8, Refusal>
        ensures tested { Tested (no_variable self.now.card x) result }
        ensures size { IfOk result (λ size. size ≡ slice_index self.now.card.sizes x) }
    {
        if x as usize >= self.card.n {
            return Err(Refusal::NoVariable);
        }
        Ok(self.card.sizes[x as usize])
    }

    /// The size of variable `x`. Refused where there is no such variable, and then where `v` is no value of it.
    pub(crate) fn size_above(&self, x: u8, v: u8) -> Result<u8, Refusal>
        ensures tested { Tested (no_value self.now.card x v) result }
        ensures size { IfOk result (λ size. size ≡ slice_index self.now.card.sizes x) }
    {
        let size = self.size(x)?;
        if v >= size {
            return Err(Refusal::NoValue);
        }
        Ok(size)
    }

    /// Refuses an edge that is none of the table, and then another radix.
    pub(crate) fn fit(&self, radix: u8, e: Edge, f: Edge) -> Result<(), Refusal>
        ensures { Tested (unfit self.now radix e f) result }
    {
        self.known(e)?;
        self.known(f)?;
        if radix != self.chart.radix {
            return Err(Refusal::WrongRadix);
        }
        Ok(())
    }
}
