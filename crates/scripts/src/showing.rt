//! The tables that `values` and `labels` show.

ghost use Rattle.std.specs.Prelude.{◌≡◌, ◌<◌, ℕ, slice_index_or, []};
ghost use Rattle.scripts.specs.Meanings.{labelling_meaning, chosen_meaning};
ghost use Rattle.scripts.specs.Shown.{Answered, ShowsAnswers, ShowsCarries};

use crate::any_labelling::AnyLabelling;
use crate::chosen::Chosen;
use crate::grid::Grid;
use mvl::labelling::Labelling;
use mvl::refusal::Refusal;
use operations::operation::Operation;

// Row `a`: what is answered to `a` and each of 0 to 3, or 0 where that is refused.
fn row<F: Fn(u8, u8) -> Result<u8, Refusal>>(ask: &F, a: u8) -> [u8; 4]
    requires { F.IsAlwaysCallable ask.now }
    ensures { Answered (F.post ask.now a) result }
{
    [0, 1, 2, 3].map(|b| ask(a, b).unwrap_or(0))
}

// A table of so many rows and columns of what is answered to a row and a column.
fn grid<F: Fn(u8, u8) -> Result<u8, Refusal>>(rows: u8, columns: u8, ask: F) -> Grid
    requires { F.IsAlwaysCallable ask }
    ensures rows { result.rows ≡ rows }
    ensures columns { result.columns ≡ columns }
    ensures cells { (a : ℕ) → a < 4 → Answered (F.post ask a) (slice_index_or result.cells a []) }
{
    let cells = [0, 1, 2, 3].map(
        |a: u8| -> [u8; 4]
            requires { F.IsAlwaysCallable ask }
            ensures { Answered (F.post ask a) result }
        { row(&ask, a) },
    );
    Grid {
        rows,
        columns,
        cells,
    }
}

// A row for each left operand, a column for each right one.
pub(crate) fn answers(operation: &Chosen) -> Grid
    ensures { ShowsAnswers (chosen_meaning operation.now) result }
{
    let radix = operation.radix();
    grid(radix, radix, |left, right| operation.ask(left, right))
}

// A row for each label, a column for each value.
pub(crate) fn carries(labelling: &AnyLabelling) -> Grid
    ensures { ShowsCarries (labelling_meaning labelling.now) result }
{
    grid(
        labelling.labels(),
        labelling.radix(),
        |label, value| labelling.carry(label, value),
    )
}
