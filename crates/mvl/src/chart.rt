//! A labelling's answers, kept in small arrays.

ghost use Rattle.std.specs.Prelude.{◌≤◌};
ghost use Rattle.mvl.specs.Labels.{Laws, product, inverse, home, home_label};
ghost use Rattle.mvl.specs.Rows.{Line, Grid, rows_meaning};

/// The answers of some labelling: what it makes of a and b stands at 4 * a + b. The `carries` say all: the others follow from them.
// Arrays beside their sizes: making a chart cannot fail, as its callers know it.
#[derive(Clone, Copy)]
pub struct Chart {
    pub radix: u8,
    pub labels: u8,
    pub carries: [u8; 16],
    pub products: [u8; 16],
    pub inverses: [u8; 4],
    pub homes: [u8; 4],
    pub home_labels: [u8; 4],
    ghost small: { radix ≤ 4 },
    ghost few: { labels ≤ 4 },
    ghost lawful: { ∥ Laws (rows_meaning radix labels carries) ∥₁ },
    ghost products_told: { Grid labels labels (product (rows_meaning radix labels carries)) products },
    ghost inverses_told: { Line labels (inverse (rows_meaning radix labels carries)) inverses },
    ghost homes_told: { Line radix (home (rows_meaning radix labels carries)) homes },
    ghost home_labels_told: { Line radix (home_label (rows_meaning radix labels carries)) home_labels },
}
