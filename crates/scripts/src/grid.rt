//! A table of up to four rows of up to four values.

/// So many rows and columns of the cells.
// Arrays beside their two sizes: lists on the heap would make `values` and `labels` fail where memory is short.
#[derive(Clone, Copy)]
pub struct Grid {
    pub rows: u8,
    pub columns: u8,
    pub cells: [[u8; 4]; 4],
}
