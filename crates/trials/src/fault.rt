//! What ends a trial.

use crate::numbers::expected_number;
use mvl::refusal::Refusal;
use std::alloc::AllocError;
use thiserror::Error;

/// What was expected and found; a refusal by its number, and 0 where there was none.
// Numbers, for yes and no too: that is how a difference is printed.
#[derive(Clone, Copy, Debug, Error)]
#[error("{what}: expected {expected}, found {found}")]
pub(crate) struct Difference {
    pub(crate) what: &'static str,
    pub(crate) expected: usize,
    pub(crate) found: usize,
}

#[derive(Clone, Copy, Debug, Error)]
pub(crate) enum Fault {
    #[error("out of memory")]
    Memory(#[from(alloc)] AllocError),
    #[error("a difference")]
    Differs(#[from] Difference),
}

/// A difference where the two numbers are not the same.
pub(crate) fn agree(what: &'static str, expected: usize, found: usize) -> Result<(), Fault> {
    if expected == found {
        return Ok(());
    }
    Err(Fault::Differs(Difference {
        what,
        expected,
        found,
    }))
}

/// The same of two refusals, or none: the number that is expected by the rules, the other as the library has it.
pub(crate) fn agree_refused(
    what: &'static str,
    expected: Option<Refusal>,
    found: Option<Refusal>,
) -> Result<(), Fault> {
    let expected = expected.map_or(0, expected_number);
    agree(what, usize::from(expected), number(found))
}

/// What was answered; a difference where it was refused.
pub(crate) fn granted<T>(what: &'static str, found: Result<T, Refusal>) -> Result<T, Fault> {
    found.map_err(|refusal| {
        Fault::Differs(Difference {
            what,
            expected: 0,
            found: number(Some(refusal)),
        })
    })
}

fn number(refusal: Option<Refusal>) -> usize {
    refusal.map_or(0, |refusal| usize::from(refusal.number()))
}
