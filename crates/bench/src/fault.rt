//! What ends a run early.

use mvl::refusal::Refusal;
use std::alloc::AllocError;
use thiserror::Error;

#[derive(Clone, Copy, Debug, Error)]
pub(crate) enum Fault {
    #[error("out of memory")]
    Memory(#[from] AllocError),
    #[error("a call was refused")]
    Refused(#[from] Refusal),
}
