//! What a played script leaves: an entry for each line done, or why it stopped.

ghost use Rattle.std.specs.Prelude.{◌≡◌};
ghost use Rattle.scripts.specs.declared.entry.Unread.TheVariants as unread;
ghost use Rattle.scripts.specs.declared.entry.Fault.TheVariants as fault;

use crate::command::Command;
use crate::reply::{Missing, Reply};
use std::alloc::{AllocError, AllocFailed};

/// A line that was done.
#[derive(Drop)]
pub struct Entry {
    pub line: usize,
    pub command: Command,
    pub reply: Reply,
}

/// What a word of a script should be.
#[derive(Clone, Copy, Debug, PartialEq, Eq)]
pub enum Expected {
    Command,
    LabellingKind,
    OperationKind,
    Number,
    LineEnd,
}

/// Why a line cannot be read.
#[derive(Debug, Drop)]
pub enum Unread {
    /// `found` is the word that stands there, none at the end of the line.
    Senseless {
        expected: Expected,
        found: Option<String>,
    },
    NoMemory,
}

// Each `From` by hand: a contract names what `?` makes of an error, of which a derive says nothing.
impl From<AllocError> for Unread {
    ghost from_gives = { λ _ u. u ≡ unread.NoMemory };

    fn from(_e: AllocError) -> Unread {
        Unread::NoMemory
    }
}

impl<T: Drop> From<AllocFailed<T>> for Unread {
    ghost from_gives = { λ _ u. u ≡ unread.NoMemory };

    fn from(_e: AllocFailed<T>) -> Unread {
        Unread::NoMemory
    }
}

/// Why a line is not done.
#[derive(Debug, Drop)]
pub enum Fault {
    Unread(Unread),
    /// The line needs what is not at hand.
    Lacking(Missing),
    // Memory is wanted to keep an entry too, after its line was read.
    NoMemory,
}

impl From<Unread> for Fault {
    ghost from_gives = { λ u f. f ≡ fault.Unread u };

    fn from(unread: Unread) -> Fault {
        Fault::Unread(unread)
    }
}

impl From<Missing> for Fault {
    ghost from_gives = { λ missing f. f ≡ fault.Lacking missing };

    fn from(missing: Missing) -> Fault {
        Fault::Lacking(missing)
    }
}

impl<T: Drop> From<AllocFailed<T>> for Fault {
    ghost from_gives = { λ _ f. f ≡ fault.NoMemory };

    fn from(_e: AllocFailed<T>) -> Fault {
        Fault::NoMemory
    }
}

/// Why a script is not played to its end, and the line where it stops.
#[derive(Debug, Drop)]
pub struct Failure {
    pub line: usize,
    pub fault: Fault,
}
