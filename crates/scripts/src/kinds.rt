//! The kinds of labellings and operations that a script may choose, with their words.

ghost use Rattle.std.specs.Prelude.{◌≡◌, Some, codes};
ghost use Rattle.scripts.specs.Words.{labelling_word, operation_word, Names};

use std::error::Error;
use std::fmt;
use std::str::FromStr;

/// A kind of labellings.
#[derive(Clone, Copy, Debug, PartialEq, Eq)]
pub enum LabellingKind {
    Plain,
    Complement,
    Cyclic,
}

/// A kind of operations.
#[derive(Clone, Copy, Debug, PartialEq, Eq)]
pub enum OperationKind {
    Minimum,
    Maximum,
    CyclicSum,
    TruncatedSum,
    Table,
}

/// No kind has the word.
#[derive(Clone, Copy, Debug, PartialEq, Eq)]
pub struct UnknownKind;

// Two kinds side by side, each with its table of words: the contract of each names its own.
impl LabellingKind {
    fn word(&self) -> &'static str
        ensures { result.now ≡ labelling_word self.now }
    {
        match self {
            LabellingKind::Plain => "plain",
            LabellingKind::Complement => "complement",
            LabellingKind::Cyclic => "cyclic",
        }
    }
}

impl OperationKind {
    fn word(&self) -> &'static str
        ensures { result.now ≡ operation_word self.now }
    {
        match self {
            OperationKind::Minimum => "min",
            OperationKind::Maximum => "max",
            OperationKind::CyclicSum => "cyclic-sum",
            OperationKind::TruncatedSum => "truncated-sum",
            OperationKind::Table => "table",
        }
    }
}

/// The kind that has the word.
impl FromStr for LabellingKind {
    type Err = UnknownKind;

    ghost from_str_gives = { Names labelling_word };

    fn from_str(word: &str) -> Result<LabellingKind, UnknownKind> {
        match word {
            "plain" => Ok(LabellingKind::Plain),
            "complement" => Ok(LabellingKind::Complement),
            "cyclic" => Ok(LabellingKind::Cyclic),
            _ => Err(UnknownKind),
        }
    }
}

/// The kind that has the word.
impl FromStr for OperationKind {
    type Err = UnknownKind;

    ghost from_str_gives = { Names operation_word };

    fn from_str(word: &str) -> Result<OperationKind, UnknownKind> {
        match word {
            "min" => Ok(OperationKind::Minimum),
            "max" => Ok(OperationKind::Maximum),
            "cyclic-sum" => Ok(OperationKind::CyclicSum),
            "truncated-sum" => Ok(OperationKind::TruncatedSum),
            "table" => Ok(OperationKind::Table),
            _ => Err(UnknownKind),
        }
    }
}

impl fmt::Display for LabellingKind {
    ghost output = { λ kind. Some (labelling_word kind) };

    fn fmt<W: fmt::Write>(&self, f: &mut fmt::Formatter<W>) -> fmt::Result {
        f.write_str(self.word())
    }
}

impl fmt::Display for OperationKind {
    ghost output = { λ kind. Some (operation_word kind) };

    fn fmt<W: fmt::Write>(&self, f: &mut fmt::Formatter<W>) -> fmt::Result {
        f.write_str(self.word())
    }
}

impl fmt::Display for UnknownKind {
    ghost output = { λ _. Some (codes "no kind has this word") };

    fn fmt<W: fmt::Write>(&self, f: &mut fmt::Formatter<W>) -> fmt::Result {
        f.write_str("no kind has this word")
    }
}

impl Error for UnknownKind {}
