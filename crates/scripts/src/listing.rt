//! Entries and failures in print.
//!
//! By hand: some texts depend on whether there is a word, a line or an answer, and a derive for the others would part what belongs together.

ghost use Rattle.std.specs.Prelude.{Some};
ghost use Rattle.scripts.specs.Texts.{expected_text, missing_text, unread_text, fault_text, failure_text};

use crate::command::Command;
use crate::entry::{Entry, Expected, Failure, Fault, Unread};
use crate::grid::Grid;
use crate::reply::{Missing, Reply};
use std::error::Error;
use std::fmt;

/// The words of the command.
impl fmt::Display for Command {
    fn fmt<W: fmt::Write>(&self, f: &mut fmt::Formatter<W>) -> fmt::Result {
        match self {
            Command::ChooseLabelling(kind, radix) => write!(f, "labelling {kind} {radix}"),
            Command::ChooseOperation(kind, radix) => write!(f, "operation {kind} {radix}"),
            Command::Fill(bytes) => {
                f.write_str("fill")?;
                for byte in bytes.iter() {
                    write!(f, " {byte}")?;
                }
                Ok(())
            }
            Command::Turn(left, right, answer) => write!(f, "turn {left} {right} {answer}"),
            Command::Ask(left, right) => write!(f, "ask {left} {right}"),
            Command::Tell(left) => write!(f, "tell {left}"),
            Command::Values => f.write_str("values"),
            Command::Carry(label, value) => write!(f, "carry {label} {value}"),
            Command::Product(a, b) => write!(f, "product {a} {b}"),
            Command::Inverse(label) => write!(f, "inverse {label}"),
            Command::Home(value) => write!(f, "home {value}"),
            Command::Labels => f.write_str("labels"),
            Command::Say(text) => write!(f, "say {text}"),
        }
    }
}

/// A line with the columns, and then a line for each row.
impl fmt::Display for Grid {
    fn fmt<W: fmt::Write>(&self, f: &mut fmt::Formatter<W>) -> fmt::Result {
        f.write_str("     ")?;
        for column in 0..self.columns {
            write!(f, " {column}")?;
        }
        for (row, cells) in self.cells.iter().enumerate().take(self.rows as usize) {
            write!(f, "\n  {row} |")?;
            for cell in cells.iter().take(self.columns as usize) {
                write!(f, " {cell}")?;
            }
        }
        Ok(())
    }
}

/// `1`, `none`, `refused: 5 (a value or byte is too large for its use)`; a table begins a new line.
impl fmt::Display for Reply {
    fn fmt<W: fmt::Write>(&self, f: &mut fmt::Formatter<W>) -> fmt::Result {
        match self {
            Reply::Done(Ok(_)) => f.write_str(" done"),
            Reply::Answer(Ok(answer)) => write!(f, " {answer}"),
            Reply::Told(Ok(Some(value))) => write!(f, " {value}"),
            Reply::Told(Ok(None)) => f.write_str(" none"),
            Reply::Done(Err(refusal)) | Reply::Answer(Err(refusal)) | Reply::Told(Err(refusal)) => {
                write!(f, " refused: {refusal}")
            }
            Reply::Shown(grid) => write!(f, "\n{grid}"),
            Reply::Said => Ok(()),
        }
    }
}

// What a command did that was granted.
fn done(command: &Command) -> &'static str {
    match command {
        Command::ChooseLabelling(_, _) | Command::ChooseOperation(_, _) => "chosen",
        Command::Fill(_) => "filled",
        Command::Turn(_, _, _) => "turned",
        _ => "done",
    }
}

/// The words of the line and the answer, as `ask 1 2: 3`; of `say` the text alone.
impl fmt::Display for Entry {
    fn fmt<W: fmt::Write>(&self, f: &mut fmt::Formatter<W>) -> fmt::Result {
        let Entry { command, reply, .. } = self;
        match (command, reply) {
            (Command::Say(text), _) => write!(f, "{text}"),
            (_, Reply::Done(Ok(_))) => write!(f, "{command}: {}", done(command)),
            _ => write!(f, "{command}:{reply}"),
        }
    }
}

impl fmt::Display for Expected {
    ghost output = { λ expected. Some (expected_text expected) };

    fn fmt<W: fmt::Write>(&self, f: &mut fmt::Formatter<W>) -> fmt::Result {
        f.write_str(match self {
            Expected::Command => "a command (--help lists them)",
            Expected::LabellingKind => "plain, complement or cyclic",
            Expected::OperationKind => "min, max, cyclic-sum, truncated-sum or table",
            Expected::Number => "a number from 0 to 255",
            Expected::LineEnd => "the end of the line",
        })
    }
}

impl fmt::Display for Missing {
    ghost output = { λ missing. Some (missing_text missing) };

    fn fmt<W: fmt::Write>(&self, f: &mut fmt::Formatter<W>) -> fmt::Result {
        f.write_str(match self {
            Missing::Labelling => "a labelling to be chosen on a line before",
            Missing::Operation => "an operation to be chosen on a line before",
            Missing::Table => "the operation at hand to be a table that is not turned",
            Missing::Unturned => "the operation at hand not to be turned",
        })
    }
}

/// `expected a number from 0 to 255, found 'x'`.
impl fmt::Display for Unread {
    ghost output = { λ unread. Some (unread_text unread) };

    fn fmt<W: fmt::Write>(&self, f: &mut fmt::Formatter<W>) -> fmt::Result {
        match self {
            Unread::Senseless {
                expected,
                found: Some(word),
            } => write!(f, "expected {expected}, found '{word}'"),
            Unread::Senseless {
                expected,
                found: None,
            } => write!(f, "expected {expected}, found the end of the line"),
            Unread::NoMemory => f.write_str("there is not enough memory"),
        }
    }
}

impl fmt::Display for Fault {
    ghost output = { λ fault. Some (fault_text fault) };

    fn fmt<W: fmt::Write>(&self, f: &mut fmt::Formatter<W>) -> fmt::Result {
        match self {
            Fault::Unread(unread) => write!(f, "{unread}"),
            Fault::Lacking(missing) => write!(f, "expected {missing}"),
            Fault::NoMemory => write!(f, "{}", Unread::NoMemory),
        }
    }
}

/// `line 7: expected a number from 0 to 255, found 'x'`; no line is at fault where memory is short.
impl fmt::Display for Failure {
    ghost output = { λ failure. Some (failure_text failure) };

    fn fmt<W: fmt::Write>(&self, f: &mut fmt::Formatter<W>) -> fmt::Result {
        let Failure { line, fault } = self;
        match fault {
            Fault::Unread(Unread::NoMemory) | Fault::NoMemory => write!(f, "{fault}"),
            _ => write!(f, "line {line}: {fault}"),
        }
    }
}

impl Error for Unread {}

impl Error for Fault {}

impl Error for Failure {}
