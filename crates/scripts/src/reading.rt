//! The command that a line spells, or what was expected in its place.

use crate::command::Command;
use crate::entry::{Expected, Unread};
use std::alloc::Global;
use std::str::{FromStr, SplitWhitespace};

// The words of a line that are not read yet.
#[derive(Drop)]
struct Words<'a> {
    heap: Global,
    rest: SplitWhitespace<'a>,
}

// What is told of a word, or of the end of the line, where something else was expected. A match: want of memory is told in its place.
fn senseless(heap: Global, expected: Expected, found: Option<&str>) -> Unread {
    match found.map(|word| String::from_str(heap, word)).transpose() {
        Ok(found) => Unread::Senseless { expected, found },
        Err(_) => Unread::NoMemory,
    }
}

// What a word spells.
fn spelled<T: FromStr>(heap: Global, expected: Expected, word: Option<&str>) -> Result<T, Unread>
where
    T::Err: Drop,
{
    word.and_then(|word| word.parse::<T>().ok())
        .ok_or_else(|| senseless(heap, expected, word))
}

impl Words<'_> {
    // What the next word spells.
    fn next<T: FromStr>(&mut self, expected: Expected) -> Result<T, Unread>
    where
        T::Err: Drop,
    {
        spelled(self.heap, expected, self.rest.next())
    }

    fn number(&mut self) -> Result<u8, Unread> {
        self.next(Expected::Number)
    }

    // The numbers up to the end of the line.
    fn numbers(&mut self) -> Result<Vec<u8>, Unread> {
        let heap = self.heap;
        self.rest
            .by_ref()
            .map(|word| spelled(heap, Expected::Number, Some(word)))
            .try_collect(heap)
    }

    // A match: no word is the good case here.
    fn end(&mut self) -> Result<(), Unread> {
        match self.rest.next() {
            None => Ok(()),
            word => Err(senseless(self.heap, Expected::LineEnd, word)),
        }
    }

    // The command that `name` begins.
    fn command(&mut self, name: &str) -> Result<Command, Unread> {
        let command = match name {
            "labelling" => Command::ChooseLabelling(
                self.next(Expected::LabellingKind)?,
                self.number()?,
            ),
            "operation" => Command::ChooseOperation(
                self.next(Expected::OperationKind)?,
                self.number()?,
            ),
            "fill" => Command::Fill(self.numbers()?),
            "turn" => Command::Turn(self.number()?, self.number()?, self.number()?),
            "ask" => Command::Ask(self.number()?, self.number()?),
            "tell" => Command::Tell(self.number()?),
            "values" => Command::Values,
            "carry" => Command::Carry(self.number()?, self.number()?),
            "product" => Command::Product(self.number()?, self.number()?),
            "inverse" => Command::Inverse(self.number()?),
            "home" => Command::Home(self.number()?),
            "labels" => Command::Labels,
            _ => return Err(senseless(self.heap, Expected::Command, Some(name))),
        };
        self.end()?;
        Ok(command)
    }
}

// The text of a `say` line.
fn said(line: &str) -> Option<&str> {
    let text = line.strip_prefix("say")?;
    if text.is_empty() {
        return Some(text);
    }
    text.strip_prefix([' ', '\t'])
}

// The command of a line; none for a blank line or a comment.
pub(crate) fn read(heap: Global, line: &str) -> Result<Option<Command>, Unread> {
    let line = line.trim();
    if let Some(text) = said(line) {
        return Ok(Some(Command::Say(String::from_str(heap, text)?)));
    }
    if line.starts_with('#') {
        return Ok(None);
    }
    let mut words = Words {
        heap,
        rest: line.split_whitespace(),
    };
    words
        .rest
        .next()
        .map(|name| words.command(name))
        .transpose()
}
