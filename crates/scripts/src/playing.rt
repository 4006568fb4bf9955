//! A script is played line by line.

ghost use Rattle.scripts.specs.Plays.{Steps, Adds, Advances, Runs};

use crate::entry::{Entry, Failure, Fault};
use crate::reading::read;
use crate::session::Session;
use std::alloc::Global;

// Does what a line says; there is no entry for a blank line or a comment.
// Parameters, and no struct of them: they go together through three functions only.
fn step(
    heap: Global,
    session: &mut Session,
    line: usize,
    text: &str,
) -> Result<Option<Entry>, Fault>
    ensures { Steps session.old line result session.new }
{
    let Some(command) = read(heap, text)? else {
        return Ok(None);
    };
    let reply = session.obey(&command)?;
    Ok(Some(Entry {
        line,
        command,
        reply,
    }))
}

// Does what a line says, and adds its entry, if it has one, to those of the lines before.
fn add(
    heap: Global,
    session: &mut Session,
    entries: &mut Vec<Entry>,
    line: usize,
    text: &str,
) -> Result<(), Fault>
    ensures { Adds line session.old entries.old.items result session.new entries.new.items }
{
    let Some(entry) = step(heap, session, line, text)? else {
        return Ok(());
    };
    entries.push(entry)?;
    Ok(())
}

// The same; a fault becomes the failure of this line.
fn advance(
    heap: Global,
    session: &mut Session,
    entries: &mut Vec<Entry>,
    line: usize,
    text: &str,
) -> Result<(), Failure>
    ensures { Advances line session.old entries.old.items result session.new entries.new.items }
{
    add(heap, session, entries, line, text).map_err(|fault| Failure { line, fault })
}

/// Plays a script from its first line on, with nothing chosen: an entry for each line that is done. A line that makes no sense, or lacks
/// what it needs, fails the whole script.
pub fn run(heap: Global, text: &str) -> Result<Vec<Entry>, Failure>
    ensures { Runs result }
{
    let mut session = Session::default();
    let mut entries = Vec::new(heap);
    for (i, text) in text.lines().enumerate() {
        let line = i + 1;
        advance(heap, &mut session, &mut entries, line, text)?;
    }
    Ok(entries)
}
