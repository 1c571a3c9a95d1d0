//! Reads a line of a script.
ghost use Rattle.std.specs.Prelude.{◌≡◌, IfOk};
ghost use Rattle.query_lang.specs.Laws as laws;
ghost use Rattle.query_lang.specs.Line.{add_line, remove_line, show_line, ask_line, line_by, is_silent, commanded, line_of_text, without_cr, line_of};
ghost use Rattle.query_lang.specs.Plain.{plain_line, IsSound};
ghost use Rattle.query_lang.specs.Reader.{Answers, at_end};

use crate::command::{Asked, Command, asked_in, command_in};
use crate::key::key;
use crate::part::{end, next};
use crate::query::{point_part, query};
use line_tokens::after_blanks;
use place_values::{Query, Update};
use query_replies::LineFault;
use spatial_base::Key;
use std::alloc::Global;
use term_impacts::{Label, impacts};

/// The most bytes that a line has, without its LF.
pub const LINE_MAX: usize = 65_536;

/// What a line of a script asks to be done.
#[derive(Drop)]
pub enum Line {
    /// Nothing: the line is empty, blank or a comment.
    Nothing,
    /// A change of the map.
    Do(Update),
    /// A question.
    Ask {
        /// The question.
        query: Query,
        /// Whether each line of the answer has the place's position, and in a top query how its cost is made up.
        explain: bool,
    },
    /// Shows the place at a key.
    Show(Key),
    /// Counts the live places.
    Count,
}

// The KEY LON LAT TEXT of `add`.
#[tactic(auto, unfolding(crate::specs::Line::add_line))]
fn add(alloc: Global, text: &str) -> Result<Line, LineFault>
    ensures says { Answers plain_line result (add_line text.now) }
    ensures sound { IfOk result IsSound }
{
    let (token, text) = next(alloc, text)?;
    let key = key(&token, false)?;
    let (point, behind) = match point_part(alloc, text) {
        Ok(read) => read,
        Err(fault) => return Err(fault),
    };
    let text = after_blanks(behind);
    let words = impacts(alloc, text).map_err(|_| LineFault::Memory)?;
    Ok(Line::Do(Update::Put {
        key: Some(key),
        point,
        words,
        label: Label::of_text(text),
    }))
}

// The KEY of `remove`.
#[tactic(auto, unfolding(crate::specs::Line::remove_line))]
fn remove(alloc: Global, text: &str) -> Result<Line, LineFault>
    ensures says { Answers plain_line result (remove_line text.now) }
    ensures sound { IfOk result IsSound }
{
    let (token, text) = next(alloc, text)?;
    let key = key(&token, true)?;
    end(alloc, text)?;
    Ok(Line::Do(Update::Remove { key }))
}

// The KEY of `show`.
fn show(alloc: Global, text: &str) -> Result<Line, LineFault>
    ensures says { Answers plain_line result (show_line text.now) }
    ensures sound { IfOk result IsSound }
{
    let (token, text) = next(alloc, text)?;
    let key = key(&token, true)?;
    end(alloc, text)?;
    Ok(Line::Show(key))
}

// The end of the line after `count`.
fn count(alloc: Global, text: &str) -> Result<Line, LineFault>
    ensures says { Answers plain_line result (at_end Line.Count text.now) }
    ensures sound { IfOk result IsSound }
{
    end(alloc, text)?;
    Ok(Line::Count)
}

// A query.
fn ask(alloc: Global, explain: bool, asked: Asked, text: &str) -> Result<Line, LineFault>
    ensures says { Answers plain_line result (ask_line explain asked text.now) }
    ensures sound { IfOk result IsSound }
{
    let query = query(alloc, explain, asked, text)?;
    Ok(Line::Ask { query, explain })
}

// A query whose answer is explained.
fn explained(alloc: Global, text: &str) -> Result<Line, LineFault>
    ensures says { Answers plain_line result (line_by Command.Explain text.now) }
    ensures sound { IfOk result IsSound }
{
    let (token, text) = next(alloc, text)?;
    let asked = asked_in(&token)?;
    ask(alloc, true, asked, text)
}

// The line after its command.
fn line_by(alloc: Global, command: Command, text: &str) -> Result<Line, LineFault>
    ensures says { Answers plain_line result (line_by command text.now) }
    ensures sound { IfOk result IsSound }
{
    match command {
        Command::Add => add(alloc, text),
        Command::Remove => remove(alloc, text),
        Command::Show => show(alloc, text),
        Command::Count => count(alloc, text),
        Command::Explain => explained(alloc, text),
        Command::Ask(asked) => ask(alloc, false, asked, text),
    }
}

// Whether a text has nothing to do: after its blanks it is at its end or at a comment.
fn is_silent(text: &str) -> bool
    ensures { result ≡ is_silent text.now }
{
    matches!(text.as_bytes(), [] | [b'#', ..])
}

// The line of a text that begins with a command.
fn commanded(alloc: Global, text: &str) -> Result<Line, LineFault>
    ensures says { Answers plain_line result (commanded text.now) }
    ensures sound { IfOk result IsSound }
{
    let (token, text) = next(alloc, text)?;
    let command = command_in(&token)?;
    line_by(alloc, command, text)
}

// The line of a text.
#[tactic(auto, unfolding(crate::specs::Line::line_of_text))]
fn line_of_text(alloc: Global, text: &str) -> Result<Line, LineFault>
    ensures says { Answers plain_line result (line_of_text text.now) }
    ensures sound { IfOk result IsSound }
{
    if is_silent(after_blanks(text)) {
        return Ok(Line::Nothing);
    }
    commanded(alloc, text)
}

// The bytes without one CR at their end.
fn without_cr(bytes: &[u8]) -> &[u8]
    ensures { result.now ≡ without_cr bytes.now }
{
    match bytes {
        [front @ .., b'\r'] => front,
        _ => bytes,
    }
}

/// Returns the line that these bytes mean, without their LF.
///
/// It is exactly the `line_of` of `specs/Line.antt`: a line, or the reason of its first offence from the left. `Length` comes before
/// `Utf8`, and `Utf8` before all others. Contracts see a line in its plain form, since the boxes of an expression may be anywhere in
/// memory. `Memory` may come in place of any result. A query is within the limits, and a place is put at a text key.
///
/// It reads the bytes from left to right, one token at a time. It allocates memory only for the words of a place, the boxes of an
/// expression, the word list of a query, and the decoded text of a literal with escapes.
pub fn read_line(alloc: Global, line: &[u8]) -> Result<Line, LineFault>
    ensures says { Answers plain_line result (line_of line.now) }
    ensures sound { IfOk result IsSound }
{
    if line.len() > LINE_MAX {
        return Err(LineFault::Length);
    }
    match std::str::from_utf8(without_cr(line)) {
        Ok(text) => line_of_text(alloc, text),
        Err(_) => Err(LineFault::Utf8),
    }
}
