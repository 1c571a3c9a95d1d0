//! Reads the words after the program's name as a job.
ghost use Rattle.std.specs.Prelude.{◌≡◌, ◌≤◌, ◌∷◌, ◌↔◌, codes, map, string_bytes, IfOk, IsErr, IsSome};
ghost use Rattle.clap.specs.Words.{found_of, rows_of};
ghost use Rattle.command_words.specs.Job.{IsReading, asked_among, reading};

use crate::command::{PROGRAM, parse};
use crate::task::task_of;
use crate::values::job_of;
use crate::{Job, WordsFault};
use clap::error::ErrorKind;
use clap::{ArgMatches, Error};
use std::alloc::{AllocError, Global};

// The line as `clap` reads it: the program's name, and the words after it.
fn line_of<'a>(alloc: Global, words: &'a [String]) -> Result<Vec<&'a str>, AllocError>
    ensures { IfOk result (λ line. map (λ word. word.now) line.items ≡ codes "irtree" ∷ map string_bytes words.entry.now) }
{
    let mut line = Vec::new(alloc);
    line.push(PROGRAM)?;
    for word in words {
        line.push(word.as_str())?;
    }
    Ok(line)
}

/// Reads the words after the program's name: a store, an action and options, in any order except that the store is before the action.
///
/// Returns the job with the values on the line. The defaults for absent options are a batch of 1,000 places, a cache of 1,024 pages,
/// all properties, the quadratic policy, the seed 0, and 1,000 made places. Refuses with the first that applies:
///
/// - `Line` if the command line refuses the words (`specs/Command.antt`), or the action or the policy is unknown. This includes `-h`
///   and `--help`.
/// - `Unused` if the action does not use an option that is given.
///
/// Returns `Memory` in place of any of these if memory runs out.
pub fn read_words(alloc: Global, words: &[String]) -> Result<Job, WordsFault>
    ensures reading { IsReading result (reading (map string_bytes words.now)) }
    ensures batch { IfOk result (λ job. (1 ≤ job.batch) × (job.batch ≤ 10000)) }
    ensures cache { IfOk result (λ job. job.cache ≤ 65536) }
    ensures count { IfOk result (λ job. (1 ≤ job.count) × (job.count ≤ 100000)) }
{
    let line = line_of(alloc, words)?;
    match parse(alloc, line.as_slice()) {
        Ok(matches) => job_of(alloc, &matches),
        Err(error) => match error.kind() {
            ErrorKind::OutOfMemory => Err(WordsFault::Memory),
            _ => Err(WordsFault::Line),
        },
    }
}

// The first lines of a text, up to an empty one, as one line without its leading `error: `.
fn in_one_line(alloc: Global, text: &str) -> Result<String, AllocError> {
    let mut line = String::new(alloc);
    for part in text.lines() {
        let part = part.trim();
        if part.is_empty() {
            break;
        }
        if !line.is_empty() {
            line.push(' ')?;
        }
        line.push_str(part.strip_prefix("error: ").unwrap_or(part))?;
    }
    Ok(line)
}

// The text for a person on a line that the command refuses: all of the help if it was requested, and otherwise one line.
fn told_of(alloc: Global, error: &Error) -> Result<String, AllocError> {
    let text = format!(in alloc; "{error}")?;
    if error.use_stderr() {
        in_one_line(alloc, text.as_str())
    } else {
        Ok(text)
    }
}

// The text for a person on the arguments of a line, or `None` if they are a job.
fn told_of_values(alloc: Global, matches: &ArgMatches<'_>) -> Result<Option<String>, AllocError>
    ensures { IfOk result (λ text. IsSome text ↔ IsErr (asked_among (rows_of (found_of matches.now)))) }
{
    match task_of(matches) {
        Ok(_) => Ok(None),
        Err(refusal) => Ok(Some(format!(in alloc; "{refusal}")?)),
    }
}

/// Returns what is wrong with which word if the words after the program's name are refused, and `None` if they are accepted.
///
/// The text is for a person. It is one line without its LF, or the help of many lines if the words request it.
pub fn explain_words(alloc: Global, words: &[String]) -> Result<Option<String>, AllocError>
    ensures { IfOk result (λ text. IsSome text ↔ IsErr (reading (map string_bytes words.now))) }
{
    let line = line_of(alloc, words)?;
    match parse(alloc, line.as_slice()) {
        Ok(matches) => told_of_values(alloc, &matches),
        Err(error) => match error.kind() {
            ErrorKind::OutOfMemory => Err(AllocError),
            _ => Ok(Some(told_of(alloc, &error)?)),
        },
    }
}
