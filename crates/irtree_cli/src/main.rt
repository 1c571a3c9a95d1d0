//! The program `irtree`: the words of the command line, standard input, standard output and the files of a store for
//! `irtree_top::run`.
//!
//! Its exit status is that of the end. On standard error the end's fixed line comes first and alone; one or two lines of advice
//! follow, except after a run that is done. A check and an upgrade of a file have a line before all of them, which says that it begins,
//! and then one each second at most on how many pages were read. That the system's streams and files meet the traits of a source and a
//! station is the premise of the program; what is read, kept and printed is `run`'s to prove.
//!
//! Tests: `tools/file_troubles.sh` runs the built program; `irtree_tests/src` runs the same top call over stations in memory.
#![tactic(auto)]

mod advice;

use crate::advice::{PAGE_LEN, Task, advice_on, on_foreign_word, on_start};
use irtree_top::{Action, Ended, PolicyName, WordsFault, read_words, run};
use spatial_base::Memory;
use split_policy::{Halving, Quadratic, SplitPolicy};
use std::alloc::{AllocError, Global};
use std::fs;
use std::io::{ErrorKind, Write};
use std::process::ExitCode;
use std_devices::{FileStation, Progress, ReportedStation, ScratchStation, StdSource};
use text_policy::WordAware;

// How a run ended, and the lines that follow the end's own on standard error, if any.
#[derive(Drop)]
struct Outcome {
    end: Ended,
    advice: Option<String>,
}

// The words after the program's own name. A word that isn't UTF-8 is refused, as words that are no command are.
fn words(rt: &HostRuntime) -> Result<Vec<String>, Ended> {
    let given = std::env::args(rt).map_err(|error| match error.kind() {
        ErrorKind::OutOfMemory => Ended::Memory,
        _ => Ended::Words,
    })?;
    let mut words = Vec::new(rt.alloc());
    for word in given.skip(1) {
        words.push(word).map_err(|_| Ended::Memory)?;
    }
    Ok(words)
}

// What words choose: the store if it is a file, what to do with it, and the policy of its tree.
#[derive(Drop)]
struct Choice {
    store: Option<String>,
    action: Action,
    policy: PolicyName,
}

// What words choose. If they are refused, that is a run on a store in memory by the quadratic policy, which ends at once.
fn choice_of(alloc: Global, words: &[String]) -> Result<Choice, Memory> {
    match read_words(alloc, words) {
        Ok(job) if job.store.as_str() != "-" => Ok(Choice {
            action: job.action,
            policy: job.policy,
            store: Some(job.store),
        }),
        Ok(job) => Ok(Choice {
            action: job.action,
            policy: job.policy,
            store: None,
        }),
        Err(WordsFault::Line) | Err(WordsFault::Unused) => Ok(Choice {
            action: Action::Run,
            policy: PolicyName::Quadratic,
            store: None,
        }),
        Err(WordsFault::Memory) => Err(Memory),
    }
}

// The outcome of an end with its advice, or without if no memory is left for it.
fn advised(alloc: Global, end: Ended, task: Task<'_>) -> Outcome {
    Outcome {
        end,
        advice: advice_on(alloc, end, task).unwrap_or(None),
    }
}

// An end whose own line is all that is printed.
fn plain(end: Ended) -> Outcome {
    Outcome { end, advice: None }
}

// Prints on standard error what begins, if the run may be silent for long. If that can't be told, the run goes on without it.
fn announce(alloc: Global, task: Task<'_>, err: &mut impl Write) {
    if let Ok(Some(line)) = on_start(alloc, task) {
        let _ = err.write_all(line.as_bytes());
    }
}

// What says on standard error how far the run has come, if it may be silent for long. There is none if no memory is left for it, or
// the length of the store's file can't be had.
fn progress_of<'a>(
    rt: &'a HostRuntime,
    task: Task<'_>,
    store: &str,
) -> Option<Progress<'a, HostRuntime>> {
    match task.action {
        Action::Verify | Action::Upgrade => {
            let pages = fs::metadata(rt, store).ok()?.len() / PAGE_LEN;
            let name = task.store_name(rt.alloc()).ok()?;
            Some(Progress::new(rt.alloc(), rt, rt.stderr(), name, pages))
        }
        Action::Run | Action::Load | Action::Make => None,
    }
}

// Runs over the files of a store. If a call on them failed, the advice is their station's.
fn run_on_files(
    rt: &HostRuntime,
    task: Task<'_>,
    store: &str,
    policy: Box<dyn SplitPolicy>,
) -> Result<Outcome, Memory> {
    let mut source = StdSource::new(rt.stdin());
    let files = FileStation::new(rt.alloc(), rt, store, rt.stdout())?;
    let mut station = ReportedStation::new(files, progress_of(rt, task, store));
    announce(rt.alloc(), task, &mut rt.stderr());
    let end = run(rt.alloc(), task.words, &mut source, &mut station, policy);
    Ok(match end {
        Ended::Disk => Outcome {
            end,
            advice: station.station().trouble_line(rt.alloc()).unwrap_or(None),
        },
        end => advised(rt.alloc(), end, task),
    })
}

// Runs over a store in memory, which ends with the run.
fn run_in_memory(rt: &HostRuntime, task: Task<'_>, policy: Box<dyn SplitPolicy>) -> Outcome {
    let mut source = StdSource::new(rt.stdin());
    let mut station = ScratchStation::new(rt.alloc(), rt.stdout());
    let end = run(rt.alloc(), task.words, &mut source, &mut station, policy);
    advised(rt.alloc(), end, task)
}

// The outcome if the words can't be read.
fn unread(alloc: Global, end: Ended) -> Outcome {
    let advice = match end {
        Ended::Words => on_foreign_word(alloc).ok(),
        _ => None,
    };
    Outcome { end, advice }
}

// Runs over the standard streams and the store of the task, by a policy.
fn run_task(
    rt: &HostRuntime,
    task: Task<'_>,
    policy: Box<dyn SplitPolicy>,
) -> Result<Outcome, Memory> {
    match task.store {
        Some(store) => run_on_files(rt, task, store, policy),
        None => Ok(run_in_memory(rt, task, policy)),
    }
}

// Runs on the words given, over the standard streams and the store that they name, by the policy that they name.
fn run_words(rt: &HostRuntime) -> Result<Outcome, Memory> {
    let words = match words(rt) {
        Ok(words) => words,
        Err(end) => return Ok(unread(rt.alloc(), end)),
    };
    let choice = choice_of(rt.alloc(), &words)?;
    let policy_name = choice.policy;
    let task = Task {
        words: &words,
        store: choice.store.as_deref(),
        action: choice.action,
    };
    match policy_name {
        PolicyName::Quadratic => {
            let policy = Box::new(rt.alloc(), Quadratic::new()).map_err(|_| Memory)?;
            run_task(rt, task, policy)
        }
        PolicyName::Halving => {
            let policy = Box::new(rt.alloc(), Halving::new()).map_err(|_| Memory)?;
            run_task(rt, task, policy)
        }
        PolicyName::Words => {
            let policy = Box::new(rt.alloc(), WordAware::new()).map_err(|_| Memory)?;
            run_task(rt, task, policy)
        }
    }
}

// The bytes of the longest fixed line of an end, and a few more.
const LONGEST_LINE: usize = 64;

// Appends the advice, its last LF included.
fn add_advice(advice: &str, lines: &mut Vec<u8>) -> Result<(), AllocError> {
    lines.extend_from_slice(advice.as_bytes())?;
    if !advice.ends_with('\n') {
        lines.push(b'\n')?;
    }
    Ok(())
}

// Prints the end's fixed line, alone, and then the advice if memory is left for it, on standard error. The lines are empty and have room
// for the fixed one.
fn report(outcome: &Outcome, lines: &mut Vec<u8>, err: &mut impl Write) {
    let _ = outcome.end.write_text(&mut *lines);
    let fixed = lines.len();
    if let Some(advice) = &outcome.advice {
        if add_advice(advice, &mut *lines).is_err() {
            lines.truncate(fixed);
        }
    }
    // If standard error can't be written, only the status is left.
    let _ = err.write_all(lines);
}

fn main(rt: HostRuntime) -> ExitCode {
    // The fixed line's memory is taken first, so that it can be printed when none is left.
    let Ok(mut lines) = Vec::with_capacity(rt.alloc(), LONGEST_LINE) else {
        let _ = rt.stderr().write_all(b"irtree: want of memory\n");
        return ExitCode::from(Ended::Memory.status());
    };
    let outcome = run_words(&rt).unwrap_or(plain(Ended::Memory));
    report(&outcome, &mut lines, &mut rt.stderr());
    ExitCode::from(outcome.end.status())
}
