//! The values on a line, as a job.
ghost use Rattle.std.specs.Prelude.{◌≡◌, ◌≤◌, IfOk, IfSome, option_map, string_bytes};
ghost use Rattle.clap.specs.Words.{IsUnsignedIn, found_of, one_of, rows_of};
ghost use Rattle.command_words.specs.Command.{HasNumbers};
ghost use Rattle.command_words.specs.Job.{IsReading, asked_among, asked_of, asked_with, number_or};

use crate::command::{BATCH, CACHE, COUNT, FROM, TEXT};
use crate::task::{Task, task_of, value_of};
use crate::{Job, WordsFault};
use clap::ArgMatches;
use std::alloc::{AllocError, Global};

// How many places are stored at a time if the line has no such option.
const BATCH_ABSENT: u64 = 1_000;

// How many pages of the store are kept if the line has no such option: 4 MiB, enough for the upper levels of every map of a large
// store.
const CACHE_ABSENT: u64 = 1_024;

// The seed that places are made from if the line has no such option.
const FROM_ABSENT: u64 = 0;

// How many places are made if the line has no such option.
const COUNT_ABSENT: u64 = 1_000;

// The number of an option on the line, or `absent` if the option is not there.
fn number_of(matches: &ArgMatches<'_>, name: &str, absent: u64) -> u64
    requires fits { IfSome (one_of name.now (rows_of (found_of matches.now))) (IsUnsignedIn 0 18446744073709551615) }
    ensures { result ≡ number_or absent (one_of name.now (rows_of (found_of matches.now))) }
{
    match matches.get_one::<u64>(name) {
        Some(number) => number,
        None => absent,
    }
}

// A copy of a value that may be absent.
fn copy_of(alloc: Global, value: Option<&str>) -> Result<Option<String>, AllocError>
    ensures { IfOk result (λ copy. option_map string_bytes copy ≡ option_map (λ text. text.now) value.entry) }
{
    match value {
        Some(value) => Ok(Some(value.to_string(alloc)?)),
        None => Ok(None),
    }
}

// The job of a task, with the options on the line.
fn job_with(alloc: Global, matches: &ArgMatches<'_>, task: &Task<'_>) -> Result<Job, AllocError>
    requires numbers { HasNumbers (rows_of (found_of matches.now)) }
    ensures asked { IfOk result (λ job. asked_of job ≡ asked_with (rows_of (found_of matches.now)) task.now.store.now task.now.action task.now.policy) }
    ensures batch { IfOk result (λ job. (1 ≤ job.batch) × (job.batch ≤ 10000)) }
    ensures cache { IfOk result (λ job. job.cache ≤ 65536) }
    ensures count { IfOk result (λ job. (1 ≤ job.count) × (job.count ≤ 100000)) }
{
    Ok(Job {
        store: task.store.to_string(alloc)?,
        action: task.action,
        batch: number_of(matches, BATCH, BATCH_ABSENT) as u32,
        cache: number_of(matches, CACHE, CACHE_ABSENT) as u32,
        text: copy_of(alloc, value_of(matches, TEXT))?,
        policy: task.policy,
        from: number_of(matches, FROM, FROM_ABSENT),
        count: number_of(matches, COUNT, COUNT_ABSENT) as u32,
    })
}

/// Returns the job on a line, or why there is none.
pub(crate) fn job_of(alloc: Global, matches: &ArgMatches<'_>) -> Result<Job, WordsFault>
    requires numbers { HasNumbers (rows_of (found_of matches.now)) }
    ensures reading { IsReading result (asked_among (rows_of (found_of matches.now))) }
    ensures batch { IfOk result (λ job. (1 ≤ job.batch) × (job.batch ≤ 10000)) }
    ensures cache { IfOk result (λ job. job.cache ≤ 65536) }
    ensures count { IfOk result (λ job. (1 ≤ job.count) × (job.count ≤ 100000)) }
{
    match task_of(matches) {
        Ok(task) => Ok(job_with(alloc, matches, &task)?),
        Err(refusal) => Err(refusal.fault()),
    }
}
