//! The command line, as a command of `clap`.
ghost use Rattle.std.specs.Prelude.{◌≡◌, ◌≢◌, [], false, map, IfOk, IfErr, OnOk};
ghost use Rattle.clap.specs.Words.{app_of, found_of, kind_of, rows_of, rule_of};
ghost use Rattle.command_words.specs.Command.{HasNumbers, action_rule, batch_rule, cache_rule, count_rule, from_rule, policy_rule, program, refusals, store_rule, text_rule, values_on};

use clap::builder::ValueParser;
use clap::error::ErrorKind;
use clap::{Arg, ArgMatches, Command, Error};
use std::alloc::{AllocError, Global};

/// The program's name, the first word of a line.
pub(crate) const PROGRAM: &str = "irtree";

/// The name of the argument for the store.
pub(crate) const STORE: &str = "STORE";

/// The name of the argument for the action.
pub(crate) const ACTION: &str = "ACTION";

/// The option for how many places are stored at a time.
pub(crate) const BATCH: &str = "batch";

/// The option for how many pages are cached.
pub(crate) const CACHE: &str = "cache";

/// The option for the one property that is read.
pub(crate) const TEXT: &str = "text";

/// The option for the policy that splits the tree's full nodes.
pub(crate) const POLICY: &str = "policy";

/// The option for the seed that places are made from.
pub(crate) const FROM: &str = "from";

/// The option for how many places are made.
pub(crate) const COUNT: &str = "count";

fn store<'a>(alloc: Global) -> Arg<'a>
    ensures rule { rule_of result ≡ store_rule }
    ensures local { result.global ≡ false }
{
    Arg::new(alloc, STORE)
        .required(true)
        .value_parser(ValueParser::NonEmptyString)
        .help("The file of the store, or - for a store that ends with the run")
}

fn action<'a>(alloc: Global) -> Arg<'a>
    ensures rule { rule_of result ≡ action_rule }
    ensures local { result.global ≡ false }
{
    Arg::new(alloc, ACTION).required(true).help(
        "run: a script from standard input; load: GeoJSON from standard input; verify: whether a store is whole; make: places from a seed; upgrade: a store of version 1 to version 2",
    )
}

fn batch<'a>(alloc: Global) -> Arg<'a>
    ensures rule { rule_of result ≡ batch_rule }
    ensures local { result.global ≡ false }
{
    Arg::new(alloc, BATCH)
        .long(BATCH)
        .value_name("PLACES")
        .value_parser(ValueParser::Unsigned(1, 10_000))
        .help("How many places are stored at a time, 1000 if absent")
}

fn cache<'a>(alloc: Global) -> Arg<'a>
    ensures rule { rule_of result ≡ cache_rule }
    ensures local { result.global ≡ false }
{
    Arg::new(alloc, CACHE)
        .long(CACHE)
        .value_name("PAGES")
        .value_parser(ValueParser::Unsigned(0, 65_536))
        .help("How many pages of the store are kept in memory, 1024 if absent")
}

fn text<'a>(alloc: Global) -> Arg<'a>
    ensures rule { rule_of result ≡ text_rule }
    ensures local { result.global ≡ false }
{
    Arg::new(alloc, TEXT).long(TEXT).value_name("PROPERTY").help(
        "The one property that a load reads, all with a text if absent",
    )
}

fn policy<'a>(alloc: Global) -> Arg<'a>
    ensures rule { rule_of result ≡ policy_rule }
    ensures local { result.global ≡ false }
{
    Arg::new(alloc, POLICY)
        .long(POLICY)
        .value_name("POLICY")
        .help("How full nodes of the tree are split: quadratic, as if absent, halving or words")
}

fn from<'a>(alloc: Global) -> Arg<'a>
    ensures rule { rule_of result ≡ from_rule }
    ensures local { result.global ≡ false }
{
    Arg::new(alloc, FROM)
        .long(FROM)
        .value_name("SEED")
        .value_parser(ValueParser::Unsigned(0, 18_446_744_073_709_551_615))
        .help("The seed that places are made from, 0 if absent")
}

fn count<'a>(alloc: Global) -> Arg<'a>
    ensures rule { rule_of result ≡ count_rule }
    ensures local { result.global ≡ false }
{
    Arg::new(alloc, COUNT)
        .long(COUNT)
        .value_name("NUMBER")
        .value_parser(ValueParser::Unsigned(1, 100_000))
        .help("How many places are made, 1000 if absent")
}

// The command, with all the arguments that a line can have.
fn program<'a>(alloc: Global) -> Result<Command<'a>, AllocError>
    ensures { IfOk result (λ command. app_of command ≡ program) }
{
    Command::new(alloc, PROGRAM)
        .arg(store(alloc))?
        .arg(action(alloc))?
        .arg(batch(alloc))?
        .arg(cache(alloc))?
        .arg(text(alloc))?
        .arg(policy(alloc))?
        .arg(from(alloc))?
        .arg(count(alloc))
}

/// Returns the arguments of a line, whose first word is the program's name, or the error that explains why the line is refused.
pub(crate) fn parse<'a>(alloc: Global, line: &'a [&'a str]) -> Result<ArgMatches<'a>, Error>
    ensures taken { OnOk result (refusals (map (λ word. word.now) line.entry.now) ≡ []) }
    ensures values { IfOk result (λ matches. rows_of (found_of matches) ≡ values_on (map (λ word. word.now) line.entry.now)) }
    ensures numbers { IfOk result (λ matches. HasNumbers (rows_of (found_of matches))) }
    ensures refused { IfErr result (λ error. kind_of error ≢ ErrorKind.OutOfMemory → refusals (map (λ word. word.now) line.entry.now) ≢ []) }
{
    program(alloc)?.try_get_matches_from(line)
}
