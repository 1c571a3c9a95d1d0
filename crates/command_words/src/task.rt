//! The store and the action on a line, or why they are not a task.
ghost use Rattle.std.specs.Prelude.{◌≡◌, ◌&&◌, not, find, is_some, IfErr, IfOk, Ok, Err, Some, None, option_map};
ghost use Rattle.clap.specs.Words.{first_of, found_of, rows_of};
ghost use Rattle.command_words.specs.Job.{action_of, asked_among, asked_with, has_unused, policy_among, policy_of, uses};
ghost use Rattle.command_words.specs.Refusals.{fault_of};
ghost use Rattle.command_words.specs.declared.job.WordsFault.TheVariants as faults;

use crate::command::{ACTION, BATCH, CACHE, COUNT, FROM, POLICY, STORE, TEXT};
use crate::{Action, PolicyName, WordsFault};
use clap::ArgMatches;
use std::fmt;

static OPTIONS: [&str; 6] = [BATCH, CACHE, TEXT, POLICY, FROM, COUNT];

/// A store, what to do with it, and how its tree is split.
#[derive(Clone, Copy)]
pub(crate) struct Task<'a> {
    pub(crate) store: &'a str,
    pub(crate) action: Action,
    pub(crate) policy: PolicyName,
}

/// Why the arguments of a line are not a task. Its `Display` is the text for a person.
#[derive(Clone, Copy)]
pub(crate) enum Refusal<'a> {
    /// The line has no store.
    NoStore,
    /// The line has no action.
    NoAction,
    /// The word is not the name of an action.
    NotAnAction(&'a str),
    /// The word is not the name of a policy.
    NotAPolicy(&'a str),
    /// The action doesn't use the option.
    Unused(Action, &'static str),
}

impl Refusal<'_> {
    /// Returns the fault that the refusal is reported as.
    pub(crate) fn fault(&self) -> WordsFault
        ensures { result ≡ fault_of self.now }
    {
        match self {
            Refusal::Unused(_, _) => WordsFault::Unused,
            _ => WordsFault::Line,
        }
    }
}

impl fmt::Display for Refusal<'_> {
    fn fmt<W: fmt::Write>(&self, f: &mut fmt::Formatter<W>) -> fmt::Result {
        match self {
            Refusal::NoStore => f.write_str("no store is given"),
            Refusal::NoAction => f.write_str("no action is given"),
            Refusal::NotAnAction(word) => {
                write!(
                    f,
                    "unknown action '{word}', expected run, load, verify, make or upgrade"
                )
            }
            Refusal::NotAPolicy(word) => {
                write!(
                    f,
                    "unknown policy '{word}', expected quadratic, halving or words"
                )
            }
            Refusal::Unused(action, option) => {
                write!(f, "the action {action} doesn't use '--{option}'")
            }
        }
    }
}

/// Returns the first value of an argument on the line, or `None` if it has none.
pub(crate) fn value_of<'a>(matches: &ArgMatches<'a>, name: &str) -> Option<&'a str>
    ensures { option_map (λ value. value.now) result ≡ first_of name.now (rows_of (found_of matches.now)) }
{
    matches.get_str(name)
}

// The action with this name.
fn action_of(word: &str) -> Option<Action>
    ensures { result ≡ action_of word.now }
{
    if word == "run" {
        Some(Action::Run)
    } else if word == "load" {
        Some(Action::Load)
    } else if word == "verify" {
        Some(Action::Verify)
    } else if word == "make" {
        Some(Action::Make)
    } else if word == "upgrade" {
        Some(Action::Upgrade)
    } else {
        None
    }
}

// The policy with this name.
fn policy_of(word: &str) -> Option<PolicyName>
    ensures { result ≡ policy_of word.now }
{
    if word == "quadratic" {
        Some(PolicyName::Quadratic)
    } else if word == "halving" {
        Some(PolicyName::Halving)
    } else if word == "words" {
        Some(PolicyName::Words)
    } else {
        None
    }
}

// The policy on the line, or quadratic if there is none.
fn policy_on<'a>(matches: &ArgMatches<'a>) -> Result<PolicyName, Refusal<'a>>
    ensures policy { IfOk result (λ policy. policy_among (rows_of (found_of matches.now)) ≡ Some policy) }
    ensures refused { IfErr result (λ refusal. (policy_among (rows_of (found_of matches.now)) ≡ None) × (fault_of refusal ≡ faults.Line)) }
{
    match value_of(matches, POLICY) {
        None => Ok(PolicyName::Quadratic),
        Some(word) => match policy_of(word) {
            Some(policy) => Ok(policy),
            None => Err(Refusal::NotAPolicy(word)),
        },
    }
}

// Whether an option is on the line and the action does not use it.
fn is_unused(matches: &ArgMatches<'_>, action: Action, option: &str) -> bool
    ensures { result ≡ (is_some (first_of option.now (rows_of (found_of matches.now))) && not (uses action option.now)) }
{
    value_of(matches, option).is_some() && !action.uses(option)
}

// The first of these options that is on the line and that the action does not use.
fn unused_among<'o, 'a>(
    matches: &ArgMatches<'_>,
    action: Action,
    options: &'o [&'a str],
) -> Option<&'o &'a str>
    ensures { option_map (λ option. option.now) result ≡ find (λ option. is_some (first_of option.now (rows_of (found_of matches.now))) && not (uses action option.now)) options.entry.now }
{
    options
        .iter()
        .find(|option| is_unused(matches, action, option))
}

// The first option that is on the line and that the action does not use.
fn unused(matches: &ArgMatches<'_>, action: Action) -> Option<&'static str>
    ensures { is_some result ≡ has_unused action (rows_of (found_of matches.now)) }
{
    unused_among(matches, action, OPTIONS.as_slice()).copied()
}

/// Returns the task on a line, or why there is none.
pub(crate) fn task_of<'a>(matches: &ArgMatches<'a>) -> Result<Task<'a>, Refusal<'a>>
    ensures task { IfOk result (λ task. asked_among (rows_of (found_of matches.now)) ≡ Ok (asked_with (rows_of (found_of matches.now)) task.store.now task.action task.policy)) }
    ensures refused { IfErr result (λ refusal. asked_among (rows_of (found_of matches.now)) ≡ Err (fault_of refusal)) }
{
    let store = match value_of(matches, STORE) {
        Some(store) => store,
        None => return Err(Refusal::NoStore),
    };
    let word = match value_of(matches, ACTION) {
        Some(word) => word,
        None => return Err(Refusal::NoAction),
    };
    let action = match action_of(word) {
        Some(action) => action,
        None => return Err(Refusal::NotAnAction(word)),
    };
    let policy = policy_on(matches)?;
    match unused(matches, action) {
        Some(option) => Err(Refusal::Unused(action, option)),
        None => Ok(Task {
            store,
            action,
            policy,
        }),
    }
}
