//! A job, and why command words are refused.
ghost use Rattle.std.specs.Prelude.{◌≡◌};
ghost use Rattle.command_words.specs.Job.{uses};
ghost use Rattle.command_words.specs.declared.job.WordsFault.TheVariants as faults;

use crate::command::{BATCH, CACHE, COUNT, FROM, POLICY, TEXT};
use std::alloc::AllocError;
use std::fmt;

/// What the program does.
#[derive(Clone, Copy, Debug, PartialEq, Eq)]
pub enum Action {
    /// Runs a script from the source.
    Run,
    /// Loads the places of a GeoJSON text from the source.
    Load,
    /// Decides whether the store is whole.
    Verify,
    /// Makes places from a seed, and asks queries over them.
    Make,
    /// Carries a store of version 1 over to version 2.
    Upgrade,
}

impl Action {
    /// Returns whether the action uses an option.
    pub(crate) fn uses(self, option: &str) -> bool
        ensures { result ≡ uses self option.now }
    {
        match self {
            Action::Run => option == CACHE || option == POLICY,
            Action::Load => {
                option == BATCH || option == CACHE || option == TEXT || option == POLICY
            }
            Action::Make => {
                option == BATCH
                    || option == CACHE
                    || option == POLICY
                    || option == FROM
                    || option == COUNT
            }
            Action::Verify | Action::Upgrade => option == CACHE,
        }
    }
}

impl fmt::Display for Action {
    fn fmt<W: fmt::Write>(&self, f: &mut fmt::Formatter<W>) -> fmt::Result {
        f.write_str(match self {
            Action::Run => "run",
            Action::Load => "load",
            Action::Verify => "verify",
            Action::Make => "make",
            Action::Upgrade => "upgrade",
        })
    }
}

/// How a full node of the tree is split.
#[derive(Clone, Copy, Debug, PartialEq, Eq)]
pub enum PolicyName {
    /// By the two entries that would waste the most area together.
    Quadratic,
    /// In the middle of the axis on which the entries are spread most.
    Halving,
    /// By the words that the entries share.
    Words,
}

/// What the command words ask for.
#[derive(Debug, Drop)]
pub struct Job {
    /// The store: a path, or `-` for a store that ends with the run. It has at least one byte.
    pub store: String,
    /// What to do.
    pub action: Action,
    /// How many places a load or a make stores at a time: 1 to 10,000.
    pub batch: u32,
    /// How many pages of the store are kept in memory: 0 to 65,536.
    pub cache: u32,
    /// The name of the one property that a load reads, or `None` if it reads all properties that have a text.
    pub text: Option<String>,
    /// How a full node of the tree is split.
    pub policy: PolicyName,
    /// The seed that places are made from.
    pub from: u64,
    /// How many places are made: 1 to 100,000.
    pub count: u32,
}

/// Why command words are refused. If several causes apply, the one with the least number is returned.
#[derive(Clone, Copy, Debug, PartialEq, Eq)]
pub enum WordsFault {
    /// They are not a command: a word is missing, unknown or one too many, an option has no value or is given twice, or a value is out
    /// of range.
    Line = 1,
    /// The action does not use an option that is given.
    Unused = 2,
    /// Memory ran out.
    Memory,
}

impl From<AllocError> for WordsFault {
    ghost from_gives = { λ _ fault. fault ≡ faults.Memory };

    fn from(_error: AllocError) -> WordsFault {
        WordsFault::Memory
    }
}
