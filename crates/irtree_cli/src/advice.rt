//! What people read on standard error beside the fixed line of an end: before it that an upgrade or a check begins, and after it the file
//! that is meant, what is wrong with it, and the next step. Lines on how many pages were read are `std_devices::Progress`'s.

use irtree_top::{
    Action, Ended, INPUT_MAX, InputFault, LOAD_MAX, LimitFault, StoreFault, explain_words,
};
use page_face::{Damage, Rule};
use std::alloc::{AllocError, Global};

/// How many bytes a page of a store has.
pub(crate) const PAGE_LEN: u64 = 4_096;

/// What a run was asked for.
#[derive(Clone, Copy)]
pub(crate) struct Task<'a> {
    /// The words of the command line after the program's name.
    pub(crate) words: &'a [String],
    /// The file of the store as it was named, or `None` for a store in memory.
    pub(crate) store: Option<&'a str>,
    /// What to do with the store.
    pub(crate) action: Action,
}

impl Task<'_> {
    /// Returns the store as text in one line: a question mark for each control character of its name.
    pub(crate) fn store_name(&self, alloc: Global) -> Result<String, AllocError> {
        let mut line = String::new(alloc);
        for c in self.store.unwrap_or("store in memory").chars() {
            line.push(if c.is_control() { '?' } else { c })?;
        }
        Ok(line)
    }

    // What is stored after an end that came in the middle of the run: an upgrade stores all in one commit.
    fn kept(&self) -> &'static str {
        match (self.store, self.action) {
            (None, _) => "the store in memory ended with the run",
            (Some(_), Action::Upgrade) => "the store is as it was, or all of it was carried over",
            (Some(_), Action::Verify) => "the store is as it was",
            (Some(_), _) => "what was acknowledged is stored",
        }
    }

    // What is stored if the input can't be read to its end: a load reads all of it first.
    fn kept_of_input(&self) -> &'static str {
        match self.action {
            Action::Load => "nothing was stored",
            Action::Run | Action::Verify | Action::Make | Action::Upgrade => self.kept(),
        }
    }
}

/// Returns the line that says what begins, with its LF, if the run may be silent for long; otherwise `None`.
pub(crate) fn on_start(alloc: Global, task: Task<'_>) -> Result<Option<String>, AllocError> {
    match task.action {
        Action::Upgrade => {
            let store = task.store_name(alloc)?;
            Ok(Some(format!(in alloc;
                "{}: an upgrade begins; until it is done the store stays as it was\n",
                store.as_str()
            )?))
        }
        Action::Verify => {
            let store = task.store_name(alloc)?;
            Ok(Some(format!(in alloc;
                "{}: a check of all its pages begins; nothing is changed\n",
                store.as_str()
            )?))
        }
        Action::Run | Action::Load | Action::Make => Ok(None),
    }
}

/// Returns the lines that follow the fixed line of an end, without the last LF, and `None` for `Done`.
///
/// Those of `Disk` are for a store in memory; for one of files, the station gives the line.
pub(crate) fn advice_on(
    alloc: Global,
    end: Ended,
    task: Task<'_>,
) -> Result<Option<String>, AllocError> {
    match end {
        Ended::Done => Ok(None),
        Ended::Memory => Ok(Some(on_memory(alloc, task)?)),
        Ended::Words => on_words(alloc, task.words),
        Ended::Disk => Ok(Some(on_pages(alloc, task)?)),
        Ended::Source => Ok(Some(on_source(alloc, task)?)),
        Ended::Sink => Ok(Some(on_sink(alloc, task)?)),
        Ended::Input(fault) => Ok(Some(on_input(alloc, fault, task)?)),
        Ended::Store(fault) => Ok(Some(on_store(alloc, fault, task)?)),
        Ended::Limit(fault) => Ok(Some(on_limit(alloc, fault, task)?)),
    }
}

/// Returns what follows the usage line if a word isn't UTF-8.
pub(crate) fn on_foreign_word(alloc: Global) -> Result<String, AllocError> {
    String::from_str(
        alloc,
        "a word that was given isn't UTF-8\nname the store in UTF-8",
    )
}

// Two lines: a file or a stream and what is wrong with it, and the next step.
fn two_lines(alloc: Global, file: &str, wrong: &str, step: &str) -> Result<String, AllocError> {
    format!(in alloc; "{}: {}\n{}", file, wrong, step)
}

// The same, with what is stored after what is wrong.
fn two_lines_kept(
    alloc: Global,
    file: &str,
    wrong: &str,
    kept: &str,
    step: &str,
) -> Result<String, AllocError> {
    format!(in alloc; "{}: {}; {}\n{}", file, wrong, kept, step)
}

fn on_memory(alloc: Global, task: Task<'_>) -> Result<String, AllocError> {
    let step = match task.action {
        Action::Run | Action::Verify | Action::Upgrade =>
            "free some memory, or use a smaller --cache",
        Action::Load | Action::Make => "free some memory, or use a smaller --cache or --batch",
    };
    let store = task.store_name(alloc)?;
    two_lines_kept(
        alloc,
        store.as_str(),
        "the program ran out of memory",
        task.kept(),
        step,
    )
}

// What is wrong with which word. For a request for help that is the help itself, of many lines.
fn on_words(alloc: Global, words: &[String]) -> Result<Option<String>, AllocError> {
    match explain_words(alloc, words)? {
        Some(help) if help.contains('\n') => Ok(Some(help)),
        Some(wrong) => Ok(Some(format!(in alloc;
            "{}\nmend that, or see irtree --help",
            wrong.as_str()
        )?)),
        None => Ok(None),
    }
}

fn on_pages(alloc: Global, task: Task<'_>) -> Result<String, AllocError> {
    let store = task.store_name(alloc)?;
    two_lines_kept(
        alloc,
        store.as_str(),
        "no memory is left for its pages",
        task.kept(),
        "free some memory, or name a file as STORE",
    )
}

fn on_source(alloc: Global, task: Task<'_>) -> Result<String, AllocError> {
    let step = match task.action {
        Action::Load => "check where it comes from, and load again",
        Action::Run | Action::Verify | Action::Make | Action::Upgrade => {
            "check where it comes from, and send the lines that have no reply yet"
        }
    };
    two_lines_kept(
        alloc,
        "standard input",
        "it can't be read",
        task.kept_of_input(),
        step,
    )
}

fn on_sink(alloc: Global, task: Task<'_>) -> Result<String, AllocError> {
    let step = match (task.store, task.action) {
        (None, _) | (Some(_), Action::Verify | Action::Upgrade) => {
            "check where it goes, and run again"
        }
        (Some(_), _) => {
            "check where it goes, and run again; the update whose reply is missing may be stored, too"
        }
    };
    two_lines_kept(
        alloc,
        "standard output",
        "it can't be written (a closed pipe or a full disk, perhaps)",
        task.kept(),
        step,
    )
}

fn on_input(alloc: Global, fault: InputFault, task: Task<'_>) -> Result<String, AllocError> {
    match fault {
        InputFault::NotUtf8(at) => on_byte(alloc, at, "the text isn't UTF-8", "write it in UTF-8"),
        InputFault::Syntax(at) => on_byte(
            alloc,
            at,
            "the text stops being JSON, or ends too early",
            "mend it there (newline-delimited GeoJSON goes into a FeatureCollection)",
        ),
        InputFault::TooDeep(at) => on_byte(
            alloc,
            at,
            "the 65th array or object within another opens",
            "use at most 64 levels",
        ),
        InputFault::NotFeatures => two_lines(
            alloc,
            "standard input",
            "it is JSON, but neither a Feature nor a FeatureCollection; nothing was stored",
            r#"wrap features as {"type":"FeatureCollection","features":[..]}"#,
        ),
        InputFault::Long => on_length(alloc, task),
    }
}

// What is wrong at a byte of a load's text, what to do, and how to find the byte.
fn on_byte(alloc: Global, at: u64, wrong: &str, step: &str) -> Result<String, AllocError> {
    format!(in alloc;
        "standard input: at byte {} {}; nothing was stored\n{}; head -c {} INPUT | tail -c 80 shows what comes before",
        at, wrong, step, at
    )
}

fn on_length(alloc: Global, task: Task<'_>) -> Result<String, AllocError> {
    let (text, limit, kept, step) = match task.action {
        Action::Load => (
            "text",
            LOAD_MAX,
            "nothing was stored",
            "split it into several FeatureCollections, and load one after the other",
        ),
        Action::Run | Action::Verify | Action::Make | Action::Upgrade => (
            "script",
            INPUT_MAX,
            "the lines that end within them were run",
            "split it, and run the lines that have no reply yet",
        ),
    };
    format!(in alloc;
        "standard input: the {} has more than {} bytes; {}\n{}",
        text, limit, kept, step
    )
}

fn on_store(alloc: Global, fault: StoreFault, task: Task<'_>) -> Result<String, AllocError> {
    let store = task.store_name(alloc)?;
    match fault {
        StoreFault::NotAStore => two_lines(
            alloc,
            store.as_str(),
            "it isn't an irtree store (it begins with other bytes); nothing was stored in it",
            "give another STORE, or a new name for a new store; load the places of an older version's store anew",
        ),
        StoreFault::BadJournal(at) => on_journal(alloc, store.as_str(), at),
        StoreFault::Damaged(damage) => on_damage(alloc, store.as_str(), damage),
        StoreFault::Version1 => two_lines(
            alloc,
            store.as_str(),
            "it was made by version 1 of irtree; nothing was stored in it",
            "carry it over with irtree STORE upgrade",
        ),
    }
}

fn on_journal(alloc: Global, store: &str, at: u64) -> Result<String, AllocError> {
    format!(in alloc;
        "{}.journal: a record is damaged at byte {}; nothing was written\nrestore the store and its journal together from a copy",
        store, at
    )
}

fn on_damage(alloc: Global, store: &str, damage: Damage) -> Result<String, AllocError> {
    format!(in alloc;
        "{}: page {} (at byte {}) is damaged: {}\n{}",
        store,
        damage.page,
        u64::from(damage.page) * PAGE_LEN,
        broken_rule(damage.rule),
        "restore the store and its journal from a copy, or load the places anew into a new store"
    )
}

// How a page breaks a rule. The table of rules in docs/FORMAT.md has the numbers.
fn broken_rule(rule: Rule) -> &'static str {
    match rule {
        Rule::Head => "a field is out of its range, or a spare byte isn't zero",
        Rule::Link => "it is named in the store, but it is page 0 or not among the pages counted",
        Rule::Kind => "it isn't of the kind or the map that its use asks for",
        Rule::Fill => "a count of rows, entries or slots is out of its bounds",
        Rule::Order => "its keys don't ascend, or leave the bounds set by the page above",
        Rule::Spare => "a spare byte isn't zero",
        Rule::Level =>
            "its level isn't one below that of the page above, or a root's level is above 9",
        Rule::Value => "a key, a place, a word, a number or a rectangle isn't of its form",
        Rule::Shared => "it is used twice, or neither used nor free",
        Rule::Rect => "a rectangle isn't the least one round what is below it",
        Rule::Row => "a row of words isn't that of the words below it",
        Rule::Entry => "the tree and the place map disagree about a place",
        Rule::Words =>
            "the word maps disagree, count a word's places wrong, or have a number too high",
        Rule::Counts => "the number of places or the next serial disagrees with the place map",
    }
}

fn on_limit(alloc: Global, fault: LimitFault, task: Task<'_>) -> Result<String, AllocError> {
    let store = task.store_name(alloc)?;
    let (reached, step) = match fault {
        LimitFault::Full => (
            "it holds 1,000,000 places, as many as it may",
            "remove places, or use a second store for the rest",
        ),
        LimitFault::Worn => (
            "its update number is at its end, 2^40",
            "load the places into a new store",
        ),
        LimitFault::NoRoom => (
            "it has as many pages as it may have",
            match task.action {
                Action::Upgrade => "remove places with version 1 of irtree, and upgrade it again",
                _ => "remove places, or use a second store for the rest",
            },
        ),
    };
    two_lines_kept(alloc, store.as_str(), reached, task.kept(), step)
}
