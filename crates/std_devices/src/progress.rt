//! How far a run has come, written to an output once a second at most.
ghost use Rattle.std.specs.Prelude.{◌≡◌, min, ◌+◌, ◌-◌, ◌^◌, None};

use spatial_base::Memory;
use std::alloc::{AllocError, Global};
use std::io::Write;
use std::rt::{Clock, Stderr};
use std::time::Instant;

// The least time from one line to the next.
const PAUSE_SECONDS: u64 = 1;

/// How many pages of a file a run has read, and an output for a line on that: standard error in the program.
///
/// The line is `STORE: N pages read so far; the file has M`. The first one comes a second after the first page, if the run goes on so
/// long, and each other one a second after the one before, at the next read. A line that can't be written is passed over.
#[derive(Drop)]
pub struct Progress<'a, C: Clock, W: Write + Drop = Stderr> {
    alloc: Global,
    clock: &'a C,
    output: W,
    store: String,
    pages: u64,
    read: u64,
    last: Option<Instant>,
}

impl<'a, C: Clock, W: Write + Drop> Progress<'a, C, W> {
    /// Returns a progress with no page read. `store` is the file's name in one line, and `pages` is how many pages it has.
    pub fn new(
        alloc: Global,
        clock: &'a C,
        output: W,
        store: String,
        pages: u64,
    ) -> Progress<'a, C, W>
        ensures output { result.output ≡ output }
        ensures read { result.read ≡ 0 }
    {
        Progress {
            alloc,
            clock,
            output,
            store,
            pages,
            read: 0,
            last: None,
        }
    }

    // Whether a line is due now. The first look at the clock is the start of the first pause.
    fn is_due(&mut self) -> bool
        ensures read { self.new.read ≡ self.old.read }
        ensures output { self.new.output ≡ self.old.output }
    {
        let Ok(now) = Instant::now(self.clock) else {
            return false;
        };
        match self.last {
            Some(last) if now.duration_since(last).as_secs() < PAUSE_SECONDS => false,
            last => {
                self.last = Some(now);
                last.is_some()
            }
        }
    }

    fn line(&self) -> Result<String, AllocError> {
        format!(in self.alloc;
            "{}: {} pages read so far; the file has {}\n",
            self.store.as_str(),
            self.read,
            self.pages
        )
    }

    /// Counts a page that was read, and writes a line if one is due.
    pub(crate) fn count(&mut self)
        ensures read { self.new.read ≡ min (self.old.read + 1) (2 ^ 64 - 1) }
    {
        self.read = self.read.saturating_add(1);
        if self.is_due() {
            if let Ok(line) = self.line() {
                let _ = self.output.write_all(line.as_bytes());
            }
        }
    }
}
