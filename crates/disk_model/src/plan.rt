//! Which calls of a memory station fail, and how many calls of each kind were made.
ghost use Rattle.std.specs.Prelude.{◌≡◌, [], Some, None};
ghost use Rattle.disk_model.specs.Plan.{is_due, counted, count_of, calls_of, is_listed as is_listed_in, is_past as is_past_stop};

use crate::{CallKind, Fail};
use std::alloc::{AllocError, Global};

#[derive(Drop)]
pub(crate) struct Plan {
    pub(crate) fails: Vec<Fail>,
    pub(crate) stop: Option<u64>,
    pub(crate) reads: u64,
    pub(crate) writes: u64,
    pub(crate) syncs: u64,
    pub(crate) says: u64,
}

// Whether the call of this kind with this number is listed.
fn is_listed(kind: CallKind, nth: u64, fails: &[Fail]) -> bool
    ensures { result ≡ is_listed_in kind nth fails.now }
{
    fails
        .iter()
        .any(|fail| fail.kind == kind && fail.nth == nth)
}

// Whether more calls were made than the stop allows.
fn is_past(stop: Option<u64>, calls: u64) -> bool
    ensures { result ≡ is_past_stop stop calls }
{
    match stop {
        Some(stop) => stop < calls,
        None => false,
    }
}

impl Plan {
    // Returns the plan before any call, in which no call fails.
    pub(crate) fn new(alloc: Global) -> Plan
        ensures fails { result.fails.items ≡ [] }
        ensures stop { result.stop ≡ None }
        ensures reads { result.reads ≡ 0 }
        ensures writes { result.writes ≡ 0 }
        ensures syncs { result.syncs ≡ 0 }
        ensures says { result.says ≡ 0 }
    {
        Plan {
            fails: Vec::new(alloc),
            stop: None,
            reads: 0,
            writes: 0,
            syncs: 0,
            says: 0,
        }
    }

    // Returns how many calls were made.
    pub(crate) fn calls(&self) -> u64
        ensures { result ≡ calls_of self.now }
    {
        self.reads
            .saturating_add(self.writes)
            .saturating_add(self.syncs)
            .saturating_add(self.says)
    }

    // Counts a call of this kind, and returns its number.
    fn count(&mut self, kind: CallKind) -> u64
        ensures counted { self.new ≡ counted kind self.old }
        ensures nth { result ≡ count_of kind self.new }
    {
        match kind {
            CallKind::Read => {
                self.reads = self.reads.saturating_add(1);
                self.reads
            }
            CallKind::Write => {
                self.writes = self.writes.saturating_add(1);
                self.writes
            }
            CallKind::Sync => {
                self.syncs = self.syncs.saturating_add(1);
                self.syncs
            }
            CallKind::Say => {
                self.says = self.says.saturating_add(1);
                self.says
            }
        }
    }

    // Counts a call of this kind, and returns whether it fails.
    pub(crate) fn next(&mut self, kind: CallKind) -> bool
        ensures counted { self.new ≡ counted kind self.old }
        ensures due { result ≡ is_due kind self.old }
    {
        let nth = self.count(kind);
        let is_listed = is_listed(kind, nth, &self.fails);
        is_listed || is_past(self.stop, self.calls())
    }
}
