//! A source over bytes in memory.
ghost use Rattle.std.specs.Prelude.{◌≡◌, ◌≤◌, ◌<◌, ◌↔◌, true, min, length, Contains, IfOk, IsErr};
ghost use Rattle.disk_model.specs.Plan.{once_more};
ghost use Rattle.disk_model.specs.Source.{HasGiven, HasReadCause};

use crate::{Failed, Source};
use spatial_base::Memory;
use std::alloc::Global;
use std::marker::Model;

/// A source that gives bytes held in memory, at most a fixed number of them a read. The reads that a test lists fail.
#[derive(Drop)]
pub struct MemorySource {
    bytes: Vec<u8>,
    at: usize,
    piece: usize,
    fails: Vec<u64>,
    reads: u64,
    faults: u64,
}

impl Model for MemorySource {
    ghost use Rattle.std.specs.Prelude.{◌≤◌, drop, vec_len};
    ghost use Rattle.disk_model.specs.MemorySource.{Held};

    ghost Value = { Held };

    ghost view = { λ s. record { left = drop s.at s.bytes.items; piece = s.piece; fails = s.fails.items; reads = s.reads; faults = s.faults } };

    ghost invariant = { λ s. (s.at ≤ vec_len s.bytes) × (1 ≤ s.piece) };
}

impl MemorySource {
    /// Returns a source of these bytes that gives at most `piece` of them a read.
    ///
    /// The reads whose numbers, counted from 1, are in `fails` fail and give nothing. Refuses only with `Memory`.
    pub fn new(
        alloc: Global,
        bytes: &[u8],
        piece: usize,
        fails: &[u64],
    ) -> Result<MemorySource, Memory>
        requires { 1 ≤ piece }
        ensures { IfOk result (λ source. source ≡ record { left = bytes.now; piece = piece; fails = fails.now; reads = 0; faults = 0 }) }
    {
        Ok(MemorySource {
            bytes: bytes.to_vec(alloc).map_err(|_| Memory)?,
            at: 0,
            piece,
            fails: fails.to_vec(alloc).map_err(|_| Memory)?,
            reads: 0,
            faults: 0,
        })
    }
}

impl Source for MemorySource {
    ghost readable = { true };

    ghost left = { λ source. source.left };

    ghost faults = { λ source. source.faults };

    // It fails exactly if the read is listed, and otherwise gives as much as the buffer, the piece and the bytes left allow.
    fn read(&mut self, buf: &mut [u8]) -> Result<usize, Failed>
        requires { 0 < length buf.old }
        ensures count { IfOk result (λ n. n ≤ length buf.new) }
        ensures told { HasGiven buf.new self.old.left self.new.left result }
        ensures cause { HasReadCause self.old.faults self.new.faults result }
        ensures due { IsErr result ↔ Contains self.old.fails (once_more self.old.reads) }
        ensures size { IfOk result (λ n. n ≡ min (length buf.old) (min self.old.piece (length self.old.left))) }
        ensures reads { self.new.reads ≡ once_more self.old.reads }
    {
        self.reads = self.reads.saturating_add(1);
        if self.fails.contains(&self.reads) {
            self.faults = self.faults.saturating_add(1);
            return Err(Failed);
        }
        let n = buf.len().min(self.piece).min(self.bytes.len() - self.at);
        buf[..n].copy_from_slice(&self.bytes[self.at..self.at + n]);
        self.at += n;
        Ok(n)
    }
}
