//! A disk in memory that ends with the run, with standard output as its sink.
ghost use Rattle.std.specs.Prelude.{◌≡◌, ◌≤◌, ◌<◌, ◌^◌, ◌+◌, ℕ, false, [], length, slice_index, IfOk, OnOk, OnErr, IsOk};
ghost use Rattle.disk_model.specs.World.{Reads, Torn, Written, HasDiskCause, HasSinkCause};
ghost use Rattle.disk_model.specs.Stored.{Put, stored};
ghost use Rattle.std.specs.Io.KnownBytes.{WriteAppends};
ghost use Rattle.std.proofs.Common.{rules};
ghost use Rattle.std_devices.specs.Untold.{untold};

use crate::output::write_some;
use disk_model::{Area, Disk, Failed, Station};
use std::alloc::{AllocError, Global};
use std::io::Write;
use std::rt::Stdout;

/// How many pages the area `Pages` may have.
const ROOM: u32 = 262_144;

/// A station with both areas in memory, and standard output as its sink.
///
/// Contracts do not know all of its content, since they do not know the sink's, but what its areas hold is proved of each call. A read
/// and a sync never fail. A write fails if memory runs out. Each call that fails raises the count of its kind.
#[derive(Drop)]
pub struct ScratchStation<W: Write + Drop = Stdout> {
    pages: Vec<u8>,
    journal: Vec<u8>,
    output: W,
    faults: u64,
    sink_faults: u64,
}

impl<W: Write + Drop> ScratchStation<W> {
    /// Returns a station with empty areas and this sink.
    pub fn new(alloc: Global, output: W) -> ScratchStation<W>
        ensures pages { result.pages.items ≡ [] }
        ensures journal { result.journal.items ≡ [] }
        ensures output { result.output ≡ output }
        ensures faults { result.faults ≡ 0 }
        ensures sink_faults { result.sink_faults ≡ 0 }
    {
        ScratchStation {
            pages: Vec::new(alloc),
            journal: Vec::new(alloc),
            output,
            faults: 0,
            sink_faults: 0,
        }
    }
}

// Copies the bytes from offset `at` on, with zeros past the end.
fn copy_out(kept: &[u8], at: usize, buf: &mut [u8])
    ensures { (i j : ℕ) → i < length buf.new → at + i ≡ j → slice_index buf.new i ≡ slice_index kept.now j }
{
    buf.fill(0);
    if at < kept.len() {
        let len = buf.len().min(kept.len() - at);
        buf[..len].copy_from_slice(&kept[at..at + len]);
    }
}

// Extends the bytes with zeros up to a length, which changes no byte that is read.
fn grow(kept: &mut Vec<u8>, len: usize) -> Result<(), AllocError>
    ensures len { OnOk result (len ≤ length kept.new.items) }
    ensures same { (i : ℕ) → slice_index kept.new.items i ≡ slice_index kept.old.items i }
{
    if kept.len() < len {
        kept.resize(len, 0)?;
    }
    Ok(())
}

// Puts the bytes at offset `at`, within the stored bytes.
fn put(kept: &mut Vec<u8>, at: usize, bytes: &[u8])
    requires { at + length bytes.now ≤ length kept.old.items }
    ensures { Put at bytes.now kept.old.items kept.new.items }
{
    kept[at..at + bytes.len()].copy_from_slice(bytes);
}

// Puts the bytes at offset `at`, after zeros if the area ends before it.
fn copy_in(kept: &mut Vec<u8>, at: usize, bytes: &[u8]) -> Result<(), AllocError>
    requires { at + length bytes.now < 2 ^ 48 }
    ensures written { OnOk result (Put at bytes.now kept.old.items kept.new.items) }
    ensures same { OnErr result ((i : ℕ) → slice_index kept.new.items i ≡ slice_index kept.old.items i) }
{
    grow(kept, at + bytes.len())?;
    put(kept, at, bytes);
    Ok(())
}

impl<W: Write + Drop> Disk for ScratchStation<W> {
    ghost readable = { false };

    ghost world = { λ station. untold station.faults station.sink_faults };

    ghost room_of = { λ station. 262144 };

    ghost leaves_seen = { λ station told. Prim.search rules };

    ghost counts_now = { λ station t image told. Prim.search rules };

    ghost only_now = { λ station image said told. Prim.search rules };

    fn room(&self) -> u32 {
        ROOM
    }

    fn read(&mut self, area: Area, at: u64, buf: &mut [u8]) -> Result<(), Failed>
        requires { at + length buf.old < 2 ^ 48 }
        ensures cause { HasDiskCause (untold self.old.faults self.old.sink_faults) (untold self.new.faults self.new.sink_faults) result }
        ensures done { IsOk result }
        ensures gives { Reads area at buf.new (stored self.old.pages.items self.old.journal.items) }
        ensures kept { self.new ≡ self.old }
    {
        match area {
            Area::Pages => copy_out(&self.pages, at as usize, buf),
            Area::Journal => copy_out(&self.journal, at as usize, buf),
        }
        Ok(())
    }

    fn write(&mut self, area: Area, at: u64, bytes: &[u8]) -> Result<(), Failed>
        requires { at + length bytes.now < 2 ^ 48 }
        ensures cause { HasDiskCause (untold self.old.faults self.old.sink_faults) (untold self.new.faults self.new.sink_faults) result }
        ensures written { OnOk result (Written area at bytes.now (stored self.old.pages.items self.old.journal.items) (stored self.new.pages.items self.new.journal.items)) }
        ensures torn { Torn area at (length bytes.now) (stored self.old.pages.items self.old.journal.items) (stored self.new.pages.items self.new.journal.items) }
        ensures output { self.new.output ≡ self.old.output }
    {
        let written = match area {
            Area::Pages => copy_in(&mut self.pages, at as usize, bytes),
            Area::Journal => copy_in(&mut self.journal, at as usize, bytes),
        };
        match written {
            Ok(()) => Ok(()),
            Err(_) => {
                self.faults = self.faults.saturating_add(1);
                Err(Failed)
            }
        }
    }

    // The areas end with the run, so there is nothing to make safe.
    fn sync(&mut self, _area: Area) -> Result<(), Failed>
        ensures done { IsOk result }
        ensures kept { self.new ≡ self.old }
    {
        Ok(())
    }
}

impl<W: Write + Drop> Station for ScratchStation<W> {
    fn say(&mut self, bytes: &[u8]) -> Result<usize, Failed>
        requires { 0 < length bytes.now }
        ensures count { IfOk result (λ n. (0 < n) × (n ≤ length bytes.now)) }
        ensures cause { HasSinkCause (untold self.old.faults self.old.sink_faults) (untold self.new.faults self.new.sink_faults) result }
        ensures bytes { WriteAppends (W.contents self.old.output) (W.contents self.new.output) result bytes.now }
        ensures pages { self.new.pages ≡ self.old.pages }
        ensures journal { self.new.journal ≡ self.old.journal }
    {
        match write_some(&mut self.output, bytes) {
            Some(n) => Ok(n),
            None => {
                self.sink_faults = self.sink_faults.saturating_add(1);
                Err(Failed)
            }
        }
    }
}
