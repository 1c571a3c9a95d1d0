//! A station in memory. It keeps its first content and a record of its calls, and its past is computed from these.
ghost use Rattle.std.specs.Prelude.{◌≡◌, ◌≤◌, ◌<◌, ◌+◌, ◌++◌, [], ◌∷◌, length, OnOk, OnErr, IfOk};
ghost use Rattle.disk_model.specs.World.{LeavesOnlySeen, Rose};
ghost use Rattle.disk_model.specs.Plan.{once_more};
ghost use Rattle.disk_model.specs.Replay.{replay};
ghost use Rattle.disk_model.specs.Stored.{image_of, stored, first_state};

use crate::areas::Areas;
use crate::call::Call;
use crate::plan::Plan;
use crate::{Area, CallKind, Disk, Fail, Failed, Station};
use spatial_base::Memory;
use std::alloc::{AllocError, Global};

/// A station over memory whose content contracts know. The calls that a test lists fail, and [`MemoryStation::crashed`] gives what a
/// crash may leave.
///
/// A call fails exactly if it is listed, comes after the stop, or finds no memory for the record of calls. Each failure is counted. The
/// record has each call for which there was memory, failed calls included. It keeps all bytes that were written to the areas and to the
/// sink, so the memory grows by that.
#[derive(Drop)]
pub struct MemoryStation {
    pub(crate) alloc: Global,
    pub(crate) first: Areas,
    pub(crate) made: Vec<Call>,
    pub(crate) areas: Areas,
    said: Vec<u8>,
    plan: Plan,
    pub(crate) room: u32,
    faults: u64,
    sink_faults: u64,
    lacks: u64,
    ghost seen_is: { (replay (first_state first) made.items).seen ≡ image_of areas },
    ghost said_is: { (replay (first_state first) made.items).said ≡ said.items },
}

// Adds a call to the record.
fn note(made: &mut Vec<Call>, call: Call) -> Result<(), AllocError>
    ensures ok { OnOk result (made.new.items ≡ made.old.items ++ call ∷ []) }
    ensures err { OnErr result (made.new.items ≡ made.old.items) }
{
    made.push(call)?;
    Ok(())
}

// Adds a piece to the bytes written to the sink.
fn append(said: &mut Vec<u8>, bytes: &[u8]) -> Result<(), AllocError>
    ensures ok { OnOk result (said.new.items ≡ said.old.items ++ bytes.now) }
    ensures err { OnErr result (said.new.items ≡ said.old.items) }
{
    said.extend_from_slice(bytes)
}

// Counts a fault.
fn failing(faults: &mut u64) -> Failed
    ensures counted { faults.new ≡ once_more faults.old }
    ensures rose { Rose faults.old faults.new }
    ensures later { faults.old ≤ faults.new }
{
    *faults = faults.saturating_add(1);
    Failed
}

// Counts a fault, and that memory ran out.
fn lacking(lacks: &mut u64, faults: &mut u64) -> Failed
    ensures lacks { Rose lacks.old lacks.new }
    ensures counted { faults.new ≡ once_more faults.old }
    ensures rose { Rose faults.old faults.new }
    ensures later { faults.old ≤ faults.new }
{
    *lacks = lacks.saturating_add(1);
    failing(faults)
}

impl MemoryStation {
    ghost use Rattle.disk_model.specs.Memory.{holds, state_of, past_of, memory_world, said_of, faults_of, lacks_of, plan_of, listed_of, IsFresh, room_in};
    ghost use Rattle.disk_model.specs.Plan.{calls_of};

    /// Returns a station whose areas are zeros, with room for `room` pages. Nothing was written to the sink, and no call is set to
    /// fail.
    pub fn new(alloc: Global, room: u32) -> MemoryStation
        ensures holds { holds result ≡ stored [] [] }
        ensures fresh { IsFresh result }
        ensures room { room_in result ≡ room }
    {
        MemoryStation::over(alloc, Areas::empty(alloc), Areas::empty(alloc), room)
    }

    /// Returns a station whose areas begin with these bytes, all of them safe on the disk.
    pub fn with_image(
        alloc: Global,
        pages: &[u8],
        journal: &[u8],
        room: u32,
    ) -> Result<MemoryStation, Memory>
        ensures holds { IfOk result (λ station. holds station ≡ stored pages.now journal.now) }
        ensures fresh { IfOk result IsFresh }
        ensures room { IfOk result (λ station. room_in station ≡ room) }
    {
        MemoryStation::holding(alloc, pages, journal, room).map_err(|_| Memory)
    }

    // Returns a station whose areas begin with these bytes.
    pub(crate) fn holding(
        alloc: Global,
        pages: &[u8],
        journal: &[u8],
        room: u32,
    ) -> Result<MemoryStation, AllocError>
        ensures holds { IfOk result (λ station. holds station ≡ stored pages.now journal.now) }
        ensures fresh { IfOk result IsFresh }
        ensures room { IfOk result (λ station. room_in station ≡ room) }
    {
        let first = Areas::of(alloc, pages, journal)?;
        let areas = Areas::of(alloc, pages, journal)?;
        Ok(MemoryStation::over(alloc, first, areas, room))
    }

    fn over(alloc: Global, first: Areas, areas: Areas, room: u32) -> MemoryStation
        requires { image_of areas ≡ image_of first }
        ensures holds { holds result ≡ image_of areas }
        ensures fresh { IsFresh result }
        ensures room { room_in result ≡ room }
    {
        MemoryStation {
            alloc,
            first,
            made: Vec::new(alloc),
            areas,
            said: Vec::new(alloc),
            plan: Plan::new(alloc),
            room,
            faults: 0,
            sink_faults: 0,
            lacks: 0,
        }
    }

    /// Returns the bytes written to the sink so far.
    pub fn said(&self) -> &[u8]
        ensures { result.now ≡ said_of self.now }
    {
        &self.said
    }

    /// Returns the counts of disk faults and of sink faults.
    pub fn faults(&self) -> (u64, u64)
        ensures { result ≡ faults_of self.now }
    {
        (self.faults, self.sink_faults)
    }

    /// Returns how many calls of `read`, `write`, `sync` and `say` were made, failed ones included.
    pub fn calls(&self) -> u64
        ensures { result ≡ calls_of (plan_of self.now) }
    {
        self.plan.calls()
    }

    /// Returns how many calls of `read` were made, failed ones included.
    pub fn reads(&self) -> u64
        ensures { result ≡ (plan_of self.now).reads }
    {
        self.plan.reads
    }

    /// Returns how many calls failed because memory ran out.
    pub fn lacks(&self) -> u64
        ensures { result ≡ lacks_of self.now }
    {
        self.lacks
    }

    /// Makes every call after the first `calls` ones fail, counted from when the station was made. A second stop replaces the first.
    pub fn stop_after(&mut self, calls: u64)
        ensures stop { plan_of self.new ≡ record (plan_of self.old) { stop = Some calls } }
        ensures past { past_of self.new ≡ past_of self.old }
        ensures same { state_of self.new ≡ state_of self.old }
        ensures safe { LeavesOnlySeen (memory_world self.old) → LeavesOnlySeen (memory_world self.new) }
        ensures faults { faults_of self.new ≡ faults_of self.old }
        ensures lacks { lacks_of self.new ≡ lacks_of self.old }
        ensures room { room_in self.new ≡ room_in self.old }
    {
        self.plan.stop = Some(calls);
    }

    /// Makes the listed calls fail, in addition to those listed before. Calls are counted from when the station was made.
    ///
    /// After `Memory` the station is as before.
    pub fn fail_at(&mut self, fails: &[Fail]) -> Result<(), Memory>
        ensures listed { OnOk result (listed_of self.new ≡ listed_of self.old ++ fails.now) }
        ensures kept { OnErr result (listed_of self.new ≡ listed_of self.old) }
        ensures stop { (plan_of self.new).stop ≡ (plan_of self.old).stop }
        ensures reads { (plan_of self.new).reads ≡ (plan_of self.old).reads }
        ensures calls { calls_of (plan_of self.new) ≡ calls_of (plan_of self.old) }
        ensures past { past_of self.new ≡ past_of self.old }
        ensures same { state_of self.new ≡ state_of self.old }
        ensures safe { LeavesOnlySeen (memory_world self.old) → LeavesOnlySeen (memory_world self.new) }
        ensures faults { faults_of self.new ≡ faults_of self.old }
        ensures lacks { lacks_of self.new ≡ lacks_of self.old }
        ensures room { room_in self.new ≡ room_in self.old }
    {
        self.plan.fails.extend_from_slice(fails).map_err(|_| Memory)
    }
}

impl Disk for MemoryStation {
    ghost use Rattle.std.specs.Prelude.{◌≡◌, ◌+◌, ◌^◌, ◌<◌, length, true, IsTrue};
    ghost use Rattle.disk_model.specs.Replay.{replay, world_of, counts_now, only_now, leaves_seen};
    ghost use Rattle.disk_model.specs.Stored.{first_state};
    ghost use Rattle.disk_model.specs.World.{HasRead, HasWritten, HasSynced, HasDiskCause};
    ghost use Rattle.disk_model.specs.Memory.{memory_world, room_in, FailsAsPlanned};

    ghost readable = { true };

    ghost world = { λ m. world_of (first_state m.first) m.made.items m.faults m.sink_faults };

    ghost room_of = { λ m. m.room };

    ghost leaves_seen = { λ m _. leaves_seen (replay (first_state m.first) m.made.items) };

    ghost counts_now = { λ m t image _ _ may. counts_now (first_state m.first) t m.made.items image may };

    ghost only_now = { λ m image said _ left. only_now (first_state m.first) m.made.items image said left };

    fn room(&self) -> u32 {
        self.room
    }

    fn read(&mut self, area: Area, at: u64, buf: &mut [u8]) -> Result<(), Failed>
        requires { at + length buf.old < 2 ^ 48 }
        ensures told { IsTrue true → HasRead area at buf.new (memory_world self.old) (memory_world self.new) result }
        ensures cause { HasDiskCause (memory_world self.old) (memory_world self.new) result }
        ensures room { room_in self.new ≡ room_in self.old }
        ensures planned { FailsAsPlanned CallKind.Read self.old self.new result }
    {
        let due = self.plan.next(CallKind::Read);
        let Ok(()) = note(&mut self.made, Call::Read(area, at, buf.len())) else {
            return Err(lacking(&mut self.lacks, &mut self.faults));
        };
        if due {
            return Err(failing(&mut self.faults));
        }
        self.areas.read(area, at as usize, buf);
        Ok(())
    }

    fn write(&mut self, area: Area, at: u64, bytes: &[u8]) -> Result<(), Failed>
        requires { at + length bytes.now < 2 ^ 48 }
        ensures told { IsTrue true → HasWritten area at bytes.now (memory_world self.old) (memory_world self.new) result }
        ensures cause { HasDiskCause (memory_world self.old) (memory_world self.new) result }
        ensures room { room_in self.new ≡ room_in self.old }
        ensures planned { FailsAsPlanned CallKind.Write self.old self.new result }
    {
        let due = self.plan.next(CallKind::Write);
        let Ok(copy) = bytes.to_vec(self.alloc) else {
            return Err(lacking(&mut self.lacks, &mut self.faults));
        };
        let end = at as usize + bytes.len();
        let Ok(()) = self.areas.reserve(area, end) else {
            return Err(lacking(&mut self.lacks, &mut self.faults));
        };
        let Ok(()) = note(&mut self.made, Call::Write(area, at, copy, !due)) else {
            return Err(lacking(&mut self.lacks, &mut self.faults));
        };
        if due {
            return Err(failing(&mut self.faults));
        }
        self.areas.write(area, at as usize, bytes);
        Ok(())
    }

    fn sync(&mut self, area: Area) -> Result<(), Failed>
        ensures told { IsTrue true → HasSynced area (memory_world self.old) (memory_world self.new) result }
        ensures cause { HasDiskCause (memory_world self.old) (memory_world self.new) result }
        ensures room { room_in self.new ≡ room_in self.old }
        ensures planned { FailsAsPlanned CallKind.Sync self.old self.new result }
    {
        let due = self.plan.next(CallKind::Sync);
        let Ok(()) = note(&mut self.made, Call::Sync(area, !due)) else {
            return Err(lacking(&mut self.lacks, &mut self.faults));
        };
        if due {
            return Err(failing(&mut self.faults));
        }
        Ok(())
    }
}

impl Station for MemoryStation {
    ghost use Rattle.std.specs.Prelude.{◌≡◌, ◌≤◌, ◌<◌, length, true, IsTrue, IfOk};
    ghost use Rattle.disk_model.specs.World.{HasSaid, HasSinkCause};
    ghost use Rattle.disk_model.specs.Memory.{memory_world, room_in, FailsAsPlanned};

    fn say(&mut self, bytes: &[u8]) -> Result<usize, Failed>
        requires { 0 < length bytes.now }
        ensures count { IfOk result (λ n. (0 < n) × (n ≤ length bytes.now)) }
        ensures told { IsTrue true → HasSaid bytes.now (memory_world self.old) (memory_world self.new) result }
        ensures cause { HasSinkCause (memory_world self.old) (memory_world self.new) result }
        ensures room { room_in self.new ≡ room_in self.old }
        ensures planned { FailsAsPlanned CallKind.Say self.old self.new result }
        ensures whole { IfOk result (λ n. n ≡ length bytes.now) }
    {
        let due = self.plan.next(CallKind::Say);
        let Ok(copy) = bytes.to_vec(self.alloc) else {
            return Err(lacking(&mut self.lacks, &mut self.sink_faults));
        };
        if due {
            let Ok(()) = note(&mut self.made, Call::Say(copy, 0)) else {
                return Err(lacking(&mut self.lacks, &mut self.sink_faults));
            };
            return Err(failing(&mut self.sink_faults));
        }
        let old = self.said.len();
        let Ok(()) = append(&mut self.said, bytes) else {
            return Err(lacking(&mut self.lacks, &mut self.sink_faults));
        };
        let Ok(()) = note(&mut self.made, Call::Say(copy, bytes.len())) else {
            self.said.truncate(old);
            return Err(lacking(&mut self.lacks, &mut self.sink_faults));
        };
        Ok(bytes.len())
    }
}
