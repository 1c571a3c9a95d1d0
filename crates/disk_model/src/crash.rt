//! What a memory station holds after a crash.
ghost use Rattle.std.specs.Prelude.{◌≡◌, OnOk, IfOk, cond, length};
ghost use Rattle.disk_model.specs.Crash.{left_by, torn_by, torn_over};
ghost use Rattle.disk_model.specs.Replay.{State, MayLeave, step, overwritten, range_of};
ghost use Rattle.disk_model.specs.Stored.{image_of};

use crate::areas::Areas;
use crate::call::Call;
use crate::{Area, MemoryStation};
use spatial_base::Memory;
use std::alloc::{AllocError, Global};

/// What happens to the ranges that were written since the last sync of their area.
#[derive(Clone, Copy, Debug, PartialEq, Eq)]
pub enum Tear {
    /// They hold what a read before the crash gives.
    Kept,
    /// They hold what they held at that sync, or at the start if there was none.
    Lost,
    /// Every byte of them is this one.
    Filled(u8),
}

// Applies a write to what the areas hold.
fn follow_write(
    held: &mut Areas,
    area: Area,
    at: u64,
    bytes: &[u8],
    done: bool,
) -> Result<(), AllocError>
    ensures { OnOk result (image_of held.new
        ≡ cond done (overwritten (range_of area at (length bytes.now)) bytes.now (image_of held.old)) (image_of held.old)) }
{
    if !done {
        return Ok(());
    }
    let end = (at as usize).checked_add(bytes.len()).ok_or(AllocError)?;
    held.reserve(area, end)?;
    held.write(area, at as usize, bytes);
    Ok(())
}

// Applies a write to what a crash leaves: the range keeps its old bytes if `byte` is `None`, and is filled with that byte otherwise.
fn tear_write(
    left: &mut Areas,
    area: Area,
    at: u64,
    len: usize,
    byte: Option<u8>,
) -> Result<(), AllocError>
    ensures { OnOk result (image_of left.new ≡ torn_over byte (range_of area at len) (image_of left.old)) }
{
    let Some(byte) = byte else {
        return Ok(());
    };
    let end = (at as usize).checked_add(len).ok_or(AllocError)?;
    left.reserve(area, end)?;
    left.fill(area, at as usize, len, byte);
    Ok(())
}

// Applies one call to what the areas hold, and to what a crash leaves of them.
fn follow(
    alloc: Global,
    call: &Call,
    byte: Option<u8>,
    held: &mut Areas,
    left: &mut Areas,
) -> Result<(), AllocError>
    ensures { OnOk result ((st : State) → st.seen ≡ image_of held.old → torn_by byte st ≡ image_of left.old
        → ((step st call.now).seen ≡ image_of held.new) × (torn_by byte (step st call.now) ≡ image_of left.new)) }
{
    match call {
        Call::Write(area, at, bytes, done) => {
            follow_write(held, *area, *at, bytes, *done)?;
            tear_write(left, *area, *at, bytes.len(), byte)
        }
        Call::Sync(area, done) => {
            if *done {
                left.take_over(alloc, *area, held)?;
            }
            Ok(())
        }
        Call::Read(_, _, _) => Ok(()),
        Call::Say(_, _) => Ok(()),
    }
}

impl MemoryStation {
    ghost use Rattle.disk_model.specs.Memory.{holds, state_of, IsFresh, room_in};

    /// Returns a station of the same room that holds one image that a crash may leave now.
    ///
    /// The pending ranges are kept, lost, or filled with one byte. In the new station nothing is pending, nothing was written to the
    /// sink, no call is counted, and no call is set to fail. The cost is that of the calls made so far.
    pub fn crashed(&self, tear: Tear) -> Result<MemoryStation, Memory>
        ensures may { IfOk result (λ station. MayLeave (state_of self.now) (holds station)) }
        ensures left { IfOk result (λ station. holds station ≡ left_by tear (state_of self.now)) }
        ensures fresh { IfOk result IsFresh }
        ensures room { IfOk result (λ station. room_in station ≡ room_in self.now) }
    {
        self.after_crash(tear).map_err(|_| Memory)
    }

    // Returns what a crash leaves of the station, as a station.
    fn after_crash(&self, tear: Tear) -> Result<MemoryStation, AllocError>
        ensures left { IfOk result (λ station. holds station ≡ left_by tear (state_of self.now)) }
        ensures fresh { IfOk result IsFresh }
        ensures room { IfOk result (λ station. room_in station ≡ room_in self.now) }
    {
        let byte = match tear {
            Tear::Kept => return self.with_areas(&self.areas),
            Tear::Lost => None,
            Tear::Filled(byte) => Some(byte),
        };
        let left = self.torn(byte)?;
        self.with_areas(&left)
    }

    // Returns a station of the same room that holds these areas.
    fn with_areas(&self, areas: &Areas) -> Result<MemoryStation, AllocError>
        ensures holds { IfOk result (λ station. holds station ≡ image_of areas.now) }
        ensures fresh { IfOk result IsFresh }
        ensures room { IfOk result (λ station. room_in station ≡ room_in self.now) }
    {
        MemoryStation::holding(
            self.alloc,
            areas.bytes(Area::Pages),
            areas.bytes(Area::Journal),
            self.room,
        )
    }

    // Returns what the calls leave if the pending ranges are lost, or filled with a byte.
    fn torn(&self, byte: Option<u8>) -> Result<Areas, AllocError>
        ensures { IfOk result (λ left. image_of left ≡ torn_by byte (state_of self.now)) }
    {
        let mut held = self.first.copy(self.alloc)?;
        let mut left = self.first.copy(self.alloc)?;
        for call in &self.made {
            follow(self.alloc, call, byte, &mut held, &mut left)?;
        }
        Ok(left)
    }
}
