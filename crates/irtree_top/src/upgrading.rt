//! An upgrade: a store of version 1 is carried over to version 2.
ghost use Rattle.std.specs.Prelude.{◌≡◌, ◌≢◌, ◌≤◌, None, Some, length, IfErr, IfOk, IsTrue};
ghost use Rattle.disk_model.specs.World.{HasSinkCause, LeavesOnly, LeavesOnlySeen, Rose};
ghost use Rattle.page_journal.specs.Record.{IsReady};
ghost use Rattle.place_values.specs.State.{Contents};
ghost use Rattle.query_replies.specs.Written.{Adds};
ghost use Rattle.table_updates.specs.Version1.{StandsVersion1};
ghost use Rattle.irtree_engine.specs.Holding.{HoldsState};
ghost use Rattle.irtree_engine.specs.Upgrades.{LacksRoomToCarry, StandsEither};
ghost use Rattle.run_outcome.specs.Said.{SaysAll};
ghost use Rattle.irtree_top.specs.Run.{LeavesAlike};
ghost use Rattle.irtree_top.specs.Upgrade.{EndsUpgrade, HasLineCause, IsBrokenForUpgrade, IsCompleteUpgrade, IsLineEnd, IsOpenableEither, IsUpgradeEnd, IsUpgradeOpened, LeavesAloneByUpgrade, LeavesPresent, LeavesUpgraded, SaysFrontOfUpgrade, upgrade_line};

use crate::{Ended, LimitFault, StoreFault};
use disk_model::{Failed, Station};
use irtree_engine::upgrade;
use query_replies::{write_bytes, write_number};
use run_outcome::ended_by;
use spatial_base::Memory;
use std::alloc::Global;

// Appends the line of an upgrade: for a store of version 1 with the number of its places, for one of version 2 without.
#[tactic(auto, unfolding(crate::specs::Upgrade::upgraded_line))]
fn write_line(count: Option<u32>, out: &mut Vec<u8>) -> Result<(), Memory>
    ensures { Adds result out.old.items (upgrade_line count) out.new.items }
{
    match count {
        Some(places) => {
            write_bytes(b"upgraded ", &mut *out)?;
            write_number(u64::from(places), &mut *out)?;
            write_bytes(b"\n", out)
        }
        None => write_bytes(b"version 2\n", out),
    }
}

// Returns that line.
fn line_of(alloc: Global, count: Option<u32>) -> Result<Vec<u8>, Memory>
    ensures { IfOk result (λ line. line.items ≡ upgrade_line count) }
{
    let mut line = Vec::new(alloc);
    write_line(count, &mut line)?;
    Ok(line)
}

// Prints all of the bytes, as many a call as the station takes. After `Failed` a prefix of them was printed. No area is changed.
fn say_bytes<T: Station>(station: &mut T, bytes: &[u8]) -> Result<(), Failed>
    requires quiet { IsTrue T.readable → LeavesOnlySeen (T.world station.old) }
    ensures said { IsTrue T.readable → SaysAll bytes.now (T.world station.old) (T.world station.new) result }
    ensures quiet { IsTrue T.readable → LeavesOnlySeen (T.world station.new) }
    ensures cause { HasSinkCause (T.world station.old) (T.world station.new) result }
{
    let mut at = 0;
    while at < bytes.len() {
        at += station.say(&bytes[at..])?;
    }
    Ok(())
}

// Prints the line of an upgrade, where nothing is pending. Ends `Memory` if memory runs out for the line, and `Sink` if the sink fails.
fn say_line<T: Station>(alloc: Global, count: Option<u32>, station: &mut T) -> Result<(), Ended>
    requires quiet { IsTrue T.readable → LeavesOnlySeen (T.world station.old) }
    ensures said { IsTrue T.readable → SaysAll (upgrade_line count) (T.world station.old) (T.world station.new) result }
    ensures quiet { IsTrue T.readable → LeavesOnlySeen (T.world station.new) }
    ensures ends { IfErr result IsLineEnd }
    ensures cause { HasLineCause (T.world station.old) (T.world station.new) result }
{
    match line_of(alloc, count) {
        Ok(line) => match say_bytes(station, &line) {
            Ok(()) => Ok(()),
            Err(_) => Err(Ended::Sink),
        },
        Err(_) => Err(Ended::Memory),
    }
}

/// Carries the store of a station over to version 2, with a cache of so many pages, and prints the line of what was done.
pub(crate) fn run_upgrade<T: Station>(alloc: Global, cache: u32, station: &mut T) -> Ended
    ensures upgraded { IsTrue T.readable → (state : Contents) → StandsVersion1 (T.world station.old).seen state → result ≡ Ended.Done
        → EndsUpgrade (Some (length state.places)) state (T.world station.old) (T.world station.new) }
    ensures present { IsTrue T.readable → (state : Contents) → HoldsState (T.world station.old) state → result ≡ Ended.Done
        → EndsUpgrade None state (T.world station.old) (T.world station.new) }
    ensures upgrading { IsTrue T.readable → (state : Contents) → StandsVersion1 (T.world station.old).seen state
        → LeavesOnly (T.world station.old) (T.world station.new) (LeavesUpgraded state (T.world station.old)) }
    ensures still { IsTrue T.readable → (state : Contents) → HoldsState (T.world station.old) state
        → LeavesOnly (T.world station.old) (T.world station.new) (LeavesPresent None state (T.world station.old)) }
    ensures front { IsTrue T.readable → (state : Contents) → SaysFrontOfUpgrade state (T.world station.old) (T.world station.new) }
    ensures opened { IsTrue T.readable → IsUpgradeOpened result (T.world station.old).seen }
    ensures lacks { IsTrue T.readable → result ≡ Ended.Limit LimitFault.NoRoom → LacksRoomToCarry (T.room_of station.new) (T.world station.new).seen }
    ensures left { IsTrue T.readable → LeavesAloneByUpgrade result (T.world station.old) (T.world station.new) }
    ensures unopened { IsTrue T.readable → ¬ IsOpenableEither (T.world station.old).seen → LeavesAlike (T.world station.old) (T.world station.new) }
    ensures broken { (fault : StoreFault) → result ≡ Ended.Store fault → IsTrue T.readable → IsBrokenForUpgrade fault (T.world station.old).seen }
    ensures ends { IsUpgradeEnd result }
    ensures complete { IsTrue T.readable → (state : Contents) → StandsEither state (T.world station.old).seen
        → ¬ Rose (T.world station.old).faults (T.world station.new).faults → ¬ Rose (T.world station.old).sink_faults (T.world station.new).sink_faults
        → IsCompleteUpgrade result }
    ensures at_rest { result ≡ Ended.Done → IsTrue T.readable → IsReady 0 (T.world station.new) }
    ensures disk_cause { result ≡ Ended.Disk → Rose (T.world station.old).faults (T.world station.new).faults }
    ensures sink_cause { result ≡ Ended.Sink → Rose (T.world station.old).sink_faults (T.world station.new).sink_faults }
    ensures disk_told { result ≢ Ended.Disk → (T.world station.new).faults ≡ (T.world station.old).faults }
    ensures sink_told { result ≢ Ended.Sink → (T.world station.new).sink_faults ≡ (T.world station.old).sink_faults }
    ensures disk_later { (T.world station.old).faults ≤ (T.world station.new).faults }
    ensures sink_later { (T.world station.old).sink_faults ≤ (T.world station.new).sink_faults }
{
    match upgrade(alloc, &mut *station, cache) {
        Ok(count) => match say_line(alloc, count, station) {
            Ok(()) => Ended::Done,
            Err(end) => end,
        },
        Err(fault) => ended_by(fault),
    }
}
