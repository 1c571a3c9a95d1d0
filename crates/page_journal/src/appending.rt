//! Appending a record to the journal.
ghost use Rattle.std.specs.Prelude.{◌≡◌, ◌<◌, ◌+◌, ◌^◌, IsTrue, ℕ, List, length, IfOk, IfErr, OnOk};
ghost use Rattle.disk_model.specs.World.{LeavesOnly, LeavesOnlySeen, Keeps, Written, HasDiskCause};
ghost use Rattle.disk_model.specs.declared.disk.Area.TheVariants as areas;
ghost use Rattle.page_journal.specs.declared.fault.JournalFault.TheVariants as faults;
ghost use Rattle.page_journal.specs.Record.{IsBeforeOrAfter, SaysNothing, HasJournalCause, batch_of, with_batch, applied, IsRecordOf, IsReady, OverwritesAlso, AllBehindGate};

use crate::gate::set_gate;
use crate::{JournalFault, Record};
use disk_model::{Area, Disk, Failed};

// Writes the bytes after a gate, and makes them safe.
fn write_behind<D: Disk>(disk: &mut D, at: u64, bytes: &[u8]) -> Result<(), Failed>
    requires fits { at + 1 + length bytes.now < 2 ^ 48 }
    requires safe { IsTrue D.readable → LeavesOnlySeen (D.world disk.old) }
    ensures keeps { IsTrue D.readable → Keeps (AllBehindGate at) (D.world disk.old) (D.world disk.new) }
    ensures done { IsTrue D.readable → OnOk result (Written areas.Journal (at + 1) bytes.now (D.world disk.old).seen (D.world disk.new).seen) }
    ensures safe { IsTrue D.readable → OnOk result (LeavesOnlySeen (D.world disk.new)) }
    ensures reads { IsTrue D.readable → (D.world disk.new).reads ≡ (D.world disk.old).reads }
    ensures cause { HasDiskCause (D.world disk.old) (D.world disk.new) result }
    ensures room { D.room_of disk.new ≡ D.room_of disk.old }
{
    disk.write(Area::Journal, at + 1, bytes)?;
    disk.sync(Area::Journal)
}

/// Writes a record after those of the journal, with one write, and then opens its gate. Returns the offset of the next record.
///
/// `at` is the offset at which the journal's records end. The gate there is closed, and nothing is pending, as the call begins and again
/// after Ok. The record has at least one page, and ends below 2^48.
///
/// Returns only `Disk`, if a call of the disk fails. Then an image that a crash may leave holds the pages as they were or those with the
/// record's pages written, and `recover` finds out which. Takes no memory. Costs two writes, the record's and the gate's of one byte,
/// and two syncs of the journal.
pub fn append<D: Disk>(disk: &mut D, at: u64, gathered: &Record) -> Result<u64, JournalFault>
    requires fits { at + 1 + length gathered.now.bytes.items < 2 ^ 48 }
    requires ready { IsTrue D.readable → IsReady at (D.world disk.old) }

    // A crash at any moment leaves the pages as they were, or those with the record's pages written.
    ensures any_moment { IsTrue D.readable → (pages : List (ℕ × List ℕ)) → IsRecordOf pages gathered.now.bytes.items
        → LeavesOnly (D.world disk.old) (D.world disk.new) (IsBeforeOrAfter (batch_of pages) (D.world disk.old)) }

    ensures appended { IsTrue D.readable → (pages : List (ℕ × List ℕ)) → IsRecordOf pages gathered.now.bytes.items
        → OnOk result (applied (D.world disk.new).seen ≡ with_batch (batch_of pages) (applied (D.world disk.old).seen)) }
    ensures next { IfOk result (λ next. next ≡ at + length gathered.now.bytes.items) }
    ensures ready { IsTrue D.readable → (pages : List (ℕ × List ℕ)) → IsRecordOf pages gathered.now.bytes.items → IfOk result (λ next. IsReady next (D.world disk.new)) }
    // The pages area stays, and the records write each page that they wrote before, and those of this one.
    ensures area { IsTrue D.readable → (D.world disk.new).seen areas.Pages ≡ (D.world disk.old).seen areas.Pages }
    ensures overwritten { IsTrue D.readable → (pages : List (ℕ × List ℕ)) → IsRecordOf pages gathered.now.bytes.items → OnOk result (OverwritesAlso (batch_of pages) (D.world disk.old).seen (D.world disk.new).seen) }

    ensures quiet { IsTrue D.readable → SaysNothing (D.world disk.old) (D.world disk.new) }
    ensures reads { IsTrue D.readable → (D.world disk.new).reads ≡ (D.world disk.old).reads }
    ensures cause { HasJournalCause (D.world disk.old) (D.world disk.new) result }
    ensures disk_alone { IfErr result (λ fault. fault ≡ faults.Disk) }
    ensures room { D.room_of disk.new ≡ D.room_of disk.old }
{
    write_behind(disk, at, &gathered.bytes)?;
    set_gate(disk, at, 1)?;
    Ok(at + gathered.bytes.len() as u64)
}
