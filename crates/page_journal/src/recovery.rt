//! Recovery: writing the journal's records in their places after a crash.
ghost use Rattle.std.specs.Prelude.{◌≡◌, ◌≢◌, ◌<◌, ◌+◌, ◌*◌, ◌^◌, IsTrue, ℕ, IfOk, IfErr, OnOk, IsErrOf};
ghost use Rattle.disk_model.specs.World.{LeavesOnly, LeavesOnlySeen, Keeps, WritesNothing, HasDiskCause};
ghost use Rattle.disk_model.specs.declared.disk.Area.TheVariants as areas;
ghost use Rattle.page_journal.specs.declared.fault.JournalFault.TheVariants as faults;
ghost use Rattle.page_journal.specs.Record.{StandsFor, StandsAlike, IsBad, IsFirstFault, IsReady, IsRecordAt, IsAscending, Fits, HasRecords, batch_at, next_gate, with_batch, with_records, word, AllButPages, AllButRecords, Spares, SaysNothing, HasJournalCause, applied};

use crate::JournalFault;
use crate::gate::set_gate;
use disk_model::{Area, Disk, Failed};

// Reads the u32 in four bytes of the journal.
fn read_word<D: Disk>(disk: &mut D, at: u64) -> Result<u32, Failed>
    requires { at + 4 < 2 ^ 48 }
    ensures rested { IsTrue D.readable → WritesNothing (D.world disk.old) (D.world disk.new) }
    ensures word { IsTrue D.readable → IfOk result (λ n. n ≡ word ((D.world disk.old).seen areas.Journal) at) }
    ensures cause { HasDiskCause (D.world disk.old) (D.world disk.new) result }
    ensures room { D.room_of disk.new ≡ D.room_of disk.old }
{
    let mut bytes = [0; 4];
    disk.read(Area::Journal, at, &mut bytes)?;
    Ok(u32::from_be_bytes(bytes))
}

// Reads a byte of the journal.
fn read_byte<D: Disk>(disk: &mut D, at: u64) -> Result<u8, Failed>
    requires { at + 1 < 2 ^ 48 }
    ensures rested { IsTrue D.readable → WritesNothing (D.world disk.old) (D.world disk.new) }
    ensures byte { IsTrue D.readable → IfOk result (λ n. n ≡ (D.world disk.old).seen areas.Journal at) }
    ensures cause { HasDiskCause (D.world disk.old) (D.world disk.new) result }
    ensures room { D.room_of disk.new ≡ D.room_of disk.old }
{
    let mut bytes = [0; 1];
    disk.read(Area::Journal, at, &mut bytes)?;
    Ok(bytes[0])
}

// Each gate is below this offset, so that a byte after it can be read.
const END: u64 = (1 << 48) - 1;

// Reads the number of pages of the record whose gate is here.
fn read_count<D: Disk>(disk: &mut D, at: u64) -> Result<u32, JournalFault>
    requires { at + 1 < 2 ^ 48 }
    ensures rested { IsTrue D.readable → WritesNothing (D.world disk.old) (D.world disk.new) }
    ensures count { IsTrue D.readable → IfOk result (λ n. n ≡ (batch_at ((D.world disk.old).seen areas.Journal) at).count) }
    ensures some { IfOk result (λ n. 0 < n) }
    ensures fits { IfOk result (λ n. at + 5 + 4100 * n + 1 < 2 ^ 48) }
    ensures bad { IsTrue D.readable → (fault : ℕ) → IsErrOf result (faults.BadJournal fault) → IsFirstFault ((D.world disk.old).seen areas.Journal) at fault }
    ensures refused { IsTrue D.readable → (fault : ℕ) → IsErrOf result (faults.BadJournal fault) → Fits ((D.world disk.old).seen areas.Journal) at → ⊥ }
    ensures cause { HasJournalCause (D.world disk.old) (D.world disk.new) result }
    ensures room { D.room_of disk.new ≡ D.room_of disk.old }
{
    if at + 5 >= END {
        return Err(JournalFault::BadJournal(at + 1));
    }
    let count = read_word(disk, at + 1)?;
    if count == 0 || at + 5 + 4100 * count as u64 >= END {
        return Err(JournalFault::BadJournal(at + 1));
    }
    Ok(count)
}

// Checks the page numbers of a record.
fn check_numbers<D: Disk>(disk: &mut D, at: u64, count: u32) -> Result<(), JournalFault>
    requires some { 0 < count }
    requires fits { at + 5 + 4100 * count + 1 < 2 ^ 48 }
    requires count { IsTrue D.readable → count ≡ (batch_at ((D.world disk.old).seen areas.Journal) at).count }
    ensures rested { IsTrue D.readable → WritesNothing (D.world disk.old) (D.world disk.new) }
    ensures ascending { IsTrue D.readable → OnOk result (IsAscending (batch_at ((D.world disk.old).seen areas.Journal) at)) }
    ensures bad { IsTrue D.readable → (fault : ℕ) → IsErrOf result (faults.BadJournal fault) → IsFirstFault ((D.world disk.old).seen areas.Journal) at fault }
    ensures cause { HasJournalCause (D.world disk.old) (D.world disk.new) result }
    ensures room { D.room_of disk.new ≡ D.room_of disk.old }
{
    let mut last = read_word(disk, at + 5)?;
    let mut k: u64 = 1;
    while k < count as u64 {
        let number = read_word(disk, at + 5 + 4100 * k)?;
        if number <= last {
            return Err(JournalFault::BadJournal(at + 5 + 4100 * k));
        }
        last = number;
        k += 1;
    }
    Ok(())
}

// Checks the record whose gate is here and is open. Returns the offset of the next gate.
fn check_record<D: Disk>(disk: &mut D, at: u64) -> Result<u64, JournalFault>
    requires fits { at + 1 < 2 ^ 48 }
    requires open_gate { IsTrue D.readable → (D.world disk.old).seen areas.Journal at ≢ 0 }
    ensures rested { IsTrue D.readable → WritesNothing (D.world disk.old) (D.world disk.new) }
    ensures next { IsTrue D.readable → IfOk result (λ next. next ≡ next_gate ((D.world disk.old).seen areas.Journal) at) }
    ensures record_is { IsTrue D.readable → OnOk result (IsRecordAt ((D.world disk.old).seen areas.Journal) at) }
    ensures behind { IfOk result (λ next. (at < next) × (next + 1 < 2 ^ 48)) }
    ensures bad { IsTrue D.readable → (fault : ℕ) → IsErrOf result (faults.BadJournal fault) → IsFirstFault ((D.world disk.old).seen areas.Journal) at fault }
    ensures cause { HasJournalCause (D.world disk.old) (D.world disk.new) result }
    ensures room { D.room_of disk.new ≡ D.room_of disk.old }
{
    let count = read_count(disk, at)?;
    check_numbers(disk, at, count)?;
    Ok(at + 5 + 4100 * count as u64)
}

// Checks all records before the first closed gate. Returns how many there are.
fn check_all<D: Disk>(disk: &mut D) -> Result<u64, JournalFault>
    ensures rested { IsTrue D.readable → WritesNothing (D.world disk.old) (D.world disk.new) }
    ensures records { IsTrue D.readable → IfOk result (λ n. HasRecords ((D.world disk.old).seen areas.Journal) n) }
    ensures bad { IsTrue D.readable → (at : ℕ) → IsErrOf result (faults.BadJournal at) → IsBad (D.world disk.old).seen at }
    ensures cause { HasJournalCause (D.world disk.old) (D.world disk.new) result }
    ensures room { D.room_of disk.new ≡ D.room_of disk.old }
{
    let mut at: u64 = 0;
    let mut records: u64 = 0;
    let mut gate = read_byte(disk, 0)?;
    while gate != 0 {
        at = check_record(disk, at)?;
        records += 1;
        gate = read_byte(disk, at)?;
    }
    Ok(records)
}

// Writes the pages of the record whose gate is here in their places. Returns the offset of the next gate.
fn install_record<D: Disk>(disk: &mut D, at: u64) -> Result<u64, JournalFault>
    requires fits { at + 1 < 2 ^ 48 }
    requires record_is { IsTrue D.readable → IsRecordAt ((D.world disk.old).seen areas.Journal) at }
    ensures spares { IsTrue D.readable → Spares (AllButPages (batch_at ((D.world disk.old).seen areas.Journal) at)) (D.world disk.old) (D.world disk.new) }
    ensures done { IsTrue D.readable → OnOk result ((D.world disk.new).seen areas.Pages
        ≡ with_batch (batch_at ((D.world disk.old).seen areas.Journal) at) ((D.world disk.old).seen areas.Pages)) }
    ensures next { IsTrue D.readable → IfOk result (λ next. next ≡ next_gate ((D.world disk.old).seen areas.Journal) at) }
    ensures behind { IfOk result (λ next. next + 1 < 2 ^ 48) }
    ensures cause { HasJournalCause (D.world disk.old) (D.world disk.new) result }
    ensures disk_alone { IsTrue D.readable → IfErr result (λ fault. fault ≡ faults.Disk) }
    ensures room { D.room_of disk.new ≡ D.room_of disk.old }
{
    let count = read_count(disk, at)?;
    let mut page = [0; 4096];
    for k in 0..count as u64 {
        let number = read_word(disk, at + 5 + 4100 * k)?;
        disk.read(Area::Journal, at + 9 + 4100 * k, &mut page)?;
        disk.write(Area::Pages, 4096 * number as u64, &page)?;
    }
    Ok(at + 5 + 4100 * count as u64)
}

// Writes the pages of the first records in their places, record by record, and makes them safe.
fn install_all<D: Disk>(disk: &mut D, records: u64) -> Result<(), JournalFault>
    requires records { IsTrue D.readable → HasRecords ((D.world disk.old).seen areas.Journal) records }
    requires safe { IsTrue D.readable → LeavesOnlySeen (D.world disk.old) }
    ensures keeps { IsTrue D.readable → Keeps (AllButRecords ((D.world disk.old).seen areas.Journal) records) (D.world disk.old) (D.world disk.new) }
    ensures done { IsTrue D.readable → OnOk result ((D.world disk.new).seen areas.Pages
        ≡ with_records ((D.world disk.old).seen areas.Journal) records ((D.world disk.old).seen areas.Pages)) }
    ensures safe { IsTrue D.readable → OnOk result (LeavesOnlySeen (D.world disk.new)) }
    ensures cause { HasJournalCause (D.world disk.old) (D.world disk.new) result }
    ensures disk_alone { IsTrue D.readable → IfErr result (λ fault. fault ≡ faults.Disk) }
    ensures room { D.room_of disk.new ≡ D.room_of disk.old }
{
    let mut at: u64 = 0;
    for n in 0..records {
        at = install_record(disk, at)?;
    }
    disk.sync(Area::Pages)?;
    Ok(())
}

/// Writes the pages of all records before the first closed gate in their places, in order, and closes the journal's first gate.
/// If that gate is closed already, everything stays as it is.
///
/// Returns `Disk` if a call of the disk fails. Returns `BadJournal` exactly when an open gate comes before bytes that are no record, with
/// the offset of the first byte of the field that breaks its form. All records are checked before the first write, so after
/// `BadJournal` nothing was written. It begins with a sync of both areas, so that after Ok nothing is pending.
///
/// Takes no memory. Costs two syncs and a read of the first gate. For each record its number of pages, each page's number and the next
/// gate are read first. Then the numbers are read once more, each page is read and written once, and two more syncs and the write of
/// the gate follow.
pub fn recover<D: Disk>(disk: &mut D) -> Result<(), JournalFault>
    // A crash at any moment leaves what a crash could leave as the call began, or an image that holds the same pages
    // as the image that reads give then.
    ensures any_moment { IsTrue D.readable → LeavesOnly (D.world disk.old) (D.world disk.new) (StandsAlike (D.world disk.old)) }

    ensures applied { IsTrue D.readable → OnOk result (StandsFor (D.world disk.old).seen ((D.world disk.new).seen areas.Pages)) }
    ensures same { IsTrue D.readable → OnOk result (StandsFor (D.world disk.old).seen (applied (D.world disk.new).seen)) }
    ensures ready { IsTrue D.readable → OnOk result (IsReady 0 (D.world disk.new)) }

    ensures bad { IsTrue D.readable → (at : ℕ) → IsErrOf result (faults.BadJournal at) → IsBad (D.world disk.old).seen at }
    ensures untouched { IsTrue D.readable → (at : ℕ) → IsErrOf result (faults.BadJournal at) → WritesNothing (D.world disk.old) (D.world disk.new) }

    // If the first gate is closed, nothing is written. Of the journal's bytes only that gate changes.
    ensures closed { IsTrue D.readable → (D.world disk.old).seen areas.Journal 0 ≡ 0 → WritesNothing (D.world disk.old) (D.world disk.new) }
    ensures journal { IsTrue D.readable → (i : ℕ) → 0 < i → (D.world disk.new).seen areas.Journal i ≡ (D.world disk.old).seen areas.Journal i }

    ensures quiet { IsTrue D.readable → SaysNothing (D.world disk.old) (D.world disk.new) }
    ensures cause { HasJournalCause (D.world disk.old) (D.world disk.new) result }
    ensures room { D.room_of disk.new ≡ D.room_of disk.old }
{
    disk.sync(Area::Journal)?;
    disk.sync(Area::Pages)?;
    let records = check_all(disk)?;
    if records == 0 {
        return Ok(());
    }
    install_all(disk, records)?;
    set_gate(disk, 0, 0)?;
    Ok(())
}
