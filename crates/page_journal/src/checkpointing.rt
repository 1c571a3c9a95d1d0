//! Writing the journal's pages in their places.
ghost use Rattle.std.specs.Prelude.{◌≡◌, ◌<◌, IsTrue, IfErr, OnOk};
ghost use Rattle.disk_model.specs.World.{LeavesOnly, LeavesOnlySeen, Keeps, HasDiskCause};
ghost use Rattle.disk_model.specs.declared.disk.Area.TheVariants as areas;
ghost use Rattle.page_journal.specs.declared.fault.JournalFault.TheVariants as faults;
ghost use Rattle.page_journal.specs.Record.{AllButPages, AreLastImages, HasJournalCause, IsJournal, IsReady, LeavesPages, SaysNothing, applied, batch_of, journal_end, kept, with_batch};

use crate::JournalFault;
use crate::gate::set_gate;
use crate::records::bytes_of;
use crate::runs::Run;
use disk_model::{Area, Disk, Failed};
use page_face::Page;
use std::alloc::Global;
use std::collections::BTreeMap;

// Writes the pages that are present in their places, neighbours at once, and makes them safe.
fn install<D: Disk>(
    alloc: Global,
    disk: &mut D,
    pages: &BTreeMap<u32, Option<Box<Page>>>,
) -> Result<(), Failed>
    requires { IsTrue D.readable → LeavesOnlySeen (D.world disk.old) }
    ensures keeps { IsTrue D.readable → Keeps (AllButPages (batch_of (kept pages.now.entries))) (D.world disk.old) (D.world disk.new) }
    ensures done { IsTrue D.readable → OnOk result ((D.world disk.new).seen areas.Pages
        ≡ with_batch (batch_of (kept pages.now.entries)) ((D.world disk.old).seen areas.Pages)) }
    ensures safe { IsTrue D.readable → OnOk result (LeavesOnlySeen (D.world disk.new)) }
    ensures reads { IsTrue D.readable → (D.world disk.new).reads ≡ (D.world disk.old).reads }
    ensures cause { HasDiskCause (D.world disk.old) (D.world disk.new) result }
    ensures room { D.room_of disk.new ≡ D.room_of disk.old }
{
    let mut run = Run::new(alloc);
    for (number, page) in pages {
        if let Some(page) = page {
            run.add(disk, *number, bytes_of(page))?;
        }
    }
    run.write(disk)?;
    disk.sync(Area::Pages)
}

/// Writes the last image of each page of the journal in its place, and closes the journal's first gate.
///
/// The pages are the last images of all records of the journal; a number without a page is passed over. The journal
/// has a record, and nothing is pending, as the call begins. After Ok nothing is pending, and the next record begins at 0.
///
/// Returns only `Disk`, if a call of the disk fails. At every moment an image that a crash may leave holds the same pages.
/// Costs a write for each run of at most 16 neighbouring pages, one of the gate's byte, two syncs, and a copy of each page. The copies
/// take the memory of 16 pages meanwhile. Without that memory, each page is written by itself.
pub fn checkpoint<D: Disk>(
    alloc: Global,
    disk: &mut D,
    pages: &BTreeMap<u32, Option<Box<Page>>>,
) -> Result<(), JournalFault>
    requires safe { IsTrue D.readable → LeavesOnlySeen (D.world disk.old) }
    requires journal { IsTrue D.readable → IsJournal ((D.world disk.old).seen areas.Journal) }
    requires some { IsTrue D.readable → 0 < journal_end ((D.world disk.old).seen areas.Journal) }
    requires images { IsTrue D.readable → AreLastImages (batch_of (kept pages.now.entries)) (D.world disk.old).seen }

    // A crash at any moment leaves an image that holds the same pages.
    ensures any_moment { IsTrue D.readable → LeavesOnly (D.world disk.old) (D.world disk.new) (LeavesPages (applied (D.world disk.old).seen) (D.world disk.old)) }

    ensures in_place { IsTrue D.readable → OnOk result ((D.world disk.new).seen areas.Pages ≡ applied (D.world disk.old).seen) }
    ensures applied { IsTrue D.readable → OnOk result (applied (D.world disk.new).seen ≡ applied (D.world disk.old).seen) }
    ensures ready { IsTrue D.readable → OnOk result (IsReady 0 (D.world disk.new)) }

    ensures quiet { IsTrue D.readable → SaysNothing (D.world disk.old) (D.world disk.new) }
    ensures reads { IsTrue D.readable → (D.world disk.new).reads ≡ (D.world disk.old).reads }
    ensures cause { HasJournalCause (D.world disk.old) (D.world disk.new) result }
    ensures disk_alone { IfErr result (λ fault. fault ≡ faults.Disk) }
    ensures room { D.room_of disk.new ≡ D.room_of disk.old }
{
    install(alloc, disk, pages)?;
    set_gate(disk, 0, 0)?;
    Ok(())
}
