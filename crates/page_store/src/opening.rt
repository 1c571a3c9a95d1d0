//! Opening a store: the journal is recovered, and page 0 is read.
ghost use Rattle.std.specs.Prelude.{◌≡◌, ◌≢◌, IsTrue, ℕ, IfOk, IfErr, IsErrOf};
ghost use Rattle.disk_model.specs.World.{LeavesOnly, WritesNothing};
ghost use Rattle.disk_model.specs.declared.disk.Area.TheVariants as areas;
ghost use Rattle.page_journal.specs.Record.{StandsAlike, IsBad};
ghost use Rattle.page_store.specs.declared.superblock.HeadFault.TheVariants as heads;
ghost use Rattle.page_store.specs.Opening.{SaysNothingReadsHead, IsFirstFault, IsFirstRead, IsOpened, IsOpenedVersion1, IsRefused, IsRefusedVersion1, Recovers, head_damage, HasOpenCause};
ghost use Rattle.page_store.specs.Superblock.{IsInRange, in_version2};

use crate::page::read_page;
use crate::superblock::{HeadFault, Superblock};
use disk_model::Disk;
use page_face::{Damage, Page, Rule};
use page_journal::{JournalFault, recover};

/// Why a store was not opened.
#[derive(Clone, Copy, Debug, PartialEq, Eq)]
pub enum OpenFault {
    /// The disk failed, and its count of faults rose.
    Disk,
    /// Page 0 of the recovered store isn't all zero, and begins neither with the magic nor with that of version 1.
    NotAStore,
    /// An open gate comes before bytes that are no record: the offset of the first byte of the field that breaks its form.
    BadJournal(u64),
    /// Page 0 begins with the magic and breaks the rule Head.
    Damaged(Damage),
    /// Page 0 of the recovered store begins with the magic of version 1.
    Version1,
    /// The call ran out of memory.
    Memory,
}

// Recovers the journal and returns page 0. Refuses `Disk`; `BadJournal`, and then nothing was written.
fn recover_first_page<D: Disk>(disk: &mut D) -> Result<Page, OpenFault>
    ensures any_moment { IsTrue D.readable → LeavesOnly (D.world disk.old) (D.world disk.new) (StandsAlike (D.world disk.old)) }
    ensures read { IsTrue D.readable → IfOk result (λ page. IsFirstRead page (D.world disk.old) (D.world disk.new)) }
    ensures bad { IsTrue D.readable → (at : ℕ) → IsErrOf result (OpenFault.BadJournal at) → IsBad (D.world disk.old).seen at }
    ensures untouched { IsTrue D.readable → (at : ℕ) → IsErrOf result (OpenFault.BadJournal at) → WritesNothing (D.world disk.old) (D.world disk.new) }
    ensures recovers { IsTrue D.readable → Recovers (D.world disk.old) (D.world disk.new) }
    ensures causes { IfErr result IsFirstFault }
    ensures quiet { IsTrue D.readable → SaysNothingReadsHead (D.world disk.old) (D.world disk.new) }
    ensures cause { HasOpenCause (D.world disk.old) (D.world disk.new) result }
    ensures room { D.room_of disk.new ≡ D.room_of disk.old }
{
    match recover(disk) {
        Ok(()) => {}
        Err(JournalFault::Disk) => return Err(OpenFault::Disk),
        Err(JournalFault::BadJournal(at)) => return Err(OpenFault::BadJournal(at)),
    }
    let mut page = [0; 4096];
    let Ok(()) = read_page(disk, 0, &mut page) else {
        return Err(OpenFault::Disk);
    };
    Ok(page)
}

// The rule Head, broken at page 0.
fn broken_head() -> OpenFault
    ensures { result ≡ OpenFault.Damaged head_damage }
{
    OpenFault::Damaged(Damage {
        page: 0,
        rule: Rule::Head,
    })
}

/// Recovers the journal and reads page 0.
///
/// Refuses `Disk`; `BadJournal`, and then nothing was written; `NotAStore`; `Version1`; `Damaged` with the rule Head at page 0. Takes
/// no memory. Costs a recovery and the reading of one page.
pub fn recover_superblock<D: Disk>(disk: &mut D) -> Result<Superblock, OpenFault>
    // A crash at any moment leaves what a crash could leave as the call began, or an image that holds the same pages.
    ensures any_moment { IsTrue D.readable → LeavesOnly (D.world disk.old) (D.world disk.new) (StandsAlike (D.world disk.old)) }

    ensures opened { IsTrue D.readable → IfOk result (λ block. IsOpened block (D.world disk.old) (D.world disk.new)) }
    ensures in_range { IfOk result IsInRange }
    ensures not_a_store { IsTrue D.readable → IsErrOf result OpenFault.NotAStore → IsRefused heads.NotAStore (D.world disk.old) (D.world disk.new) }
    ensures version1 { IsTrue D.readable → IsErrOf result OpenFault.Version1 → IsRefused heads.Version1 (D.world disk.old) (D.world disk.new) }
    ensures damaged { (damage : Damage) → IsErrOf result (OpenFault.Damaged damage)
        → (damage ≡ head_damage) × (IsTrue D.readable → IsRefused heads.Broken (D.world disk.old) (D.world disk.new)) }
    ensures bad { IsTrue D.readable → (at : ℕ) → IsErrOf result (OpenFault.BadJournal at) → IsBad (D.world disk.old).seen at }
    ensures untouched { IsTrue D.readable → (at : ℕ) → IsErrOf result (OpenFault.BadJournal at) → WritesNothing (D.world disk.old) (D.world disk.new) }
    ensures recovers { IsTrue D.readable → Recovers (D.world disk.old) (D.world disk.new) }
    ensures memory { result ≢ Err OpenFault.Memory }

    ensures quiet { IsTrue D.readable → SaysNothingReadsHead (D.world disk.old) (D.world disk.new) }
    ensures cause { HasOpenCause (D.world disk.old) (D.world disk.new) result }
    ensures room { D.room_of disk.new ≡ D.room_of disk.old }
{
    let page = recover_first_page(disk)?;
    match Superblock::decode(&page) {
        Ok(block) => Ok(block),
        Err(HeadFault::NotAStore) => Err(OpenFault::NotAStore),
        Err(HeadFault::Version1) => Err(OpenFault::Version1),
        Err(HeadFault::Broken) => Err(broken_head()),
    }
}

/// Recovers the journal and reads page 0 of a store of version 1. A page of zeros is the empty store.
///
/// Refuses as [`recover_superblock`], with the magic of version 1 in place of the present one, and never `Version1`. Costs as much.
pub fn recover_version1<D: Disk>(disk: &mut D) -> Result<Superblock, OpenFault>
    // A crash at any moment leaves what a crash could leave as the call began, or an image that holds the same pages.
    ensures any_moment { IsTrue D.readable → LeavesOnly (D.world disk.old) (D.world disk.new) (StandsAlike (D.world disk.old)) }

    ensures opened { IsTrue D.readable → IfOk result (λ block. IsOpenedVersion1 block (D.world disk.old) (D.world disk.new)) }
    ensures in_range { IfOk result (λ block. IsInRange (in_version2 block)) }
    ensures not_a_store { IsTrue D.readable → IsErrOf result OpenFault.NotAStore → IsRefusedVersion1 heads.NotAStore (D.world disk.old) (D.world disk.new) }
    ensures damaged { (damage : Damage) → IsErrOf result (OpenFault.Damaged damage)
        → (damage ≡ head_damage) × (IsTrue D.readable → IsRefusedVersion1 heads.Broken (D.world disk.old) (D.world disk.new)) }
    ensures bad { IsTrue D.readable → (at : ℕ) → IsErrOf result (OpenFault.BadJournal at) → IsBad (D.world disk.old).seen at }
    ensures untouched { IsTrue D.readable → (at : ℕ) → IsErrOf result (OpenFault.BadJournal at) → WritesNothing (D.world disk.old) (D.world disk.new) }
    ensures recovers { IsTrue D.readable → Recovers (D.world disk.old) (D.world disk.new) }
    ensures version1 { result ≢ Err OpenFault.Version1 }
    ensures memory { result ≢ Err OpenFault.Memory }

    ensures quiet { IsTrue D.readable → SaysNothingReadsHead (D.world disk.old) (D.world disk.new) }
    ensures cause { HasOpenCause (D.world disk.old) (D.world disk.new) result }
    ensures room { D.room_of disk.new ≡ D.room_of disk.old }
{
    let page = recover_first_page(disk)?;
    match Superblock::decode_version1(&page) {
        Ok(block) => Ok(block),
        Err(HeadFault::NotAStore) => Err(OpenFault::NotAStore),
        Err(HeadFault::Version1) => unreachable!(),
        Err(HeadFault::Broken) => Err(broken_head()),
    }
}
