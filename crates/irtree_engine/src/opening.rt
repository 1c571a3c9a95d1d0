//! Opening a store.
ghost use Rattle.std.specs.Prelude.{◌≡◌, ◌≢◌, ◌≤◌, IsTrue, IfOk, IfErr, IsErrOf, ℕ};
ghost use Rattle.disk_model.specs.World.{LeavesOnly, Rose};
ghost use Rattle.page_journal.specs.Record.{StandsAlike, IsBad};
ghost use Rattle.page_store.specs.Opening.{IsOpened, Recovers, SaysNothingReadsHead, head_damage};
ghost use Rattle.place_values.specs.State.{Contents};
ghost use Rattle.irtree_engine.specs.Holding.{HasBrokenHead, HoldsState, IsForeign, IsVersion1, LeavesState, StandsForNone};
ghost use Rattle.irtree_engine.specs.Faults.{IsOpenFault};
ghost use Rattle.irtree_engine.specs.Opening.{LeavesRefused};
ghost use Rattle.page_store.specs.Superblock.{IsInRange};

use crate::EngineFault;
use disk_model::Disk;
use page_face::Damage;
use page_store::{OpenFault, Superblock};

/// Recovers the journal and reads page 0.
///
/// Refuses `Disk`. Refuses `BadJournal`, and then nothing was written. Refuses `NotAStore`, `Version1`, and `Damaged` with the rule Head at
/// page 0: then the journal is recovered, and the disk holds the pages that it held before. Takes no memory. Costs a recovery, and one
/// page read.
pub fn recover_superblock<D: Disk>(disk: &mut D) -> Result<Superblock, EngineFault>
    // The image that reads gave holds the same state as what reads give now, and so does every image of a crash meanwhile.
    ensures opened { IsTrue D.readable → IfOk result (λ block. IsOpened block (D.world disk.old) (D.world disk.new)) }
    ensures holds { IsTrue D.readable → (state : Contents) → HoldsState (D.world disk.old) state → IfOk result (λ _. HoldsState (D.world disk.new) state) }
    ensures any_moment { IsTrue D.readable → (state : Contents) → HoldsState (D.world disk.old) state
        → LeavesOnly (D.world disk.old) (D.world disk.new) (LeavesState state (D.world disk.old)) }
    ensures in_range { IfOk result IsInRange }

    // An image that holds no state is left alone, too: at any moment it holds what it held before.
    ensures alike { IsTrue D.readable → LeavesOnly (D.world disk.old) (D.world disk.new) (StandsAlike (D.world disk.old)) }
    ensures recovers { IsTrue D.readable → Recovers (D.world disk.old) (D.world disk.new) }
    ensures left { IsTrue D.readable → IfErr result (λ fault. LeavesRefused fault (D.world disk.old) (D.world disk.new)) }

    // After every refusal except Disk the image holds no state, and the clause gives the rule that it breaks.
    ensures not_a_store { IsTrue D.readable → IsErrOf result EngineFault.NotAStore → StandsForNone (D.world disk.old).seen }
    ensures bad { IsTrue D.readable → (at : ℕ) → IsErrOf result (EngineFault.BadJournal at) → IsBad (D.world disk.old).seen at × StandsForNone (D.world disk.old).seen }
    ensures damaged { (damage : Damage) → IsErrOf result (EngineFault.Damaged damage)
        → (damage ≡ head_damage) × (IsTrue D.readable → StandsForNone (D.world disk.old).seen) }
    ensures foreign { IsTrue D.readable → IsErrOf result EngineFault.NotAStore → IsForeign (D.world disk.old).seen }
    ensures version1 { IsTrue D.readable → IsErrOf result EngineFault.Version1 → StandsForNone (D.world disk.old).seen × IsVersion1 (D.world disk.old).seen }
    ensures broken_head { IsTrue D.readable → (damage : Damage) → IsErrOf result (EngineFault.Damaged damage) → HasBrokenHead (D.world disk.old).seen }
    ensures causes { IfErr result IsOpenFault }

    ensures quiet { IsTrue D.readable → SaysNothingReadsHead (D.world disk.old) (D.world disk.new) }
    ensures later { (D.world disk.old).faults ≤ (D.world disk.new).faults }
    ensures sink { (D.world disk.new).sink_faults ≡ (D.world disk.old).sink_faults }
    ensures disk { IsErrOf result EngineFault.Disk → Rose (D.world disk.old).faults (D.world disk.new).faults }
    ensures stays { result ≢ Err EngineFault.Disk → (D.world disk.new).faults ≡ (D.world disk.old).faults }
    ensures room { D.room_of disk.new ≡ D.room_of disk.old }
{
    match page_store::recover_superblock(disk) {
        Ok(block) => Ok(block),
        Err(OpenFault::Disk) => Err(EngineFault::Disk),
        Err(OpenFault::NotAStore) => Err(EngineFault::NotAStore),
        Err(OpenFault::BadJournal(at)) => Err(EngineFault::BadJournal(at)),
        Err(OpenFault::Damaged(damage)) => Err(EngineFault::Damaged(damage)),
        Err(OpenFault::Version1) => Err(EngineFault::Version1),
        Err(OpenFault::Memory) => Err(EngineFault::Memory),
    }
}
