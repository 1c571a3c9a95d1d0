//! The gates of the journal.
ghost use Rattle.std.specs.Prelude.{◌≡◌, ◌<◌, ◌+◌, ◌^◌, IsTrue, OnOk};
ghost use Rattle.disk_model.specs.World.{Keeps, HasDiskCause, LeavesOnlySeen};
ghost use Rattle.disk_model.specs.declared.disk.Area.TheVariants as areas;
ghost use Rattle.page_journal.specs.Record.{AllButGate};

use disk_model::{Area, Disk, Failed};

// Writes only the gate at this offset, and makes it safe.
pub(crate) fn set_gate<D: Disk>(disk: &mut D, at: u64, value: u8) -> Result<(), Failed>
    requires fits { at + 1 < 2 ^ 48 }
    requires safe { IsTrue D.readable → LeavesOnlySeen (D.world disk.old) }
    ensures keeps { IsTrue D.readable → Keeps (AllButGate at) (D.world disk.old) (D.world disk.new) }
    ensures done { IsTrue D.readable → OnOk result ((D.world disk.new).seen areas.Journal at ≡ value) }
    ensures safe { IsTrue D.readable → OnOk result (LeavesOnlySeen (D.world disk.new)) }
    ensures reads { IsTrue D.readable → (D.world disk.new).reads ≡ (D.world disk.old).reads }
    ensures cause { HasDiskCause (D.world disk.old) (D.world disk.new) result }
    ensures room { D.room_of disk.new ≡ D.room_of disk.old }
{
    disk.write(Area::Journal, at, &[value])?;
    disk.sync(Area::Journal)
}
