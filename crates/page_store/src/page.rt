//! A page of the area Pages.
ghost use Rattle.std.specs.Prelude.{◌≡◌, ◌*◌, IsTrue, OnOk};
ghost use Rattle.disk_model.specs.World.{HasDiskCause};
ghost use Rattle.disk_model.specs.declared.disk.Area.TheVariants as areas;
ghost use Rattle.page_store.specs.Contents.{page_bytes};
ghost use Rattle.page_store.specs.Store.{ReadsPage};

use disk_model::{Area, Disk, Failed};
use page_face::Page;

// Reads a page from the disk.
pub(crate) fn read_page<D: Disk>(disk: &mut D, number: u32, page: &mut Page) -> Result<(), Failed>
    ensures gives { IsTrue D.readable → OnOk result (page.new ≡ page_bytes ((D.world disk.old).seen areas.Pages) number) }
    ensures reads { IsTrue D.readable → ReadsPage number (D.world disk.old) (D.world disk.new) }
    ensures cause { HasDiskCause (D.world disk.old) (D.world disk.new) result }
    ensures room { D.room_of disk.new ≡ D.room_of disk.old }
{
    disk.read(Area::Pages, 4096 * number as u64, page)
}
