//! Cells that are written into one page.
ghost use Rattle.std.specs.Prelude.{◌≡◌, ◌≢◌, ◌+◌, ◌≤◌, length, OnOk};
ghost use Rattle.page_face.specs.Calls.{FailsWriting, Writes};
ghost use Rattle.page_face.specs.FreeList.{with_page};
ghost use Rattle.page_face.specs.Causes.{IsUncounted};
ghost use Rattle.btree_nodes.specs.Build.{image};

use crate::{Shape, build};
use page_face::{Damage, PageFault, Pages};

/// Writes a page of these cells. It must be counted.
///
/// Refuses `Stopped` and `Memory`.
pub fn store_one<P: Pages>(
    pages: &mut P,
    shape: Shape,
    page: u32,
    count: u16,
    cells: &[u8],
) -> Result<(), PageFault>
    requires fits { 16 + length cells.now ≤ 4096 }
    requires counted { ¬ IsUncounted (P.count pages.old) page }
    ensures written { OnOk result (P.pages pages.new ≡ with_page page (image shape.number shape.kind shape.level count cells.now) (P.pages pages.old)) }

    ensures damaged { (damage : Damage) → result ≢ Err (PageFault.Damaged damage) }
    ensures fails { FailsWriting P.Pages pages.old result }
    ensures frame { Writes P.Pages pages.old pages.new }
    ensures first { P.first pages.new ≡ P.first pages.old }
{
    let bytes = build(shape.number, shape.kind, shape.level, count, cells);
    pages.write(page, &bytes)
}
