//! Two neighbouring pages whose cells become one page, or are shared between both.
ghost use Rattle.std.specs.Prelude.{◌≢◌, ◌+◌, ◌<◌, ◌≤◌, ℕ, List, length, OnOk};
ghost use Rattle.page_face.specs.Calls.{FailsWriting, Writes};
ghost use Rattle.page_face.specs.Causes.{IsUncounted};
ghost use Rattle.btree_nodes.specs.Build.{image};
ghost use Rattle.btree_nodes.specs.Supply.{IsSupplied, view, spare, one_at};
ghost use Rattle.btree_nodes.specs.Damages.{AreReadable};
ghost use Rattle.btree_delete.specs.Mended.{IsMerged, IsHalved};

use btree_nodes::{Shape, store_one};
use page_face::{Damage, PageFault, Pages};

/// Writes cells into the left one of two counted pages and gives the right one back.
///
/// Refuses `Stopped` and `Memory`.
pub fn merge<P: Pages>(
    pages: &mut P,
    shape: Shape,
    left: u32,
    right: u32,
    count: u16,
    cells: &[u8],
) -> Result<(), PageFault>
    requires fits { 16 + length cells.now ≤ 4096 }
    requires left { ¬ IsUncounted (P.count pages.old) left }
    requires right { ¬ IsUncounted (P.count pages.old) right }
    ensures merged { (free : List ℕ) → IsSupplied (view (P.pages pages.old) (P.count pages.old) (P.first pages.old) free)
        → ((n : ℕ) → one_at left n + one_at right n + spare free (P.count pages.old) n ≤ 1)
        → OnOk result (IsMerged (view (P.pages pages.old) (P.count pages.old) (P.first pages.old) free) (P.pages pages.new) (P.count pages.new) (P.first pages.new) left right
        (image shape.number shape.kind shape.level count cells.now)) }
    ensures told { AreReadable (P.pages pages.old) (P.count pages.old) → OnOk result (AreReadable (P.pages pages.new) (P.count pages.new)) }

    ensures damaged { (damage : Damage) → result ≢ Err (PageFault.Damaged damage) }
    ensures fails { FailsWriting P.Pages pages.old result }
    ensures frame { Writes P.Pages pages.old pages.new }
{
    store_one(pages, shape, left, count, cells)?;
    pages.give_back(right)?;
    Ok(())
}

/// Writes cells into two counted pages.
///
/// Refuses `Stopped` and `Memory`.
pub fn halve<P: Pages>(
    pages: &mut P,
    shape: Shape,
    left: u32,
    right: u32,
    count: u16,
    front: &[u8],
    rest: u16,
    back: &[u8],
) -> Result<(), PageFault>
    requires front { 16 + length front.now ≤ 4096 }
    requires back { 16 + length back.now ≤ 4096 }
    requires left { ¬ IsUncounted (P.count pages.old) left }
    requires right { ¬ IsUncounted (P.count pages.old) right }
    ensures halved { (free : List ℕ) → IsSupplied (view (P.pages pages.old) (P.count pages.old) (P.first pages.old) free)
        → ((n : ℕ) → one_at left n + one_at right n + spare free (P.count pages.old) n ≤ 1)
        → OnOk result (IsHalved (view (P.pages pages.old) (P.count pages.old) (P.first pages.old) free) (P.pages pages.new) (P.count pages.new) (P.first pages.new) left right
        (image shape.number shape.kind shape.level count front.now) (image shape.number shape.kind shape.level rest back.now)) }
    ensures told { AreReadable (P.pages pages.old) (P.count pages.old) → OnOk result (AreReadable (P.pages pages.new) (P.count pages.new)) }

    ensures damaged { (damage : Damage) → result ≢ Err (PageFault.Damaged damage) }
    ensures fails { FailsWriting P.Pages pages.old result }
    ensures frame { Writes P.Pages pages.old pages.new }
{
    store_one(pages, shape, left, count, front)?;
    store_one(pages, shape, right, rest, back)?;
    Ok(())
}
