//! Cells that are written into two pages.
ghost use Rattle.std.specs.Prelude.{◌≡◌, ◌≢◌, ℕ, ◌+◌, ◌<◌, ◌≤◌, List, length, IfOk, IsErrOf};
ghost use Rattle.page_face.specs.Calls.{FailsChanging, Changes, TakesAtMost};
ghost use Rattle.page_face.specs.Causes.{IsUncounted};
ghost use Rattle.btree_nodes.specs.Build.{image};
ghost use Rattle.btree_nodes.specs.Supply.{IsSupplied, view, spare, one_at};
ghost use Rattle.btree_nodes.specs.Store.{IsSplit};
ghost use Rattle.btree_nodes.specs.Damages.{AreReadable, IsRefusedTake};
ghost use Rattle.btree_insert.specs.Keeps.{KeepsOthers};

use btree_nodes::{Shape, store_one};
use page_face::{Damage, PageFault, Pages};

/// Writes the first of the cells into a counted page and the others into one that it takes. Returns the page that it took.
///
/// Refuses as `take` does. After a `Damaged` the pages are as the take found them. It takes one page and writes two.
pub fn split_page<P: Pages>(
    pages: &mut P,
    shape: Shape,
    page: u32,
    count: u16,
    front: &[u8],
    rest: u16,
    back: &[u8],
) -> Result<u32, PageFault>
    requires front { 16 + length front.now ≤ 4096 }
    requires back { 16 + length back.now ≤ 4096 }
    requires counted { ¬ IsUncounted (P.count pages.old) page }
    ensures split { (free : List ℕ) → IsSupplied (view (P.pages pages.old) (P.count pages.old) (P.first pages.old) free)
        → ((n : ℕ) → one_at page n + spare free (P.count pages.old) n ≤ 1)
        → IfOk result (λ right. IsSplit (view (P.pages pages.old) (P.count pages.old) (P.first pages.old) free) (P.pages pages.new) (P.count pages.new) (P.first pages.new) page right
        (image shape.number shape.kind shape.level count front.now) (image shape.number shape.kind shape.level rest back.now)) }
    ensures some { IfOk result (λ right. 0 < right) }

    // On pages whose bytes are readable, whatever they hold, only free ones change beside this one.
    ensures kept { AreReadable (P.pages pages.old) (P.count pages.old) → IfOk result (λ right. KeepsOthers page (P.pages pages.old) (P.count pages.old) (P.pages pages.new) (P.count pages.new)) }
    ensures no_false_damage { (free : List ℕ) → IsSupplied (view (P.pages pages.old) (P.count pages.old) (P.first pages.old) free)
        → (damage : Damage) → result ≢ Err (PageFault.Damaged damage) }
    ensures damaged { (damage : Damage) → IsErrOf result (PageFault.Damaged damage)
        → IsRefusedTake (P.pages pages.new) (P.count pages.new) (P.first pages.new) damage }
    ensures takes { TakesAtMost P.Pages 1 pages.old pages.new result }
    ensures fails { FailsChanging P.Pages pages.old pages.new result }
    ensures frame { Changes P.Pages pages.old pages.new }
    ensures asked { P.asked pages.new ≡ P.asked pages.old }
{
    let right = pages.take()?;
    store_one(pages, shape, page, count, front)?;
    store_one(pages, shape, right, rest, back)?;
    Ok(right)
}
