//! Nodes that are written, one or two of them.
ghost use Rattle.std.specs.Prelude.{◌≡◌, ◌≢◌, ◌<◌, ℕ, List, IfOk, OnOk, IsErrOf};
ghost use Rattle.page_face.specs.Calls.{FailsWriting, FailsChanging, Writes, Changes};
ghost use Rattle.page_face.specs.FreeList.{with_page};
ghost use Rattle.page_face.specs.Causes.{IsUncounted};
ghost use Rattle.btree_nodes.specs.Damages.{AreReadable, IsRefusedTake};
ghost use Rattle.rtree_nodes.specs.Stock.{view, spare_in};
ghost use Rattle.irtree_shape.specs.Stock.{IsSupplied};
ghost use Rattle.irtree_shape.specs.Steps.{IsPaired, Takes};

use page_face::{Damage, Page, PageFault, Pages};

/// Writes a counted page.
///
/// Refuses `Stopped` and `Memory`.
pub(crate) fn store<P: Pages>(pages: &mut P, page: u32, bytes: &Page) -> Result<(), PageFault>
    requires counted { IsUncounted (P.count pages.old) page → ⊥ }
    ensures written { OnOk result (P.pages pages.new ≡ with_page page bytes.now (P.pages pages.old)) }
    ensures told { AreReadable (P.pages pages.old) (P.count pages.old) → OnOk result (AreReadable (P.pages pages.new) (P.count pages.new)) }
    ensures damaged { (damage : Damage) → result ≢ Err (PageFault.Damaged damage) }
    ensures fails { FailsWriting P.Pages pages.old result }
    ensures frame { Writes P.Pages pages.old pages.new }
    ensures first { P.first pages.new ≡ P.first pages.old }
{
    pages.write(page, bytes)
}

/// Takes a page, writes it, and returns it. No row names it.
///
/// Refuses as `take` does. After `Damaged` the pages are as the take met them.
pub(crate) fn store_new<P: Pages>(pages: &mut P, bytes: &Page) -> Result<u32, PageFault>
    ensures taken { (rows : ℕ) (free : List ℕ) → IsSupplied (view (P.pages pages.old) rows (P.count pages.old) (P.first pages.old) free)
        → IfOk result (λ page. Takes (view (P.pages pages.old) rows (P.count pages.old) (P.first pages.old) free) (P.pages pages.new) rows (P.count pages.new) (P.first pages.new)
        page bytes.now) }
    ensures some { IfOk result (λ page. 0 < page) }
    ensures told { AreReadable (P.pages pages.old) (P.count pages.old) → OnOk result (AreReadable (P.pages pages.new) (P.count pages.new)) }

    ensures no_false_damage { (rows : ℕ) (free : List ℕ) → IsSupplied (view (P.pages pages.old) rows (P.count pages.old) (P.first pages.old) free)
        → (damage : Damage) → result ≢ Err (PageFault.Damaged damage) }
    ensures damaged { (damage : Damage) → IsErrOf result (PageFault.Damaged damage) → IsRefusedTake (P.pages pages.new) (P.count pages.new) (P.first pages.new) damage }
    ensures asked { P.asked pages.new ≡ P.asked pages.old }
    ensures fails { FailsChanging P.Pages pages.old pages.new result }
    ensures frame { Changes P.Pages pages.old pages.new }
{
    let page = pages.take()?;
    store(pages, page, bytes)?;
    Ok(page)
}

/// Writes a page that it takes, which is returned, and a counted one.
///
/// Refuses as `take` does. After `Damaged` the pages are as the take met them.
pub(crate) fn store_two<P: Pages>(
    pages: &mut P,
    page: u32,
    front: &Page,
    back: &Page,
) -> Result<u32, PageFault>
    requires counted { IsUncounted (P.count pages.old) page → ⊥ }
    ensures split { (rows : ℕ) (free : List ℕ) → IsSupplied (view (P.pages pages.old) rows (P.count pages.old) (P.first pages.old) free)
        → spare_in (view (P.pages pages.old) rows (P.count pages.old) (P.first pages.old) free) page ≡ 0
        → IfOk result (λ right. IsPaired (view (P.pages pages.old) rows (P.count pages.old) (P.first pages.old) free) (P.pages pages.new) rows (P.count pages.new) (P.first pages.new)
        page right front.now back.now) }
    ensures told { AreReadable (P.pages pages.old) (P.count pages.old) → OnOk result (AreReadable (P.pages pages.new) (P.count pages.new)) }

    ensures no_false_damage { (rows : ℕ) (free : List ℕ) → IsSupplied (view (P.pages pages.old) rows (P.count pages.old) (P.first pages.old) free)
        → (damage : Damage) → result ≢ Err (PageFault.Damaged damage) }
    ensures damaged { (damage : Damage) → IsErrOf result (PageFault.Damaged damage) → IsRefusedTake (P.pages pages.new) (P.count pages.new) (P.first pages.new) damage }
    ensures asked { P.asked pages.new ≡ P.asked pages.old }
    ensures fails { FailsChanging P.Pages pages.old pages.new result }
    ensures frame { Changes P.Pages pages.old pages.new }
{
    let right = store_new(pages, back)?;
    store(pages, page, front)?;
    Ok(right)
}
