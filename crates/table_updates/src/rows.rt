//! Rows of the place map of version 1, by its root.
ghost use Rattle.std.specs.Prelude.{◌≡◌, ℕ, List, length, IfOk, IfSome, OnOk, IsErrOf};
ghost use Rattle.page_face.specs.Calls.{FailsReading, Reads, TakesNone};
ghost use Rattle.page_face.specs.Number.{number};
ghost use Rattle.btree_nodes.specs.Damages.{AreReadable, AskedSince, AsksOnly};
ghost use Rattle.btree_nodes.specs.Rows.{first_from, without};
ghost use Rattle.btree_nodes.specs.Supply.{view};
ghost use Rattle.btree_nodes.specs.Tree.{IsMap, map_rows};
ghost use Rattle.paged_map.specs.Answers.{HoldsRow, Locates};
ghost use Rattle.paged_map.specs.Maps.{AreCounted, HasBecome, IsKept, IsMapDamaged};
ghost use Rattle.table_updates.specs.Version1.{places_form_version1, version1_uses};

use crate::layout::PlacesVersion1;
use page_face::{Damage, PageFault, Pages};
use paged_map::PagedMap;

/// Returns the leaf that holds the first row. The row's key is left in `key` and its value in `value`.
pub(crate) fn first_row<P: Pages>(
    pages: &mut P,
    root: u32,
    key: &mut [u8; 66],
    value: &mut [u8; 585],
) -> Result<Option<u32>, PageFault>
    ensures found { IsMap places_form_version1 (P.pages pages.old) root
        → IfOk result (Locates (first_from 0 (map_rows places_form_version1 (P.pages pages.old) root)) (number key.new, value.new)
        (HoldsRow places_form_version1 (P.pages pages.old) (version1_uses (P.pages pages.old) root) (number key.new, value.new))) }
    ensures read { AreReadable (P.pages pages.old) (P.count pages.old)
        → IfOk result (λ leaf. IfSome leaf (AskedSince (P.asked pages.old) (P.asked pages.new))) }
    ensures no_false_damage { IsMap places_form_version1 (P.pages pages.old) root → AreReadable (P.pages pages.old) (P.count pages.old)
        → AreCounted (version1_uses (P.pages pages.old) root) (P.count pages.old)
        → (damage : Damage) → ¬ IsErrOf result (PageFault.Damaged damage) }
    ensures damaged { AreReadable (P.pages pages.old) (P.count pages.old)
        → (damage : Damage) → IsErrOf result (PageFault.Damaged damage)
        → IsMapDamaged places_form_version1 (P.pages pages.old) (P.count pages.old) root damage × AskedSince (P.asked pages.old) (P.asked pages.new) damage.page }
    ensures own { AreReadable (P.pages pages.old) (P.count pages.old)
        → AsksOnly (version1_uses (P.pages pages.old) root) (P.asked pages.old) (P.asked pages.new) }
    ensures fails { FailsReading P.Pages pages.old pages.new result }
    ensures frame { Reads P.Pages pages.old pages.new }
{
    PagedMap::<PlacesVersion1>::at(root).first_from(pages, &[0; 66], key, value)
}

/// Takes the row at a key out, and returns the root of what is left.
pub(crate) fn remove_row<P: Pages>(
    pages: &mut P,
    root: u32,
    key: &[u8; 66],
) -> Result<u32, PageFault>
    ensures removed { (free : List ℕ) → IsKept places_form_version1 (view (P.pages pages.old) (P.count pages.old) (P.first pages.old) free) root
        → IfOk result (λ after. HasBecome places_form_version1 (view (P.pages pages.old) (P.count pages.old) (P.first pages.old) free) (P.pages pages.new) (P.count pages.new) (P.first pages.new) root after
        (without (number key.now) (map_rows places_form_version1 (P.pages pages.old) root))) }
    ensures told { AreReadable (P.pages pages.old) (P.count pages.old) → OnOk result (AreReadable (P.pages pages.new) (P.count pages.new)) }
    ensures no_false_damage { (free : List ℕ) → IsKept places_form_version1 (view (P.pages pages.old) (P.count pages.old) (P.first pages.old) free) root
        → (damage : Damage) → ¬ IsErrOf result (PageFault.Damaged damage) }
    ensures damaged { AreReadable (P.pages pages.old) (P.count pages.old)
        → (damage : Damage) → IsErrOf result (PageFault.Damaged damage)
        → IsMapDamaged places_form_version1 (P.pages pages.old) (P.count pages.old) root damage × AskedSince (P.asked pages.old) (P.asked pages.new) damage.page }
    ensures own { AreReadable (P.pages pages.old) (P.count pages.old)
        → AsksOnly (version1_uses (P.pages pages.old) root) (P.asked pages.old) (P.asked pages.new) }
    ensures fails { FailsReading P.Pages pages.old pages.new result }
    ensures frame { TakesNone P.Pages pages.old pages.new }
{
    let mut map = PagedMap::<PlacesVersion1>::at(root);
    map.remove(pages, key)?;
    Ok(map.root())
}
