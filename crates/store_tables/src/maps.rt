//! The calls of a map, by its root.
ghost use Rattle.std.specs.Prelude.{◌≡◌, ◌⊎◌, ℕ, ◌+◌, ◌≤◌, List, length, IfOk, IfSome, OnOk, IsErrOf, is_some, Some, None, if◌then◌else◌};
ghost use Rattle.page_face.specs.Calls.{FailsReading, FailsChanging, Reads, TakesNone, Changes, TakesAtMost};
ghost use Rattle.page_face.specs.Number.{number};
ghost use Rattle.btree_nodes.specs.Rows.{lookup, first_from, put, without};
ghost use Rattle.btree_nodes.specs.Supply.{view};
ghost use Rattle.btree_nodes.specs.Tree.{IsMap, map_rows, map_uses};
ghost use Rattle.btree_nodes.specs.Damages.{AreReadable, AskedSince, AsksOnly, IsRefusedTake};
ghost use Rattle.paged_map.specs.Heights.{height_of};
ghost use Rattle.paged_map.specs.Answers.{HasRead, HoldsRow, Locates};
ghost use Rattle.paged_map.specs.Lookups.{IsFirstFound, IsLookedUp};
ghost use Rattle.paged_map.specs.Maps.{AreCounted, HasBecome, IsKept, IsMapDamaged};
ghost use Rattle.paged_map.specs.Spots.{IsSpot, leaf_of};

use page_face::{Damage, PageFault, Pages};
use paged_map::{Layout, PagedMap, RowSpot};

/// A map after a row was put or taken out: whether the key was there, and the map's root.
#[derive(Clone, Copy)]
pub(crate) struct Changed {
    pub was: bool,
    pub root: u32,
}

/// Returns the leaf that holds the row at a key, whose value is then left in `value`.
pub(crate) fn get_row<L: Layout, P: Pages>(
    pages: &mut P,
    root: u32,
    key: &[u8],
    value: &mut [u8],
) -> Result<Option<u32>, PageFault>
    requires key { length key.now ≡ L.KEY }
    requires value { length value.old ≡ L.VALUE }
    ensures found { IsMap L.form (P.pages pages.old) root
        → IfOk result (Locates (lookup (number key.now) (map_rows L.form (P.pages pages.old) root)) value.new
        (HoldsRow L.form (P.pages pages.old) (map_uses L.form (P.pages pages.old) root) (number key.now, value.new))) }
    ensures read { AreReadable (P.pages pages.old) (P.count pages.old)
        → IfOk result (λ leaf. IfSome leaf (HasRead L.form (P.pages pages.old) (P.asked pages.old) (P.asked pages.new) (number key.now, value.new))) }
    ensures kept { AreReadable (P.pages pages.old) (P.count pages.old)
        → IfOk result (λ leaf. IsLookedUp L.form (P.pages pages.old) (P.count pages.old) root (number key.now) (if is_some leaf then Some value.new else None)) }
    ensures no_false_damage { IsMap L.form (P.pages pages.old) root → AreReadable (P.pages pages.old) (P.count pages.old)
        → AreCounted (map_uses L.form (P.pages pages.old) root) (P.count pages.old)
        → (damage : Damage) → ¬ IsErrOf result (PageFault.Damaged damage) }
    ensures damaged { AreReadable (P.pages pages.old) (P.count pages.old)
        → (damage : Damage) → IsErrOf result (PageFault.Damaged damage)
        → IsMapDamaged L.form (P.pages pages.old) (P.count pages.old) root damage }
    ensures named { AreReadable (P.pages pages.old) (P.count pages.old)
        → (damage : Damage) → IsErrOf result (PageFault.Damaged damage) → AskedSince (P.asked pages.old) (P.asked pages.new) damage.page }
    ensures own { AreReadable (P.pages pages.old) (P.count pages.old)
        → AsksOnly (map_uses L.form (P.pages pages.old) root) (P.asked pages.old) (P.asked pages.new) }
    ensures fails { FailsReading P.Pages pages.old pages.new result }
    ensures frame { Reads P.Pages pages.old pages.new }
{
    PagedMap::<L>::at(root).get(pages, key, value)
}

/// Returns the spot of the row at a key, whose value is then left in `value`. Its leaf is then the page looked at.
pub(crate) fn find_row<L: Layout, P: Pages>(
    pages: &mut P,
    root: u32,
    key: &[u8],
    value: &mut [u8],
) -> Result<Option<RowSpot>, PageFault>
    requires key { length key.now ≡ L.KEY }
    requires value { length value.old ≡ L.VALUE }
    ensures found { IsMap L.form (P.pages pages.old) root
        → IfOk result (λ found. Locates (lookup (number key.now) (map_rows L.form (P.pages pages.old) root)) value.new
        (HoldsRow L.form (P.pages pages.old) (map_uses L.form (P.pages pages.old) root) (number key.now, value.new)) (leaf_of found)) }
    ensures read { AreReadable (P.pages pages.old) (P.count pages.old)
        → IfOk result (λ found. IfSome (leaf_of found) (HasRead L.form (P.pages pages.old) (P.asked pages.old) (P.asked pages.new) (number key.now, value.new))) }
    ensures spot { IfOk result (λ found. IfSome found (IsSpot L.form (P.pages pages.new) (P.count pages.new) root (P.looked pages.new) (number key.now))) }
    ensures kept { AreReadable (P.pages pages.old) (P.count pages.old)
        → IfOk result (λ found. IsLookedUp L.form (P.pages pages.old) (P.count pages.old) root (number key.now) (if is_some found then Some value.new else None)) }
    ensures no_false_damage { IsMap L.form (P.pages pages.old) root → AreReadable (P.pages pages.old) (P.count pages.old)
        → AreCounted (map_uses L.form (P.pages pages.old) root) (P.count pages.old)
        → (damage : Damage) → ¬ IsErrOf result (PageFault.Damaged damage) }
    ensures damaged { AreReadable (P.pages pages.old) (P.count pages.old)
        → (damage : Damage) → IsErrOf result (PageFault.Damaged damage)
        → IsMapDamaged L.form (P.pages pages.old) (P.count pages.old) root damage }
    ensures named { AreReadable (P.pages pages.old) (P.count pages.old)
        → (damage : Damage) → IsErrOf result (PageFault.Damaged damage) → AskedSince (P.asked pages.old) (P.asked pages.new) damage.page }
    ensures own { AreReadable (P.pages pages.old) (P.count pages.old)
        → AsksOnly (map_uses L.form (P.pages pages.old) root) (P.asked pages.old) (P.asked pages.new) }
    ensures fails { FailsReading P.Pages pages.old pages.new result }
    ensures frame { Reads P.Pages pages.old pages.new }
{
    PagedMap::<L>::at(root).find(pages, key, value)
}

/// Returns the leaf that holds the first row whose key isn't less. The row's key is left in `found` and its value in `value`.
pub(crate) fn first_row<L: Layout, P: Pages>(
    pages: &mut P,
    root: u32,
    key: &[u8],
    found: &mut [u8],
    value: &mut [u8],
) -> Result<Option<u32>, PageFault>
    requires key { length key.now ≡ L.KEY }
    requires found { length found.old ≡ L.KEY }
    requires value { length value.old ≡ L.VALUE }
    ensures found { IsMap L.form (P.pages pages.old) root
        → IfOk result (Locates (first_from (number key.now) (map_rows L.form (P.pages pages.old) root)) (number found.new, value.new)
        (HoldsRow L.form (P.pages pages.old) (map_uses L.form (P.pages pages.old) root) (number found.new, value.new))) }
    ensures on { IfOk result (λ leaf. IfSome leaf (λ page. number key.now ≤ number found.new)) }
    ensures read { AreReadable (P.pages pages.old) (P.count pages.old)
        → IfOk result (λ leaf. IfSome leaf (HasRead L.form (P.pages pages.old) (P.asked pages.old) (P.asked pages.new) (number found.new, value.new))) }
    ensures kept { AreReadable (P.pages pages.old) (P.count pages.old)
        → IfOk result (λ leaf. IsFirstFound L.form (P.pages pages.old) (P.count pages.old) root (number key.now) (if is_some leaf then Some (number found.new, value.new) else None)) }
    ensures no_false_damage { IsMap L.form (P.pages pages.old) root → AreReadable (P.pages pages.old) (P.count pages.old)
        → AreCounted (map_uses L.form (P.pages pages.old) root) (P.count pages.old)
        → (damage : Damage) → ¬ IsErrOf result (PageFault.Damaged damage) }
    ensures damaged { AreReadable (P.pages pages.old) (P.count pages.old)
        → (damage : Damage) → IsErrOf result (PageFault.Damaged damage)
        → IsMapDamaged L.form (P.pages pages.old) (P.count pages.old) root damage }
    ensures named { AreReadable (P.pages pages.old) (P.count pages.old)
        → (damage : Damage) → IsErrOf result (PageFault.Damaged damage) → AskedSince (P.asked pages.old) (P.asked pages.new) damage.page }
    ensures own { AreReadable (P.pages pages.old) (P.count pages.old)
        → AsksOnly (map_uses L.form (P.pages pages.old) root) (P.asked pages.old) (P.asked pages.new) }
    ensures fails { FailsReading P.Pages pages.old pages.new result }
    ensures frame { Reads P.Pages pages.old pages.new }
{
    PagedMap::<L>::at(root).first_from(pages, key, found, value)
}

/// Puts a row at its key.
pub(crate) fn put_row<L: Layout, P: Pages>(
    pages: &mut P,
    root: u32,
    key: &[u8],
    value: &[u8],
) -> Result<Changed, PageFault>
    requires key { length key.now ≡ L.KEY }
    requires value { length value.now ≡ L.VALUE }
    ensures put { (free : List ℕ) → IsKept L.form (view (P.pages pages.old) (P.count pages.old) (P.first pages.old) free) root
        → IfOk result (λ now. (now.was ≡ is_some (lookup (number key.now) (map_rows L.form (P.pages pages.old) root)))
        × HasBecome L.form (view (P.pages pages.old) (P.count pages.old) (P.first pages.old) free) (P.pages pages.new) (P.count pages.new) (P.first pages.new) root now.root
        (put (number key.now) value.now (map_rows L.form (P.pages pages.old) root))) }
    ensures no_false_damage { (free : List ℕ) → IsKept L.form (view (P.pages pages.old) (P.count pages.old) (P.first pages.old) free) root
        → (damage : Damage) → ¬ IsErrOf result (PageFault.Damaged damage) }
    ensures damaged { AreReadable (P.pages pages.old) (P.count pages.old)
        → (damage : Damage) → IsErrOf result (PageFault.Damaged damage)
        → (IsMapDamaged L.form (P.pages pages.old) (P.count pages.old) root damage × AskedSince (P.asked pages.old) (P.asked pages.new) damage.page)
        ⊎ IsRefusedTake (P.pages pages.new) (P.count pages.new) (P.first pages.new) damage }
    ensures own { AreReadable (P.pages pages.old) (P.count pages.old)
        → AsksOnly (map_uses L.form (P.pages pages.old) root) (P.asked pages.old) (P.asked pages.new) }
    ensures takes { AreReadable (P.pages pages.old) (P.count pages.old) → TakesAtMost P.Pages (height_of (P.pages pages.old) root + 1) pages.old pages.new result }
    ensures at_most { TakesAtMost P.Pages 257 pages.old pages.new result }
    ensures fails { FailsChanging P.Pages pages.old pages.new result }
    ensures frame { Changes P.Pages pages.old pages.new }
{
    let mut map = PagedMap::<L>::at(root);
    let was = map.put(pages, key, value)?;
    Ok(Changed {
        was,
        root: map.root(),
    })
}

/// Puts another value at the key of the row at a spot, whose leaf is the page looked at. The root stays.
pub(crate) fn replace_row<L: Layout, P: Pages>(
    pages: &mut P,
    root: u32,
    spot: &RowSpot,
    key: &[u8],
    value: &[u8],
) -> Result<(), PageFault>
    requires spot { IsSpot L.form (P.pages pages.old) (P.count pages.old) root (P.looked pages.old) (number key.now) spot.now }
    requires key { length key.now ≡ L.KEY }
    requires value { length value.now ≡ L.VALUE }
    ensures put { (free : List ℕ) → IsKept L.form (view (P.pages pages.old) (P.count pages.old) (P.first pages.old) free) root
        → OnOk result (HasBecome L.form (view (P.pages pages.old) (P.count pages.old) (P.first pages.old) free) (P.pages pages.new) (P.count pages.new) (P.first pages.new) root root
        (put (number key.now) value.now (map_rows L.form (P.pages pages.old) root))) }
    ensures no_false_damage { (damage : Damage) → ¬ IsErrOf result (PageFault.Damaged damage) }
    ensures asked { P.asked pages.new ≡ P.asked pages.old }
    ensures fails { FailsReading P.Pages pages.old pages.new result }
    ensures frame { TakesNone P.Pages pages.old pages.new }
{
    PagedMap::<L>::at(root).replace(pages, spot, key, value)
}

/// Takes the row at a key out.
pub(crate) fn remove_row<L: Layout, P: Pages>(
    pages: &mut P,
    root: u32,
    key: &[u8],
) -> Result<Changed, PageFault>
    requires key { length key.now ≡ L.KEY }
    ensures removed { (free : List ℕ) → IsKept L.form (view (P.pages pages.old) (P.count pages.old) (P.first pages.old) free) root
        → IfOk result (λ now. (now.was ≡ is_some (lookup (number key.now) (map_rows L.form (P.pages pages.old) root)))
        × HasBecome L.form (view (P.pages pages.old) (P.count pages.old) (P.first pages.old) free) (P.pages pages.new) (P.count pages.new) (P.first pages.new) root now.root
        (without (number key.now) (map_rows L.form (P.pages pages.old) root))) }
    ensures no_false_damage { (free : List ℕ) → IsKept L.form (view (P.pages pages.old) (P.count pages.old) (P.first pages.old) free) root
        → (damage : Damage) → ¬ IsErrOf result (PageFault.Damaged damage) }
    ensures damaged { AreReadable (P.pages pages.old) (P.count pages.old)
        → (damage : Damage) → IsErrOf result (PageFault.Damaged damage)
        → IsMapDamaged L.form (P.pages pages.old) (P.count pages.old) root damage × AskedSince (P.asked pages.old) (P.asked pages.new) damage.page }
    ensures own { AreReadable (P.pages pages.old) (P.count pages.old)
        → AsksOnly (map_uses L.form (P.pages pages.old) root) (P.asked pages.old) (P.asked pages.new) }
    ensures fails { FailsReading P.Pages pages.old pages.new result }
    ensures frame { TakesNone P.Pages pages.old pages.new }
{
    let mut map = PagedMap::<L>::at(root);
    let was = map.remove(pages, key)?;
    Ok(Changed {
        was,
        root: map.root(),
    })
}
