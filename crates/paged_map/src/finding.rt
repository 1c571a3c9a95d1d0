//! A row that is looked up in a map by its root.
ghost use Rattle.std.specs.Prelude.{◌≡◌, ℕ, ◌+◌, ◌*◌, ◌^◌, ◌<◌, ◌≤◌, List, length, take, drop, IfOk, IfSome, IsErrOf, Some, None, is_some, true, if◌then◌else◌};
ghost use Rattle.page_face.specs.Calls.{Reads, FailsReading};
ghost use Rattle.page_face.specs.Causes.{IsUncounted};
ghost use Rattle.page_face.specs.Nodes.{count_of};
ghost use Rattle.page_face.specs.Number.{number};
ghost use Rattle.btree_nodes.specs.Rows.{IsWithin, lookup, first_from};
ghost use Rattle.btree_nodes.specs.Nodes.{rows_in};
ghost use Rattle.btree_nodes.specs.Tree.{IsMap, map_rows, map_uses};
ghost use Rattle.btree_nodes.specs.Damages.{AreReadable, AskedSince, AsksOnly};
ghost use Rattle.btree_nodes.specs.Leaves.{IsShown};
ghost use Rattle.btree_nodes.specs.Steps.{high_of};
ghost use Rattle.paged_map.specs.Answers.{HasRead, HoldsRow, Locates, LocatesOr};
ghost use Rattle.paged_map.specs.Lookups.{IsFirstPast, IsFirstThere, IsLookedUp};
ghost use Rattle.paged_map.specs.Maps.{IsMapDamaged};
ghost use Rattle.paged_map.specs.Spots.{IsRowAt, IsSpot, leaf_of};

use crate::editing::spot_of;
use crate::replacing::RowSpot;
use btree_nodes::{Bounds, Form, Leaf, copy_value, key_of, locate, place};
use page_face::{Damage, Page, PageFault, Pages};

// The spot of the row at a key in a leaf, if it has one. The row's value is then left in `value`.
fn row_at(page: &Page, form: Form, leaf: Leaf, key: &[u8], value: &mut [u8]) -> Option<RowSpot>
    requires count { leaf.count ≡ count_of page.now }
    requires fits { 16 + (form.key + form.value) * leaf.count ≤ 4096 }
    requires key { length key.now ≡ form.key }
    requires value { length value.old ≡ form.value }
    ensures found { (low high : ℕ) → IsWithin low high (rows_in form page.now) → low ≤ number key.now → number key.now < high
        → lookup (number key.now) (rows_in form page.now) ≡ (if is_some result then Some value.new else None) }
    ensures spot { (count low high : ℕ) → ¬ IsUncounted count leaf.page → IsShown form page.now (number key.now) low high leaf
        → IfSome result (IsRowAt form count page.now (number key.now)) }
    ensures page { IfSome result (λ spot. spot.page ≡ leaf.page) }
{
    let here = spot_of(page, form, leaf.count, key);
    if here.gone == 0 {
        return None;
    }
    copy_value(page, form, here.at, value);
    Some(RowSpot {
        page: leaf.page,
        count: leaf.count,
        at: here.at,
    })
}

/// Returns the spot of the row at a key in a map that has a root. The row's value is then left in `value`, and its leaf is the page
/// looked at.
///
/// Looks at a page a level, and copies only the value. Returns `Damaged` with a rule that a page breaks in its place,
/// `Disk`, `Stopped` or `Memory`.
pub fn find_below<P: Pages>(
    pages: &mut P,
    form: Form,
    root: u32,
    key: &[u8],
    value: &mut [u8],
) -> Result<Option<RowSpot>, PageFault>
    requires root { 0 < root }
    requires key { length key.now ≡ form.key }
    requires value { length value.old ≡ form.value }
    ensures found { IsMap form (P.pages pages.old) root
        → IfOk result (λ found. Locates (lookup (number key.now) (map_rows form (P.pages pages.old) root)) value.new
        (HoldsRow form (P.pages pages.old) (map_uses form (P.pages pages.old) root) (number key.now, value.new)) (leaf_of found)) }
    ensures spot { IfOk result (λ found. IfSome found (IsSpot form (P.pages pages.new) (P.count pages.new) root (P.looked pages.new) (number key.now))) }
    ensures read { AreReadable (P.pages pages.old) (P.count pages.old)
        → IfOk result (λ found. IfSome (leaf_of found) (HasRead form (P.pages pages.old) (P.asked pages.old) (P.asked pages.new) (number key.now, value.new))) }
    ensures kept { AreReadable (P.pages pages.old) (P.count pages.old)
        → IfOk result (λ found. IsLookedUp form (P.pages pages.old) (P.count pages.old) root (number key.now) (if is_some found then Some value.new else None)) }
    ensures damaged { AreReadable (P.pages pages.old) (P.count pages.old)
        → (damage : Damage) → IsErrOf result (PageFault.Damaged damage) → IsMapDamaged form (P.pages pages.old) (P.count pages.old) root damage }
    ensures named { AreReadable (P.pages pages.old) (P.count pages.old)
        → (damage : Damage) → IsErrOf result (PageFault.Damaged damage) → AskedSince (P.asked pages.old) (P.asked pages.new) damage.page }
    ensures own { AreReadable (P.pages pages.old) (P.count pages.old)
        → AsksOnly (map_uses form (P.pages pages.old) root) (P.asked pages.old) (P.asked pages.new) }
    ensures fails { FailsReading P.Pages pages.old pages.new result }
    ensures frame { Reads P.Pages pages.old pages.new }
{
    let mut bounds = Bounds::all();
    match locate(pages, form, root, key, &mut bounds) {
        Ok(leaf) => Ok(row_at(pages.looked(), form, leaf, key, value)),
        Err(fault) => Err(fault),
    }
}

// Copies the key of the row at this place into `found`.
fn copy_key(page: &Page, form: Form, at: usize, found: &mut [u8])
    requires found { length found.old ≡ form.key }
    requires fits { 16 + (form.key + form.value) * at + (form.key + form.value) ≤ 4096 }
    ensures { found.new ≡ take form.key (drop (16 + (form.key + form.value) * at) page.now) }
{
    found.copy_from_slice(key_of(page, form.key, form.key + form.value, at));
}

// Whether a leaf of `count` rows has a row whose key isn't less. The key of the first one is then left in `found` and
// its value in `value`.
#[tactic(auto, using(btree_nodes::proofs::Spots::fits_at))]
fn first_in(
    page: &Page,
    form: Form,
    count: usize,
    key: &[u8],
    found: &mut [u8],
    value: &mut [u8],
) -> bool
    requires count { count ≡ count_of page.now }
    requires fits { 16 + (form.key + form.value) * count ≤ 4096 }
    requires key { length key.now ≡ form.key }
    requires found { length found.old ≡ form.key }
    requires value { length value.old ≡ form.value }
    ensures found { (low high : ℕ) → IsWithin low high (rows_in form page.now)
        → first_from (number key.now) (rows_in form page.now) ≡ (if result then Some (number found.new, value.new) else None) }
    ensures holds { (low high : ℕ) → IsWithin low high (rows_in form page.now)
        → result ≡ true → lookup (number found.new) (rows_in form page.now) ≡ Some value.new }
    ensures on { (low high : ℕ) → IsWithin low high (rows_in form page.now) → result ≡ true → number key.now ≤ number found.new }
{
    let at = place(page, key, false, form.key + form.value, count);
    if at == count {
        return false;
    }
    copy_key(page, form, at, found);
    copy_value(page, form, at, value);
    true
}

// The page of the leaf that a key belongs to, if it has a row whose key isn't less. That row's key is then left in `found` and its value
// in `value`. If it has none, the first such row is the first one from the upper bound on, which is left in `bounds`.
fn first_at<P: Pages>(
    pages: &mut P,
    form: Form,
    root: u32,
    key: &[u8],
    bounds: &mut Bounds,
    found: &mut [u8],
    value: &mut [u8],
) -> Result<Option<u32>, PageFault>
    requires root { 0 < root }
    requires key { length key.now ≡ form.key }
    requires found { length found.old ≡ form.key }
    requires value { length value.old ≡ form.value }
    ensures found { IsMap form (P.pages pages.old) root
        → IfOk result (LocatesOr (first_from (number key.now) (map_rows form (P.pages pages.old) root)) (number found.new, value.new)
        (HoldsRow form (P.pages pages.old) (map_uses form (P.pages pages.old) root) (number found.new, value.new))
        (first_from (high_of form bounds.new) (map_rows form (P.pages pages.old) root))) }
    ensures last { IsMap form (P.pages pages.old) root → bounds.new.top ≡ 0
        → IfOk result (λ leaf. first_from (high_of form bounds.new) (map_rows form (P.pages pages.old) root) ≡ None) }
    ensures on { IfOk result (λ leaf. IfSome leaf (λ page. number key.now ≤ number found.new)) }
    ensures read { AreReadable (P.pages pages.old) (P.count pages.old)
        → IfOk result (λ leaf. IfSome leaf (HasRead form (P.pages pages.old) (P.asked pages.old) (P.asked pages.new) (number found.new, value.new))) }
    ensures way { AreReadable (P.pages pages.old) (P.count pages.old)
        → IfOk result (λ leaf. IsFirstThere form (P.pages pages.old) (P.count pages.old) root (number key.now) (high_of form bounds.new) (if is_some leaf then Some (number found.new, value.new) else None)) }
    ensures past { IfOk result (λ leaf. number key.now < high_of form bounds.new) }
    ensures top { IfOk result (λ leaf. 0 < bounds.new.top → bounds.new.top ≡ form.key) }
    ensures damaged { AreReadable (P.pages pages.old) (P.count pages.old)
        → (damage : Damage) → IsErrOf result (PageFault.Damaged damage) → IsMapDamaged form (P.pages pages.old) (P.count pages.old) root damage }
    ensures named { AreReadable (P.pages pages.old) (P.count pages.old)
        → (damage : Damage) → IsErrOf result (PageFault.Damaged damage) → AskedSince (P.asked pages.old) (P.asked pages.new) damage.page }
    ensures own { AreReadable (P.pages pages.old) (P.count pages.old)
        → AsksOnly (map_uses form (P.pages pages.old) root) (P.asked pages.old) (P.asked pages.new) }
    ensures fails { FailsReading P.Pages pages.old pages.new result }
    ensures frame { Reads P.Pages pages.old pages.new }
{
    match locate(pages, form, root, key, bounds) {
        Ok(leaf) => {
            let hit = first_in(pages.looked(), form, leaf.count, key, found, value);
            Ok(hit.then_some(leaf.page))
        }
        Err(fault) => Err(fault),
    }
}

// Writes a key to the beginning of a buffer.
fn set_key(buffer: &mut [u8; 255], key: &[u8])
    requires { length key.now ≤ 255 }
    ensures front { take (length key.now) buffer.new ≡ key.now }
    ensures below { number key.now < 256 ^ length key.now }
{
    buffer[..key.len()].copy_from_slice(key);
}

/// Returns the page of the leaf that holds the first row whose key isn't less, in a map that has a root. Leaves the row's key in `found`
/// and its value in `value`.
///
/// Goes down to the leaf that the key belongs to and, if that has no such row, to the leaf that its upper bound belongs to.
/// The latter begins at the bound, and is never empty, so that two ways down are enough; they look at a page a level each.
/// Copies only the key and the value. Fails as [`find_below`] does.
pub fn first_below<P: Pages>(
    pages: &mut P,
    form: Form,
    root: u32,
    key: &[u8],
    found: &mut [u8],
    value: &mut [u8],
) -> Result<Option<u32>, PageFault>
    requires root { 0 < root }
    requires key { length key.now ≡ form.key }
    requires found { length found.old ≡ form.key }
    requires value { length value.old ≡ form.value }
    ensures found { IsMap form (P.pages pages.old) root
        → IfOk result (Locates (first_from (number key.now) (map_rows form (P.pages pages.old) root)) (number found.new, value.new)
        (HoldsRow form (P.pages pages.old) (map_uses form (P.pages pages.old) root) (number found.new, value.new))) }
    ensures on { IfOk result (λ leaf. IfSome leaf (λ page. number key.now ≤ number found.new)) }
    ensures read { AreReadable (P.pages pages.old) (P.count pages.old)
        → IfOk result (λ leaf. IfSome leaf (HasRead form (P.pages pages.old) (P.asked pages.old) (P.asked pages.new) (number found.new, value.new))) }
    ensures kept { AreReadable (P.pages pages.old) (P.count pages.old)
        → IfOk result (λ leaf. (keys : List ℕ) × IsFirstPast form (P.pages pages.old) (P.count pages.old) root keys (number key.now) (if is_some leaf then Some (number found.new, value.new) else None)) }
    ensures damaged { AreReadable (P.pages pages.old) (P.count pages.old)
        → (damage : Damage) → IsErrOf result (PageFault.Damaged damage) → IsMapDamaged form (P.pages pages.old) (P.count pages.old) root damage }
    ensures named { AreReadable (P.pages pages.old) (P.count pages.old)
        → (damage : Damage) → IsErrOf result (PageFault.Damaged damage) → AskedSince (P.asked pages.old) (P.asked pages.new) damage.page }
    ensures own { AreReadable (P.pages pages.old) (P.count pages.old)
        → AsksOnly (map_uses form (P.pages pages.old) root) (P.asked pages.old) (P.asked pages.new) }
    ensures fails { FailsReading P.Pages pages.old pages.new result }
    ensures frame { Reads P.Pages pages.old pages.new }
{
    let mut bounds = Bounds::all();
    let mut from = [0; 255];
    set_key(&mut from, key);
    'leaves: loop {
        match first_at(
            pages,
            form,
            root,
            &from[..form.key],
            &mut bounds,
            found,
            value,
        ) {
            Ok(Some(leaf)) => return Ok(Some(leaf)),
            Ok(None) => {}
            Err(fault) => return Err(fault),
        }
        let high = bounds.high(form);
        if high.is_empty() {
            return Ok(None);
        }
        set_key(&mut from, high);
    }
}
