//! A row that is taken out of a map by its root.
ghost use Rattle.std.specs.Prelude.{◌≡◌, ◌≢◌, ℕ, ◌^◌, ◌<◌, ◌≤◌, List, length, IfOk, OnOk, IsErrOf, is_some, false};
ghost use Rattle.page_face.specs.Calls.{Changes, FailsReading, FailsWriting, Writes};
ghost use Rattle.page_face.specs.Causes.{IsUncounted};
ghost use Rattle.page_face.specs.Number.{number};
ghost use Rattle.btree_nodes.specs.Supply.{View, view};
ghost use Rattle.btree_nodes.specs.Rows.{Row, lookup, without};
ghost use Rattle.page_face.specs.Nodes.{count_of};
ghost use Rattle.btree_nodes.specs.Tree.{map_rows, map_uses};
ghost use Rattle.btree_nodes.specs.Damages.{AreReadable, AskedSince, AsksOnly};
ghost use Rattle.btree_delete.specs.Removal.{IsOut};
ghost use Rattle.paged_map.specs.Maps.{IsKept, HasBecome, IsMapDamaged};

use crate::editing::{cut_of, spot_of, write_leaf};
use crate::layout::least_key;
use crate::putting::Rooted;
use btree_delete::{lower_root, remove_in};
use btree_nodes::{Bounds, Form, level, locate, root_least};
use page_face::{Damage, Page, PageFault, Pages};

// The root of a map whose root's page has `left` cells left: 0 if no row is left. An inner page with one entry left is given back, and
// its child is the root.
fn root_after<P: Pages>(
    pages: &mut P,
    form: Form,
    root: u32,
    bytes: &Page,
    level: u8,
    left: usize,
) -> Result<u32, PageFault>
    requires root { ¬ IsUncounted (P.count pages.old) root }
    requires left { 0 < left → left ≡ count_of bytes.now }
    ensures becomes { (before : View) (mine : ℕ → ℕ) (key : ℕ) (rows : List Row) → before.count ≡ P.count pages.old → IsKept form before root
        → ((n : ℕ) → mine n ≡ map_uses form before.pages root n)
        → IsOut form before mine (P.pages pages.old) (P.count pages.old) (P.first pages.old) level root 0 (256 ^ form.key) key rows bytes.now left
        → IfOk result (λ top. HasBecome form before (P.pages pages.new) (P.count pages.new) (P.first pages.new) root top (without key rows)) }
    ensures told { AreReadable (P.pages pages.old) (P.count pages.old) → OnOk result (AreReadable (P.pages pages.new) (P.count pages.new)) }

    ensures damaged { (damage : Damage) → result ≢ Err (PageFault.Damaged damage) }
    ensures fails { FailsWriting P.Pages pages.old result }
    ensures frame { Writes P.Pages pages.old pages.new }
{
    if left >= root_least(level) {
        return Ok(root);
    }
    if left == 0 {
        return Ok(0);
    }
    lower_root(pages, form, root, bytes)
}

/// Takes the row at a key out of a map that has a root. Returns the root, and whether the key was there.
///
/// Refuses the rule that a page breaks in its place, `Disk`, `Stopped` and `Memory`.
pub fn remove_below<P: Pages>(
    pages: &mut P,
    form: Form,
    root: u32,
    key: &[u8],
) -> Result<Rooted, PageFault>
    requires root { 0 < root }
    requires key { length key.now ≡ form.key }
    ensures removed { (free : List ℕ) → IsKept form (view (P.pages pages.old) (P.count pages.old) (P.first pages.old) free) root
        → IfOk result (λ rooted. (rooted.had ≡ is_some (lookup (number key.now) (map_rows form (P.pages pages.old) root)))
        × HasBecome form (view (P.pages pages.old) (P.count pages.old) (P.first pages.old) free) (P.pages pages.new) (P.count pages.new) (P.first pages.new) root rooted.root (without (number key.now) (map_rows form (P.pages pages.old) root))) }
    ensures absent { IfOk result (λ rooted. rooted.had ≡ false → (rooted.root ≡ root) × (P.pages pages.new ≡ P.pages pages.old) × (P.first pages.new ≡ P.first pages.old)) }
    ensures told { AreReadable (P.pages pages.old) (P.count pages.old) → OnOk result (AreReadable (P.pages pages.new) (P.count pages.new)) }

    ensures no_false_damage { (free : List ℕ) → IsKept form (view (P.pages pages.old) (P.count pages.old) (P.first pages.old) free) root → (damage : Damage) → result ≢ Err (PageFault.Damaged damage) }
    ensures damaged { AreReadable (P.pages pages.old) (P.count pages.old) → (damage : Damage) → IsErrOf result (PageFault.Damaged damage)
        → IsMapDamaged form (P.pages pages.old) (P.count pages.old) root damage × AskedSince (P.asked pages.old) (P.asked pages.new) damage.page }
    ensures stays { (damage : Damage) → IsErrOf result (PageFault.Damaged damage) → P.pages pages.new ≡ P.pages pages.old }
    ensures own { AreReadable (P.pages pages.old) (P.count pages.old) → AsksOnly (map_uses form (P.pages pages.old) root) (P.asked pages.old) (P.asked pages.new) }
    ensures fails { FailsReading P.Pages pages.old pages.new result }
    ensures count { P.count pages.new ≡ P.count pages.old }
    ensures refused { P.refused pages.new ≡ P.refused pages.old }
    ensures frame { Changes P.Pages pages.old pages.new }
{
    let mut bytes = pages.read(root)?;
    let level = level(&bytes);
    let removed = remove_in(
        pages,
        form,
        root_least(level),
        root,
        &mut bytes,
        level,
        least_key(form),
        &[],
        key,
    )?;
    let left = match removed {
        Some(left) => left,
        None => return Ok(Rooted { root, had: false }),
    };
    let top = root_after(pages, form, root, &bytes, level, left)?;
    Ok(Rooted {
        root: top,
        had: true,
    })
}

/// Takes the row at a key out of a map that has a root. Returns the root, and whether the key was there.
///
/// Goes down to the leaf that the key belongs to, with no copy of a page. If the key isn't there, nothing is written. If the
/// leaf has more rows than it must have, only the leaf is written, as one new page. Otherwise, and if a page is damaged, goes down
/// again, by [`remove_below`], and fails as that does.
pub fn remove_row<P: Pages>(
    pages: &mut P,
    form: Form,
    root: u32,
    key: &[u8],
) -> Result<Rooted, PageFault>
    requires root { 0 < root }
    requires key { length key.now ≡ form.key }
    ensures removed { (free : List ℕ) → IsKept form (view (P.pages pages.old) (P.count pages.old) (P.first pages.old) free) root
        → IfOk result (λ rooted. (rooted.had ≡ is_some (lookup (number key.now) (map_rows form (P.pages pages.old) root)))
        × HasBecome form (view (P.pages pages.old) (P.count pages.old) (P.first pages.old) free) (P.pages pages.new) (P.count pages.new) (P.first pages.new) root rooted.root (without (number key.now) (map_rows form (P.pages pages.old) root))) }
    ensures absent { IfOk result (λ rooted. rooted.had ≡ false → (rooted.root ≡ root) × (P.pages pages.new ≡ P.pages pages.old) × (P.first pages.new ≡ P.first pages.old)) }
    ensures told { AreReadable (P.pages pages.old) (P.count pages.old) → OnOk result (AreReadable (P.pages pages.new) (P.count pages.new)) }

    ensures no_false_damage { (free : List ℕ) → IsKept form (view (P.pages pages.old) (P.count pages.old) (P.first pages.old) free) root → (damage : Damage) → result ≢ Err (PageFault.Damaged damage) }
    ensures damaged { AreReadable (P.pages pages.old) (P.count pages.old) → (damage : Damage) → IsErrOf result (PageFault.Damaged damage)
        → IsMapDamaged form (P.pages pages.old) (P.count pages.old) root damage × AskedSince (P.asked pages.old) (P.asked pages.new) damage.page }
    ensures stays { (damage : Damage) → IsErrOf result (PageFault.Damaged damage) → P.pages pages.new ≡ P.pages pages.old }
    ensures own { AreReadable (P.pages pages.old) (P.count pages.old) → AsksOnly (map_uses form (P.pages pages.old) root) (P.asked pages.old) (P.asked pages.new) }
    ensures fails { FailsReading P.Pages pages.old pages.new result }
    ensures count { P.count pages.new ≡ P.count pages.old }
    ensures refused { P.refused pages.new ≡ P.refused pages.old }
    ensures frame { Changes P.Pages pages.old pages.new }
{
    let mut bounds = Bounds::all();
    let leaf = match locate(pages, form, root, key, &mut bounds) {
        Ok(leaf) => leaf,
        Err(PageFault::Damaged(_)) => return remove_below(pages, form, root, key),
        Err(fault) => return Err(fault),
    };
    let spot = spot_of(pages.looked(), form, leaf.count, key);
    if spot.gone == 0 {
        return Ok(Rooted { root, had: false });
    }
    if leaf.count <= leaf.least {
        return remove_below(pages, form, root, key);
    }
    let count = (leaf.count - 1) as u16;
    let cut = cut_of(form, leaf.count, spot);
    write_leaf(pages, form, leaf.page, count, cut, &[], &[])?;
    Ok(Rooted { root, had: true })
}
