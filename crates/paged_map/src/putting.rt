//! A row that is put into a map by its root.
ghost use Rattle.std.specs.Prelude.{◌≡◌, ◌≢◌, ◌⊎◌, ℕ, ◌+◌, ◌<◌, ◌≤◌, List, length, IfOk, OnOk, IsErrOf, is_some};
ghost use Rattle.page_face.specs.Calls.{Changes, FailsChanging, TakesAtMost};
ghost use Rattle.page_face.specs.Number.{number};
ghost use Rattle.btree_nodes.specs.Supply.{view};
ghost use Rattle.btree_nodes.specs.Rows.{lookup, put};
ghost use Rattle.btree_nodes.specs.Tree.{IsMap, map_rows, map_uses};
ghost use Rattle.btree_nodes.specs.Damages.{IsRefusedTake, AreReadable, AskedSince, AsksOnly};
ghost use Rattle.paged_map.specs.Heights.{height_of};
ghost use Rattle.paged_map.specs.Maps.{IsKept, HasBecome, IsMapDamaged};

use crate::editing::{cut_of, has_room, spot_of, write_leaf};
use btree_insert::{grow_root, put_in};
use btree_nodes::{Bounds, Form, level, locate, root_least};
use page_face::{Damage, PageFault, Pages};

// The greatest level that a page can hold, in one byte.
const LAST: u8 = 255;

/// What putting a row into a map has done.
#[derive(Clone, Copy, Debug, PartialEq, Eq)]
pub struct Rooted {
    /// The map's root.
    pub root: u32,
    /// Whether the key was there.
    pub had: bool,
}

/// Puts a row into a map that has a root. `middle` is room for a key.
///
/// Refuses with `Damaged` and the rule that a page breaks in its place, and as a `take` is refused. A root of level 255 that would
/// have to be split is refused with `Memory`; a well-formed map has none, since it would have more pages than there are numbers.
///
/// Looks at one page for each level, and once more at each page whose child was split. Writes one page, or two for each page that is
/// split, for which it takes one, and one for a new root.
pub fn put_below<P: Pages>(
    pages: &mut P,
    form: Form,
    root: u32,
    key: &[u8],
    value: &[u8],
    middle: &mut [u8],
) -> Result<Rooted, PageFault>
    requires root { 0 < root }
    requires key { length key.now ≡ form.key }
    requires value { length value.now ≡ form.value }
    requires middle { length middle.old ≡ form.key }
    ensures becomes { (free : List ℕ) → IsKept form (view (P.pages pages.old) (P.count pages.old) (P.first pages.old) free) root
        → IfOk result (λ rooted. HasBecome form (view (P.pages pages.old) (P.count pages.old) (P.first pages.old) free) (P.pages pages.new) (P.count pages.new) (P.first pages.new) root rooted.root (put (number key.now) value.now (map_rows form (P.pages pages.old) root))) }
    ensures had { IsMap form (P.pages pages.old) root → IfOk result (λ rooted. rooted.had ≡ is_some (lookup (number key.now) (map_rows form (P.pages pages.old) root))) }
    ensures told { AreReadable (P.pages pages.old) (P.count pages.old) → OnOk result (AreReadable (P.pages pages.new) (P.count pages.new)) }

    ensures no_false_damage { (free : List ℕ) → IsKept form (view (P.pages pages.old) (P.count pages.old) (P.first pages.old) free) root → (damage : Damage) → result ≢ Err (PageFault.Damaged damage) }
    ensures damaged { AreReadable (P.pages pages.old) (P.count pages.old) → (damage : Damage) → IsErrOf result (PageFault.Damaged damage)
        → (IsMapDamaged form (P.pages pages.old) (P.count pages.old) root damage × AskedSince (P.asked pages.old) (P.asked pages.new) damage.page)
        ⊎ IsRefusedTake (P.pages pages.new) (P.count pages.new) (P.first pages.new) damage }
    ensures stays { AreReadable (P.pages pages.old) (P.count pages.old) → (damage : Damage) → IsErrOf result (PageFault.Damaged damage)
        → ((P.pages pages.new ≡ P.pages pages.old) × (P.count pages.new ≡ P.count pages.old))
        ⊎ IsRefusedTake (P.pages pages.new) (P.count pages.new) (P.first pages.new) damage }
    ensures own { AreReadable (P.pages pages.old) (P.count pages.old) → AsksOnly (map_uses form (P.pages pages.old) root) (P.asked pages.old) (P.asked pages.new) }
    ensures takes { AreReadable (P.pages pages.old) (P.count pages.old) → TakesAtMost P.Pages (height_of (P.pages pages.old) root + 1) pages.old pages.new result }
    ensures at_most { TakesAtMost P.Pages 257 pages.old pages.new result }
    ensures fails { FailsChanging P.Pages pages.old pages.new result }
    ensures frame { Changes P.Pages pages.old pages.new }
{
    match pages.look(root) {
        Ok(()) => {}
        Err(fault) => return Err(fault),
    }
    let level = level(pages.looked());
    let mut bounds = Bounds::all();
    let grown = put_in(
        pages,
        form,
        root_least(level),
        root,
        level,
        &mut bounds,
        key,
        value,
        middle,
    )?;
    if grown.right == 0 {
        return Ok(Rooted {
            root,
            had: grown.had,
        });
    }
    if level == LAST {
        return Err(PageFault::Memory);
    }
    let top = grow_root(pages, form, level, root, middle, grown.right)?;
    Ok(Rooted {
        root: top,
        had: grown.had,
    })
}

/// Puts a row into a map that has a root. `middle` is room for a key.
///
/// Goes down to the leaf that the key belongs to, with no copy of a page. If the leaf has the key, or room for one more row,
/// only the leaf is written, as one new page: no page above it changes. Otherwise, and if a page is damaged, goes down again, by
/// [`put_below`], and fails as that does.
pub fn put_row<P: Pages>(
    pages: &mut P,
    form: Form,
    root: u32,
    key: &[u8],
    value: &[u8],
    middle: &mut [u8],
) -> Result<Rooted, PageFault>
    requires root { 0 < root }
    requires key { length key.now ≡ form.key }
    requires value { length value.now ≡ form.value }
    requires middle { length middle.old ≡ form.key }
    ensures becomes { (free : List ℕ) → IsKept form (view (P.pages pages.old) (P.count pages.old) (P.first pages.old) free) root
        → IfOk result (λ rooted. HasBecome form (view (P.pages pages.old) (P.count pages.old) (P.first pages.old) free) (P.pages pages.new) (P.count pages.new) (P.first pages.new) root rooted.root (put (number key.now) value.now (map_rows form (P.pages pages.old) root))) }
    ensures had { IsMap form (P.pages pages.old) root → IfOk result (λ rooted. rooted.had ≡ is_some (lookup (number key.now) (map_rows form (P.pages pages.old) root))) }
    ensures told { AreReadable (P.pages pages.old) (P.count pages.old) → OnOk result (AreReadable (P.pages pages.new) (P.count pages.new)) }

    ensures no_false_damage { (free : List ℕ) → IsKept form (view (P.pages pages.old) (P.count pages.old) (P.first pages.old) free) root → (damage : Damage) → result ≢ Err (PageFault.Damaged damage) }
    ensures damaged { AreReadable (P.pages pages.old) (P.count pages.old) → (damage : Damage) → IsErrOf result (PageFault.Damaged damage)
        → (IsMapDamaged form (P.pages pages.old) (P.count pages.old) root damage × AskedSince (P.asked pages.old) (P.asked pages.new) damage.page)
        ⊎ IsRefusedTake (P.pages pages.new) (P.count pages.new) (P.first pages.new) damage }
    ensures stays { AreReadable (P.pages pages.old) (P.count pages.old) → (damage : Damage) → IsErrOf result (PageFault.Damaged damage)
        → ((P.pages pages.new ≡ P.pages pages.old) × (P.count pages.new ≡ P.count pages.old))
        ⊎ IsRefusedTake (P.pages pages.new) (P.count pages.new) (P.first pages.new) damage }
    ensures own { AreReadable (P.pages pages.old) (P.count pages.old) → AsksOnly (map_uses form (P.pages pages.old) root) (P.asked pages.old) (P.asked pages.new) }
    ensures takes { AreReadable (P.pages pages.old) (P.count pages.old) → TakesAtMost P.Pages (height_of (P.pages pages.old) root + 1) pages.old pages.new result }
    ensures at_most { TakesAtMost P.Pages 257 pages.old pages.new result }
    ensures fails { FailsChanging P.Pages pages.old pages.new result }
    ensures frame { Changes P.Pages pages.old pages.new }
{
    let mut bounds = Bounds::all();
    let leaf = match locate(pages, form, root, key, &mut bounds) {
        Ok(leaf) => leaf,
        Err(PageFault::Damaged(_)) => return put_below(pages, form, root, key, value, middle),
        Err(fault) => return Err(fault),
    };
    let spot = spot_of(pages.looked(), form, leaf.count, key);
    if !has_room(form, leaf.count, spot.gone) {
        return put_below(pages, form, root, key, value, middle);
    }
    let count = (leaf.count + 1 - spot.gone) as u16;
    let cut = cut_of(form, leaf.count, spot);
    write_leaf(pages, form, leaf.page, count, cut, key, value)?;
    Ok(Rooted {
        root,
        had: spot.gone == 1,
    })
}
