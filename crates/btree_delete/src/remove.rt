//! A row that is taken out of a tree.
ghost use Rattle.std.specs.Prelude.{◌≡◌, ℕ, ◌+◌, ◌<◌, ◌≤◌, List, length, IfOk, OnOk, IsErrOf};
ghost use Rattle.page_face.specs.Calls.{FailsReading, TakesNone};
ghost use Rattle.page_face.specs.Causes.{IsUncounted};
ghost use Rattle.page_face.specs.Number.{number};
ghost use Rattle.btree_nodes.specs.Supply.{IsSupplied, view, spare};
ghost use Rattle.btree_nodes.specs.Nodes.{least_of_root};
ghost use Rattle.btree_nodes.specs.Tree.{IsTree, rows_at, uses};
ghost use Rattle.btree_nodes.specs.Bounds.{upper_of};
ghost use Rattle.btree_nodes.specs.Damages.{IsDamaged, AreReadable, AskedSince, AsksOnly};
ghost use Rattle.btree_delete.specs.Removal.{HasRemoved, Lessens, IsSame};

use crate::beside::look_if_low;
use crate::leaf::remove_leaf;
use crate::settling::settle_if_low;
use btree_nodes::{Form, child_at, damaged, find_place, least_at, lower, upper};
use page_face::{Damage, Page, PageFault, Pages};

/// Takes the row at a key out of the tree below a page, which was read. Returns how many cells the page has left, or `None` if no row
/// has the key; then nothing is written.
///
/// `bytes` are the page's bytes, before and after. A leaf without a row is given back. All reads come before all writes: a neighbour is
/// read on the way down, if a child has no more than half of the cells that fit. Refuses `Damaged` with a rule that a page of the tree
/// breaks, `Disk`, `Stopped` and `Memory`.
pub fn remove_in<P: Pages>(
    pages: &mut P,
    form: Form,
    least: usize,
    page: u32,
    bytes: &mut Page,
    level: u8,
    low: &[u8],
    high: &[u8],
    key: &[u8],
) -> Result<Option<usize>, PageFault>
    requires least { least_of_root level ≤ least }
    requires low { length low.now ≡ form.key }
    requires high { 0 < length high.now → length high.now ≡ form.key }
    requires key { length key.now ≡ form.key }
    requires from { number low.now ≤ number key.now }
    requires to { number key.now < upper_of form.key high.now }
    requires page { ¬ IsUncounted (P.count pages.old) page }
    ensures removed { (free : List ℕ) → bytes.old ≡ P.pages pages.old page
        → IsTree form least (P.pages pages.old) level page (number low.now) (upper_of form.key high.now)
        → IsSupplied (view (P.pages pages.old) (P.count pages.old) (P.first pages.old) free)
        → ((n : ℕ) → uses form (P.pages pages.old) level page n + spare free (P.count pages.old) n ≤ 1)
        → IfOk result (HasRemoved form (view (P.pages pages.old) (P.count pages.old) (P.first pages.old) free) (uses form (P.pages pages.old) level page)
        (P.pages pages.new) (P.count pages.new) (P.first pages.new) level page (number low.now) (upper_of form.key high.now) (number key.now)
        (rows_at form (P.pages pages.old) level page) bytes.new) }
    ensures less { IfOk result (Lessens form level least bytes.old bytes.new) }
    ensures same { IfOk result (IsSame (P.pages pages.old) (P.pages pages.new) (P.first pages.old) (P.first pages.new)) }
    ensures told { AreReadable (P.pages pages.old) (P.count pages.old) → OnOk result (AreReadable (P.pages pages.new) (P.count pages.new)) }

    ensures damaged { AreReadable (P.pages pages.old) (P.count pages.old) → bytes.old ≡ P.pages pages.old page
        → (damage : Damage) → IsErrOf result (PageFault.Damaged damage)
        → IsDamaged form (P.pages pages.old) (P.count pages.old) damage least level page (number low.now) (upper_of form.key high.now) }

    // On a well-formed tree, whether or not the bytes of other pages are readable.
    ensures in_tree { bytes.old ≡ P.pages pages.old page
        → IsTree form least (P.pages pages.old) level page (number low.now) (upper_of form.key high.now)
        → (damage : Damage) → IsErrOf result (PageFault.Damaged damage)
        → IsDamaged form (P.pages pages.old) (P.count pages.old) damage least level page (number low.now) (upper_of form.key high.now) }

    // All pages are read before one is written.
    ensures stays { (damage : Damage) → IsErrOf result (PageFault.Damaged damage) → P.pages pages.new ≡ P.pages pages.old }
    ensures named { (before : List ℕ) → AskedSince before (P.asked pages.old) page
        → (damage : Damage) → IsErrOf result (PageFault.Damaged damage) → AskedSince before (P.asked pages.new) damage.page }
    ensures own { AreReadable (P.pages pages.old) (P.count pages.old) → bytes.old ≡ P.pages pages.old page
        → AsksOnly (uses form (P.pages pages.old) level page) (P.asked pages.old) (P.asked pages.new) }
    ensures fails { FailsReading P.Pages pages.old pages.new result }
    ensures frame { TakesNone P.Pages pages.old pages.new }
{
    if level == 0 {
        return remove_leaf(pages, form, least, page, bytes, low, high, key);
    }
    let found = match find_place(bytes, form, least, level, low, high, key) {
        Ok(found) => found,
        Err(rule) => return Err(damaged(page, rule)),
    };
    let child = child_at(bytes, form, found.at);
    let mut below = pages.read(child)?;
    let beside = look_if_low(pages, form, bytes, level - 1, found, &below, low, high)?;
    let removed = remove_in(
        pages,
        form,
        least_at(form, level - 1),
        child,
        &mut below,
        level - 1,
        lower(bytes, form, found.at, low),
        upper(bytes, form, found.count, found.at, high),
        key,
    )?;
    let left = match removed {
        Some(left) => left,
        None => return Ok(None),
    };
    let entries = settle_if_low(
        pages,
        form,
        page,
        bytes,
        level - 1,
        found,
        &below,
        left,
        &beside,
    )?;
    Ok(Some(entries))
}
