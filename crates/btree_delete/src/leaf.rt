//! A row that is taken out of a leaf.
ghost use Rattle.std.specs.Prelude.{◌≡◌, ◌≢◌, ◌+◌, ◌*◌, ◌<◌, ◌≤◌, ℕ, List, length, IfOk, OnOk, IsErrOf};
ghost use Rattle.page_face.specs.Calls.{FailsWriting, Writes};
ghost use Rattle.page_face.specs.Causes.{IsUncounted};
ghost use Rattle.page_face.specs.Number.{number};
ghost use Rattle.page_face.specs.Cells.{IsPlace, key_at};
ghost use Rattle.btree_nodes.specs.Supply.{IsSupplied, view, spare, one_at};
ghost use Rattle.btree_nodes.specs.Rows.{IsWithin};
ghost use Rattle.page_face.specs.Nodes.{count_of};
ghost use Rattle.btree_nodes.specs.Nodes.{rows_in};
ghost use Rattle.btree_delete.specs.Removal.{IsOut, HasRemoved, Lessens, IsSame};
ghost use Rattle.btree_nodes.specs.Bounds.{upper_of};
ghost use Rattle.btree_nodes.specs.Damages.{AreReadable, BreaksLeaf};

use crate::cells::without;
use crate::node::has_key;
use btree_nodes::{Form, check_leaf, damaged, place};
use page_face::{Damage, Page, PageFault, Pages};

/// Takes the row at this place out of a leaf, and gives the page back if it was the only row. Returns how many rows are left.
///
/// Refuses `Stopped` and `Memory`.
pub fn take_out<P: Pages>(
    pages: &mut P,
    form: Form,
    page: u32,
    bytes: &mut Page,
    count: usize,
    at: usize,
    key: &[u8],
) -> Result<usize, PageFault>
    requires at { at < count }
    requires count { count ≡ count_of bytes.old }
    requires fits { 16 + (form.key + form.value) * count ≤ 4096 }
    requires page { ¬ IsUncounted (P.count pages.old) page }
    ensures out { (low high : ℕ) (free : List ℕ) → bytes.old ≡ P.pages pages.old page
        → IsPlace form.key (form.key + form.value) (count_of bytes.old) bytes.old (number key.now) at
        → key_at form.key (form.key + form.value) bytes.old at ≡ number key.now
        → IsWithin low high (rows_in form bytes.old) → low ≤ number key.now → number key.now < high
        → IsSupplied (view (P.pages pages.old) (P.count pages.old) (P.first pages.old) free)
        → ((n : ℕ) → one_at page n + spare free (P.count pages.old) n ≤ 1)
        → IfOk result (IsOut form (view (P.pages pages.old) (P.count pages.old) (P.first pages.old) free) (one_at page)
        (P.pages pages.new) (P.count pages.new) (P.first pages.new) 0 page low high (number key.now) (rows_in form bytes.old) bytes.new) }
    ensures less { IfOk result (λ left. (left + 1 ≡ count) × (0 < left → left ≡ count_of bytes.new)) }
    ensures told { AreReadable (P.pages pages.old) (P.count pages.old) → OnOk result (AreReadable (P.pages pages.new) (P.count pages.new)) }

    ensures damaged { (damage : Damage) → result ≢ Err (PageFault.Damaged damage) }
    ensures fails { FailsWriting P.Pages pages.old result }
    ensures frame { Writes P.Pages pages.old pages.new }
{
    if count == 1 {
        pages.give_back(page)?;
        return Ok(0);
    }
    *bytes = without(bytes, form.leaf(), count, at);
    pages.write(page, bytes)?;
    Ok(count - 1)
}

/// Takes the row at a key out of a leaf, whose bytes were read. Returns how many rows are left, or `None` if no row has the key.
///
/// `bytes` are the page's bytes, before and after. If no row is left, the page is given back. Refuses `Damaged` with the rule that the
/// page breaks between these bounds, `Stopped` and `Memory`.
pub fn remove_leaf<P: Pages>(
    pages: &mut P,
    form: Form,
    least: usize,
    page: u32,
    bytes: &mut Page,
    low: &[u8],
    high: &[u8],
    key: &[u8],
) -> Result<Option<usize>, PageFault>
    requires least { 1 ≤ least }
    requires low { length low.now ≡ form.key }
    requires high { 0 < length high.now → length high.now ≡ form.key }
    requires key { length key.now ≡ form.key }
    requires from { number low.now ≤ number key.now }
    requires to { number key.now < upper_of form.key high.now }
    requires page { ¬ IsUncounted (P.count pages.old) page }
    ensures removed { (free : List ℕ) → bytes.old ≡ P.pages pages.old page
        → IsSupplied (view (P.pages pages.old) (P.count pages.old) (P.first pages.old) free)
        → ((n : ℕ) → one_at page n + spare free (P.count pages.old) n ≤ 1)
        → IfOk result (HasRemoved form (view (P.pages pages.old) (P.count pages.old) (P.first pages.old) free) (one_at page)
        (P.pages pages.new) (P.count pages.new) (P.first pages.new) 0 page (number low.now) (upper_of form.key high.now) (number key.now) (rows_in form bytes.old) bytes.new) }
    ensures less { IfOk result (Lessens form 0 least bytes.old bytes.new) }
    ensures same { IfOk result (IsSame (P.pages pages.old) (P.pages pages.new) (P.first pages.old) (P.first pages.new)) }
    ensures told { AreReadable (P.pages pages.old) (P.count pages.old) → OnOk result (AreReadable (P.pages pages.new) (P.count pages.new)) }

    ensures damaged { (damage : Damage) → IsErrOf result (PageFault.Damaged damage)
        → (damage.page ≡ page) × BreaksLeaf damage.rule form least (number low.now) (upper_of form.key high.now) bytes.old }
    ensures stays { (damage : Damage) → IsErrOf result (PageFault.Damaged damage) → P.pages pages.new ≡ P.pages pages.old }
    ensures fails { FailsWriting P.Pages pages.old result }
    ensures frame { Writes P.Pages pages.old pages.new }
{
    let count = match check_leaf(bytes, form, least, low, high) {
        Ok(count) => count,
        Err(rule) => return Err(damaged(page, rule)),
    };
    let at = place(bytes, key, false, form.key + form.value, count);
    if !has_key(bytes, form, count, at, key) {
        return Ok(None);
    }
    let left = take_out(pages, form, page, bytes, count, at, key)?;
    Ok(Some(left))
}
