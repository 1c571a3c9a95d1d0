//! An inner page, one of whose children has too few cells.
ghost use Rattle.std.specs.Prelude.{◌≡◌, ◌≢◌, ◌+◌, ◌*◌, ◌<◌, ◌≤◌, ◌∷◌, [], ℕ, suc, List, length, IfOk, OnOk};
ghost use Rattle.page_face.specs.Calls.{FailsWriting, Writes};
ghost use Rattle.page_face.specs.Causes.{IsUncounted};
ghost use Rattle.btree_nodes.specs.Supply.{IsSupplied, view, spare, one_at};
ghost use Rattle.page_face.specs.Nodes.{count_of};
ghost use Rattle.btree_nodes.specs.Nodes.{IsInner, entries_in, width_of, half_of};
ghost use Rattle.btree_nodes.specs.Tree.{uses, total, with_low};
ghost use Rattle.btree_nodes.specs.Bounds.{child_of};
ghost use Rattle.btree_nodes.specs.Store.{below_rows};
ghost use Rattle.btree_nodes.specs.Damages.{AreReadable};
ghost use Rattle.btree_delete.specs.Mended.{Becomes, HasPair};

use crate::cells::{rekeyed, without};
use crate::joining::join;
use btree_nodes::{Form, child_at, key_of};
use page_face::{Damage, Page, PageFault, Pages};

// Joins two children; `middle` has room for a key.
#[tactic(auto, using(btree_nodes::proofs::Spots::fits_at))]
fn mend_in<P: Pages>(
    pages: &mut P,
    form: Form,
    page: u32,
    bytes: &mut Page,
    below: u8,
    count: usize,
    at: usize,
    left_count: usize,
    left_bytes: &Page,
    right_count: usize,
    right_bytes: &Page,
    middle: &mut [u8],
) -> Result<usize, PageFault>
    requires at { at + 1 < count }
    requires count { count ≡ count_of bytes.old }
    requires fits { 16 + (form.key + 4) * count ≤ 4096 }
    requires level { below < 255 }
    requires left_fits { 16 + width_of form below * left_count ≤ 4096 }
    requires right_fits { 16 + width_of form below * right_count ≤ 4096 }
    requires left_some { 1 ≤ left_count }
    requires right_some { 1 ≤ right_count }
    requires middle { length middle.old ≡ form.key }
    requires page { ¬ IsUncounted (P.count pages.old) page }
    requires left { ¬ IsUncounted (P.count pages.old) (child_of form bytes.old at) }
    requires right { ¬ IsUncounted (P.count pages.old) (child_of form bytes.old (at + 1)) }
    ensures becomes { (low high : ℕ) (free : List ℕ) → IsInner form 2 (suc below) bytes.old
        → left_bytes.now ≡ P.pages pages.old (child_of form bytes.old at) → right_bytes.now ≡ P.pages pages.old (child_of form bytes.old (at + 1))
        → left_count ≡ count_of left_bytes.now → right_count ≡ count_of right_bytes.now
        → half_of form below ≤ left_count + right_count
        → HasPair form (P.pages pages.old) below low high at (with_low low (entries_in form bytes.old))
        → IsSupplied (view (P.pages pages.old) (P.count pages.old) (P.first pages.old) free)
        → ((n : ℕ) → one_at page n + total (λ c. uses form (P.pages pages.old) below c n) (entries_in form bytes.old) + spare free (P.count pages.old) n ≤ 1)
        → IfOk result (λ left. Becomes form left (view (P.pages pages.old) (P.count pages.old) (P.first pages.old) free)
        (λ n. one_at page n + total (λ c. uses form (P.pages pages.old) below c n) (entries_in form bytes.old))
        (P.pages pages.new) (P.count pages.new) (P.first pages.new) (suc below) low high
        (below_rows form (P.pages pages.old) below (entries_in form bytes.old)) ((low, page) ∷ [])) }
    ensures bytes { OnOk result (bytes.new ≡ P.pages pages.new page) }
    ensures counted { IfOk result (λ left. left ≡ count_of bytes.new) }
    ensures range { IfOk result (λ left. (1 ≤ left) × (left ≤ count) × (count ≤ left + 1)) }
    ensures told { AreReadable (P.pages pages.old) (P.count pages.old) → OnOk result (AreReadable (P.pages pages.new) (P.count pages.new)) }

    ensures damaged { (damage : Damage) → result ≢ Err (PageFault.Damaged damage) }
    ensures fails { FailsWriting P.Pages pages.old result }
    ensures frame { Writes P.Pages pages.old pages.new }
{
    let left = child_at(bytes, form, at);
    let right = child_at(bytes, form, at + 1);
    let parting = key_of(bytes, form.key, form.key + 4, at + 1);
    let merged = join(
        pages,
        form,
        below,
        left,
        left_count,
        left_bytes,
        right,
        right_count,
        right_bytes,
        parting,
        middle,
    )?;
    let shape = form.inner(below + 1);
    if merged {
        *bytes = without(bytes, shape, count, at + 1);
        pages.write(page, bytes)?;
        return Ok(count - 1);
    }
    *bytes = rekeyed(bytes, shape, count, at + 1, middle);
    pages.write(page, bytes)?;
    Ok(count)
}

/// Joins the children at this place and at the next one of an inner page, one of which has too few cells, and writes the
/// page anew. Returns how many entries it then has.
///
/// `bytes` are the page's bytes, before and after. Refuses `Stopped` and `Memory`.
pub fn mend<P: Pages>(
    pages: &mut P,
    form: Form,
    page: u32,
    bytes: &mut Page,
    below: u8,
    count: usize,
    at: usize,
    left_count: usize,
    left_bytes: &Page,
    right_count: usize,
    right_bytes: &Page,
) -> Result<usize, PageFault>
    requires at { at + 1 < count }
    requires count { count ≡ count_of bytes.old }
    requires fits { 16 + (form.key + 4) * count ≤ 4096 }
    requires level { below < 255 }
    requires left_fits { 16 + width_of form below * left_count ≤ 4096 }
    requires right_fits { 16 + width_of form below * right_count ≤ 4096 }
    requires left_some { 1 ≤ left_count }
    requires right_some { 1 ≤ right_count }
    requires page { ¬ IsUncounted (P.count pages.old) page }
    requires left { ¬ IsUncounted (P.count pages.old) (child_of form bytes.old at) }
    requires right { ¬ IsUncounted (P.count pages.old) (child_of form bytes.old (at + 1)) }
    ensures becomes { (low high : ℕ) (free : List ℕ) → IsInner form 2 (suc below) bytes.old
        → left_bytes.now ≡ P.pages pages.old (child_of form bytes.old at) → right_bytes.now ≡ P.pages pages.old (child_of form bytes.old (at + 1))
        → left_count ≡ count_of left_bytes.now → right_count ≡ count_of right_bytes.now
        → half_of form below ≤ left_count + right_count
        → HasPair form (P.pages pages.old) below low high at (with_low low (entries_in form bytes.old))
        → IsSupplied (view (P.pages pages.old) (P.count pages.old) (P.first pages.old) free)
        → ((n : ℕ) → one_at page n + total (λ c. uses form (P.pages pages.old) below c n) (entries_in form bytes.old) + spare free (P.count pages.old) n ≤ 1)
        → IfOk result (λ left. Becomes form left (view (P.pages pages.old) (P.count pages.old) (P.first pages.old) free)
        (λ n. one_at page n + total (λ c. uses form (P.pages pages.old) below c n) (entries_in form bytes.old))
        (P.pages pages.new) (P.count pages.new) (P.first pages.new) (suc below) low high
        (below_rows form (P.pages pages.old) below (entries_in form bytes.old)) ((low, page) ∷ [])) }
    ensures bytes { OnOk result (bytes.new ≡ P.pages pages.new page) }
    ensures counted { IfOk result (λ left. left ≡ count_of bytes.new) }
    ensures range { IfOk result (λ left. (1 ≤ left) × (left ≤ count) × (count ≤ left + 1)) }
    ensures told { AreReadable (P.pages pages.old) (P.count pages.old) → OnOk result (AreReadable (P.pages pages.new) (P.count pages.new)) }

    ensures damaged { (damage : Damage) → result ≢ Err (PageFault.Damaged damage) }
    ensures fails { FailsWriting P.Pages pages.old result }
    ensures frame { Writes P.Pages pages.old pages.new }
{
    let mut middle = [0; 255];
    let left = mend_in(
        pages,
        form,
        page,
        bytes,
        below,
        count,
        at,
        left_count,
        left_bytes,
        right_count,
        right_bytes,
        &mut middle[..form.key],
    )?;
    Ok(left)
}
