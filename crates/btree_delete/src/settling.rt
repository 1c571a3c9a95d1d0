//! An inner page after a row was taken out below it.
ghost use Rattle.std.specs.Prelude.{◌≡◌, ◌≢◌, ◌+◌, ◌*◌, ◌<◌, ◌≤◌, ◌∷◌, [], ℕ, suc, List, IfOk, OnOk};
ghost use Rattle.page_face.specs.Calls.{FailsWriting, Writes};
ghost use Rattle.page_face.specs.Causes.{IsUncounted};
ghost use Rattle.btree_nodes.specs.Supply.{IsSupplied, view, spare, one_at};
ghost use Rattle.page_face.specs.Nodes.{count_of};
ghost use Rattle.btree_nodes.specs.Nodes.{IsInner, entries_in, width_of, half_of};
ghost use Rattle.btree_nodes.specs.Tree.{uses, total, with_low};
ghost use Rattle.btree_nodes.specs.Bounds.{child_of};
ghost use Rattle.btree_nodes.specs.Store.{below_rows};
ghost use Rattle.btree_nodes.specs.Damages.{AreReadable};
ghost use Rattle.btree_delete.specs.Mended.{Becomes, HasLow, IsBeside};
ghost use Rattle.btree_delete.specs.Looks.{HasLooked, HasBeside};

use crate::mending::mend;
use btree_nodes::{Form, Found, least_at};
use page_face::{Damage, Page, PageFault, Pages};

/// A neighbour of a child: its place among the entries, its count and its bytes.
#[derive(Clone, Copy)]
pub struct Beside {
    /// The entry's place.
    pub at: usize,
    /// How many cells the page has.
    pub count: usize,
    /// The page's bytes.
    pub bytes: Page,
}

/// Joins a child that has `left` cells with its neighbour if these are too few. Returns how many entries the page then has.
///
/// `bytes` are the page's bytes, before and after. Refuses `Stopped` and `Memory`.
pub fn settle<P: Pages>(
    pages: &mut P,
    form: Form,
    page: u32,
    bytes: &mut Page,
    below: u8,
    found: Found,
    child: &Page,
    left: usize,
    beside: &Beside,
) -> Result<usize, PageFault>
    requires at { found.at < found.count }
    requires count { found.count ≡ count_of bytes.old }
    requires fits { 16 + (form.key + 4) * found.count ≤ 4096 }
    requires level { below < 255 }
    requires left_fits { 16 + width_of form below * left ≤ 4096 }
    requires left_some { 1 ≤ left }
    requires beside_fits { 16 + width_of form below * beside.now.count ≤ 4096 }
    requires beside_half { half_of form below ≤ beside.now.count }
    requires near { IsBeside found.at found.count beside.now.at }
    requires page { ¬ IsUncounted (P.count pages.old) page }
    requires child { ¬ IsUncounted (P.count pages.old) (child_of form bytes.old found.at) }
    requires beside { ¬ IsUncounted (P.count pages.old) (child_of form bytes.old beside.now.at) }
    ensures becomes { (low high : ℕ) (free : List ℕ) → IsInner form 2 (suc below) bytes.old → bytes.old ≡ P.pages pages.old page
        → child.now ≡ P.pages pages.old (child_of form bytes.old found.at) → beside.now.bytes ≡ P.pages pages.old (child_of form bytes.old beside.now.at)
        → left ≡ count_of child.now → beside.now.count ≡ count_of beside.now.bytes
        → HasLow form (P.pages pages.old) below low high found.at left (with_low low (entries_in form bytes.old))
        → IsSupplied (view (P.pages pages.old) (P.count pages.old) (P.first pages.old) free)
        → ((n : ℕ) → one_at page n + total (λ c. uses form (P.pages pages.old) below c n) (entries_in form bytes.old) + spare free (P.count pages.old) n ≤ 1)
        → IfOk result (λ n. Becomes form n (view (P.pages pages.old) (P.count pages.old) (P.first pages.old) free)
        (λ n. one_at page n + total (λ c. uses form (P.pages pages.old) below c n) (entries_in form bytes.old))
        (P.pages pages.new) (P.count pages.new) (P.first pages.new) (suc below) low high
        (below_rows form (P.pages pages.old) below (entries_in form bytes.old)) ((low, page) ∷ [])) }
    ensures bytes { bytes.old ≡ P.pages pages.old page → IfOk result (λ n. bytes.new ≡ P.pages pages.new page) }
    ensures counted { IfOk result (λ n. n ≡ count_of bytes.new) }
    ensures range { IfOk result (λ n. (1 ≤ n) × (n ≤ found.count) × (found.count ≤ n + 1)) }
    ensures told { AreReadable (P.pages pages.old) (P.count pages.old) → OnOk result (AreReadable (P.pages pages.new) (P.count pages.new)) }

    ensures damaged { (damage : Damage) → result ≢ Err (PageFault.Damaged damage) }
    ensures fails { FailsWriting P.Pages pages.old result }
    ensures frame { Writes P.Pages pages.old pages.new }
{
    if left >= least_at(form, below) {
        return Ok(found.count);
    }
    if beside.at > found.at {
        let entries = mend(
            pages,
            form,
            page,
            bytes,
            below,
            found.count,
            found.at,
            left,
            child,
            beside.count,
            &beside.bytes,
        )?;
        return Ok(entries);
    }
    let entries = mend(
        pages,
        form,
        page,
        bytes,
        below,
        found.count,
        beside.at,
        beside.count,
        &beside.bytes,
        left,
        child,
    )?;
    Ok(entries)
}

/// Joins a child that has `left` cells with its neighbour if these are too few, as [`settle`]. If no neighbour was
/// read, they are enough.
pub fn settle_if_low<P: Pages>(
    pages: &mut P,
    form: Form,
    page: u32,
    bytes: &mut Page,
    below: u8,
    found: Found,
    child: &Page,
    left: usize,
    beside: &Option<Beside>,
) -> Result<usize, PageFault>
    requires at { found.at < found.count }
    requires count { found.count ≡ count_of bytes.old }
    requires fits { 16 + (form.key + 4) * found.count ≤ 4096 }
    requires level { below < 255 }
    requires left_fits { 16 + width_of form below * left ≤ 4096 }
    requires left_some { 1 ≤ left }
    requires looked { HasLooked form (P.count pages.old) below bytes.old found.at found.count (left + 1) beside.now }
    requires page { ¬ IsUncounted (P.count pages.old) page }
    requires child { ¬ IsUncounted (P.count pages.old) (child_of form bytes.old found.at) }
    ensures becomes { (low high : ℕ) (free : List ℕ) → IsInner form 2 (suc below) bytes.old → bytes.old ≡ P.pages pages.old page
        → child.now ≡ P.pages pages.old (child_of form bytes.old found.at) → HasBeside form (P.pages pages.old) bytes.old beside.now
        → left ≡ count_of child.now
        → HasLow form (P.pages pages.old) below low high found.at left (with_low low (entries_in form bytes.old))
        → IsSupplied (view (P.pages pages.old) (P.count pages.old) (P.first pages.old) free)
        → ((n : ℕ) → one_at page n + total (λ c. uses form (P.pages pages.old) below c n) (entries_in form bytes.old) + spare free (P.count pages.old) n ≤ 1)
        → IfOk result (λ n. Becomes form n (view (P.pages pages.old) (P.count pages.old) (P.first pages.old) free)
        (λ n. one_at page n + total (λ c. uses form (P.pages pages.old) below c n) (entries_in form bytes.old))
        (P.pages pages.new) (P.count pages.new) (P.first pages.new) (suc below) low high
        (below_rows form (P.pages pages.old) below (entries_in form bytes.old)) ((low, page) ∷ [])) }
    ensures bytes { bytes.old ≡ P.pages pages.old page → IfOk result (λ n. bytes.new ≡ P.pages pages.new page) }
    ensures counted { IfOk result (λ n. n ≡ count_of bytes.new) }
    ensures range { IfOk result (λ n. (1 ≤ n) × (n ≤ found.count) × (found.count ≤ n + 1)) }
    ensures told { AreReadable (P.pages pages.old) (P.count pages.old) → OnOk result (AreReadable (P.pages pages.new) (P.count pages.new)) }

    ensures damaged { (damage : Damage) → result ≢ Err (PageFault.Damaged damage) }
    ensures fails { FailsWriting P.Pages pages.old result }
    ensures frame { Writes P.Pages pages.old pages.new }
{
    match beside {
        None => Ok(found.count),
        Some(beside) => {
            let entries = settle(pages, form, page, bytes, below, found, child, left, beside)?;
            Ok(entries)
        }
    }
}
