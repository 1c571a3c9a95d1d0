//! An entry that is put into an inner page, for a page that was split off below it.
ghost use Rattle.std.specs.Prelude.{◌≡◌, ◌≢◌, ℕ, suc, ◌<◌, ◌≤◌, ◌+◌, ◌-◌, ◌*◌, List, length, take, drop, map, IfOk, IfSome, IsErrOf, None};
ghost use Rattle.page_face.specs.Calls.{FailsChanging, Changes, TakesAtMost};
ghost use Rattle.page_face.specs.Causes.{IsUncounted};
ghost use Rattle.page_face.specs.Number.{number};
ghost use Rattle.page_face.specs.Cells.{chop};
ghost use Rattle.page_face.specs.Nodes.{count_of};
ghost use Rattle.btree_nodes.specs.Supply.{IsSupplied, view, spare, one_at};
ghost use Rattle.btree_nodes.specs.Nodes.{Entry, entries_in, entry_of, half_of, IsInner};
ghost use Rattle.btree_nodes.specs.Tree.{IsTree, IsFan, uses, total};
ghost use Rattle.btree_nodes.specs.Damages.{AreReadable, AsksOnly, IsRefusedTake};
ghost use Rattle.btree_nodes.specs.Store.{IsGrown, below_rows, linked};
ghost use Rattle.btree_insert.specs.Keeps.{KeepsOthers};

use crate::inner::store_inner;
use btree_nodes::{Form, Found, body, count, damaged, splice};
use page_face::{Damage, Page, PageFault, Pages, Rule};

// The number of bytes of an inner page's cells with one more entry.
fn room_for(form: Form, count: usize) -> usize
    requires { 16 + (form.key + 4) * count ≤ 4096 }
    ensures is { result ≡ (form.key + 4) * (count + 1) }
    ensures small { result ≤ 5120 }
{
    (form.key + 4) * (count + 1)
}

// Puts an entry into the cells of the inner page looked at, after the entry at this place. Returns the page that was split off, or 0.
fn link_at<P: Pages>(
    pages: &mut P,
    form: Form,
    least: usize,
    page: u32,
    below: u8,
    found: Found,
    right: u32,
    middle: &mut [u8],
    cells: &mut [u8],
) -> Result<u32, PageFault>
    requires middle { length middle.old ≡ form.key }
    requires at { found.at < found.count }
    requires fits { 16 + (form.key + 4) * found.count ≤ 4096 }
    requires cells { length cells.old ≡ (form.key + 4) * (found.count + 1) }
    requires level { below < 255 }
    requires counted { ¬ IsUncounted (P.count pages.old) page }
    ensures grown { (low high : ℕ) (free : List ℕ) (es : List Entry) → least ≤ found.count + 1
        → map (entry_of form.key) (chop (form.key + 4) found.count (take ((form.key + 4) * found.count) (drop 16 (P.looked pages.old)))) ≡ es
        → number (take form.key (take ((form.key + 4) * found.count) (drop 16 (P.looked pages.old)))) ≡ 0
        → IsFan (IsTree form (half_of form below) (P.pages pages.old) below) low high (linked low es found.at right (number middle.old))
        → IsSupplied (view (P.pages pages.old) (P.count pages.old) (P.first pages.old) free)
        → ((n : ℕ) → one_at page n + total (λ c. uses form (P.pages pages.old) below c n) (linked low es found.at right (number middle.old)) + spare free (P.count pages.old) n ≤ 1)
        → IfOk result (λ more. IsGrown form least (view (P.pages pages.old) (P.count pages.old) (P.first pages.old) free)
        (λ n. one_at page n + total (λ c. uses form (P.pages pages.old) below c n) (linked low es found.at right (number middle.old)))
        (P.pages pages.new) (P.count pages.new) (P.first pages.new) (suc below) page low high
        (below_rows form (P.pages pages.old) below (linked low es found.at right (number middle.old))) more (number middle.new)) }

    ensures kept { AreReadable (P.pages pages.old) (P.count pages.old) → IfOk result (λ more. KeepsOthers page (P.pages pages.old) (P.count pages.old) (P.pages pages.new) (P.count pages.new)) }
    ensures no_false_damage { (free : List ℕ) → IsSupplied (view (P.pages pages.old) (P.count pages.old) (P.first pages.old) free) → (damage : Damage) → result ≢ Err (PageFault.Damaged damage) }
    ensures damaged { (damage : Damage) → IsErrOf result (PageFault.Damaged damage) → IsRefusedTake (P.pages pages.new) (P.count pages.new) (P.first pages.new) damage }
    ensures takes { TakesAtMost P.Pages 1 pages.old pages.new result }
    ensures fails { FailsChanging P.Pages pages.old pages.new result }
    ensures frame { Changes P.Pages pages.old pages.new }
    ensures asked { P.asked pages.new ≡ P.asked pages.old }
{
    let width = form.key + 4;
    let at = width * (found.at + 1);
    splice(
        body(pages.looked(), width, found.count),
        at,
        at,
        middle,
        &right.to_be_bytes(),
        cells,
    );
    store_inner(
        pages,
        form,
        least,
        page,
        below,
        found.count + 1,
        cells,
        middle,
    )
}

// Puts an entry after the one at this place of the inner page looked at. Returns the page that was split off, or 0.
fn link<P: Pages>(
    pages: &mut P,
    form: Form,
    least: usize,
    page: u32,
    below: u8,
    found: Found,
    right: u32,
    middle: &mut [u8],
) -> Result<u32, PageFault>
    requires middle { length middle.old ≡ form.key }
    requires at { found.at < found.count }
    requires count { found.count ≡ count_of (P.looked pages.old) }
    requires fits { 16 + (form.key + 4) * found.count ≤ 4096 }
    requires level { below < 255 }
    requires counted { ¬ IsUncounted (P.count pages.old) page }
    ensures grown { (low high : ℕ) (free : List ℕ) → IsInner form least (suc below) (P.looked pages.old)
        → IsFan (IsTree form (half_of form below) (P.pages pages.old) below) low high (linked low (entries_in form (P.looked pages.old)) found.at right (number middle.old))
        → IsSupplied (view (P.pages pages.old) (P.count pages.old) (P.first pages.old) free)
        → ((n : ℕ) → one_at page n + total (λ c. uses form (P.pages pages.old) below c n) (linked low (entries_in form (P.looked pages.old)) found.at right (number middle.old)) + spare free (P.count pages.old) n ≤ 1)
        → IfOk result (λ more. IsGrown form least (view (P.pages pages.old) (P.count pages.old) (P.first pages.old) free)
        (λ n. one_at page n + total (λ c. uses form (P.pages pages.old) below c n) (linked low (entries_in form (P.looked pages.old)) found.at right (number middle.old)))
        (P.pages pages.new) (P.count pages.new) (P.first pages.new) (suc below) page low high
        (below_rows form (P.pages pages.old) below (linked low (entries_in form (P.looked pages.old)) found.at right (number middle.old))) more (number middle.new)) }

    ensures kept { AreReadable (P.pages pages.old) (P.count pages.old) → IfOk result (λ more. KeepsOthers page (P.pages pages.old) (P.count pages.old) (P.pages pages.new) (P.count pages.new)) }
    ensures no_false_damage { (free : List ℕ) → IsSupplied (view (P.pages pages.old) (P.count pages.old) (P.first pages.old) free) → (damage : Damage) → result ≢ Err (PageFault.Damaged damage) }
    ensures damaged { (damage : Damage) → IsErrOf result (PageFault.Damaged damage) → IsRefusedTake (P.pages pages.new) (P.count pages.new) (P.first pages.new) damage }
    ensures takes { TakesAtMost P.Pages 1 pages.old pages.new result }
    ensures fails { FailsChanging P.Pages pages.old pages.new result }
    ensures frame { Changes P.Pages pages.old pages.new }
    ensures asked { P.asked pages.new ≡ P.asked pages.old }
{
    let room = room_for(form, found.count);
    let mut buffer = [0; 5120];
    link_at(
        pages,
        form,
        least,
        page,
        below,
        found,
        right,
        middle,
        &mut buffer[..room],
    )
}

// The entry at this place of a page, unless the page has none there or its header counts more entries than fit.
fn found_at(page: &Page, form: Form, at: usize) -> Option<Found>
    ensures found { IfSome result (λ found. (found.at ≡ at) × (at < found.count) × (found.count ≡ count_of page.now) × (16 + (form.key + 4) * found.count ≤ 4096)) }
    ensures none { result ≡ None → at < count_of page.now → 16 + (form.key + 4) * count_of page.now ≤ 4096 → ⊥ }
{
    let count = count(page);
    if count <= at || count > 4096 {
        return None;
    }
    if 16 + (form.key + 4) * count > 4096 {
        return None;
    }
    Some(Found { at, count })
}

/// Looks at an inner page again and puts an entry after the one at this place. Returns the page that was split off, or 0, and leaves
/// its least key in `middle`.
///
/// Refuses as `look` and `take` do, and `Damaged` with `Fill` at the page if what is lent has no entry at the place. That happens only if
/// the page has changed meanwhile. Looks at one page, copies its cells once into a buffer, and writes it, or takes one and writes two.
#[inline(never)]
pub fn relink<P: Pages>(
    pages: &mut P,
    form: Form,
    least: usize,
    page: u32,
    below: u8,
    at: usize,
    right: u32,
    middle: &mut [u8],
) -> Result<u32, PageFault>
    requires middle { length middle.old ≡ form.key }
    requires level { below < 255 }
    requires counted { ¬ IsUncounted (P.count pages.old) page }
    ensures grown { (bytes : List ℕ) (low high : ℕ) (free : List ℕ) → P.pages pages.old page ≡ bytes → IsInner form least (suc below) bytes → at < count_of bytes
        → IsFan (IsTree form (half_of form below) (P.pages pages.old) below) low high (linked low (entries_in form bytes) at right (number middle.old))
        → IsSupplied (view (P.pages pages.old) (P.count pages.old) (P.first pages.old) free)
        → ((n : ℕ) → one_at page n + total (λ c. uses form (P.pages pages.old) below c n) (linked low (entries_in form bytes) at right (number middle.old)) + spare free (P.count pages.old) n ≤ 1)
        → IfOk result (λ more. IsGrown form least (view (P.pages pages.old) (P.count pages.old) (P.first pages.old) free)
        (λ n. one_at page n + total (λ c. uses form (P.pages pages.old) below c n) (linked low (entries_in form bytes) at right (number middle.old)))
        (P.pages pages.new) (P.count pages.new) (P.first pages.new) (suc below) page low high
        (below_rows form (P.pages pages.old) below (linked low (entries_in form bytes) at right (number middle.old))) more (number middle.new)) }

    ensures kept { AreReadable (P.pages pages.old) (P.count pages.old) → IfOk result (λ more. KeepsOthers page (P.pages pages.old) (P.count pages.old) (P.pages pages.new) (P.count pages.new)) }

    // A page whose bytes are readable, and which has the entry, isn't refused.
    ensures no_false_damage { (free : List ℕ) → IsInner form least (suc below) (P.pages pages.old page) → at < count_of (P.pages pages.old page)
        → IsSupplied (view (P.pages pages.old) (P.count pages.old) (P.first pages.old) free) → (damage : Damage) → result ≢ Err (PageFault.Damaged damage) }
    ensures damaged { IsInner form least (suc below) (P.pages pages.old page) → at < count_of (P.pages pages.old page)
        → (damage : Damage) → IsErrOf result (PageFault.Damaged damage) → IsRefusedTake (P.pages pages.new) (P.count pages.new) (P.first pages.new) damage }
    ensures own { (mine : ℕ → ℕ) → 0 < mine page → AsksOnly mine (P.asked pages.old) (P.asked pages.new) }
    ensures takes { TakesAtMost P.Pages 1 pages.old pages.new result }
    ensures fails { FailsChanging P.Pages pages.old pages.new result }
    ensures frame { Changes P.Pages pages.old pages.new }
{
    match pages.look(page) {
        Ok(()) => {}
        Err(fault) => return Err(fault),
    }
    match found_at(pages.looked(), form, at) {
        Some(found) => link(pages, form, least, page, below, found, right, middle),
        None => Err(damaged(page, Rule::Fill)),
    }
}
