//! Entries that are written into one inner page, or into two.
ghost use Rattle.std.specs.Prelude.{◌≡◌, ◌≢◌, ℕ, suc, ◌<◌, ◌≤◌, ◌+◌, ◌-◌, ◌*◌, List, length, map, IfOk, IsErrOf, take};
ghost use Rattle.page_face.specs.Calls.{FailsChanging, Changes, TakesAtMost};
ghost use Rattle.page_face.specs.Causes.{IsUncounted};
ghost use Rattle.page_face.specs.Number.{number};
ghost use Rattle.page_face.specs.Cells.{chop};
ghost use Rattle.btree_nodes.specs.Supply.{IsSupplied, view, spare, one_at};
ghost use Rattle.btree_nodes.specs.Nodes.{entry_of, half_of};
ghost use Rattle.btree_nodes.specs.Tree.{IsFan, IsTree, uses, total, with_low};
ghost use Rattle.btree_nodes.specs.Damages.{AreReadable, IsRefusedTake};
ghost use Rattle.btree_nodes.specs.Store.{IsGrown, below_rows};
ghost use Rattle.btree_insert.specs.Keeps.{KeepsOthers};

use crate::split::split_page;
use btree_nodes::{Form, Shape, clear_key, copy_key, store_one};
use page_face::{Damage, PageFault, Pages};

/// Writes an inner page of these entries, or two. Returns the page that was split off, or 0, and leaves its least key in `middle`.
pub fn store_inner<P: Pages>(
    pages: &mut P,
    form: Form,
    least: usize,
    page: u32,
    below: u8,
    count: usize,
    cells: &mut [u8],
    middle: &mut [u8],
) -> Result<u32, PageFault>
    requires cells { length cells.old ≡ (form.key + 4) * count }
    requires some { 0 < count }
    requires few { 16 + (form.key + 4) * (count - 1) ≤ 4096 }
    requires middle { length middle.old ≡ form.key }
    requires level { below < 255 }
    requires counted { ¬ IsUncounted (P.count pages.old) page }
    ensures grown { (low high : ℕ) (free : List ℕ) → least ≤ count → number (take form.key cells.old) ≡ 0
        → IsFan (IsTree form (half_of form below) (P.pages pages.old) below) low high (with_low low (map (entry_of form.key) (chop (form.key + 4) count cells.old)))
        → IsSupplied (view (P.pages pages.old) (P.count pages.old) (P.first pages.old) free)
        → ((n : ℕ) → one_at page n + total (λ c. uses form (P.pages pages.old) below c n) (with_low low (map (entry_of form.key) (chop (form.key + 4) count cells.old))) + spare free (P.count pages.old) n ≤ 1)
        → IfOk result (λ more. IsGrown form least (view (P.pages pages.old) (P.count pages.old) (P.first pages.old) free)
        (λ n. one_at page n + total (λ c. uses form (P.pages pages.old) below c n) (with_low low (map (entry_of form.key) (chop (form.key + 4) count cells.old))))
        (P.pages pages.new) (P.count pages.new) (P.first pages.new) (suc below) page low high
        (below_rows form (P.pages pages.old) below (with_low low (map (entry_of form.key) (chop (form.key + 4) count cells.old)))) more (number middle.new)) }

    ensures kept { AreReadable (P.pages pages.old) (P.count pages.old) → IfOk result (λ more. KeepsOthers page (P.pages pages.old) (P.count pages.old) (P.pages pages.new) (P.count pages.new)) }
    ensures no_false_damage { (free : List ℕ) → IsSupplied (view (P.pages pages.old) (P.count pages.old) (P.first pages.old) free) → (damage : Damage) → result ≢ Err (PageFault.Damaged damage) }
    ensures damaged { (damage : Damage) → IsErrOf result (PageFault.Damaged damage) → IsRefusedTake (P.pages pages.new) (P.count pages.new) (P.first pages.new) damage }
    ensures takes { TakesAtMost P.Pages 1 pages.old pages.new result }
    ensures fails { FailsChanging P.Pages pages.old pages.new result }
    ensures frame { Changes P.Pages pages.old pages.new }
    ensures asked { P.asked pages.new ≡ P.asked pages.old }
{
    let width = form.key + 4;
    let shape = Shape {
        number: form.map,
        kind: 2,
        level: below + 1,
        width,
    };
    if 16 + cells.len() <= 4096 {
        store_one(pages, shape, page, count as u16, cells)?;
        return Ok(0);
    }
    let half = count / 2;
    copy_key(cells, width * half, middle);
    clear_key(cells, width * half, form.key);
    let whole = &cells[..];
    let right = split_page(
        pages,
        shape,
        page,
        half as u16,
        &whole[..width * half],
        (count - half) as u16,
        &whole[width * half..],
    )?;
    Ok(right)
}
