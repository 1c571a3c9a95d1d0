//! Two neighbouring pages, one of which has too few cells.
ghost use Rattle.std.specs.Prelude.{◌≡◌, ◌≢◌, ◌+◌, ◌*◌, ◌<◌, ◌≤◌, ◌++◌, ℕ, List, length, IfOk, OnOk};
ghost use Rattle.page_face.specs.Calls.{FailsWriting, Writes};
ghost use Rattle.page_face.specs.Causes.{IsUncounted};
ghost use Rattle.page_face.specs.Number.{number};
ghost use Rattle.btree_nodes.specs.Supply.{IsSupplied, view, spare, one_at};
ghost use Rattle.page_face.specs.Nodes.{count_of};
ghost use Rattle.btree_nodes.specs.Nodes.{width_of, half_of};
ghost use Rattle.btree_nodes.specs.Tree.{IsTree, rows_at, uses};
ghost use Rattle.btree_nodes.specs.Damages.{AreReadable};
ghost use Rattle.btree_delete.specs.Body.{IsBody, body_rows, body_uses};
ghost use Rattle.btree_delete.specs.Mended.{Becomes, joined};

use crate::cells::gather;
use crate::sharing::{shape_at, share};
use btree_nodes::{Form, body};
use page_face::{Damage, Page, PageFault, Pages};

// Gathers the cells of two neighbours in `cells` and shares them.
fn join_in<P: Pages>(
    pages: &mut P,
    form: Form,
    level: u8,
    left: u32,
    left_count: usize,
    left_cells: &[u8],
    right: u32,
    right_count: usize,
    right_cells: &[u8],
    parting: &[u8],
    middle: &mut [u8],
    cells: &mut [u8],
) -> Result<bool, PageFault>
    requires left_cells { length left_cells.now ≡ width_of form level * left_count }
    requires right_cells { length right_cells.now ≡ width_of form level * right_count }
    requires left_fits { width_of form level * left_count ≤ 4080 }
    requires right_fits { width_of form level * right_count ≤ 4080 }
    requires left_some { 1 ≤ left_count }
    requires right_some { 1 ≤ right_count }
    requires parting { length parting.now ≡ form.key }
    requires middle { length middle.old ≡ form.key }
    requires cells { length cells.old ≡ length left_cells.now + length right_cells.now }
    requires left { ¬ IsUncounted (P.count pages.old) left }
    requires right { ¬ IsUncounted (P.count pages.old) right }
    ensures becomes { (low high : ℕ) (free : List ℕ) → IsBody form (P.pages pages.old) level low (number parting.now) left_count left_cells.now
        → IsBody form (P.pages pages.old) level (number parting.now) high right_count right_cells.now
        → half_of form level ≤ left_count + right_count
        → IsSupplied (view (P.pages pages.old) (P.count pages.old) (P.first pages.old) free)
        → ((n : ℕ) → (one_at left n + body_uses form (P.pages pages.old) level left_count left_cells.now n)
        + (one_at right n + body_uses form (P.pages pages.old) level right_count right_cells.now n) + spare free (P.count pages.old) n ≤ 1)
        → IfOk result (λ merged. Becomes form (half_of form level) (view (P.pages pages.old) (P.count pages.old) (P.first pages.old) free)
        (λ n. (one_at left n + body_uses form (P.pages pages.old) level left_count left_cells.now n)
        + (one_at right n + body_uses form (P.pages pages.old) level right_count right_cells.now n))
        (P.pages pages.new) (P.count pages.new) (P.first pages.new) level low high
        (body_rows form (P.pages pages.old) level left_count left_cells.now ++ body_rows form (P.pages pages.old) level right_count right_cells.now)
        (joined merged low left right (number middle.new))) }
    ensures told { AreReadable (P.pages pages.old) (P.count pages.old) → OnOk result (AreReadable (P.pages pages.new) (P.count pages.new)) }

    ensures damaged { (damage : Damage) → result ≢ Err (PageFault.Damaged damage) }
    ensures fails { FailsWriting P.Pages pages.old result }
    ensures frame { Writes P.Pages pages.old pages.new }
{
    gather(form, level, left_cells, parting, right_cells, cells);
    let merged = share(
        pages,
        form,
        level,
        left,
        right,
        left_count + right_count,
        cells,
        middle,
    )?;
    Ok(merged)
}

/// Merges two neighbouring pages into the left one, or gives each half of their cells.
///
/// `parting` is the key between them. Returns whether they were merged, and then the right page is given back. If not,
/// the key that parts them now is left in `middle`. Refuses `Stopped` and `Memory`.
pub fn join<P: Pages>(
    pages: &mut P,
    form: Form,
    level: u8,
    left: u32,
    left_count: usize,
    left_bytes: &Page,
    right: u32,
    right_count: usize,
    right_bytes: &Page,
    parting: &[u8],
    middle: &mut [u8],
) -> Result<bool, PageFault>
    requires left_fits { 16 + width_of form level * left_count ≤ 4096 }
    requires right_fits { 16 + width_of form level * right_count ≤ 4096 }
    requires left_some { 1 ≤ left_count }
    requires right_some { 1 ≤ right_count }
    requires parting { length parting.now ≡ form.key }
    requires middle { length middle.old ≡ form.key }
    requires left { ¬ IsUncounted (P.count pages.old) left }
    requires right { ¬ IsUncounted (P.count pages.old) right }
    ensures becomes { (low high : ℕ) (free : List ℕ) → left_bytes.now ≡ P.pages pages.old left → right_bytes.now ≡ P.pages pages.old right
        → left_count ≡ count_of left_bytes.now → right_count ≡ count_of right_bytes.now
        → IsTree form 1 (P.pages pages.old) level left low (number parting.now)
        → IsTree form 1 (P.pages pages.old) level right (number parting.now) high
        → half_of form level ≤ left_count + right_count
        → IsSupplied (view (P.pages pages.old) (P.count pages.old) (P.first pages.old) free)
        → ((n : ℕ) → uses form (P.pages pages.old) level left n + uses form (P.pages pages.old) level right n + spare free (P.count pages.old) n ≤ 1)
        → IfOk result (λ merged. Becomes form (half_of form level) (view (P.pages pages.old) (P.count pages.old) (P.first pages.old) free)
        (λ n. uses form (P.pages pages.old) level left n + uses form (P.pages pages.old) level right n)
        (P.pages pages.new) (P.count pages.new) (P.first pages.new) level low high
        (rows_at form (P.pages pages.old) level left ++ rows_at form (P.pages pages.old) level right)
        (joined merged low left right (number middle.new))) }
    ensures told { AreReadable (P.pages pages.old) (P.count pages.old) → OnOk result (AreReadable (P.pages pages.new) (P.count pages.new)) }

    ensures damaged { (damage : Damage) → result ≢ Err (PageFault.Damaged damage) }
    ensures fails { FailsWriting P.Pages pages.old result }
    ensures frame { Writes P.Pages pages.old pages.new }
{
    let width = shape_at(form, level).width;
    let mut buffer = [0; 8160];
    let room = width * left_count + width * right_count;
    let merged = join_in(
        pages,
        form,
        level,
        left,
        left_count,
        body(left_bytes, width, left_count),
        right,
        right_count,
        body(right_bytes, width, right_count),
        parting,
        middle,
        &mut buffer[..room],
    )?;
    Ok(merged)
}
