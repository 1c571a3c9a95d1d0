//! The cells of two neighbours, gathered and written anew.
ghost use Rattle.std.specs.Prelude.{◌≡◌, ◌≢◌, ◌+◌, ◌-◌, ◌*◌, ◌/◌, ◌<◌, ◌≤◌, ℕ, List, length, take, drop, IfOk, OnOk};
ghost use Rattle.page_face.specs.Calls.{FailsWriting, Writes};
ghost use Rattle.page_face.specs.Causes.{IsUncounted};
ghost use Rattle.page_face.specs.Number.{number};
ghost use Rattle.btree_nodes.specs.Supply.{IsSupplied, view, spare, one_at};
ghost use Rattle.btree_nodes.specs.Nodes.{width_of, half_of};
ghost use Rattle.btree_nodes.specs.Damages.{AreReadable};
ghost use Rattle.btree_delete.specs.Body.{kind_of, IsBody, body_rows, body_uses, cleared};
ghost use Rattle.btree_delete.specs.Mended.{Becomes, joined};

use crate::pair::{halve, merge};
use btree_nodes::{Form, Shape, clear_key, copy_key};
use page_face::{Damage, PageFault, Pages};

/// The shape of a page of this level.
pub fn shape_at(form: Form, level: u8) -> Shape
    ensures number { result.number ≡ form.map }
    ensures kind { result.kind ≡ kind_of level }
    ensures level { result.level ≡ level }
    ensures width { result.width ≡ width_of form level }
{
    if level == 0 {
        return form.leaf();
    }
    form.inner(level)
}

// Makes the cells from this place on the first ones of a page: in an inner page the first key becomes zeros.
fn clear_first(cells: &mut [u8], at: usize, form: Form, level: u8)
    requires fits { at + form.key ≤ length cells.old }
    ensures front { take at cells.new ≡ take at cells.old }
    ensures back { drop at cells.new ≡ cleared level form.key (drop at cells.old) }
{
    if level > 0 {
        clear_key(cells, at, form.key);
    }
}

/// Writes the cells of two neighbours into the left one, which leaves the right one free, or half of them into each.
///
/// Returns whether they were merged. If not, the right one's least key is left in `middle`. Refuses `Stopped` and
/// `Memory`.
pub fn share<P: Pages>(
    pages: &mut P,
    form: Form,
    level: u8,
    left: u32,
    right: u32,
    count: usize,
    cells: &mut [u8],
    middle: &mut [u8],
) -> Result<bool, PageFault>
    requires cells { length cells.old ≡ width_of form level * count }
    requires some { 2 ≤ count }
    requires fits { width_of form level * (count - count / 2) ≤ 4080 }
    requires middle { length middle.old ≡ form.key }
    requires left { ¬ IsUncounted (P.count pages.old) left }
    requires right { ¬ IsUncounted (P.count pages.old) right }
    ensures becomes { (low high : ℕ) (free : List ℕ) → IsBody form (P.pages pages.old) level low high count cells.old
        → half_of form level ≤ count
        → IsSupplied (view (P.pages pages.old) (P.count pages.old) (P.first pages.old) free)
        → ((n : ℕ) → one_at left n + one_at right n + body_uses form (P.pages pages.old) level count cells.old n + spare free (P.count pages.old) n ≤ 1)
        → IfOk result (λ merged. Becomes form (half_of form level) (view (P.pages pages.old) (P.count pages.old) (P.first pages.old) free)
        (λ n. one_at left n + one_at right n + body_uses form (P.pages pages.old) level count cells.old n)
        (P.pages pages.new) (P.count pages.new) (P.first pages.new) level low high
        (body_rows form (P.pages pages.old) level count cells.old) (joined merged low left right (number middle.new))) }
    ensures told { AreReadable (P.pages pages.old) (P.count pages.old) → OnOk result (AreReadable (P.pages pages.new) (P.count pages.new)) }

    ensures damaged { (damage : Damage) → result ≢ Err (PageFault.Damaged damage) }
    ensures fails { FailsWriting P.Pages pages.old result }
    ensures frame { Writes P.Pages pages.old pages.new }
{
    let shape = shape_at(form, level);
    if 16 + cells.len() <= 4096 {
        merge(pages, shape, left, right, count as u16, cells)?;
        return Ok(true);
    }
    let half = count / 2;
    let from = shape.width * half;
    copy_key(cells, from, middle);
    clear_first(cells, from, form, level);
    let whole = &cells[..];
    halve(
        pages,
        shape,
        left,
        right,
        half as u16,
        &whole[..from],
        (count - half) as u16,
        &whole[from..],
    )?;
    Ok(false)
}
