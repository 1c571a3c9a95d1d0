//! A row that is put into a tree.
ghost use Rattle.std.specs.Prelude.{◌≡◌, ◌⊎◌, ℕ, ◌<◌, ◌≤◌, ◌+◌, List, ◌∷◌, [], ◌++◌, length, IfOk, IsErrOf, is_some};
ghost use Rattle.page_face.specs.Calls.{FailsChanging, Changes, TakesAtMost};
ghost use Rattle.page_face.specs.Causes.{IsUncounted};
ghost use Rattle.page_face.specs.Number.{number};
ghost use Rattle.btree_nodes.specs.Supply.{IsSupplied, view, spare};
ghost use Rattle.btree_nodes.specs.Rows.{lookup, put};
ghost use Rattle.btree_nodes.specs.Nodes.{least_of_root};
ghost use Rattle.btree_nodes.specs.Tree.{IsTree, rows_at, uses};
ghost use Rattle.btree_nodes.specs.Damages.{IsDamaged, IsRefusedTake, AreReadable, AskedSince, AsksOnly};
ghost use Rattle.btree_nodes.specs.Store.{IsGrown};
ghost use Rattle.btree_nodes.specs.Steps.{low_of, high_of};
ghost use Rattle.btree_insert.specs.Keeps.{KeepsAbove};

use crate::down::go_down;
use crate::leaf::{Grown, put_leaf};
use crate::link::relink;
use btree_nodes::{Bounds, Form, least_at};
use page_face::{Damage, PageFault, Pages};

/// Puts a row below `page`, which is the page looked at last and whose bounds are in `bounds`: the value at the key is this one from
/// now on.
///
/// If the page is split, the least key of the page that was split off is left in `middle`; otherwise `middle` may hold anything. After
/// the call `bounds` may hold anything.
///
/// Refuses with `Damaged` and the rule that a page breaks in its place, or as a `take` refused it; with `Disk`, `NoRoom`, `Stopped` or
/// `Memory`. Pages may have changed then.
///
/// Looks at one page for each level below this one, and once more at each page whose child was split. A page is checked whole only if it
/// isn't sealed yet. It writes one page, or two for each page that is split, for which it takes one. The cells of one page are the only
/// copy that it holds.
pub fn put_in<P: Pages>(
    pages: &mut P,
    form: Form,
    least: usize,
    page: u32,
    level: u8,
    bounds: &mut Bounds,
    key: &[u8],
    value: &[u8],
    middle: &mut [u8],
) -> Result<Grown, PageFault>
    requires least { least_of_root level ≤ least }
    requires top { 0 < bounds.old.top → bounds.old.top ≡ form.key }
    requires key { length key.now ≡ form.key }
    requires from { low_of form bounds.old ≤ number key.now }
    requires to { number key.now < high_of form bounds.old }
    requires value { length value.now ≡ form.value }
    requires middle { length middle.old ≡ form.key }
    requires counted { ¬ IsUncounted (P.count pages.old) page }
    ensures grown { (free : List ℕ) → P.looked pages.old ≡ P.pages pages.old page
        → IsTree form least (P.pages pages.old) level page (low_of form bounds.old) (high_of form bounds.old)
        → IsSupplied (view (P.pages pages.old) (P.count pages.old) (P.first pages.old) free)
        → ((n : ℕ) → uses form (P.pages pages.old) level page n + spare free (P.count pages.old) n ≤ 1)
        → IfOk result (λ grown. IsGrown form least (view (P.pages pages.old) (P.count pages.old) (P.first pages.old) free) (uses form (P.pages pages.old) level page)
        (P.pages pages.new) (P.count pages.new) (P.first pages.new)
        level page (low_of form bounds.old) (high_of form bounds.old) (put (number key.now) value.now (rows_at form (P.pages pages.old) level page)) grown.right (number middle.new)) }
    ensures had { P.looked pages.old ≡ P.pages pages.old page
        → IsTree form least (P.pages pages.old) level page (low_of form bounds.old) (high_of form bounds.old)
        → IfOk result (λ grown. grown.had ≡ is_some (lookup (number key.now) (rows_at form (P.pages pages.old) level page))) }

    // On pages whose bytes are readable, whatever they hold, the inner pages above stay.
    ensures kept { AreReadable (P.pages pages.old) (P.count pages.old) → P.looked pages.old ≡ P.pages pages.old page
        → IfOk result (λ grown. KeepsAbove level (P.pages pages.old) (P.count pages.old) (P.pages pages.new) (P.count pages.new)) }

    // On a tree with a free list that ends at 0, no take is refused as damaged.
    ensures supplied { (free : List ℕ) → P.looked pages.old ≡ P.pages pages.old page
        → IsTree form least (P.pages pages.old) level page (low_of form bounds.old) (high_of form bounds.old)
        → IsSupplied (view (P.pages pages.old) (P.count pages.old) (P.first pages.old) free)
        → ((n : ℕ) → uses form (P.pages pages.old) level page n + spare free (P.count pages.old) n ≤ 1)
        → (damage : Damage) → IsErrOf result (PageFault.Damaged damage)
        → IsDamaged form (P.pages pages.old) (P.count pages.old) damage least level page (low_of form bounds.old) (high_of form bounds.old) }
    ensures damaged { (before : List ℕ) → P.asked pages.old ≡ before ++ page ∷ []
        → AreReadable (P.pages pages.old) (P.count pages.old) → P.looked pages.old ≡ P.pages pages.old page
        → (damage : Damage) → IsErrOf result (PageFault.Damaged damage)
        → (IsDamaged form (P.pages pages.old) (P.count pages.old) damage least level page (low_of form bounds.old) (high_of form bounds.old) × AskedSince before (P.asked pages.new) damage.page)
        ⊎ IsRefusedTake (P.pages pages.new) (P.count pages.new) (P.first pages.new) damage }

    // Each check comes before a page is written.
    ensures stays { AreReadable (P.pages pages.old) (P.count pages.old) → P.looked pages.old ≡ P.pages pages.old page
        → (damage : Damage) → IsErrOf result (PageFault.Damaged damage)
        → ((P.pages pages.new ≡ P.pages pages.old) × (P.count pages.new ≡ P.count pages.old))
        ⊎ IsRefusedTake (P.pages pages.new) (P.count pages.new) (P.first pages.new) damage }
    ensures own { (before : List ℕ) → P.asked pages.old ≡ before ++ page ∷ []
        → AreReadable (P.pages pages.old) (P.count pages.old) → P.looked pages.old ≡ P.pages pages.old page
        → AsksOnly (uses form (P.pages pages.old) level page) before (P.asked pages.new) }
    ensures takes { TakesAtMost P.Pages (level + 1) pages.old pages.new result }
    ensures fails { FailsChanging P.Pages pages.old pages.new result }
    ensures frame { Changes P.Pages pages.old pages.new }
{
    if level == 0 {
        return put_leaf(
            pages,
            form,
            least,
            page,
            bounds.low(form),
            bounds.high(form),
            key,
            value,
            middle,
        );
    }
    let step = go_down(pages, form, least, page, level, bounds, key)?;
    let grown = put_in(
        pages,
        form,
        least_at(form, level - 1),
        step.child,
        level - 1,
        bounds,
        key,
        value,
        middle,
    )?;
    if grown.right == 0 {
        return Ok(grown);
    }
    let more = relink(
        pages,
        form,
        least,
        page,
        level - 1,
        step.at,
        grown.right,
        middle,
    )?;
    Ok(Grown {
        right: more,
        had: grown.had,
    })
}
