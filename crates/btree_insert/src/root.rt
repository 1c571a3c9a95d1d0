//! Roots: the first leaf of a map, and a root above two pages.
ghost use Rattle.std.specs.Prelude.{◌≡◌, ◌≢◌, ℕ, suc, ◌<◌, ◌≤◌, ◌+◌, ◌^◌, List, ◌∷◌, ◌++◌, [], length, replicate, IfOk, OnOk, IsErrOf};
ghost use Rattle.std.specs.Int.{to_be_bytes, w32};
ghost use Rattle.page_face.specs.Calls.{FailsWriting, FailsChanging, Writes, Changes, TakesAtMost};
ghost use Rattle.page_face.specs.FreeList.{with_page};
ghost use Rattle.page_face.specs.Causes.{IsUncounted};
ghost use Rattle.page_face.specs.Number.{number};
ghost use Rattle.btree_nodes.specs.Build.{image};
ghost use Rattle.btree_nodes.specs.Supply.{IsSupplied, view, spare};
ghost use Rattle.btree_nodes.specs.Nodes.{half_of};
ghost use Rattle.btree_nodes.specs.Tree.{IsFan, IsTree, uses, total};
ghost use Rattle.btree_nodes.specs.Damages.{AreReadable, IsRefusedTake};
ghost use Rattle.btree_nodes.specs.Store.{IsGrown, below_rows};
ghost use Rattle.btree_insert.specs.Starts.{no_page};

use btree_nodes::{Form, Shape, splice, store_one, write_at};
use page_face::{Damage, PageFault, Pages};

// The cells of two entries, the first with the least key.
fn two_cells(form: Form, left: u32, middle: &[u8], right: u32, out: &mut [u8])
    requires middle { length middle.now ≡ form.key }
    requires out { length out.old ≡ (form.key + 4) + (form.key + 4) }
    ensures { out.new ≡ (replicate form.key 0 ++ to_be_bytes w32 left) ++ (middle.now ++ to_be_bytes w32 right) }
{
    let zeros = [0; 255];
    write_at(out, 0, &zeros[..form.key]);
    write_at(out, form.key, &left.to_be_bytes());
    write_at(out, form.key + 4, middle);
    write_at(out, form.key + 4 + form.key, &right.to_be_bytes());
}

// Writes a root above two pages.
fn write_root<P: Pages>(
    pages: &mut P,
    form: Form,
    below: u8,
    root: u32,
    left: u32,
    middle: &[u8],
    right: u32,
    cells: &mut [u8],
) -> Result<(), PageFault>
    requires middle { length middle.now ≡ form.key }
    requires level { below < 255 }
    requires cells { length cells.old ≡ (form.key + 4) + (form.key + 4) }
    requires counted { ¬ IsUncounted (P.count pages.old) root }
    ensures written { OnOk result (P.pages pages.new ≡ with_page root (image form.map 2 (below + 1) 2 ((replicate form.key 0 ++ to_be_bytes w32 left) ++ (middle.now ++ to_be_bytes w32 right))) (P.pages pages.old)) }

    ensures damaged { (damage : Damage) → result ≢ Err (PageFault.Damaged damage) }
    ensures fails { FailsWriting P.Pages pages.old result }
    ensures frame { Writes P.Pages pages.old pages.new }
    ensures first { P.first pages.new ≡ P.first pages.old }
{
    two_cells(form, left, middle, right, cells);
    let shape = Shape {
        number: form.map,
        kind: 2,
        level: below + 1,
        width: form.key + 4,
    };
    store_one(pages, shape, root, 2, cells)
}

/// Takes a page for a root above two pages, the right one of which has the least key `middle`. Returns the root.
///
/// Refuses `Damaged` as the `take` returned it, `Disk`, `NoRoom`, `Stopped` and `Memory`. It takes a page and writes it.
pub fn grow_root<P: Pages>(
    pages: &mut P,
    form: Form,
    below: u8,
    left: u32,
    middle: &[u8],
    right: u32,
) -> Result<u32, PageFault>
    requires middle { length middle.now ≡ form.key }
    requires level { below < 255 }
    ensures grown { (high : ℕ) (free : List ℕ) → IsFan (IsTree form (half_of form below) (P.pages pages.old) below) 0 high ((0, left) ∷ ((number middle.now, right) ∷ []))
        → IsSupplied (view (P.pages pages.old) (P.count pages.old) (P.first pages.old) free)
        → ((n : ℕ) → total (λ c. uses form (P.pages pages.old) below c n) ((0, left) ∷ ((number middle.now, right) ∷ [])) + spare free (P.count pages.old) n ≤ 1)
        → IfOk result (λ root. IsGrown form 2 (view (P.pages pages.old) (P.count pages.old) (P.first pages.old) free)
        (λ n. total (λ c. uses form (P.pages pages.old) below c n) ((0, left) ∷ ((number middle.now, right) ∷ [])))
        (P.pages pages.new) (P.count pages.new) (P.first pages.new) (suc below) root 0 high
        (below_rows form (P.pages pages.old) below ((0, left) ∷ ((number middle.now, right) ∷ []))) 0 0) }
    ensures some { IfOk result (λ root. 0 < root) }
    ensures told { AreReadable (P.pages pages.old) (P.count pages.old) → OnOk result (AreReadable (P.pages pages.new) (P.count pages.new)) }

    ensures no_false_damage { (free : List ℕ) → IsSupplied (view (P.pages pages.old) (P.count pages.old) (P.first pages.old) free) → (damage : Damage) → result ≢ Err (PageFault.Damaged damage) }
    ensures damaged { (damage : Damage) → IsErrOf result (PageFault.Damaged damage) → IsRefusedTake (P.pages pages.new) (P.count pages.new) (P.first pages.new) damage }
    ensures takes { TakesAtMost P.Pages 1 pages.old pages.new result }
    ensures fails { FailsChanging P.Pages pages.old pages.new result }
    ensures frame { Changes P.Pages pages.old pages.new }
    ensures asked { P.asked pages.new ≡ P.asked pages.old }
{
    let root = pages.take()?;
    let width = form.key + 4;
    let mut buffer = [0; 520];
    write_root(
        pages,
        form,
        below,
        root,
        left,
        middle,
        right,
        &mut buffer[..width + width],
    )?;
    Ok(root)
}

// Writes a leaf of one row.
fn write_leaf<P: Pages>(
    pages: &mut P,
    form: Form,
    root: u32,
    key: &[u8],
    value: &[u8],
    cells: &mut [u8],
) -> Result<(), PageFault>
    requires key { length key.now ≡ form.key }
    requires value { length value.now ≡ form.value }
    requires cells { length cells.old ≡ form.key + form.value }
    requires counted { ¬ IsUncounted (P.count pages.old) root }
    ensures written { OnOk result (P.pages pages.new ≡ with_page root (image form.map 1 0 1 (key.now ++ value.now)) (P.pages pages.old)) }

    ensures damaged { (damage : Damage) → result ≢ Err (PageFault.Damaged damage) }
    ensures fails { FailsWriting P.Pages pages.old result }
    ensures frame { Writes P.Pages pages.old pages.new }
    ensures first { P.first pages.new ≡ P.first pages.old }
{
    splice(&[], 0, 0, key, value, cells);
    let shape = Shape {
        number: form.map,
        kind: 1,
        level: 0,
        width: form.key + form.value,
    };
    store_one(pages, shape, root, 1, cells)
}

/// Takes a page for the first leaf of a map, with one row. Returns that leaf, which is then the map's root.
///
/// Refuses `Damaged` as the `take` returned it, `Disk`, `NoRoom`, `Stopped` and `Memory`. It takes a page and writes it.
pub fn first_leaf<P: Pages>(
    pages: &mut P,
    form: Form,
    key: &[u8],
    value: &[u8],
) -> Result<u32, PageFault>
    requires key { length key.now ≡ form.key }
    requires value { length value.now ≡ form.value }
    ensures grown { (free : List ℕ) → IsSupplied (view (P.pages pages.old) (P.count pages.old) (P.first pages.old) free)
        → ((n : ℕ) → spare free (P.count pages.old) n ≤ 1)
        → IfOk result (λ root. IsGrown form 1 (view (P.pages pages.old) (P.count pages.old) (P.first pages.old) free) no_page
        (P.pages pages.new) (P.count pages.new) (P.first pages.new) 0 root 0 (256 ^ form.key) ((number key.now, value.now) ∷ []) 0 0) }
    ensures some { IfOk result (λ root. 0 < root) }
    ensures told { AreReadable (P.pages pages.old) (P.count pages.old) → OnOk result (AreReadable (P.pages pages.new) (P.count pages.new)) }

    ensures no_false_damage { (free : List ℕ) → IsSupplied (view (P.pages pages.old) (P.count pages.old) (P.first pages.old) free) → (damage : Damage) → result ≢ Err (PageFault.Damaged damage) }
    ensures damaged { (damage : Damage) → IsErrOf result (PageFault.Damaged damage) → IsRefusedTake (P.pages pages.new) (P.count pages.new) (P.first pages.new) damage }
    ensures takes { TakesAtMost P.Pages 1 pages.old pages.new result }
    ensures fails { FailsChanging P.Pages pages.old pages.new result }
    ensures frame { Changes P.Pages pages.old pages.new }
    ensures asked { P.asked pages.new ≡ P.asked pages.old }
{
    let root = pages.take()?;
    let mut buffer = [0; 1020];
    write_leaf(
        pages,
        form,
        root,
        key,
        value,
        &mut buffer[..form.key + form.value],
    )?;
    Ok(root)
}
