//! A root that has one child left.
ghost use Rattle.std.specs.Prelude.{◌≡◌, ◌≢◌, ◌+◌, ◌<◌, ◌≤◌, ◌∷◌, [], ℕ, suc, List, IfOk, OnOk};
ghost use Rattle.page_face.specs.Calls.{FailsWriting, Writes};
ghost use Rattle.page_face.specs.Causes.{IsUncounted};
ghost use Rattle.btree_nodes.specs.Supply.{IsSupplied, view, spare};
ghost use Rattle.page_face.specs.Nodes.{count_of};
ghost use Rattle.btree_nodes.specs.Nodes.{half_of};
ghost use Rattle.btree_nodes.specs.Tree.{IsTree, rows_at, uses};
ghost use Rattle.btree_nodes.specs.Damages.{AreReadable};
ghost use Rattle.btree_delete.specs.Mended.{Becomes};

use btree_nodes::{Form, child_at};
use page_face::{Damage, Page, PageFault, Pages};

/// Gives an inner root with one entry back, and returns its child, which is then the root.
///
/// Refuses `Stopped` and `Memory`.
pub fn lower_root<P: Pages>(
    pages: &mut P,
    form: Form,
    page: u32,
    bytes: &Page,
) -> Result<u32, PageFault>
    requires one { count_of bytes.now ≡ 1 }
    requires page { ¬ IsUncounted (P.count pages.old) page }
    ensures lowered { (low high below least : ℕ) (free : List ℕ) → bytes.now ≡ P.pages pages.old page
        → IsTree form least (P.pages pages.old) (suc below) page low high
        → IsSupplied (view (P.pages pages.old) (P.count pages.old) (P.first pages.old) free)
        → ((n : ℕ) → uses form (P.pages pages.old) (suc below) page n + spare free (P.count pages.old) n ≤ 1)
        → IfOk result (λ root. Becomes form (half_of form below) (view (P.pages pages.old) (P.count pages.old) (P.first pages.old) free)
        (uses form (P.pages pages.old) (suc below) page) (P.pages pages.new) (P.count pages.new) (P.first pages.new) below low high
        (rows_at form (P.pages pages.old) (suc below) page) ((low, root) ∷ [])) }
    ensures told { AreReadable (P.pages pages.old) (P.count pages.old) → OnOk result (AreReadable (P.pages pages.new) (P.count pages.new)) }

    ensures damaged { (damage : Damage) → result ≢ Err (PageFault.Damaged damage) }
    ensures fails { FailsWriting P.Pages pages.old result }
    ensures frame { Writes P.Pages pages.old pages.new }
{
    let root = child_at(bytes, form, 0);
    pages.give_back(page)?;
    Ok(root)
}
