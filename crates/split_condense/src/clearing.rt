//! Words that go from a slot.
ghost use Rattle.std.specs.Prelude.{◌≡◌, ◌<◌, ℕ, List, OnOk, IsErrOf};
ghost use Rattle.page_face.specs.Calls.{Changes, FailsChanging};
ghost use Rattle.page_face.specs.declared.fault.Damage.{Damage};
ghost use Rattle.btree_nodes.specs.Damages.{AreReadable, AsksOnly};
ghost use Rattle.btree_nodes.specs.Supply.{view};
ghost use Rattle.node_rows.specs.Damages.{IsRowsHarm};
ghost use Rattle.node_rows.specs.Rows.{IsRows, bytes_in};
ghost use Rattle.node_rows.specs.Turns.{Turns};
ghost use Rattle.node_rows.specs.Refreshing.{on_words};
ghost use Rattle.split_condense.specs.Clears.{cleared};

use node_inverted::{Tree, set_impact};
use page_face::{PageFault, Pages};

/// Sets the bytes of these words at a slot of a node to 0. All other bytes stay. Of `words` only the numbers count.
///
/// Returns `Damaged`, `Disk`, `NoRoom`, `Stopped`, or `Memory` as [`set_impact`] does. On a well-formed map whose pages are readable no
/// page is damaged. After a failure `tree` and the pages are as the call left them, and are to be abandoned.
///
/// Costs a call of [`set_impact`] for each word: one way down, and a write of the leaf if the byte isn't 0.
pub(crate) fn clear_words<P: Pages>(
    pages: &mut P,
    tree: &mut Tree,
    node: u32,
    slot: usize,
    words: &[(u64, u8)],
) -> Result<(), PageFault>
    requires slot { slot < 32 }
    ensures turns { (free : List ℕ) → IsRows (view (P.pages pages.old) (P.count pages.old) (P.first pages.old) free) tree.old.rows
        → OnOk result (Turns (view (P.pages pages.old) (P.count pages.old) (P.first pages.old) free) tree.old.rows (P.pages pages.new) (P.count pages.new) (P.first pages.new) tree.new.rows
        (on_words words.now (cleared node slot (bytes_in (P.pages pages.old) tree.old.rows)) (bytes_in (P.pages pages.old) tree.old.rows))) }
    ensures root { tree.new.root ≡ tree.old.root }
    ensures no_false_damage { (free : List ℕ) → IsRows (view (P.pages pages.old) (P.count pages.old) (P.first pages.old) free) tree.old.rows → AreReadable (P.pages pages.old) (P.count pages.old)
        → (damage : Damage) → ¬ IsErrOf result (PageFault.Damaged damage) }
    ensures damaged { AreReadable (P.pages pages.old) (P.count pages.old) → (damage : Damage) → IsErrOf result (PageFault.Damaged damage)
        → IsRowsHarm (P.pages pages.new) (P.count pages.new) (P.first pages.new) tree.new.rows (P.asked pages.old) (P.asked pages.new) damage }
    ensures told { AreReadable (P.pages pages.old) (P.count pages.old) → OnOk result (AreReadable (P.pages pages.new) (P.count pages.new)) }
    ensures more { AreReadable (P.pages pages.old) (P.count pages.old) → AsksOnly (λ _. 1) (P.asked pages.old) (P.asked pages.new) }
    ensures fails { FailsChanging P.Pages pages.old pages.new result }
    ensures frame { Changes P.Pages pages.old pages.new }
{
    for pair in words {
        set_impact(pages, tree, node, slot, pair.0, 0)?;
    }
    Ok(())
}
