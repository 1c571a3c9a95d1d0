//! What the structures of a store hold, compared.
ghost use Rattle.std.specs.Prelude.{◌≡◌, ℕ, List, OnOk, IfOk, IsErrOf, true, false};
ghost use Rattle.page_face.specs.Calls.{Reads, FailsReading};
ghost use Rattle.page_face.specs.declared.fault.Damage.{Damage};
ghost use Rattle.page_face.specs.declared.fault.Rule.TheVariants.{Entry};
ghost use Rattle.page_face.specs.declared.head.Head.{Head as HeadFields};
ghost use Rattle.row_codec.specs.declared.counted.Counted.{Counted as CountedRow};
ghost use Rattle.rtree_nodes.specs.Pages.{node_of};
ghost use Rattle.rtree_nodes.specs.Slots.{Item};
ghost use Rattle.rtree_nodes.specs.Whole.{tree_sum};
ghost use Rattle.store_verify.specs.Sites.{site_sum};
ghost use Rattle.store_verify.specs.Breaks.{IsBroken, damage_at};
ghost use Rattle.store_verify.specs.Whole.{IsWhole};
ghost use Rattle.store_verify.specs.Verdicts.{block_of};
ghost use Rattle.store_verify.specs.Walked.{IsStoreWalked};

use crate::counts::counts_agree;
use crate::leaves::leaves_agree;
use crate::sites::sites_of;
use crate::walking::Entries;
use crate::words::words_agree;
use btree_nodes::damaged;
use node_rows::Tree;
use page_face::{Head, PageFault, Pages, Rule};
use spatial_base::{Key, Point};
use std::alloc::Global;
use store_tables::Tables;
use tree_check::check_words;

// Whether the entries of the leaves are those of the places, each once with its point.
fn are_leaves<P: Pages>(
    alloc: Global,
    pages: &mut P,
    list: &[u32],
    sites: &[(Key, Point)],
) -> Result<bool, PageFault>
    ensures same { (head : HeadFields) (texts : List (List ℕ × ℕ)) (numbers : List (ℕ × CountedRow)) (held : List ℕ)
        → IsStoreWalked (block_of (P.count pages.old) (P.first pages.old) head) (P.pages pages.old) list.now texts numbers sites.now held
        → IfOk result (λ same. same ≡ true → (f : Item → ℕ) → tree_sum node_of (P.pages pages.old) head.tree f ≡ site_sum f sites.now) }
    ensures apart { (head : HeadFields) (texts : List (List ℕ × ℕ)) (numbers : List (ℕ × CountedRow)) (held : List ℕ)
        → IsStoreWalked (block_of (P.count pages.old) (P.first pages.old) head) (P.pages pages.old) list.now texts numbers sites.now held
        → IfOk result (λ same. same ≡ false → IsBroken (block_of (P.count pages.old) (P.first pages.old) head) (P.pages pages.old) (damage_at Entry 0)) }
    ensures no_false_damage { (head : HeadFields) (texts : List (List ℕ × ℕ)) (numbers : List (ℕ × CountedRow)) (held : List ℕ)
        → IsStoreWalked (block_of (P.count pages.old) (P.first pages.old) head) (P.pages pages.old) list.now texts numbers sites.now held
        → (damage : Damage) → ¬ IsErrOf result (PageFault.Damaged damage) }
    ensures fails { FailsReading P.Pages pages.old pages.new result }
    ensures frame { Reads P.Pages pages.old pages.new }
{
    match sites_of(alloc, pages, list) {
        Ok(mut leaves) => Ok(leaves_agree(&mut leaves, sites)),
        Err(fault) => Err(fault),
    }
}

/// Compares what was walked: the rows of the nodes with what is below their slots, the entries of the leaves with the places, the words
/// with each other and with the places, and page 0's numbers with the places.
///
/// Returns `Damaged` for what differs; `Disk`, `Stopped`, or `Memory` if it runs out of memory.
pub(crate) fn compare<P: Pages>(
    alloc: Global,
    pages: &mut P,
    head: &Head,
    list: &[u32],
    found: &mut Entries,
) -> Result<(), PageFault>
    ensures whole { IsStoreWalked (block_of (P.count pages.old) (P.first pages.old) head.now) (P.pages pages.old) list.now
        found.old.texts.items found.old.numbers.items found.old.places.sites.items found.old.places.numbers.items
        → OnOk result (IsWhole (block_of (P.count pages.old) (P.first pages.old) head.now) (P.pages pages.old)) }
    ensures damaged { IsStoreWalked (block_of (P.count pages.old) (P.first pages.old) head.now) (P.pages pages.old) list.now
        found.old.texts.items found.old.numbers.items found.old.places.sites.items found.old.places.numbers.items
        → (damage : Damage) → IsErrOf result (PageFault.Damaged damage)
        → IsBroken (block_of (P.count pages.old) (P.first pages.old) head.now) (P.pages pages.old) damage }
    ensures fails { FailsReading P.Pages pages.old pages.new result }
    ensures frame { Reads P.Pages pages.old pages.new }
{
    let tree = Tree {
        root: head.tree,
        rows: head.rows,
    };
    let tables = Tables {
        places: head.places,
        texts: head.texts,
        numbers: head.numbers,
        next_word: head.next_word,
    };
    match check_words(alloc, pages, &tree, &tables, list) {
        Ok(()) => {}
        Err(fault) => return Err(fault),
    }
    match are_leaves(alloc, pages, list, &found.places.sites) {
        Ok(true) => {}
        Ok(false) => return Err(damaged(0, Rule::Entry)),
        Err(fault) => return Err(fault),
    }
    match words_agree(
        alloc,
        &found.texts,
        &found.numbers,
        &mut found.places.numbers,
        head.next_word,
    ) {
        Ok(true) => {}
        Ok(false) => return Err(damaged(0, Rule::Words)),
        Err(_) => return Err(PageFault::Memory),
    }
    if counts_agree(&found.places.sites, head.live, head.serial) {
        Ok(())
    } else {
        Err(damaged(0, Rule::Counts))
    }
}
