//! The check of a whole store.
ghost use Rattle.std.specs.Prelude.{◌≡◌, ◌≢◌, ◌↔◌, ◌≤◌, ℕ, Err, IfOk, OnOk, IsErrOf};
ghost use Rattle.page_face.specs.Calls.{Reads, FailsReading};
ghost use Rattle.page_face.specs.declared.fault.Damage.{Damage as Broken};
ghost use Rattle.page_store.specs.Superblock.{IsInRange};
ghost use Rattle.btree_nodes.specs.Damages.{AreReadable};
ghost use Rattle.store_verify.specs.Breaks.{IsBroken};
ghost use Rattle.store_verify.specs.Whole.{IsWhole};
ghost use Rattle.store_verify.specs.Verdicts.{block_of};

use crate::comparing::compare;
use crate::walking::{Nodes, walk_free_pages, walk_tables, walk_tree};
use page_face::{Damage, Head, PageFault, Pages, Rule};
use page_store::Superblock;
use std::alloc::Global;

/// What a check of a whole store finds.
#[derive(Clone, Copy, Debug, PartialEq, Eq)]
pub enum Verdict {
    /// The store keeps each rule.
    Whole,
    /// The store breaks a rule at a page.
    Broken(Damage),
}

// Checks all but page 0's ranges, and returns what is broken as `Damaged`.
fn check<P: Pages>(alloc: Global, pages: &mut P, head: &Head) -> Result<(), PageFault>
    ensures whole { AreReadable (P.pages pages.old) (P.count pages.old) → IsInRange (block_of (P.count pages.old) (P.first pages.old) head.now)
        → OnOk result (IsWhole (block_of (P.count pages.old) (P.first pages.old) head.now) (P.pages pages.old)) }
    ensures damaged { AreReadable (P.pages pages.old) (P.count pages.old) → IsInRange (block_of (P.count pages.old) (P.first pages.old) head.now)
        → (damage : Broken) → IsErrOf result (PageFault.Damaged damage)
        → IsBroken (block_of (P.count pages.old) (P.first pages.old) head.now) (P.pages pages.old) damage }
    ensures fails { FailsReading P.Pages pages.old pages.new result }
    ensures frame { Reads P.Pages pages.old pages.new }
{
    let Nodes { list, mut met } = match walk_tree(alloc, pages, head) {
        Ok(nodes) => nodes,
        Err(fault) => return Err(fault),
    };
    let mut found = match walk_tables(alloc, pages, head, &mut met) {
        Ok(found) => found,
        Err(fault) => return Err(fault),
    };
    match walk_free_pages(pages, &mut met) {
        Ok(()) => {}
        Err(fault) => return Err(fault),
    }
    compare(alloc, pages, head, &list, &mut found)
}

/// Decides whether the pages are a whole store, by page 0's fields: the pages counted, the first free page, and the head.
///
/// Returns `Whole` exactly if they keep each rule, on any bytes. `Broken` names a page, and a rule that is broken there: `Head`, `Entry`,
/// `Words` and `Counts` at page 0, `Link` at the page that is named, `Shared` at the page that is used twice or not at all, `Row` at the
/// node that a row names or that lacks it, and each other rule at the page whose bytes break it.
///
/// Refuses `Disk`, `Stopped`, and `Memory` if it runs out of memory. Writes no page.
///
/// Looks once at each page of the tables, the rows' map and the free list, and at most twice more at those of the tree. Then it goes down
/// the place table once for each entry of the leaves, and down the rows' map for each node and slot.
/// Takes memory for the pages met, whatever number is counted, and for keys, points and words: 152 bytes a place, 8 a word of a place, and
/// 180 a word.
pub fn verify<P: Pages>(alloc: Global, pages: &mut P, head: &Head) -> Result<Verdict, PageFault>
    ensures whole { AreReadable (P.pages pages.old) (P.count pages.old)
        → IfOk result (λ verdict. (verdict ≡ Verdict.Whole) ↔ IsWhole (block_of (P.count pages.old) (P.first pages.old) head.now) (P.pages pages.old)) }
    ensures broken { AreReadable (P.pages pages.old) (P.count pages.old)
        → IfOk result (λ verdict. (damage : Broken) → verdict ≡ Verdict.Broken damage
        → IsBroken (block_of (P.count pages.old) (P.first pages.old) head.now) (P.pages pages.old) damage) }
    ensures undamaged { (damage : Broken) → result ≢ Err (PageFault.Damaged damage) }
    ensures fails { FailsReading P.Pages pages.old pages.new result }
    ensures frame { Reads P.Pages pages.old pages.new }
{
    let block = Superblock {
        counted: pages.counted(),
        first_free: pages.first_free(),
        head: *head,
    };
    if !block.is_in_range() {
        return Ok(Verdict::Broken(Damage {
            page: 0,
            rule: Rule::Head,
        }));
    }
    match check(alloc, pages, head) {
        Ok(()) => Ok(Verdict::Whole),
        Err(PageFault::Damaged(damage)) => Ok(Verdict::Broken(damage)),
        Err(fault) => Err(fault),
    }
}
