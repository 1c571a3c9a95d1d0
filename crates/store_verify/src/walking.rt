//! The walks over the structures of a store, each of whose pages is met once.
ghost use Rattle.std.specs.Prelude.{◌≡◌, ◌+◌, ◌≤◌, ℕ, IfOk, OnOk, IsErrOf};
ghost use Rattle.page_face.specs.Calls.{Reads, FailsReading};
ghost use Rattle.page_face.specs.Causes.{IsUncounted};
ghost use Rattle.page_face.specs.declared.fault.Damage.{Damage};
ghost use Rattle.page_face.specs.declared.head.Head.{Head as HeadFields};
ghost use Rattle.btree_nodes.specs.Damages.{AreReadable};
ghost use Rattle.btree_nodes.specs.Tree.{map_uses};
ghost use Rattle.rtree_nodes.specs.Stock.{rows_form};
ghost use Rattle.page_walks.specs.Met.{held};
ghost use Rattle.store_verify.specs.Breaks.{IsBroken};
ghost use Rattle.store_verify.specs.Tree.{node_uses};
ghost use Rattle.store_verify.specs.Whole.{store_uses};
ghost use Rattle.store_verify.specs.Verdicts.{block_of};
ghost use Rattle.store_verify.specs.Walked.{AreTablesWalked, AreUsedOrFree, IsTreeWalked};

use crate::numbers::numbers_of;
use crate::places::{Gathered, places_of};
use crate::texts::texts_of;
use btree_nodes::damaged;
use page_face::{Head, PageFault, Pages, Rule};
use page_walks::{first_lost, walk_free};
use row_codec::Counted;
use std::alloc::{AllocError, Global};
use std::collections::BTreeSet;
use term_impacts::Word;
use tree_check::{check_nodes, check_rows};

/// The pages of the tree, and the pages met so far.
#[derive(Drop)]
pub(crate) struct Nodes {
    /// The pages of the tree, each after those below it.
    pub(crate) list: Vec<u32>,
    /// The pages of the tree and of its rows.
    pub(crate) met: BTreeSet<u32>,
}

/// What the tables hold.
#[derive(Drop)]
pub(crate) struct Entries {
    /// The words by text, in their order.
    pub(crate) texts: Vec<(Word, u64)>,
    /// The words by number, in the order of the numbers.
    pub(crate) numbers: Vec<(u64, Counted)>,
    /// The places by key, and the numbers of their words.
    pub(crate) places: Gathered,
}

// No page.
fn no_page(alloc: Global) -> BTreeSet<u32>
    ensures { (n : ℕ) → held result n ≡ 0 }
{
    BTreeSet::new(alloc)
}

// The same pages once more.
fn copy_of(met: &BTreeSet<u32>) -> Result<BTreeSet<u32>, AllocError>
    ensures { IfOk result (λ copy. (n : ℕ) → held copy n ≡ held met.now n) }
{
    met.clone()
}

/// Walks the tree and the map of its rows.
pub(crate) fn walk_tree<P: Pages>(
    alloc: Global,
    pages: &mut P,
    head: &Head,
) -> Result<Nodes, PageFault>
    ensures walked { AreReadable (P.pages pages.old) (P.count pages.old)
        → IfOk result (λ nodes. IsTreeWalked (block_of (P.count pages.old) (P.first pages.old) head.now) (P.pages pages.old) nodes.list.items (held nodes.met)) }
    ensures damaged { AreReadable (P.pages pages.old) (P.count pages.old) → (damage : Damage) → IsErrOf result (PageFault.Damaged damage)
        → IsBroken (block_of (P.count pages.old) (P.first pages.old) head.now) (P.pages pages.old) damage }
    ensures fails { FailsReading P.Pages pages.old pages.new result }
    ensures frame { Reads P.Pages pages.old pages.new }
{
    let mut met = no_page(alloc);
    let mut list = Vec::new(alloc);
    match check_nodes(pages, head.tree, &mut met, &mut list) {
        Ok(()) => {}
        Err(fault) => return Err(fault),
    }
    let nodes = match copy_of(&met) {
        Ok(nodes) => nodes,
        Err(_) => return Err(PageFault::Memory),
    };
    match check_rows(pages, head.rows, &mut met, &nodes) {
        Ok(None) => Ok(Nodes { list, met }),
        Ok(Some(damage)) => Err(PageFault::Damaged(damage)),
        Err(fault) => Err(fault),
    }
}

/// Walks the three tables. The tree and its rows were walked before.
pub(crate) fn walk_tables<P: Pages>(
    alloc: Global,
    pages: &mut P,
    head: &Head,
    met: &mut BTreeSet<u32>,
) -> Result<Entries, PageFault>
    ensures walked { AreReadable (P.pages pages.old) (P.count pages.old)
        → IfOk result (λ found. AreTablesWalked (block_of (P.count pages.old) (P.first pages.old) head.now) (P.pages pages.old) (held met.old) (held met.new)
        found.texts.items found.numbers.items found.places.sites.items found.places.numbers.items) }
    ensures damaged { AreReadable (P.pages pages.old) (P.count pages.old)
        → ((n : ℕ) → held met.old n ≡ node_uses head.now (P.pages pages.old) n + map_uses rows_form (P.pages pages.old) head.now.rows n)
        → (damage : Damage) → IsErrOf result (PageFault.Damaged damage)
        → IsBroken (block_of (P.count pages.old) (P.first pages.old) head.now) (P.pages pages.old) damage }
    ensures fails { FailsReading P.Pages pages.old pages.new result }
    ensures frame { Reads P.Pages pages.old pages.new }
{
    let places = match places_of(alloc, pages, head.places, met) {
        Ok(Ok(places)) => places,
        Ok(Err(damage)) => return Err(PageFault::Damaged(damage)),
        Err(fault) => return Err(fault),
    };
    let texts = match texts_of(alloc, pages, head.texts, met) {
        Ok(Ok(texts)) => texts,
        Ok(Err(damage)) => return Err(PageFault::Damaged(damage)),
        Err(fault) => return Err(fault),
    };
    match numbers_of(alloc, pages, head.numbers, met) {
        Ok(Ok(numbers)) => Ok(Entries {
            texts,
            numbers,
            places,
        }),
        Ok(Err(damage)) => Err(PageFault::Damaged(damage)),
        Err(fault) => Err(fault),
    }
}

/// Walks the free list, and finds a page that is lost. All other structures were walked before.
pub(crate) fn walk_free_pages<P: Pages>(
    pages: &mut P,
    met: &mut BTreeSet<u32>,
) -> Result<(), PageFault>
    ensures walked { (head : HeadFields) → AreReadable (P.pages pages.old) (P.count pages.old)
        → ((n : ℕ) → held met.old n ≡ store_uses head (P.pages pages.old) n)
        → ((n : ℕ) → IsUncounted (P.count pages.old) n → store_uses head (P.pages pages.old) n ≡ 0) → 1 ≤ P.count pages.old
        → OnOk result (AreUsedOrFree (block_of (P.count pages.old) (P.first pages.old) head) (P.pages pages.old)) }
    ensures damaged { (head : HeadFields) → AreReadable (P.pages pages.old) (P.count pages.old)
        → ((n : ℕ) → held met.old n ≡ store_uses head (P.pages pages.old) n)
        → (damage : Damage) → IsErrOf result (PageFault.Damaged damage)
        → IsBroken (block_of (P.count pages.old) (P.first pages.old) head) (P.pages pages.old) damage }
    ensures fails { FailsReading P.Pages pages.old pages.new result }
    ensures frame { Reads P.Pages pages.old pages.new }
{
    match walk_free(pages, met) {
        Ok(()) => {}
        Err(fault) => return Err(fault),
    }
    match first_lost(met, pages.counted()) {
        Some(page) => Err(damaged(page, Rule::Shared)),
        None => Ok(()),
    }
}
