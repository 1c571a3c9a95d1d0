//! The search.
ghost use Rattle.std.specs.Prelude.{◌≡◌, ◌≢◌, ◌⊎◌, ◌≤◌, ◌++◌, length, Some, None, Err, OnOk, IfOk, IfErr, IsErrOf, IsPermutation};
ghost use Rattle.std.specs.BinaryHeap.{heap_items};
ghost use Rattle.page_face.specs.Calls.{Reads, FailsReading};
ghost use Rattle.page_face.specs.declared.fault.Damage.{Damage};
ghost use Rattle.place_values.specs.First.{first, IsRanked};
ghost use Rattle.place_values.specs.Hit.{comes_before};
ghost use Rattle.best_first.specs.Items.{node_alone, place_alone, nodes_of, places_of};
ghost use Rattle.best_first.specs.Cuts.{affordable};
ghost use Rattle.best_first.specs.Leads.{leads};
ghost use Rattle.best_first.specs.Queue.{waiting};
ghost use Rattle.best_first.specs.Openings.{Opened};

use crate::best::{is_over, is_settled, most_asked};
use crate::queue::{Queue, Waiting};
use crate::{Item, Ranked};
use page_face::{PageFault, Pages};
use place_values::{Hit, keep};
use std::alloc::{AllocError, Global};

// Puts a node into the queue, and a place among the best k unless it costs more than the limit.
#[inline(always)]
fn sort_one(
    item: &Item,
    queue: &mut Queue,
    found: &mut Vec<Hit>,
    k: usize,
    limit: Option<u64>,
) -> Result<(), AllocError>
    requires ranked { IsRanked comes_before found.old.items }
    requires short { length found.old.items ≤ k }
    ensures queue { OnOk result (IsPermutation (node_alone item.now ++ waiting (heap_items queue.old.heap)) (waiting (heap_items queue.new.heap))) }
    ensures found { OnOk result (found.new.items ≡ first comes_before k (found.old.items ++ affordable limit (place_alone item.now))) }
{
    match item {
        Item::Node { page, level, bound } => queue.put(Waiting {
            bound: *bound,
            level: *level,
            page: *page,
        }),
        Item::Place(hit) => {
            if is_over(hit.cost, limit) {
                return Ok(());
            }
            keep(found, hit, k)
        }
    }
}

// Sorts each item as `sort_one` does.
fn sort_each(
    items: &[Item],
    queue: &mut Queue,
    found: &mut Vec<Hit>,
    k: usize,
    limit: Option<u64>,
) -> Result<(), AllocError>
    requires ranked { IsRanked comes_before found.old.items }
    requires short { length found.old.items ≤ k }
    ensures queue { OnOk result (IsPermutation (nodes_of items.now ++ waiting (heap_items queue.old.heap)) (waiting (heap_items queue.new.heap))) }
    ensures found { OnOk result (found.new.items ≡ first comes_before k (found.old.items ++ affordable limit (places_of items.now))) }
{
    for item in items {
        sort_one(item, queue, found, k, limit)?;
    }
    Ok(())
}

// Sorts each item, and returns a search's fault.
#[inline(always)]
fn sort_in(
    items: &[Item],
    queue: &mut Queue,
    found: &mut Vec<Hit>,
    k: usize,
    limit: Option<u64>,
) -> Result<(), PageFault>
    requires ranked { IsRanked comes_before found.old.items }
    requires short { length found.old.items ≤ k }
    ensures queue { OnOk result (IsPermutation (nodes_of items.now ++ waiting (heap_items queue.old.heap)) (waiting (heap_items queue.new.heap))) }
    ensures found { OnOk result (found.new.items ≡ first comes_before k (found.old.items ++ affordable limit (places_of items.now))) }
    ensures memory { IfErr result (λ fault. fault ≡ PageFault.Memory) }
{
    match sort_each(items, queue, found, k, limit) {
        Ok(()) => Ok(()),
        Err(_) => Err(PageFault::Memory),
    }
}

/// Returns the first k places that an opener leads to, by cost and then by key.
///
/// A node is opened only while fewer than k places were found that cost less than its bound, so a node goes before a place of equal cost.
/// It refuses the fault that the opener then holds, or `Memory`.
///
/// Each opened node takes one call of the opener, and each place at most k comparisons. What costs more than the kth place found is neither
/// kept nor queued.
pub fn first_k<P: Pages, R: Ranked<P>>(
    alloc: Global,
    pages: &mut P,
    ranked: &mut R,
    k: u16,
) -> Result<Vec<Hit>, PageFault>
    requires { R.held ranked.old ≡ None }
    ensures found { R.fits ranked.old pages.old → IfOk result (λ found.
        found.items ≡ first comes_before k (leads (R.opens ranked.old pages.old) (R.starts ranked.old pages.old))) }
    ensures opened { R.told ranked.old pages.old → IfOk result (λ found.
        Opened R.stands (P.pages pages.old) (R.is_node ranked.old pages.old) (R.fits ranked.old pages.old) (R.opens ranked.old pages.old) (R.starts ranked.old pages.old)
        (R.root ranked.old) (P.asked pages.old) (P.asked pages.new) k found.items) }
    ensures cause { IfErr result (λ fault. (fault ≡ PageFault.Memory) ⊎ (R.held ranked.new ≡ Some fault)) }
    ensures damaged { R.told ranked.old pages.old → (damage : Damage) → IsErrOf result (PageFault.Damaged damage)
        → R.harms ranked.old pages.old (P.asked pages.old) (P.asked pages.new) damage }
    ensures no_false_damage { R.fits ranked.old pages.old → (damage : Damage) → result ≢ Err (PageFault.Damaged damage) }
    ensures fails { FailsReading P.Pages pages.old pages.new result }
    ensures frame { Reads P.Pages pages.old pages.new }
{
    first_k_within(alloc, pages, ranked, k, None)
}

/// Returns the first k of the places that an opener leads to and that cost at most the limit, by cost and then by key. Without a limit
/// every place counts.
///
/// A node is opened only while its bound is at most the limit and fewer than k places were found that cost less than it. It refuses as
/// [`first_k`], and costs as much, and what costs more than the limit is neither kept nor opened.
pub fn first_k_within<P: Pages, R: Ranked<P>>(
    alloc: Global,
    pages: &mut P,
    ranked: &mut R,
    k: u16,
    limit: Option<u64>,
) -> Result<Vec<Hit>, PageFault>
    requires { R.held ranked.old ≡ None }
    ensures found { R.fits ranked.old pages.old → IfOk result (λ found.
        found.items ≡ first comes_before k (affordable limit (leads (R.opens ranked.old pages.old) (R.starts ranked.old pages.old)))) }
    ensures opened { R.told ranked.old pages.old → IfOk result (λ found.
        Opened R.stands (P.pages pages.old) (R.is_node ranked.old pages.old) (R.fits ranked.old pages.old) (R.opens ranked.old pages.old) (R.starts ranked.old pages.old)
        (R.root ranked.old) (P.asked pages.old) (P.asked pages.new) k found.items) }
    ensures cause { IfErr result (λ fault. (fault ≡ PageFault.Memory) ⊎ (R.held ranked.new ≡ Some fault)) }
    ensures damaged { R.told ranked.old pages.old → (damage : Damage) → IsErrOf result (PageFault.Damaged damage)
        → R.harms ranked.old pages.old (P.asked pages.old) (P.asked pages.new) damage }
    ensures no_false_damage { R.fits ranked.old pages.old → (damage : Damage) → result ≢ Err (PageFault.Damaged damage) }
    ensures fails { FailsReading P.Pages pages.old pages.new result }
    ensures frame { Reads P.Pages pages.old pages.new }
{
    let mut queue = Queue::new(alloc);
    let mut found = Vec::new(alloc);
    let items = ranked.start(alloc, pages)?;
    sort_in(&items, &mut queue, &mut found, k as usize, limit)?;
    'search: while let Some(node) = queue.next() {
        if is_over(node.bound, limit) {
            return Ok(found);
        }
        if is_settled(&found, k as usize, node.bound) {
            return Ok(found);
        }
        let most = most_asked(&found, k as usize, limit);
        let items = ranked.open(alloc, pages, node.page, node.level, most)?;
        sort_in(&items, &mut queue, &mut found, k as usize, limit)?;
    }
    Ok(found)
}
