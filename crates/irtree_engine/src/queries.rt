//! The answer to a query, over any pages.
ghost use Rattle.std.specs.Prelude.{◌≡◌, ◌≢◌, ◌≤◌, Err, IfOk, IsErrOf};
ghost use Rattle.page_face.specs.Calls.{Reads, FailsReading};
ghost use Rattle.btree_nodes.specs.Damages.{AreReadable};
ghost use Rattle.place_values.specs.Answer.{answer_of};
ghost use Rattle.place_values.specs.Query.{IsWithinLimits};
ghost use Rattle.place_values.specs.State.{Contents};
ghost use Rattle.store_model.specs.Stands.{PagesStand};
ghost use Rattle.irtree_engine.specs.Changes.{block_with};
ghost use Rattle.irtree_engine.specs.Damages.{IsQueryDamage};
ghost use Rattle.irtree_engine.specs.Queries.{AsksForChoice, AsksForHits, IsFoundByFew};

use crate::change::{tables_of, tree_of};
use page_face::{Damage, Head, PageFault, Pages};
use place_values::{Answer, Hits, Query};
use query_execution::{chosen, hits};
use std::alloc::Global;

/// Returns the answer to a query over the places that the pages hold with page 0's fields, by their tree.
///
/// Refuses `Damaged` by a rule that a page breaks, and `Disk`, `Stopped` and `Memory` as the pages do. No page is damaged if the pages hold
/// a state.
///
/// Costs what [`query_execution::hits`] does, and for a group or gather query what [`query_execution::chosen`] does.
pub(crate) fn answer_in<P: Pages>(
    alloc: Global,
    pages: &mut P,
    head: &Head,
    query: &Query,
) -> Result<Answer, PageFault>
    requires { IsWithinLimits query.now }
    ensures answered { (state : Contents) → PagesStand (block_with (P.count pages.old) (P.first pages.old) head.now) (P.pages pages.old) state
        → AreReadable (P.pages pages.old) (P.count pages.old) → IfOk result (λ answer. answer ≡ answer_of state query.now) }
    ensures opened { (state : Contents) → PagesStand (block_with (P.count pages.old) (P.first pages.old) head.now) (P.pages pages.old) state
        → AreReadable (P.pages pages.old) (P.count pages.old)
        → IfOk result (IsFoundByFew (P.pages pages.old) (block_with (P.count pages.old) (P.first pages.old) head.now) state query.now (P.asked pages.old) (P.asked pages.new)) }
    ensures no_false_damage { (state : Contents) → PagesStand (block_with (P.count pages.old) (P.first pages.old) head.now) (P.pages pages.old) state
        → AreReadable (P.pages pages.old) (P.count pages.old) → (damage : Damage) → result ≢ Err (PageFault.Damaged damage) }
    ensures damaged { AreReadable (P.pages pages.old) (P.count pages.old) → (damage : Damage) → IsErrOf result (PageFault.Damaged damage)
        → IsQueryDamage (P.pages pages.old) (block_with (P.count pages.old) (P.first pages.old) head.now) query.now (P.asked pages.old) (P.asked pages.new) damage }
    ensures fails { FailsReading P.Pages pages.old pages.new result }
    ensures frame { Reads P.Pages pages.old pages.new }
{
    match query {
        Query::Range { .. }
        | Query::Inside { .. }
        | Query::Nearest { .. }
        | Query::Top { .. }
        | Query::Rare { .. } => hits_in(alloc, pages, head, query),
        Query::Group { .. } | Query::Gather { .. } => choice_in(alloc, pages, head, query),
    }
}

// The answer to a query for hits.
fn hits_in<P: Pages>(
    alloc: Global,
    pages: &mut P,
    head: &Head,
    query: &Query,
) -> Result<Answer, PageFault>
    requires limits { IsWithinLimits query.now }
    requires hits { AsksForHits query.now }
    ensures answered { (state : Contents) → PagesStand (block_with (P.count pages.old) (P.first pages.old) head.now) (P.pages pages.old) state
        → AreReadable (P.pages pages.old) (P.count pages.old) → IfOk result (λ answer. answer ≡ answer_of state query.now) }
    ensures opened { (state : Contents) → PagesStand (block_with (P.count pages.old) (P.first pages.old) head.now) (P.pages pages.old) state
        → AreReadable (P.pages pages.old) (P.count pages.old)
        → IfOk result (IsFoundByFew (P.pages pages.old) (block_with (P.count pages.old) (P.first pages.old) head.now) state query.now (P.asked pages.old) (P.asked pages.new)) }
    ensures no_false_damage { (state : Contents) → PagesStand (block_with (P.count pages.old) (P.first pages.old) head.now) (P.pages pages.old) state
        → AreReadable (P.pages pages.old) (P.count pages.old) → (damage : Damage) → result ≢ Err (PageFault.Damaged damage) }
    ensures damaged { AreReadable (P.pages pages.old) (P.count pages.old) → (damage : Damage) → IsErrOf result (PageFault.Damaged damage)
        → IsQueryDamage (P.pages pages.old) (block_with (P.count pages.old) (P.first pages.old) head.now) query.now (P.asked pages.old) (P.asked pages.new) damage }
    ensures fails { FailsReading P.Pages pages.old pages.new result }
    ensures frame { Reads P.Pages pages.old pages.new }
{
    let tables = tables_of(head);
    let tree = tree_of(head);
    match hits(alloc, pages, &tables, &tree, head.live, query) {
        Ok(found) => Ok(Answer::Hits(Hits::from_vec(found))),
        Err(fault) => Err(fault),
    }
}

// The choice of a group or gather query.
fn choice_in<P: Pages>(
    alloc: Global,
    pages: &mut P,
    head: &Head,
    query: &Query,
) -> Result<Answer, PageFault>
    requires limits { IsWithinLimits query.now }
    requires choice { AsksForChoice query.now }
    ensures answered { (state : Contents) → PagesStand (block_with (P.count pages.old) (P.first pages.old) head.now) (P.pages pages.old) state
        → AreReadable (P.pages pages.old) (P.count pages.old) → IfOk result (λ answer. answer ≡ answer_of state query.now) }
    ensures opened { (state : Contents) → PagesStand (block_with (P.count pages.old) (P.first pages.old) head.now) (P.pages pages.old) state
        → AreReadable (P.pages pages.old) (P.count pages.old)
        → IfOk result (IsFoundByFew (P.pages pages.old) (block_with (P.count pages.old) (P.first pages.old) head.now) state query.now (P.asked pages.old) (P.asked pages.new)) }
    ensures no_false_damage { (state : Contents) → PagesStand (block_with (P.count pages.old) (P.first pages.old) head.now) (P.pages pages.old) state
        → AreReadable (P.pages pages.old) (P.count pages.old) → (damage : Damage) → result ≢ Err (PageFault.Damaged damage) }
    ensures damaged { AreReadable (P.pages pages.old) (P.count pages.old) → (damage : Damage) → IsErrOf result (PageFault.Damaged damage)
        → IsQueryDamage (P.pages pages.old) (block_with (P.count pages.old) (P.first pages.old) head.now) query.now (P.asked pages.old) (P.asked pages.new) damage }
    ensures fails { FailsReading P.Pages pages.old pages.new result }
    ensures frame { Reads P.Pages pages.old pages.new }
{
    let tables = tables_of(head);
    let tree = tree_of(head);
    match chosen(alloc, pages, &tables, &tree, query) {
        Ok(choice) => Ok(Answer::Group(choice)),
        Err(fault) => Err(fault),
    }
}
