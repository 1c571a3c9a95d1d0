//! A node is opened: what its slots give to a query.
ghost use Rattle.std.specs.Prelude.{◌≡◌, ◌≢◌, ◌<◌, ◌≤◌, ◌&&◌, ◌∷◌, [], length, Err, IfOk, OnOk, IsErrOf};
ghost use Rattle.std.specs.List.{AllByRecursion};
ghost use Rattle.page_face.specs.Calls.{Reads, FailsReading};
ghost use Rattle.page_face.specs.Causes.{IsUncounted};
ghost use Rattle.btree_nodes.specs.Damages.{AreReadable, AskedSince};
ghost use Rattle.btree_nodes.specs.Tree.{IsMap, map_uses};
ghost use Rattle.paged_map.specs.Maps.{AreCounted};
ghost use Rattle.rtree_nodes.specs.Stock.{rows_form};
ghost use Rattle.rtree_nodes.specs.Pages.{node_of};
ghost use Rattle.rtree_nodes.specs.Subtrees.{IsNodeAt};
ghost use Rattle.node_rows.specs.Rows.{bytes_in};
ghost use Rattle.irtree_shape.specs.Made.{nodes_in};
ghost use Rattle.node_filter.specs.Masks.{has_slot, Marks};
ghost use Rattle.node_filter.specs.Numbers.{byte_of};
ghost use Rattle.node_filter.specs.Filters.{admits_by};
ghost use Rattle.best_first.specs.Items.{IsGivenAt};
ghost use Rattle.boolean_queries.specs.Near.{kept};
ghost use Rattle.boolean_queries.specs.Opens.{filter_in, opens_in};
ghost use Rattle.boolean_queries.specs.Walked.{Stands, AsksFor};
ghost use Rattle.node_rows.specs.Damages.{IsRowsDamage};
ghost use Rattle.boolean_queries.specs.Harms.{IsNodeHarm};

use crate::near::{Near, gather};
use crate::query::Query;
use node_filter::{admitted, enter_at};
use node_rows::Tree;
use page_face::{Damage, PageFault, Pages};

// Those of a node's slots that the filter lets through, or all of them if there is no filter.
fn admit<P: Pages>(
    pages: &mut P,
    tree: &Tree,
    query: &Query<'_>,
    node: u32,
    level: u8,
    slots: u32,
) -> Result<u32, PageFault>
    ensures slots { IsMap rows_form (P.pages pages.old) tree.now.rows → IfOk result (λ mask.
        Marks mask (λ i. has_slot slots i && admits_by level (byte_of query.now.ids.now (bytes_in (P.pages pages.old) tree.now.rows node) i) (filter_in query.now.filter))) }
    ensures no_false_damage { IsMap rows_form (P.pages pages.old) tree.now.rows → AreCounted (map_uses rows_form (P.pages pages.old) tree.now.rows) (P.count pages.old)
        → AreReadable (P.pages pages.old) (P.count pages.old) → (damage : Damage) → result ≢ Err (PageFault.Damaged damage) }
    ensures damaged { AreReadable (P.pages pages.old) (P.count pages.old) → (damage : Damage) → IsErrOf result (PageFault.Damaged damage)
        → IsRowsDamage (P.pages pages.old) (P.count pages.old) tree.now.rows (P.asked pages.old) (P.asked pages.new) damage }
    ensures asks { AreReadable (P.pages pages.old) (P.count pages.old)
        → AsksFor [] (map_uses rows_form (P.pages pages.old) tree.now.rows) (P.asked pages.old) (P.asked pages.new) }
    ensures fails { FailsReading P.Pages pages.old pages.new result }
    ensures frame { Reads P.Pages pages.old pages.new }
{
    match query.filter {
        Some(filter) => admitted(pages, tree, query.ids, node, level, slots, filter),
        None => Ok(slots),
    }
}

/// Opens a node: lists what its slots give to the query's region, and returns the mask of the slots that the filter lets through.
///
/// Refuses `Damaged` as [`enter_at`], with `Value` if a slot that was looked at isn't of its form, and as a look at a row of words is
/// refused. Refuses `Disk`, `Stopped` and `Memory`.
///
/// Looks at the node's page once, and at a row for each word of the filter if some slot touches the region.
pub(crate) fn open<P: Pages>(
    pages: &mut P,
    tree: &Tree,
    query: &Query<'_>,
    node: u32,
    level: u8,
    near: &mut Vec<Near>,
) -> Result<u32, PageFault>
    ensures gives { IsMap rows_form (P.pages pages.old) tree.now.rows → IsNodeAt (nodes_in node_of (P.pages pages.old) tree.now.rows) level node
        → IfOk result (λ mask. kept mask near.new.items ≡ opens_in query.now.region query.now.ids.now (filter_in query.now.filter) (nodes_in node_of (P.pages pages.old) tree.now.rows) node level) }
    ensures few { IfOk result (λ mask. length (kept mask near.new.items) ≤ 32) }
    ensures children { IfOk result (λ mask. AllByRecursion (IsGivenAt level) (kept mask near.new.items)) }
    ensures stand { IfOk result (λ mask. AllByRecursion (Stands query.now.region (P.pages pages.old node) level) (kept mask near.new.items)) }
    ensures asked { AreReadable (P.pages pages.old) (P.count pages.old) → OnOk result (AskedSince (P.asked pages.old) (P.asked pages.new) node) }
    ensures asks { AreReadable (P.pages pages.old) (P.count pages.old)
        → AsksFor (node ∷ []) (map_uses rows_form (P.pages pages.old) tree.now.rows) (P.asked pages.old) (P.asked pages.new) }
    ensures damaged { AreReadable (P.pages pages.old) (P.count pages.old) → (damage : Damage) → IsErrOf result (PageFault.Damaged damage)
        → IsNodeHarm (P.pages pages.old) (P.count pages.old) tree.now.rows level node (P.asked pages.old) (P.asked pages.new) damage }
    ensures no_false_damage { IsMap rows_form (P.pages pages.old) tree.now.rows → AreCounted (map_uses rows_form (P.pages pages.old) tree.now.rows) (P.count pages.old)
        → AreReadable (P.pages pages.old) (P.count pages.old) → IsNodeAt (nodes_in node_of (P.pages pages.old) tree.now.rows) level node
        → (IsUncounted (P.count pages.old) node → ⊥) → (damage : Damage) → result ≢ Err (PageFault.Damaged damage) }
    ensures fails { FailsReading P.Pages pages.old pages.new result }
    ensures frame { Reads P.Pages pages.old pages.new }
{
    match enter_at(pages, node, level) {
        Ok(()) => {}
        Err(fault) => return Err(fault),
    }
    let slots = match gather(pages.looked(), node, level, &query.region, near) {
        Ok(slots) => slots,
        Err(fault) => return Err(fault),
    };
    if slots == 0 {
        return Ok(0);
    }
    admit(pages, tree, query, node, level, slots)
}
