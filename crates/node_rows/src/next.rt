//! The next row of a node.
ghost use Rattle.std.specs.Prelude.{◌≤◌, IfOk, IfSome, IsErrOf};
ghost use Rattle.page_face.specs.Calls.{Reads, FailsReading};
ghost use Rattle.btree_nodes.specs.Damages.{AreReadable, AsksOnly};
ghost use Rattle.btree_nodes.specs.Tree.{IsMap, map_rows, map_uses};
ghost use Rattle.paged_map.specs.Maps.{AreCounted};
ghost use Rattle.rtree_nodes.specs.Stock.{rows_form};
ghost use Rattle.node_rows.specs.Rows.{AreFilled, bytes_in};
ghost use Rattle.node_rows.specs.Turns.{GivesFilled, Next};
ghost use Rattle.node_rows.specs.Damages.{IsRowsDamage};
ghost use Rattle.node_rows.specs.Lookups.{IsNextFound};

use crate::Tree;
use crate::key::RowKey;
use crate::layout::WordRows;
use page_face::{Damage, PageFault, Pages};
use paged_map::PagedMap;

/// Returns the first row of a node whose word's number isn't less than `from`, with that number, or `None` if the node has no
/// such row.
///
/// Returns `Damaged` with a rule that a page asked for in this call breaks in its place; `Disk`, `Stopped`, or `Memory` if it
/// runs out of memory. On any pages the number returned isn't less than `from`, so a loop that goes on after it ends.
///
/// Looks at two pages a level of the rows' map at most, and writes none.
pub fn next_row<P: Pages>(
    pages: &mut P,
    tree: &Tree,
    node: u32,
    from: u64,
) -> Result<Option<(u64, [u8; 32])>, PageFault>
    ensures next { IsMap rows_form (P.pages pages.old) tree.now.rows
        → IfOk result (Next (bytes_in (P.pages pages.old) tree.now.rows) node from) }
    ensures filled { IsMap rows_form (P.pages pages.old) tree.now.rows → AreFilled (map_rows rows_form (P.pages pages.old) tree.now.rows) → IfOk result GivesFilled }
    ensures onto { IfOk result (λ next. IfSome next (λ found. from ≤ found.0)) }

    // Each page on the ways kept the rules in its place. On any pages whose bytes are readable, the row is what their leaves have.
    ensures kept { AreReadable (P.pages pages.old) (P.count pages.old)
        → IfOk result (IsNextFound (P.pages pages.old) (P.count pages.old) tree.now.rows node from) }

    // On a well-formed map whose pages are counted no page is damaged.
    ensures no_false_damage { IsMap rows_form (P.pages pages.old) tree.now.rows → AreCounted (map_uses rows_form (P.pages pages.old) tree.now.rows) (P.count pages.old)
        → AreReadable (P.pages pages.old) (P.count pages.old) → (damage : Damage) → ¬ IsErrOf result (PageFault.Damaged damage) }
    ensures damaged { AreReadable (P.pages pages.old) (P.count pages.old) → (damage : Damage) → IsErrOf result (PageFault.Damaged damage)
        → IsRowsDamage (P.pages pages.old) (P.count pages.old) tree.now.rows (P.asked pages.old) (P.asked pages.new) damage }
    ensures own { AreReadable (P.pages pages.old) (P.count pages.old)
        → AsksOnly (map_uses rows_form (P.pages pages.old) tree.now.rows) (P.asked pages.old) (P.asked pages.new) }
    ensures fails { FailsReading P.Pages pages.old pages.new result }
    ensures frame { Reads P.Pages pages.old pages.new }
{
    let key = RowKey { node, number: from }.bytes();
    let mut found = [0; 12];
    let mut row = [0; 32];
    let map = PagedMap::<WordRows>::at(tree.rows);
    let Some(_leaf) = map.first_from(pages, &key, &mut found, &mut row)? else {
        return Ok(None);
    };
    let next = RowKey::of_bytes(&found);
    if next.node != node {
        return Ok(None);
    }
    Ok(Some((next.number, row)))
}
