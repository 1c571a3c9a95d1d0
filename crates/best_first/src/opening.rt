//! Opening a node.
ghost use Rattle.std.specs.Prelude.{◌≡◌, ◌≢◌, ◌⊎◌, ◌<◌, ◌≤◌, ◌∷◌, [], ℕ, length, IfOk, IfErr, IsErrOf, Err};
ghost use Rattle.std.specs.List.{AllByRecursion};
ghost use Rattle.page_face.specs.Calls.{Reads, FailsReading};
ghost use Rattle.page_face.specs.declared.fault.Rule.TheVariants.{Level};
ghost use Rattle.btree_nodes.specs.Damages.{AreReadable, AskedSince, AsksOnly};
ghost use Rattle.btree_nodes.specs.Supply.{one_at};
ghost use Rattle.btree_nodes.specs.Tree.{IsMap, map_uses};
ghost use Rattle.paged_map.specs.Maps.{AreCounted};
ghost use Rattle.rtree_nodes.specs.Stock.{rows_form};
ghost use Rattle.rtree_nodes.specs.Pages.{level_in, stored_in};
ghost use Rattle.rtree_nodes.specs.Harms.{BreaksAlone};
ghost use Rattle.node_rows.specs.Rows.{bytes_in};
ghost use Rattle.best_first.specs.declared.item.Item.TheVariants.{Node};
ghost use Rattle.best_first.specs.Items.{IsGivenAt, IsRootAlone, OfNode, pages_of};
ghost use Rattle.best_first.specs.Levels.{IsOffLevel};
ghost use Rattle.best_first.specs.Cuts.{Gave};
ghost use Rattle.best_first.specs.Openings.{AsksNodes};
ghost use Rattle.node_filter.specs.Masks.{has_slot};
ghost use Rattle.node_filter.specs.Numbers.{byte_of};
ghost use Rattle.best_first.specs.Asks.{qualifies};
ghost use Rattle.best_first.specs.Harms.{IsHarm, IsNodePage};
ghost use Rattle.best_first.specs.NodeOpenings.{given_by, given_at, spread, some_below, first_in, StandsIn, SaysLevel, IsSoundNode};

use crate::gathering::gather;
use crate::marking::marks;
use crate::{Ask, Item};
use node_filter::{Ids, enter, enter_at};
use node_rows::Tree;
use page_face::{Damage, PageFault, Pages};
use spatial_base::Origin;
use std::alloc::Global;

/// Opens a node of a level: returns the hits of a leaf's places that qualify, and of any other node the children below which one may, each
/// with its bound. What costs more than `most` is left out.
///
/// Looks at the node's row of each word of the search that the store knows, and once at its page. Refuses `Damaged` with a rule that a page
/// looked at breaks, with `Level` if the node's page has another level. Refuses `Disk`, `Stopped` and `Memory`.
pub fn opened<P: Pages>(
    alloc: Global,
    pages: &mut P,
    tree: &Tree,
    ids: &Ids,
    ask: &Ask,
    from: &Origin,
    node: u32,
    level: u8,
    most: Option<u64>,
) -> Result<Vec<Item>, PageFault>
    ensures gave { IfOk result (λ items. Gave (StandsIn (P.pages pages.old node) level) level
        (IsMap rows_form (P.pages pages.old) tree.now.rows × IsSoundNode (P.pages pages.old) (P.count pages.old) node level)
        (spread 32 (λ i. given_at (given_by from.now ask.now level (byte_of ids.now (bytes_in (P.pages pages.old) tree.now.rows node) i)) (stored_in (P.pages pages.old node) i))) most items.items) }
    ensures few { IfOk result (λ items. length items.items ≤ 32) }
    ensures levels { IfOk result (λ items. AllByRecursion (IsGivenAt level) items.items) }
    ensures stand { IfOk result (λ items. AllByRecursion (StandsIn (P.pages pages.old node) level) items.items) }
    ensures level { AreReadable (P.pages pages.old) (P.count pages.old) → IfOk result (λ items. SaysLevel (P.pages pages.old node) level) }
    ensures asked { AreReadable (P.pages pages.old) (P.count pages.old) → IfOk result (λ items. AskedSince (P.asked pages.old) (P.asked pages.new) node) }
    ensures asks { AreReadable (P.pages pages.old) (P.count pages.old) → AsksNodes (IsNodePage (P.pages pages.old) tree.now.rows) (node ∷ []) (P.asked pages.old) (P.asked pages.new) }
    ensures damaged { AreReadable (P.pages pages.old) (P.count pages.old) → (damage : Damage) → IsErrOf result (PageFault.Damaged damage)
        → IsHarm (P.pages pages.old) (P.count pages.old) tree.now.rows (P.asked pages.old) (P.asked pages.new) damage
        ⊎ ((damage ≡ record { page = node; rule = Level }) × IsOffLevel SaysLevel (P.pages pages.old) (P.asked pages.old) (P.asked pages.new) node level) }
    ensures no_false_damage { IsMap rows_form (P.pages pages.old) tree.now.rows → AreCounted (map_uses rows_form (P.pages pages.old) tree.now.rows) (P.count pages.old) → AreReadable (P.pages pages.old) (P.count pages.old)
        → IsSoundNode (P.pages pages.old) (P.count pages.old) node level → (damage : Damage) → result ≢ Err (PageFault.Damaged damage) }
    ensures fails { FailsReading P.Pages pages.old pages.new result }
    ensures frame { Reads P.Pages pages.old pages.new }
{
    let marks = match marks(pages, tree, ids, ask, node, level) {
        Ok(marks) => marks,
        Err(fault) => return Err(fault),
    };
    match enter_at(pages, node, level) {
        Ok(()) => gather(alloc, pages.looked(), node, level, ask, from, &marks, most),
        Err(fault) => Err(fault),
    }
}

// One item, or `Memory`.
fn alone(alloc: Global, item: Item) -> Result<Vec<Item>, PageFault>
    ensures item { IfOk result (λ items. items.items ≡ item ∷ []) }
    ensures memory { IfErr result (λ fault. fault ≡ PageFault.Memory) }
{
    let mut items = Vec::new(alloc);
    match items.push(item) {
        Ok(()) => Ok(items),
        Err(_) => Err(PageFault::Memory),
    }
}

// Whether a mask has a slot.
fn has_any(slots: u32) -> bool
    ensures { result ≡ some_below 32 (λ i. has_slot slots i) }
{
    slots != 0
}

// The root, of the level that its page gives.
fn root_item<P: Pages>(alloc: Global, pages: &mut P, root: u32) -> Result<Vec<Item>, PageFault>
    ensures given { 0 < length (P.pages pages.old root) → IfOk result (λ items. items.items ≡ Node root (level_in (P.pages pages.old root)) 0 ∷ []) }
    ensures alone { IfOk result (λ items. IsRootAlone root items.items × (pages_of items.items ≡ root ∷ [])) }
    ensures levels { AreReadable (P.pages pages.old) (P.count pages.old) → IfOk result (λ items. AllByRecursion (OfNode (λ page level. SaysLevel (P.pages pages.old page) level)) items.items) }
    ensures asks { AsksOnly (one_at root) (P.asked pages.old) (P.asked pages.new) }
    ensures damaged { (damage : Damage) → IsErrOf result (PageFault.Damaged damage)
        → (damage.page ≡ root) × AskedSince (P.asked pages.old) (P.asked pages.new) root × BreaksAlone damage.rule (P.pages pages.old) (P.count pages.old) root }
    ensures fails { FailsReading P.Pages pages.old pages.new result }
    ensures frame { Reads P.Pages pages.old pages.new }
{
    match enter(pages, root) {
        Ok(level) => alone(
            alloc,
            Item::Node {
                page: root,
                level,
                bound: 0,
            },
        ),
        Err(fault) => Err(fault),
    }
}

/// Starts a search: returns the root, or nothing for the empty tree and if no slot of the root may have an answer below it.
///
/// Looks at the root's row of each word of the search that the store knows, and then at its page if it is given. Refuses as [`opened`],
/// except for `Level`.
pub fn started<P: Pages>(
    alloc: Global,
    pages: &mut P,
    tree: &Tree,
    ids: &Ids,
    ask: &Ask,
) -> Result<Vec<Item>, PageFault>
    ensures given { IsMap rows_form (P.pages pages.old) tree.now.rows → (0 < tree.now.root → 0 < length (P.pages pages.old tree.now.root)) → IfOk result (λ items. items.items
        ≡ first_in (some_below 32 (λ i. qualifies ask.now 1 (byte_of ids.now (bytes_in (P.pages pages.old) tree.now.rows tree.now.root) i))) tree.now.root (level_in (P.pages pages.old tree.now.root))) }
    ensures alone { IfOk result (λ items. IsRootAlone tree.now.root items.items) }
    ensures levels { AreReadable (P.pages pages.old) (P.count pages.old) → IfOk result (λ items. AllByRecursion (OfNode (λ page level. SaysLevel (P.pages pages.old page) level)) items.items) }
    ensures asks { AreReadable (P.pages pages.old) (P.count pages.old) → IfOk result (λ items. AsksNodes (IsNodePage (P.pages pages.old) tree.now.rows) (pages_of items.items) (P.asked pages.old) (P.asked pages.new)) }
    ensures asks_root { AreReadable (P.pages pages.old) (P.count pages.old) → AsksNodes (IsNodePage (P.pages pages.old) tree.now.rows) (tree.now.root ∷ []) (P.asked pages.old) (P.asked pages.new) }
    ensures damaged { AreReadable (P.pages pages.old) (P.count pages.old) → (damage : Damage) → IsErrOf result (PageFault.Damaged damage)
        → IsHarm (P.pages pages.old) (P.count pages.old) tree.now.rows (P.asked pages.old) (P.asked pages.new) damage }
    ensures no_false_damage { IsMap rows_form (P.pages pages.old) tree.now.rows → AreCounted (map_uses rows_form (P.pages pages.old) tree.now.rows) (P.count pages.old) → AreReadable (P.pages pages.old) (P.count pages.old)
        → (0 < tree.now.root → (level : ℕ) × IsSoundNode (P.pages pages.old) (P.count pages.old) tree.now.root level) → (damage : Damage) → result ≢ Err (PageFault.Damaged damage) }
    ensures fails { FailsReading P.Pages pages.old pages.new result }
    ensures frame { Reads P.Pages pages.old pages.new }
{
    if tree.root == 0 {
        return Ok(Vec::new(alloc));
    }
    let marks = match marks(pages, tree, ids, ask, tree.root, 1) {
        Ok(marks) => marks,
        Err(fault) => return Err(fault),
    };
    if !has_any(marks.slots) {
        return Ok(Vec::new(alloc));
    }
    root_item(alloc, pages, tree.root)
}
