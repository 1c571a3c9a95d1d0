//! What a best-first search goes over.
ghost use Rattle.std.specs.Prelude.{◌≡◌, ◌≢◌, ◌⊎◌, ℕ, ◌≤◌, List, ◌∷◌, [], ◌++◌, length, Option, Err, IfOk, IsErrOf};
ghost use Rattle.std.specs.List.{AllByRecursion};
ghost use Rattle.page_face.specs.Calls.{Reads, FailsReading};
ghost use Rattle.page_face.specs.declared.fault.Rule.TheVariants.{Level};
ghost use Rattle.btree_nodes.specs.Damages.{AskedSince};
ghost use Rattle.best_first.specs.declared.item.Item.{Item};
ghost use Rattle.best_first.specs.Items.{IsGivenAt, IsRootAlone, OfNode, pages_of};
ghost use Rattle.best_first.specs.Leads.{Bounds};
ghost use Rattle.best_first.specs.Openings.{AsksNodes};
ghost use Rattle.best_first.specs.Levels.{IsOffLevel, IsGivenBelow};
ghost use Rattle.best_first.specs.Faults.{held_after};
ghost use Rattle.best_first.specs.Cuts.{Gave};

use crate::Item;
use page_face::{Damage, PageFault, Pages};
use std::alloc::Global;

/// Opens the nodes of a tree over pages for one query. It decides which nodes may hold an answer, bounds what the places below each node
/// cost, and turns the entries of a leaf into hits.
///
/// A node's bound, and whether it is given at all, come from its parent, so that a node which isn't opened costs no page.
pub trait Ranked<P: Pages> {
    ghost use Rattle.std.specs.Prelude.{ℕ, List, Option};
    ghost use Rattle.page_face.specs.declared.fault.PageFault.{PageFault};
    ghost use Rattle.page_face.specs.declared.fault.Damage.{Damage};

    /// Whether the pages hold a tree as it has to be.
    ghost fits: { Self → P → Type 0 };

    /// Whether the contracts know the bytes of the pages, as they don't over files. What the trait states of damage and of the pages
    /// requested holds for known bytes.
    ghost told: { Self → P → Type 0 };

    /// What `start` gives if the pages fit.
    ghost starts: { Self → P → List Item };

    /// Whether a node of the tree, of this level, is at a page.
    ghost has_node: { Self → P → ℕ → ℕ → Type 0 };

    /// What a node of a page and a level has for the search if the pages fit: `open` gives it.
    ghost opens: { Self → P → ℕ → ℕ → List Item };

    /// The root's page.
    ghost root: { Self → ℕ };

    /// Whether a page is a tree's node, and none that the opener reads beside the nodes.
    ghost is_node: { Self → P → ℕ → Type 0 };

    /// Whether an item is in the bytes of a page as a node of a level.
    ghost stands: { List ℕ → ℕ → Item → Type 0 };

    /// Whether the bytes of a page are readable, and its node is of a level by them.
    ghost has_level: { List ℕ → ℕ → Type 0 };

    /// What a damage means for the pages that were requested between two logs.
    ghost harms: { Self → P → List ℕ → List ℕ → Damage → Type 0 };

    /// The last fault other than running out of memory.
    ghost held: { Self → Option PageFault };

    /// Returns the root, or nothing if no place below it can be an answer. If the pages fit, the root is requested only if it is given.
    ///
    /// Refuses `Damaged`, `Disk`, `Stopped` and `Memory`.
    fn start(&mut self, alloc: Global, pages: &mut P) -> Result<Vec<Item>, PageFault>
        ensures gives { fits self.old pages.old → IfOk result (λ items. items.items ≡ starts self.old pages.old) }
        ensures alone { IfOk result (λ items. IsRootAlone (root self.old) items.items) }
        ensures levels { told self.old pages.old → IfOk result (λ items. AllByRecursion (OfNode (λ page level. has_level (P.pages pages.old page) level)) items.items) }
        ensures asks { told self.old pages.old → AsksNodes (is_node self.old pages.old) (root self.old ∷ []) (P.asked pages.old) (P.asked pages.new) }
        ensures asks_given { fits self.old pages.old → IfOk result (λ items. AsksNodes (is_node self.old pages.old) (pages_of items.items) (P.asked pages.old) (P.asked pages.new)) }
        ensures damaged { told self.old pages.old → (damage : Damage) → IsErrOf result (PageFault.Damaged damage) → harms self.old pages.old (P.asked pages.old) (P.asked pages.new) damage }
        ensures no_false_damage { fits self.old pages.old → (damage : Damage) → result ≢ Err (PageFault.Damaged damage) }
        ensures fails { FailsReading P.Pages pages.old pages.new result }
        ensures frame { Reads P.Pages pages.old pages.new }
        ensures held { held self.new ≡ held_after result (held self.old) }
        ensures fits { fits self.old pages.old → fits self.new pages.new }
        ensures same_told { told self.old pages.old → told self.new pages.new }
        ensures same_starts { starts self.new pages.new ≡ starts self.old pages.old }
        ensures same_opens { opens self.new pages.new ≡ opens self.old pages.old }
        ensures same_harms { (old new : List ℕ) (damage : Damage) → harms self.new pages.new old new damage → harms self.old pages.old old new damage }
        ensures same_tree { (page level : ℕ) → has_node self.old pages.old page level → has_node self.new pages.new page level }
        ensures same_nodes { (page : ℕ) → is_node self.old pages.old page → is_node self.new pages.new page }
        ensures same_root { root self.new ≡ root self.old };

    /// Opens a node: gives the places of a leaf that may be answers, and of every other node the children below which one may be, each with
    /// its bound. It may leave out what costs more than `most`, the most that a place may cost which the search still asks for.
    ///
    /// Refuses `Damaged`, with `Level` also if the node's page isn't of the level that it is opened with; `Disk`, `Stopped` and `Memory`.
    fn open(
        &mut self,
        alloc: Global,
        pages: &mut P,
        node: u32,
        level: u8,
        most: Option<u64>,
    ) -> Result<Vec<Item>, PageFault>
        ensures gives { IfOk result (λ items. Gave (stands (P.pages pages.old node) level) level (fits self.old pages.old × has_node self.old pages.old node level) (opens self.old pages.old node level) most items.items) }
        ensures few { IfOk result (λ items. length items.items ≤ 32) }
        ensures children { IfOk result (λ items. AllByRecursion (IsGivenAt level) items.items) }
        ensures stand { IfOk result (λ items. AllByRecursion (stands (P.pages pages.old node) level) items.items) }
        ensures level { told self.old pages.old → IfOk result (λ items. has_level (P.pages pages.old node) level) }
        ensures asked { told self.old pages.old → IfOk result (λ items. AskedSince (P.asked pages.old) (P.asked pages.new) node) }
        ensures asks { told self.old pages.old → AsksNodes (is_node self.old pages.old) (node ∷ []) (P.asked pages.old) (P.asked pages.new) }
        ensures damaged { told self.old pages.old → (damage : Damage) → IsErrOf result (PageFault.Damaged damage) → harms self.old pages.old (P.asked pages.old) (P.asked pages.new) damage
            ⊎ ((damage ≡ record { page = node; rule = Level }) × IsOffLevel has_level (P.pages pages.old) (P.asked pages.old) (P.asked pages.new) node level) }
        ensures no_false_damage { fits self.old pages.old → has_node self.old pages.old node level → (damage : Damage) → result ≢ Err (PageFault.Damaged damage) }
        ensures fails { FailsReading P.Pages pages.old pages.new result }
        ensures frame { Reads P.Pages pages.old pages.new }
        ensures held { held self.new ≡ held_after result (held self.old) }
        ensures fits { fits self.old pages.old → fits self.new pages.new }
        ensures same_told { told self.old pages.old → told self.new pages.new }
        ensures same_starts { starts self.new pages.new ≡ starts self.old pages.old }
        ensures same_opens { opens self.new pages.new ≡ opens self.old pages.old }
        ensures same_harms { (old new : List ℕ) (damage : Damage) → harms self.new pages.new old new damage → harms self.old pages.old old new damage }
        ensures same_tree { (page level : ℕ) → has_node self.old pages.old page level → has_node self.new pages.new page level }
        ensures same_nodes { (page : ℕ) → is_node self.old pages.old page → is_node self.new pages.new page }
        ensures same_root { root self.new ≡ root self.old };

    /// If the pages fit, no place costs less than the bound of a node that leads to it.
    ghost starts_bounded: { (s : Self) (p : P) → fits s p → Bounds (opens s p) (starts s p) };

    /// If the pages fit, `start` gives a node of the tree.
    ghost starts_in: { (s : Self) (p : P) → fits s p → AllByRecursion (OfNode (has_node s p)) (starts s p) };

    /// So does `open` for such a node.
    ghost opens_in: { (s : Self) (p : P) (page level : ℕ) → fits s p → has_node s p page level → AllByRecursion (OfNode (has_node s p)) (opens s p page level) };

    /// What holds of a damage for the pages requested last holds of it for all that were requested.
    ghost harms_sooner: { (s : Self) (p : P) (old more new : List ℕ) (damage : Damage) → harms s p (old ++ more) new damage → harms s p old new damage };

    /// The rule `Level` may be given for a page that came from another one above it, and hasn't the level that it was given with.
    ghost mislevelled: { (s : Self) (p : P) (old new : List ℕ) (page level : ℕ) → IsGivenBelow stands has_level (P.pages p) old new page level
        → IsOffLevel has_level (P.pages p) old new page level → harms s p old new (record { page = page; rule = Level }) };
}
