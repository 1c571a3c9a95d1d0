//! How many nodes, pages and levels a tree has.
ghost use Rattle.std.specs.Prelude.{◌≡◌, ℕ, ◌+◌, ◌*◌, ◌^◌, ◌<◌, ◌≤◌};
ghost use Rattle.page_face.specs.FreeList.{PageMap};
ghost use Rattle.rtree_nodes.specs.Slots.{sum_to};
ghost use Rattle.rtree_nodes.specs.Trees.{root_least};
ghost use Rattle.rtree_nodes.specs.Made.{Reads};
ghost use Rattle.rtree_nodes.specs.Whole.{IsWell, level_at, tree_uses};
ghost use Rattle.tree_check.specs.Sizes.{tree_entries, tree_nodes};

/// A tree uses a page for each of its nodes; a page counts as often as it is used. The call does nothing: its contract is the law.
pub fn pages_are_nodes()
    // The first `count` pages are used at most as often as the tree has nodes,
    ensures most { (reads : Reads) (pages : PageMap) (root count : ℕ) → sum_to count (tree_uses reads pages root) ≤ tree_nodes reads pages root }
    // and just so often if no other page is used.
    ensures all { (reads : Reads) (pages : PageMap) (root count : ℕ) → ((n : ℕ) → count ≤ n → tree_uses reads pages root n ≡ 0)
        → sum_to count (tree_uses reads pages root) ≡ tree_nodes reads pages root }
{}

/// A well-formed tree has at most one node for 11 entries, rounded up. The call does nothing: its contract is the law.
pub fn nodes_are_few()
    ensures { (reads : Reads) (pages : PageMap) (root : ℕ) → IsWell reads pages root
        → 11 * tree_nodes reads pages root ≤ tree_entries reads pages root + 10 }
{}

/// A well-formed tree uses at most one page for 11 entries, rounded up. The call does nothing: its contract is the law.
pub fn pages_are_few()
    ensures { (reads : Reads) (pages : PageMap) (root count : ℕ) → IsWell reads pages root
        → 11 * sum_to count (tree_uses reads pages root) ≤ tree_entries reads pages root + 10 }
{}

/// A well-formed tree that has a root has at least 12 entries to the power of the root's level, times the least number of slots of a root
/// of that level. The call does nothing: its contract is the law.
pub fn entries_are_many()
    ensures { (reads : Reads) (pages : PageMap) (root : ℕ) → IsWell reads pages root → 0 < root
        → root_least (level_at reads pages root) * 12 ^ level_at reads pages root ≤ tree_entries reads pages root }
{}

/// A well-formed tree has few levels by its number of entries. The call does nothing: its contract is the law.
pub fn levels_are_few()
    // A state has fewer than 2^32 places: so many entries are on at most nine levels, 0 to 8.
    ensures state { (reads : Reads) (pages : PageMap) (root : ℕ) → IsWell reads pages root
        → tree_entries reads pages root < 2 ^ 32 → level_at reads pages root ≤ 8 }
    // No update makes more than 1,000,000 places: so many entries are on at most six levels, 0 to 5.
    ensures limit { (reads : Reads) (pages : PageMap) (root : ℕ) → IsWell reads pages root
        → tree_entries reads pages root ≤ 1000000 → level_at reads pages root ≤ 5 }
{}
