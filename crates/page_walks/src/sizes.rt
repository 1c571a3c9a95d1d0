//! The laws.
ghost use Rattle.std.specs.Prelude.{◌≡◌, ◌≤◌, ◌<◌, ◌+◌, ◌*◌, ◌^◌, ℕ, length};
ghost use Rattle.page_face.specs.FreeList.{PageMap};
ghost use Rattle.btree_nodes.specs.declared.form.Form.{Form};
ghost use Rattle.btree_nodes.specs.Nodes.{half_of};
ghost use Rattle.btree_nodes.specs.Tree.{IsMap, map_rows, map_uses, level_of};
ghost use Rattle.page_walks.specs.Sizes.{map_size, sum_to};

/// The number of a map's pages is how often it uses pages, whatever their bytes. The call does nothing: its contract is the law.
pub fn uses_are_pages()
    // The uses of the pages below any number are together at most the map's number of pages.
    ensures most { (form : Form) (pages : PageMap) (root count : ℕ) → sum_to count (map_uses form pages root) ≤ map_size form pages root }
    // They are exactly that many if the map uses no page from that number on.
    ensures all { (form : Form) (pages : PageMap) (root count : ℕ) → ((n : ℕ) → count ≤ n → map_uses form pages root n ≡ 0)
        → sum_to count (map_uses form pages root) ≡ map_size form pages root }
{}

/// A well-formed map has at most as many pages as rows, and fewer the more rows a page holds. The call does nothing: its contract is the
/// law.
pub fn pages_are_few()
    // It has at most as many pages as rows.
    ensures few { (form : Form) (pages : PageMap) (root : ℕ) → IsMap form pages root → map_size form pages root ≤ length (map_rows form pages root) }
    // So it uses at most as many pages as it has rows.
    ensures used { (form : Form) (pages : PageMap) (root count : ℕ) → IsMap form pages root
        → sum_to count (map_uses form pages root) ≤ length (map_rows form pages root) }
    // With h rows in half a leaf, it has at most one page and 7/6 of a page for each h rows.
    ensures full { (form : Form) (pages : PageMap) (root : ℕ) → IsMap form pages root
        → 6 * (half_of form 0 * map_size form pages root) ≤ 7 * length (map_rows form pages root) + 6 * half_of form 0 }
{}

/// A well-formed map that isn't empty has few levels for its rows. The call does nothing: its contract is the law.
pub fn levels_are_few()
    // Two to the power of its root's level is at most its number of rows.
    ensures two { (form : Form) (pages : PageMap) (root : ℕ) → IsMap form pages root → 0 < root
        → 2 ^ level_of (pages root) ≤ length (map_rows form pages root) }
    // Seven to that power is at most twice its number of rows.
    ensures seven { (form : Form) (pages : PageMap) (root : ℕ) → IsMap form pages root → 0 < root
        → 7 ^ level_of (pages root) ≤ 2 * length (map_rows form pages root) }
{}
