//! The rows of a node read once, and the words of each slot taken out of them.
ghost use Rattle.std.specs.Prelude.{◌≡◌, ◌+◌, ◌<◌, ◌^◌, ◌++◌, ◌∷◌, [], ℕ, IfErr, IfOk, IfSome, IsErrOf, OnOk};
ghost use Rattle.page_face.specs.Calls.{Reads, FailsReading};
ghost use Rattle.btree_nodes.specs.Damages.{AreReadable};
ghost use Rattle.btree_nodes.specs.Tree.{IsMap, map_uses};
ghost use Rattle.paged_map.specs.Maps.{AreCounted};
ghost use Rattle.rtree_nodes.specs.Stock.{rows_form};
ghost use Rattle.node_rows.specs.Ascents.{reached, until};
ghost use Rattle.node_rows.specs.Copies.{IsCopy};
ghost use Rattle.node_rows.specs.Rows.{bytes_in};
ghost use Rattle.node_rows.specs.Words.{no_bytes};
ghost use Rattle.tree_check.specs.Columns.{DoAscend, SayBytes, node_bytes, said_by, words_in};

use node_rows::{LeafCopy, Tree, after, next_in, push_word};
use page_face::{Damage, PageFault, Pages};

/// Adds a row at the end of a list.
fn push_row(rows: &mut Vec<(u64, [u8; 32])>, row: (u64, [u8; 32])) -> Result<(), PageFault>
    ensures items { OnOk result (rows.new.items ≡ rows.old.items ++ row ∷ []) }
    ensures memory { IfErr result (λ fault. fault ≡ PageFault.Memory) }
{
    match rows.push(row) {
        Ok(()) => Ok(()),
        Err(_) => Err(PageFault::Memory),
    }
}

// Adds a node's first row from word `at` on. Returns the word to go on from, if any.
fn add_next<P: Pages>(
    pages: &mut P,
    tree: &Tree,
    node: u32,
    at: u64,
    copy: &mut LeafCopy,
    rows: &mut Vec<(u64, [u8; 32])>,
) -> Result<Option<u64>, PageFault>
    ensures rows { IsMap rows_form (P.pages pages.old) tree.now.rows → IsCopy (bytes_in (P.pages pages.old) tree.now.rows) node copy.old
        → ((n w i : ℕ) → said_by rows.old.items n w i ≡ until at (node_bytes (bytes_in (P.pages pages.old) tree.now.rows) node) no_bytes n w i)
        → IfOk result (λ next. (n w i : ℕ) → said_by rows.new.items n w i ≡ until (reached next) (node_bytes (bytes_in (P.pages pages.old) tree.now.rows) node) no_bytes n w i) }
    ensures ordered { DoAscend 0 at rows.old.items → IfOk result (λ next. DoAscend 0 (reached next) rows.new.items) }
    ensures copy { IsMap rows_form (P.pages pages.old) tree.now.rows → IsCopy (bytes_in (P.pages pages.old) tree.now.rows) node copy.old
        → OnOk result (IsCopy (bytes_in (P.pages pages.old) tree.now.rows) node copy.new) }
    ensures onto { IfOk result (λ next. IfSome next (λ word. at < word)) }
    ensures no_false_damage { IsMap rows_form (P.pages pages.old) tree.now.rows → AreCounted (map_uses rows_form (P.pages pages.old) tree.now.rows) (P.count pages.old)
        → AreReadable (P.pages pages.old) (P.count pages.old) → (damage : Damage) → ¬ IsErrOf result (PageFault.Damaged damage) }
    ensures fails { FailsReading P.Pages pages.old pages.new result }
    ensures frame { Reads P.Pages pages.old pages.new }
{
    let Some(found) = next_in(copy, pages, tree, node, at)? else {
        return Ok(None);
    };
    push_row(rows, found)?;
    Ok(after(found.0))
}

/// Replaces a list by the rows of a node, in the order of their words' numbers.
///
/// Returns `Disk`, `Stopped`, or `Memory` if it runs out of memory. On a well-formed map whose pages are counted no page is damaged. After
/// an error the list has some of the rows.
///
/// For rows in L leaves of the rows' map, costs at most L + 4 ways down. Each looks at one page a level, and all except two copy a leaf.
/// Takes memory for the rows. Writes no page.
pub(crate) fn rows_of<P: Pages>(
    pages: &mut P,
    tree: &Tree,
    node: u32,
    rows: &mut Vec<(u64, [u8; 32])>,
) -> Result<(), PageFault>
    ensures rows { IsMap rows_form (P.pages pages.old) tree.now.rows → OnOk result (SayBytes (bytes_in (P.pages pages.old) tree.now.rows) node rows.new.items) }
    ensures ordered { OnOk result (DoAscend 0 (2 ^ 64) rows.new.items) }
    ensures no_false_damage { IsMap rows_form (P.pages pages.old) tree.now.rows → AreCounted (map_uses rows_form (P.pages pages.old) tree.now.rows) (P.count pages.old)
        → AreReadable (P.pages pages.old) (P.count pages.old) → (damage : Damage) → ¬ IsErrOf result (PageFault.Damaged damage) }
    ensures fails { FailsReading P.Pages pages.old pages.new result }
    ensures frame { Reads P.Pages pages.old pages.new }
{
    rows.clear();
    let mut copy = LeafCopy::none();
    let mut from = Some(0);
    while let Some(at) = from {
        from = add_next(pages, tree, node, at, &mut copy, rows)?;
    }
    Ok(())
}

/// Replaces a list by the words of rows at a slot: those whose byte there isn't 0, each with that byte.
///
/// Returns `Memory` if it runs out of memory. The list then has the first of the words. Looks at no page.
pub(crate) fn words_at(
    rows: &[(u64, [u8; 32])],
    at: usize,
    words: &mut Vec<(u64, u8)>,
) -> Result<(), PageFault>
    requires within { at < 32 }
    ensures words { OnOk result (words.new.items ≡ words_in at rows.now) }
    ensures memory { IfErr result (λ fault. fault ≡ PageFault.Memory) }
{
    words.clear();
    for row in rows {
        let byte = row.1[at];
        if byte != 0 {
            match push_word(words, row.0, byte) {
                Ok(()) => {}
                Err(fault) => return Err(fault),
            }
        }
    }
    Ok(())
}
