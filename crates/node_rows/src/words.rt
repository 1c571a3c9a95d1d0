//! The words of a node.
ghost use Rattle.std.specs.Prelude.{◌≡◌, ◌+◌, ◌<◌, ◌≤◌, ◌^◌, ◌++◌, ◌∷◌, [], ℕ, max, IfErr, IfOk, IfSome, IsErrOf, OnOk};
ghost use Rattle.page_face.specs.Calls.{Reads, FailsReading};
ghost use Rattle.btree_nodes.specs.Damages.{AreReadable, AsksOnly};
ghost use Rattle.btree_nodes.specs.Tree.{IsMap, map_uses};
ghost use Rattle.paged_map.specs.Maps.{AreCounted};
ghost use Rattle.rtree_nodes.specs.Stock.{rows_form};
ghost use Rattle.node_rows.specs.Rows.{bytes_in};
ghost use Rattle.node_rows.specs.Ascents.{reached, until};
ghost use Rattle.node_rows.specs.Copies.{IsCopy};
ghost use Rattle.node_rows.specs.Damages.{IsRowsDamage};
ghost use Rattle.node_rows.specs.Impacts.{impact_at, impact_in, top_at};
ghost use Rattle.node_rows.specs.Words.{AreWords, no_bytes, tops_of};

use crate::Tree;
use crate::ascent::after;
use crate::leaf::{LeafCopy, next_in};
use crate::slots::greatest;
use page_face::{Damage, PageFault, Pages};
use std::alloc::Global;

/// Adds a word with its impact at the end of a list, unless the impact is 0.
pub fn push_word(words: &mut Vec<(u64, u8)>, number: u64, impact: u8) -> Result<(), PageFault>
    ensures impacts { OnOk result ((w : ℕ) → impact_in words.new.items w ≡ max (impact_in words.old.items w) (impact_at (number, impact) w)) }
    ensures ordered { (at : ℕ) → AreWords 0 at words.old.items → at ≤ number → OnOk result (AreWords 0 (number + 1) words.new.items) }
    ensures items { 0 < impact → OnOk result (words.new.items ≡ words.old.items ++ (number, impact) ∷ []) }
    ensures memory { IfErr result (λ fault. fault ≡ PageFault.Memory) }
{
    if impact == 0 {
        return Ok(());
    }
    match words.push((number, impact)) {
        Ok(()) => Ok(()),
        Err(_) => Err(PageFault::Memory),
    }
}

// Adds the word of a node's first row from number `at` on, with the greatest of its bytes. Returns the number to go on from, if any.
fn add_next<P: Pages>(
    pages: &mut P,
    tree: &Tree,
    node: u32,
    at: u64,
    copy: &mut LeafCopy,
    words: &mut Vec<(u64, u8)>,
) -> Result<Option<u64>, PageFault>
    ensures words { IsMap rows_form (P.pages pages.old) tree.now.rows → IsCopy (bytes_in (P.pages pages.old) tree.now.rows) node copy.old
        → ((n w i : ℕ) → impact_in words.old.items w ≡ until at (tops_of (bytes_in (P.pages pages.old) tree.now.rows) node) no_bytes n w i)
        → IfOk result (λ next. (n w i : ℕ) → impact_in words.new.items w ≡ until (reached next) (tops_of (bytes_in (P.pages pages.old) tree.now.rows) node) no_bytes n w i) }
    ensures ordered { AreWords 0 at words.old.items → IfOk result (λ next. AreWords 0 (reached next) words.new.items) }
    ensures copy { IsMap rows_form (P.pages pages.old) tree.now.rows → IsCopy (bytes_in (P.pages pages.old) tree.now.rows) node copy.old
        → OnOk result (IsCopy (bytes_in (P.pages pages.old) tree.now.rows) node copy.new) }
    ensures onto { IfOk result (λ next. IfSome next (λ word. at < word)) }
    ensures no_false_damage { IsMap rows_form (P.pages pages.old) tree.now.rows → AreCounted (map_uses rows_form (P.pages pages.old) tree.now.rows) (P.count pages.old)
        → AreReadable (P.pages pages.old) (P.count pages.old) → (damage : Damage) → ¬ IsErrOf result (PageFault.Damaged damage) }
    ensures damaged { AreReadable (P.pages pages.old) (P.count pages.old) → (damage : Damage) → IsErrOf result (PageFault.Damaged damage)
        → IsRowsDamage (P.pages pages.old) (P.count pages.old) tree.now.rows (P.asked pages.old) (P.asked pages.new) damage }
    ensures own { AreReadable (P.pages pages.old) (P.count pages.old)
        → AsksOnly (map_uses rows_form (P.pages pages.old) tree.now.rows) (P.asked pages.old) (P.asked pages.new) }
    ensures fails { FailsReading P.Pages pages.old pages.new result }
    ensures frame { Reads P.Pages pages.old pages.new }
{
    let Some(found) = next_in(copy, pages, tree, node, at)? else {
        return Ok(None);
    };
    let row = found.1;
    push_word(words, found.0, greatest(&row))?;
    Ok(after(found.0))
}

/// Returns the words of a node in the order of their numbers, each with the greatest of its bytes.
///
/// Returns `Damaged` as [`next_row`](crate::next_row) does; `Disk`, `Stopped`, or `Memory` if it runs out of memory.
///
/// For a node of W words in L leaves of the rows' map, costs at most L + 4 ways down. Each looks at one page a level, and all except two
/// copy a leaf. Writes no page.
pub fn words_of<P: Pages>(
    alloc: Global,
    pages: &mut P,
    tree: &Tree,
    node: u32,
) -> Result<Vec<(u64, u8)>, PageFault>
    ensures words { IsMap rows_form (P.pages pages.old) tree.now.rows
        → IfOk result (λ words. (w : ℕ) → impact_in words.items w ≡ top_at (bytes_in (P.pages pages.old) tree.now.rows) node w) }
    ensures ordered { IfOk result (λ words. AreWords 0 (2 ^ 64) words.items) }

    // On a well-formed map whose pages are counted no page is damaged.
    ensures no_false_damage { IsMap rows_form (P.pages pages.old) tree.now.rows → AreCounted (map_uses rows_form (P.pages pages.old) tree.now.rows) (P.count pages.old)
        → AreReadable (P.pages pages.old) (P.count pages.old) → (damage : Damage) → ¬ IsErrOf result (PageFault.Damaged damage) }
    ensures damaged { AreReadable (P.pages pages.old) (P.count pages.old) → (damage : Damage) → IsErrOf result (PageFault.Damaged damage)
        → IsRowsDamage (P.pages pages.old) (P.count pages.old) tree.now.rows (P.asked pages.old) (P.asked pages.new) damage }
    ensures own { AreReadable (P.pages pages.old) (P.count pages.old)
        → AsksOnly (map_uses rows_form (P.pages pages.old) tree.now.rows) (P.asked pages.old) (P.asked pages.new) }
    ensures fails { FailsReading P.Pages pages.old pages.new result }
    ensures frame { Reads P.Pages pages.old pages.new }
{
    let mut words = Vec::new(alloc);
    let mut copy = LeafCopy::none();
    let mut from = Some(0);
    while let Some(at) = from {
        from = add_next(pages, tree, node, at, &mut copy, &mut words)?;
    }
    Ok(words)
}
