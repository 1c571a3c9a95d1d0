//! The counts of words that any two of a node's slots, or a slot and an entry beside them, share.
ghost use Rattle.std.specs.Prelude.{◌≡◌, ◌+◌, ◌<◌, ◌^◌, ℕ, min, max, IfOk, IfSome, IsErrOf, OnOk, slice_index, nat_lt, if◌then◌else◌};
ghost use Rattle.page_face.specs.Calls.{Reads, FailsReading};
ghost use Rattle.btree_nodes.specs.Damages.{AreReadable, AsksOnly};
ghost use Rattle.btree_nodes.specs.Tree.{IsMap, map_uses};
ghost use Rattle.paged_map.specs.Maps.{AreCounted};
ghost use Rattle.rtree_nodes.specs.Stock.{rows_form};
ghost use Rattle.node_rows.specs.Rows.{bytes_in};
ghost use Rattle.node_rows.specs.Ascents.{reached};
ghost use Rattle.node_rows.specs.Counts.{IsCounted, cell, counted_on, most, sign};
ghost use Rattle.node_rows.specs.Copies.{IsCopy};
ghost use Rattle.node_rows.specs.Damages.{IsRowsDamage};
ghost use Rattle.node_rows.specs.Impacts.{impact_in};

use crate::Tree;
use crate::ascent::after;
use crate::leaf::{LeafCopy, next_in};
use crate::sharing::more_by;
use page_face::{Damage, PageFault, Pages};

// The greater of two bytes, if the second one counts.
fn later(a: u8, counts: bool, b: u8) -> u8
    ensures { result ≡ max a (if counts then b else 0) }
{
    if counts && a < b { b } else { a }
}

// The impact of a word among an entry's.
fn impact_of(words: &[(u64, u8)], number: u64) -> u8
    ensures { result ≡ impact_in words.now number }
{
    let mut impact = 0;
    for pair in words {
        impact = later(impact, pair.0 == number, pair.1);
    }
    impact
}

// A row of 32 slots, followed by the entry's byte.
fn with_entry(row: &[u8; 32], impact: u8) -> [u8; 33]
    ensures { (i : ℕ) → i < 33 → slice_index result i ≡ (if nat_lt i 32 then slice_index row.now i else impact) }
{
    let mut all = [0; 33];
    for i in 0..32 {
        all[i] = row[i];
    }
    all[32] = impact;
    all
}

// Adds one to the line of an entry that has the word, at each entry that has it too.
fn add_line(line: [u32; 33], row: &[u8; 33]) -> [u32; 33]
    ensures { (j : ℕ) → j < 33 → slice_index result j ≡ min (slice_index line j + sign (slice_index row.now j)) most }
{
    let mut out = line;
    for j in 0..33 {
        out[j] = more_by(out[j], row[j]);
    }
    out
}

// Adds one at each two entries that share the word.
fn add_pairs(table: &mut [[u32; 33]; 33], row: &[u8; 33])
    ensures { (i j : ℕ) → i < 33 → j < 33 → cell table.new i j ≡ counted_on (cell table.old i j) (slice_index row.now i) (slice_index row.now j) }
{
    for i in 0..33 {
        if row[i] != 0 {
            let line = table[i];
            let more = add_line(line, row);
            table[i] = more;
        }
    }
}

// A table of zeros.
fn clear_table() -> [[u32; 33]; 33]
    ensures { (i j : ℕ) → cell result i j ≡ 0 }
{
    [[0; 33]; 33]
}

// Counts the word of a node's first row from number `at` on. Returns the number to go on from, if any.
fn like_next<P: Pages>(
    pages: &mut P,
    tree: &Tree,
    node: u32,
    words: &[(u64, u8)],
    at: u64,
    copy: &mut LeafCopy,
    table: &mut [[u32; 33]; 33],
) -> Result<Option<u64>, PageFault>
    ensures counted { IsMap rows_form (P.pages pages.old) tree.now.rows → IsCopy (bytes_in (P.pages pages.old) tree.now.rows) node copy.old
        → IsCounted (bytes_in (P.pages pages.old) tree.now.rows) node words.now at table.old
        → IfOk result (λ next. IsCounted (bytes_in (P.pages pages.old) tree.now.rows) node words.now (reached next) table.new) }
    ensures copy { IsMap rows_form (P.pages pages.old) tree.now.rows → IsCopy (bytes_in (P.pages pages.old) tree.now.rows) node copy.old
        → OnOk result (IsCopy (bytes_in (P.pages pages.old) tree.now.rows) node copy.new) }
    ensures onto { IfOk result (λ next. IfSome next (λ word. at < word)) }
    ensures no_false_damage { IsMap rows_form (P.pages pages.old) tree.now.rows → AreCounted (map_uses rows_form (P.pages pages.old) tree.now.rows) (P.count pages.old)
        → AreReadable (P.pages pages.old) (P.count pages.old) → (damage : Damage) → ¬ IsErrOf result (PageFault.Damaged damage) }
    ensures damaged { AreReadable (P.pages pages.old) (P.count pages.old) → (damage : Damage) → IsErrOf result (PageFault.Damaged damage)
        → IsRowsDamage (P.pages pages.old) (P.count pages.old) tree.now.rows (P.asked pages.old) (P.asked pages.new) damage }
    ensures own { AreReadable (P.pages pages.old) (P.count pages.old)
        → AsksOnly (map_uses rows_form (P.pages pages.old) tree.now.rows) (P.asked pages.old) (P.asked pages.new) }
    ensures fails { FailsReading P.Pages pages.old pages.new result }
    ensures frame { Reads P.Pages pages.old pages.new }
{
    let Some(found) = next_in(copy, pages, tree, node, at)? else {
        return Ok(None);
    };
    let slots = found.1;
    let row = with_entry(&slots, impact_of(words, found.0));
    add_pairs(table, &row);
    Ok(after(found.0))
}

/// Returns how many words each two of 33 entries share, each count at most 2^32 - 1. Entries 0 to 31 are the slots of a node, by the
/// words below them, and entry 32 is one with these words.
///
/// Only words of the node are counted, so the count of entry 32 with itself leaves out its other words.
///
/// Returns `Damaged` as [`next_row`](crate::next_row) does; `Disk`, `Stopped`, or `Memory` if it runs out of memory.
///
/// For a node of W words in L leaves of the rows' map, costs at most L + 4 ways down. Each looks at one page a level, and all except two
/// copy a leaf. Writes no page. At each word it goes only through the lines of the entries that have it.
pub fn like<P: Pages>(
    pages: &mut P,
    tree: &Tree,
    node: u32,
    words: &[(u64, u8)],
) -> Result<[[u32; 33]; 33], PageFault>
    ensures like { IsMap rows_form (P.pages pages.old) tree.now.rows
        → IfOk result (λ table. IsCounted (bytes_in (P.pages pages.old) tree.now.rows) node words.now (2 ^ 64) table) }

    // On a well-formed map whose pages are counted no page is damaged.
    ensures no_false_damage { IsMap rows_form (P.pages pages.old) tree.now.rows → AreCounted (map_uses rows_form (P.pages pages.old) tree.now.rows) (P.count pages.old)
        → AreReadable (P.pages pages.old) (P.count pages.old) → (damage : Damage) → ¬ IsErrOf result (PageFault.Damaged damage) }
    ensures damaged { AreReadable (P.pages pages.old) (P.count pages.old) → (damage : Damage) → IsErrOf result (PageFault.Damaged damage)
        → IsRowsDamage (P.pages pages.old) (P.count pages.old) tree.now.rows (P.asked pages.old) (P.asked pages.new) damage }
    ensures own { AreReadable (P.pages pages.old) (P.count pages.old)
        → AsksOnly (map_uses rows_form (P.pages pages.old) tree.now.rows) (P.asked pages.old) (P.asked pages.new) }
    ensures fails { FailsReading P.Pages pages.old pages.new result }
    ensures frame { Reads P.Pages pages.old pages.new }
{
    let mut table = clear_table();
    let mut copy = LeafCopy::none();
    let mut from = Some(0);
    while let Some(at) = from {
        from = like_next(pages, tree, node, words, at, &mut copy, &mut table)?;
    }
    Ok(table)
}
