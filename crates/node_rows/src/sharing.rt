//! Words that an entry shares with a node's slots.
ghost use Rattle.std.specs.Prelude.{◌≡◌, ◌+◌, ◌<◌, ◌++◌, ◌∷◌, [], ℕ, List, filter, min, nat_lt, IfErr, IfOk, IsErrOf, OnOk, slice_index, slice_index_or};
ghost use Rattle.page_face.specs.Calls.{Reads, FailsReading};
ghost use Rattle.btree_nodes.specs.Damages.{AreReadable, AskedSince, AsksOnly};
ghost use Rattle.btree_nodes.specs.Tree.{IsMap, map_uses};
ghost use Rattle.paged_map.specs.Maps.{AreCounted, IsMapDamaged};
ghost use Rattle.rtree_nodes.specs.Stock.{rows_form};
ghost use Rattle.node_rows.specs.Rows.{Bytes, bytes_in};
ghost use Rattle.node_rows.specs.Counts.{most, shared_in, sign};
ghost use Rattle.node_rows.specs.Impacts.{impact_in, raised};
ghost use Rattle.node_rows.specs.Known.{AreRowsAt, rises};

use crate::Tree;
use crate::rows::row;
use crate::words::push_word;
use page_face::{Damage, PageFault, Pages};
use std::alloc::Global;

/// Returns the count, with 1 added if the byte isn't 0.
pub(crate) fn more_by(count: u32, byte: u8) -> u32
    ensures { result ≡ min (count + sign byte) most }
{
    if byte == 0 {
        count
    } else {
        count.saturating_add(1)
    }
}

// Adds one at each slot that has a byte other than 0.
fn add_signs(counts: &mut [u32; 32], row: &[u8; 32])
    ensures { (i : ℕ) → i < 32 → slice_index counts.new i ≡ min (slice_index counts.old i + sign (slice_index row.now i)) most }
{
    for i in 0..32 {
        counts[i] = more_by(counts[i], row[i]);
    }
}

// Adds a row.
fn push_row(rows: &mut Vec<[u8; 32]>, row: [u8; 32]) -> Result<(), PageFault>
    ensures rows { OnOk result (rows.new.items ≡ rows.old.items ++ row ∷ []) }
    ensures memory { IfErr result (λ fault. fault ≡ PageFault.Memory) }
{
    match rows.push(row) {
        Ok(()) => Ok(()),
        Err(_) => Err(PageFault::Memory),
    }
}

/// Returns the row of a node for each of an entry's words, in the words' order: zeros if there is none. Only the numbers of `words`
/// matter.
///
/// Returns `Damaged`, `Disk`, `Stopped`, or `Memory` as [`row`] does, and `Memory` if it runs out of memory for them.
///
/// Costs a call of [`row`] for each word, and writes no page.
pub fn rows_at<P: Pages>(
    alloc: Global,
    pages: &mut P,
    tree: &Tree,
    node: u32,
    words: &[(u64, u8)],
) -> Result<Vec<[u8; 32]>, PageFault>
    ensures rows { IsMap rows_form (P.pages pages.old) tree.now.rows
        → IfOk result (λ rows. AreRowsAt (bytes_in (P.pages pages.old) tree.now.rows) node words.now rows.items) }

    // On a well-formed map whose pages are counted no page is damaged.
    ensures no_false_damage { IsMap rows_form (P.pages pages.old) tree.now.rows → AreCounted (map_uses rows_form (P.pages pages.old) tree.now.rows) (P.count pages.old)
        → AreReadable (P.pages pages.old) (P.count pages.old) → (damage : Damage) → ¬ IsErrOf result (PageFault.Damaged damage) }
    ensures damaged { AreReadable (P.pages pages.old) (P.count pages.old) → (damage : Damage) → IsErrOf result (PageFault.Damaged damage)
        → IsMapDamaged rows_form (P.pages pages.old) (P.count pages.old) tree.now.rows damage × AskedSince (P.asked pages.old) (P.asked pages.new) damage.page }
    ensures own { AreReadable (P.pages pages.old) (P.count pages.old)
        → AsksOnly (map_uses rows_form (P.pages pages.old) tree.now.rows) (P.asked pages.old) (P.asked pages.new) }
    ensures fails { FailsReading P.Pages pages.old pages.new result }
    ensures frame { Reads P.Pages pages.old pages.new }
{
    let mut rows = Vec::new(alloc);
    for pair in words {
        let there = row(pages, tree, node, pair.0)?;
        push_row(&mut rows, there)?;
    }
    Ok(rows)
}

/// Returns how many of an entry's words are below each slot of a node, each count at most 2^32 - 1, by the node's row for each of
/// the words.
pub fn shared_by(rows: &[[u8; 32]]) -> [u32; 32]
    ensures { (b : Bytes) (node : ℕ) (words : List (ℕ × ℕ)) → AreRowsAt b node words rows.now
        → (i : ℕ) → i < 32 → slice_index result i ≡ min (shared_in b node i words) most }
{
    let mut counts = [0; 32];
    for row in rows {
        add_signs(&mut counts, row);
    }
    counts
}

// Whether an impact is above the byte at a slot of the row at a place. A row that isn't there has bytes of 0.
fn is_above(rows: &[[u8; 32]], at: usize, slot: usize, impact: u8) -> bool
    requires { slot < 32 }
    ensures { result ≡ nat_lt (slice_index (slice_index_or rows.now at []) slot) impact }
{
    match rows.get(at) {
        Some(row) => row[slot] < impact,
        None => 0 < impact,
    }
}

/// Returns the words of an entry whose impact is above their byte at a slot of a node, with their impacts, by the node's row for each
/// of the words. To raise the slot by these is to raise it by all of `words`.
///
/// Returns `Memory` if it runs out of memory. Looks at no page.
pub fn rising(
    alloc: Global,
    slot: usize,
    words: &[(u64, u8)],
    rows: &[[u8; 32]],
) -> Result<Vec<(u64, u8)>, PageFault>
    requires { slot < 32 }
    ensures raised { (b : Bytes) (node : ℕ) → AreRowsAt b node words.now rows.now
        → IfOk result (λ rising. (n w i : ℕ) → raised node slot (impact_in rising.items) b n w i ≡ raised node slot (impact_in words.now) b n w i) }
    ensures only { (b : Bytes) (node : ℕ) → AreRowsAt b node words.now rows.now
        → IfOk result (λ rising. rising.items ≡ filter (rises b node slot) words.now) }
    ensures memory { IfErr result (λ fault. fault ≡ PageFault.Memory) }
{
    let mut rising = Vec::new(alloc);
    for at in 0..words.len() {
        let pair = words[at];
        if is_above(rows, at, slot, pair.1) {
            push_word(&mut rising, pair.0, pair.1)?;
        }
    }
    Ok(rising)
}
