//! The next row of a node, read ahead.
ghost use Rattle.std.specs.Prelude.{◌≡◌, ◌+◌, ◌<◌, ◌≤◌, ℕ, OnOk, IsErrOf, slice_index};
ghost use Rattle.page_face.specs.Calls.{Reads, FailsReading};
ghost use Rattle.btree_nodes.specs.Damages.{AreReadable, AsksOnly};
ghost use Rattle.btree_nodes.specs.Tree.{IsMap, map_uses};
ghost use Rattle.paged_map.specs.Maps.{AreCounted};
ghost use Rattle.rtree_nodes.specs.Stock.{rows_form};
ghost use Rattle.node_rows.specs.Damages.{IsRowsHarm};
ghost use Rattle.node_rows.specs.Rows.{Bytes, bytes_in};
ghost use Rattle.node_rows.specs.Turns.{Next};
ghost use Rattle.node_rows.specs.Copies.{IsCopy};
ghost use Rattle.node_rows.specs.Refreshing.{IsFrom, byte_ahead, is_due_at, lesser_of, word_of};

use node_rows::{LeafCopy, Tree, after, clear_row, next_in};
use page_face::{Damage, PageFault, Pages};

/// The first row of a node that wasn't gone through yet: its word's number and its bytes.
pub(crate) type Ahead = Option<(u64, [u8; 32])>;

// The word of the row that lies ahead.
fn word_ahead(ahead: &Ahead) -> Option<u64>
    ensures { result ≡ word_of ahead.now }
{
    match ahead {
        Some(row) => Some(row.0),
        None => None,
    }
}

// The lesser of two words.
fn lesser(a: Option<u64>, b: Option<u64>) -> Option<u64>
    ensures { result ≡ lesser_of a b }
{
    match (a, b) {
        (None, b) => b,
        (Some(a), None) => Some(a),
        (Some(a), Some(b)) => { if b < a { Some(b) } else { Some(a) } }
    }
}

/// The lesser word of two rows that lie ahead, or `None` if there is neither.
pub(crate) fn next_word(below: &Ahead, above: &Ahead) -> Option<u64>
    ensures { result ≡ lesser_of (word_of below.now) (word_of above.now) }
{
    lesser(word_ahead(below), word_ahead(above))
}

/// The bytes at a word: those of the row that lies ahead if it is that word's, and zeros otherwise.
pub(crate) fn row_ahead(ahead: &Ahead, number: u64) -> [u8; 32]
    ensures { (i : ℕ) → slice_index result i ≡ byte_ahead number ahead.now i }
{
    match ahead {
        Some(row) => { if row.0 == number { row.1 } else { clear_row() } }
        None => clear_row(),
    }
}

// Whether the row that lies ahead is that of this word or of one before it.
fn is_due(ahead: &Ahead, number: u64) -> bool
    ensures due { result ≡ is_due_at number ahead.now }
{
    match ahead {
        Some(row) => row.0 <= number,
        None => false,
    }
}

/// Reads the next row of a node, if the one that lies ahead is that of this word or of one before it. It is read out of a copy of a leaf.
pub(crate) fn pass<P: Pages>(
    pages: &mut P,
    tree: &Tree,
    node: u32,
    number: u64,
    ahead: &mut Ahead,
    copy: &mut LeafCopy,
) -> Result<(), PageFault>
    ensures ahead { (b : Bytes) (k : ℕ) → IsMap rows_form (P.pages pages.old) tree.now.rows → ((w i : ℕ) → number < w → bytes_in (P.pages pages.old) tree.now.rows node w i ≡ b node w i)
        → k ≤ number → Next b node k ahead.old → IsCopy b node copy.old → OnOk result (Next b node (number + 1) ahead.new × IsCopy b node copy.new) }
    ensures past { OnOk result (IsFrom (number + 1) ahead.new) }
    ensures no_false_damage { IsMap rows_form (P.pages pages.old) tree.now.rows → AreCounted (map_uses rows_form (P.pages pages.old) tree.now.rows) (P.count pages.old)
        → AreReadable (P.pages pages.old) (P.count pages.old) → (damage : Damage) → ¬ IsErrOf result (PageFault.Damaged damage) }
    ensures damaged { AreReadable (P.pages pages.old) (P.count pages.old) → (damage : Damage) → IsErrOf result (PageFault.Damaged damage)
        → IsRowsHarm (P.pages pages.new) (P.count pages.new) (P.first pages.new) tree.now.rows (P.asked pages.old) (P.asked pages.new) damage }
    ensures own { AreReadable (P.pages pages.old) (P.count pages.old)
        → AsksOnly (map_uses rows_form (P.pages pages.old) tree.now.rows) (P.asked pages.old) (P.asked pages.new) }
    ensures fails { FailsReading P.Pages pages.old pages.new result }
    ensures frame { Reads P.Pages pages.old pages.new }
{
    if !is_due(ahead, number) {
        return Ok(());
    }
    match after(number) {
        Some(from) => {
            let next = next_in(copy, pages, tree, node, from)?;
            *ahead = next;
            Ok(())
        }
        None => {
            *ahead = None;
            Ok(())
        }
    }
}
