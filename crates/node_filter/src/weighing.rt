//! The relevance of a node's slots to weighed words.
ghost use Rattle.std.specs.Prelude.{◌≡◌, ◌<◌, ◌≤◌, ◌+◌, ◌*◌, ◌^◌, ℕ, length, slice_index, false, nat_lt, ◌||◌, IfOk, OnOk};
ghost use Rattle.btree_nodes.specs.Tree.{IsMap};
ghost use Rattle.rtree_nodes.specs.Stock.{rows_form};
ghost use Rattle.node_rows.specs.Rows.{bytes_in};
ghost use Rattle.node_filter.specs.Masks.{has_slot};
ghost use Rattle.node_filter.specs.Numbers.{byte_of};
ghost use Rattle.node_filter.specs.Filters.{holds_by, relevance_by};
ghost use Rattle.node_filter.specs.Rows.{LooksAtRows};

use crate::Ids;
use crate::masks::above_zero;
use node_rows::{Tree, row};
use page_face::{PageFault, Pages};
use term_impacts::Word;

/// Slots of a node that hold one of some words, and the relevance of each slot to them.
#[derive(Clone, Copy, Debug, PartialEq, Eq)]
pub struct Marks {
    /// The slots, slot i at bit i.
    pub slots: u32,
    /// The relevance of each slot.
    pub texts: [u32; 32],
}

// A sum, and a weight times a byte.
fn more_weighed(sum: u32, weight: u8, byte: u8) -> u32
    ensures sum { sum + 65025 < 2 ^ 32 → result ≡ sum + weight * byte }
    ensures small { result ≤ sum + 65025 }
{
    sum.saturating_add(u32::from(weight) * u32::from(byte))
}

// Adds a word's bytes to the slots' sums, each times the word's weight.
fn add_weighed(sums: &mut [u32; 32], row: &[u8; 32], weight: u8)
    ensures sums { (i : ℕ) → i < 32 → slice_index sums.old i + 65025 < 2 ^ 32 → slice_index sums.new i ≡ slice_index sums.old i + weight * slice_index row.now i }
    ensures small { (i : ℕ) → slice_index sums.new i ≤ slice_index sums.old i + 65025 }
{
    for at in 0..32 {
        sums[at] = more_weighed(sums[at], weight, row[at]);
    }
}

// Marks the slots that hold a word, and adds its bytes to the relevances, each times the word's weight.
fn add_word<P: Pages>(
    pages: &mut P,
    tree: &Tree,
    ids: &Ids,
    node: u32,
    word: &Word,
    weight: u8,
    marks: &mut Marks,
) -> Result<(), PageFault>
    ensures slots { IsMap rows_form (P.pages pages.old) tree.now.rows
        → OnOk result ((i : ℕ) → i < 32 → has_slot marks.new.slots i ≡ (has_slot marks.old.slots i || nat_lt 0 (byte_of ids.now (bytes_in (P.pages pages.old) tree.now.rows node) i word.now))) }
    ensures texts { IsMap rows_form (P.pages pages.old) tree.now.rows
        → OnOk result ((i : ℕ) → i < 32 → slice_index marks.old.texts i + 65025 < 2 ^ 32
        → slice_index marks.new.texts i ≡ slice_index marks.old.texts i + weight * byte_of ids.now (bytes_in (P.pages pages.old) tree.now.rows node) i word.now) }
    ensures small { (i : ℕ) → slice_index marks.new.texts i ≤ slice_index marks.old.texts i + 65025 }
    ensures rows { LooksAtRows P.Pages tree.now.rows pages.old pages.new result }
{
    let Some(number) = ids.number(word) else {
        return Ok(());
    };
    match row(pages, tree, node, number) {
        Ok(bytes) => {
            marks.slots |= above_zero(&bytes);
            add_weighed(&mut marks.texts, &bytes, weight);
            Ok(())
        }
        Err(fault) => Err(fault),
    }
}

// The marks before any word: no slot is marked.
fn no_marks() -> Marks
    ensures slots { (i : ℕ) → has_slot result.slots i ≡ false }
    ensures texts { (i : ℕ) → slice_index result.texts i ≡ 0 }
{
    Marks {
        slots: 0,
        texts: [0; 32],
    }
}

/// Returns the slots of a node that hold one of some weighed words, and the relevance of each slot. The relevance is the sum of each word's
/// weight times the greatest impact of the word below the slot.
///
/// Looks at the node's row of each word that the store knows, and at no other page: a `row` a word.
///
/// Refuses `Damaged`, `Disk`, `Stopped` and `Memory` as `row` does.
pub fn relevances<P: Pages>(
    pages: &mut P,
    tree: &Tree,
    ids: &Ids,
    node: u32,
    words: &[(Word, u8)],
) -> Result<Marks, PageFault>
    requires { length words.now ≤ 8 }
    ensures slots { IsMap rows_form (P.pages pages.old) tree.now.rows
        → IfOk result (λ marks. (i : ℕ) → i < 32 → has_slot marks.slots i ≡ holds_by (byte_of ids.now (bytes_in (P.pages pages.old) tree.now.rows node) i) words.now) }
    ensures texts { IsMap rows_form (P.pages pages.old) tree.now.rows
        → IfOk result (λ marks. (i : ℕ) → i < 32 → slice_index marks.texts i ≡ relevance_by (byte_of ids.now (bytes_in (P.pages pages.old) tree.now.rows node) i) words.now) }
    ensures rows { LooksAtRows P.Pages tree.now.rows pages.old pages.new result }
{
    let mut marks = no_marks();
    for (word, weight) in words {
        match add_word(pages, tree, ids, node, word, *weight, &mut marks) {
            Ok(()) => {}
            Err(fault) => return Err(fault),
        }
    }
    Ok(marks)
}
