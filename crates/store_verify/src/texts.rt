//! The words by text.
ghost use Rattle.std.specs.Prelude.{◌≡◌, ◌≢◌, ◌<◌, ◌≤◌, ◌+◌, ◌*◌, ℕ, List, [], Some, IfSome, IfOk, OnOk, OnErr, IsErrOf, Err, slice_index_or};
ghost use Rattle.page_face.specs.Calls.{FailsReading, Reads};
ghost use Rattle.page_face.specs.declared.fault.Damage.{Damage};
ghost use Rattle.btree_nodes.specs.Damages.{AreReadable};
ghost use Rattle.btree_nodes.specs.Tree.{map_uses};
ghost use Rattle.page_walks.specs.Met.{held, Meets};
ghost use Rattle.page_walks.specs.Misuse.{AreUsedOnce};
ghost use Rattle.page_walks.specs.Maps.{IsBadMap};
ghost use Rattle.store_tables.specs.Holding.{HoldsTexts};
ghost use Rattle.store_verify.specs.Breaks.{BreaksTextRow};
ghost use Rattle.page_face.specs.Nodes.{count_of};
ghost use Rattle.page_face.specs.Number.{number};
ghost use Rattle.btree_nodes.specs.Nodes.{IsLeaf, rows_in};
ghost use Rattle.term_impacts.specs.Form.{IsWordText};
ghost use Rattle.row_codec.specs.Counted.{number_bytes as bytes_of_number};
ghost use Rattle.store_tables.specs.Coded.{IsEntryOf, IsU64, row_by, word_code};
ghost use Rattle.store_tables.specs.Holding.{texts_form};

use crate::layouts::Texts;
use crate::parts::part;
use page_face::{Damage, Page, PageFault, Pages, Rule};
use page_walks::{Check, Refusal, Sink};
use paged_map::PagedMap;
use row_codec::number_of_bytes;
use std::alloc::Global;
use std::collections::BTreeSet;
use term_impacts::Word;

// Decodes a word and its number. Returns `None` exactly if the bytes are no word's.
fn text_of_bytes(key: &[u8; 33], value: &[u8; 8]) -> Option<(Word, u64)>
    ensures form { IfSome result (λ entry. IsEntryOf IsWordText IsU64 entry × (number key.now ≡ word_code entry.0) × (value.now ≡ bytes_of_number entry.1)) }
    ensures every { (entry : List ℕ × ℕ) → IsEntryOf IsWordText IsU64 entry → number key.now ≡ word_code entry.0 → value.now ≡ bytes_of_number entry.1 → result ≡ Some entry }
{
    Some((Word::of_bytes(key)?, number_of_bytes(value)))
}

// Decodes a row of a leaf of the words by text. Returns `None` exactly if it is no word's.
fn text_at(page: &Page, at: usize) -> Option<(Word, u64)>
    requires sound { IsLeaf texts_form 1 page.now }
    requires within { at < count_of page.now }
    ensures form { IfSome result (λ entry. IsEntryOf IsWordText IsU64 entry × (slice_index_or (rows_in texts_form page.now) at (0, []) ≡ row_by word_code bytes_of_number entry)) }
    ensures every { (entry : List ℕ × ℕ) → IsEntryOf IsWordText IsU64 entry → slice_index_or (rows_in texts_form page.now) at (0, []) ≡ row_by word_code bytes_of_number entry → result ≡ Some entry }
{
    let from = 16 + 41 * at;
    let mut key = [0; 33];
    key.copy_from_slice(part(page, from, 33));
    let mut value = [0; 8];
    value.copy_from_slice(part(page, from + 33, 8));
    text_of_bytes(&key, &value)
}

// Gathers the words by text with their numbers, in the order of the words.
#[derive(Drop)]
struct TextSink {
    // The rows taken so far.
    rows: Vec<(Word, u64)>,
}

impl Sink for TextSink {
    ghost use Rattle.term_impacts.specs.Form.{IsWordText};
    ghost use Rattle.row_codec.specs.Counted.{number_bytes as bytes_of_number};
    ghost use Rattle.btree_nodes.specs.Nodes.{rows_in};
    ghost use Rattle.store_tables.specs.Coded.{IsU64, word_code};
    ghost use Rattle.store_tables.specs.Holding.{texts_form};
    ghost use Rattle.store_verify.specs.Breaks.{BreaksTextRow};
    ghost use Rattle.store_verify.specs.Gains.{AreRowsOf, Gains};
    ghost use Rattle.store_verify.specs.Laws.{gains-none, gains-more, rows-apart};

    ghost form = { texts_form };

    ghost takes = { λ before rows after. Gains word_code bytes_of_number IsWordText IsU64 rows before.rows.items after.rows.items };

    ghost good = { λ page. AreRowsOf word_code bytes_of_number IsWordText IsU64 (rows_in texts_form page) };

    ghost breaks = { BreaksTextRow };

    ghost apart = { λ rule page breaks good. rows-apart word_code bytes_of_number IsWordText IsU64 texts_form rule page breaks good };

    ghost takes_none = { λ s. gains-none word_code bytes_of_number IsWordText IsU64 s.rows.items };

    ghost takes_more = { λ a b c rows more first then. gains-more word_code bytes_of_number IsWordText IsU64 rows more a.rows.items b.rows.items c.rows.items first then };

    fn leaf(&mut self, page: &Page, count: usize) -> Result<(), Refusal> {
        for at in 0..count {
            match text_at(page, at) {
                Some(row) => {
                    if self.rows.push(row).is_err() {
                        return Err(Refusal::Memory);
                    }
                }
                None => return Err(Refusal::Breaks(Rule::Value)),
            }
        }
        Ok(())
    }
}

/// Walks the words by text below a root. Returns each word with its number, in the order of the words, or why the table is damaged.
///
/// A damage is a page of the table and a rule that it breaks: one of `Link` to `Level`, or `Shared` for a page that the table uses twice
/// or that was in `seen`, or `Value` for a leaf with a row that is no word's. It is returned exactly if there is one. Otherwise `seen` has
/// gained exactly the table's pages. After any other end it may have gained some of them. Returns `Disk`, `Stopped` or `Memory` as a look
/// at a page does, and `Memory` too if there is none for the rows.
///
/// Looks once at each page of the table, and at no other. Takes memory for a number a page and for each row.
pub fn texts_of<P: Pages>(
    alloc: Global,
    pages: &mut P,
    root: u32,
    seen: &mut BTreeSet<u32>,
) -> Result<Result<Vec<(Word, u64)>, Damage>, PageFault>
    ensures holds { AreReadable (P.pages pages.old) (P.count pages.old)
        → IfOk result (λ found. IfOk found (λ rows. HoldsTexts (P.pages pages.old) root rows.items)) }
    ensures once { AreReadable (P.pages pages.old) (P.count pages.old)
        → IfOk result (λ found. OnOk found (AreUsedOnce (P.count pages.old) (held seen.old) (map_uses texts_form (P.pages pages.old) root))) }
    ensures gains { AreReadable (P.pages pages.old) (P.count pages.old)
        → IfOk result (λ found. OnOk found ((n : ℕ) → held seen.new n ≡ held seen.old n + map_uses texts_form (P.pages pages.old) root n)) }
    ensures damaged { AreReadable (P.pages pages.old) (P.count pages.old)
        → IfOk result (λ found. (damage : Damage) → IsErrOf found damage
        → IsBadMap BreaksTextRow texts_form (P.pages pages.old) (P.count pages.old) (held seen.old) root damage) }
    ensures exact { AreReadable (P.pages pages.old) (P.count pages.old)
        → IfOk result (λ found. OnErr found ((entries : List (List ℕ × ℕ)) → HoldsTexts (P.pages pages.old) root entries
        → ¬ AreUsedOnce (P.count pages.old) (held seen.old) (map_uses texts_form (P.pages pages.old) root))) }
    ensures meets { AreReadable (P.pages pages.old) (P.count pages.old)
        → Meets (map_uses texts_form (P.pages pages.old) root) (P.asked pages.old) (P.asked pages.new) (held seen.old) (held seen.new) }
    ensures undamaged { (damage : Damage) → result ≢ Err (PageFault.Damaged damage) }
    ensures fails { FailsReading P.Pages pages.old pages.new result }
    ensures frame { Reads P.Pages pages.old pages.new }
{
    let map = PagedMap::<Texts>::at(root);
    let mut sink = TextSink {
        rows: Vec::new(alloc),
    };
    match map.check_into(pages, seen, &mut sink)? {
        Some(damage) => Ok(Err(damage)),
        None => Ok(Ok(sink.rows)),
    }
}
