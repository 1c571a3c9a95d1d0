//! The words by number.
ghost use Rattle.std.specs.Prelude.{◌≡◌, ◌≢◌, ◌<◌, ◌≤◌, ◌+◌, ◌*◌, ℕ, List, [], Some, IfSome, IfOk, OnOk, OnErr, IsErrOf, Err, slice_index_or};
ghost use Rattle.page_face.specs.Calls.{FailsReading, Reads};
ghost use Rattle.page_face.specs.declared.fault.Damage.{Damage};
ghost use Rattle.row_codec.specs.declared.counted.Counted.{Counted as CountedRow};
ghost use Rattle.btree_nodes.specs.Damages.{AreReadable};
ghost use Rattle.btree_nodes.specs.Tree.{map_uses};
ghost use Rattle.page_walks.specs.Met.{held, Meets};
ghost use Rattle.page_walks.specs.Misuse.{AreUsedOnce};
ghost use Rattle.page_walks.specs.Maps.{IsBadMap};
ghost use Rattle.store_tables.specs.Holding.{HoldsNumbers};
ghost use Rattle.store_verify.specs.Breaks.{BreaksNumberRow};
ghost use Rattle.page_face.specs.Nodes.{count_of};
ghost use Rattle.page_face.specs.Number.{number};
ghost use Rattle.btree_nodes.specs.Nodes.{IsLeaf, rows_in};
ghost use Rattle.row_codec.specs.Counted.{IsCounted, counted_value};
ghost use Rattle.store_tables.specs.Coded.{IsEntryOf, IsU64, row_by, number_code};
ghost use Rattle.store_tables.specs.Holding.{numbers_form};

use crate::layouts::Numbers;
use crate::parts::part;
use page_face::{Damage, Page, PageFault, Pages, Rule};
use page_walks::{Check, Refusal, Sink};
use paged_map::PagedMap;
use row_codec::{Counted, number_of_bytes};
use std::alloc::Global;
use std::collections::BTreeSet;

// Decodes a number and its word, with how many places hold it. Returns `None` exactly if the bytes are no word's.
fn numbered_of_bytes(key: &[u8; 8], value: &[u8; 37]) -> Option<(u64, Counted)>
    ensures form { IfSome result (λ entry. IsEntryOf IsU64 IsCounted entry × (number key.now ≡ number_code entry.0) × (value.now ≡ counted_value entry.1)) }
    ensures every { (entry : ℕ × CountedRow) → IsEntryOf IsU64 IsCounted entry → number key.now ≡ number_code entry.0 → value.now ≡ counted_value entry.1 → result ≡ Some entry }
{
    Some((number_of_bytes(key), Counted::decode(value)?))
}

// Decodes a row of a leaf of the words by number. Returns `None` exactly if it is no word's.
fn numbered_at(page: &Page, at: usize) -> Option<(u64, Counted)>
    requires sound { IsLeaf numbers_form 1 page.now }
    requires within { at < count_of page.now }
    ensures form { IfSome result (λ entry. IsEntryOf IsU64 IsCounted entry × (slice_index_or (rows_in numbers_form page.now) at (0, []) ≡ row_by number_code counted_value entry)) }
    ensures every { (entry : ℕ × CountedRow) → IsEntryOf IsU64 IsCounted entry → slice_index_or (rows_in numbers_form page.now) at (0, []) ≡ row_by number_code counted_value entry → result ≡ Some entry }
{
    let from = 16 + 45 * at;
    let mut key = [0; 8];
    key.copy_from_slice(part(page, from, 8));
    let mut value = [0; 37];
    value.copy_from_slice(part(page, from + 8, 37));
    numbered_of_bytes(&key, &value)
}

// Gathers the words by number, with how many places hold each, in the order of the numbers.
#[derive(Drop)]
struct NumberSink {
    // The rows taken so far.
    rows: Vec<(u64, Counted)>,
}

impl Sink for NumberSink {
    ghost use Rattle.row_codec.specs.Counted.{IsCounted, counted_value};
    ghost use Rattle.btree_nodes.specs.Nodes.{rows_in};
    ghost use Rattle.store_tables.specs.Coded.{IsU64, number_code};
    ghost use Rattle.store_tables.specs.Holding.{numbers_form};
    ghost use Rattle.store_verify.specs.Breaks.{BreaksNumberRow};
    ghost use Rattle.store_verify.specs.Gains.{AreRowsOf, Gains};
    ghost use Rattle.store_verify.specs.Laws.{gains-none, gains-more, rows-apart};

    ghost form = { numbers_form };

    ghost takes = { λ before rows after. Gains number_code counted_value IsU64 IsCounted rows before.rows.items after.rows.items };

    ghost good = { λ page. AreRowsOf number_code counted_value IsU64 IsCounted (rows_in numbers_form page) };

    ghost breaks = { BreaksNumberRow };

    ghost apart = { λ rule page breaks good. rows-apart number_code counted_value IsU64 IsCounted numbers_form rule page breaks good };

    ghost takes_none = { λ s. gains-none number_code counted_value IsU64 IsCounted s.rows.items };

    ghost takes_more = { λ a b c rows more first then. gains-more number_code counted_value IsU64 IsCounted rows more a.rows.items b.rows.items c.rows.items first then };

    fn leaf(&mut self, page: &Page, count: usize) -> Result<(), Refusal> {
        for at in 0..count {
            match numbered_at(page, at) {
                Some(row) => {
                    if self.rows.push(row).is_err() {
                        return Err(Refusal::Memory);
                    }
                }
                None => return Err(Refusal::Breaks(Rule::Value)),
            }
        }
        Ok(())
    }
}

/// Walks the words by number below a root. Returns each number with its word and how many places hold it, in the order of the numbers, or
/// why the table is damaged.
///
/// A damage is a page of the table and a rule that it breaks: one of `Link` to `Level`, or `Shared` for a page that the table uses twice
/// or that was in `seen`, or `Value` for a leaf with a row that is no word's. It is returned exactly if there is one. Otherwise `seen` has
/// gained exactly the table's pages. After any other end it may have gained some of them. Returns `Disk`, `Stopped` or `Memory` as a look
/// at a page does, and `Memory` too if there is none for the rows.
///
/// Looks once at each page of the table, and at no other. Takes memory for a number a page and for each row.
pub fn numbers_of<P: Pages>(
    alloc: Global,
    pages: &mut P,
    root: u32,
    seen: &mut BTreeSet<u32>,
) -> Result<Result<Vec<(u64, Counted)>, Damage>, PageFault>
    ensures holds { AreReadable (P.pages pages.old) (P.count pages.old)
        → IfOk result (λ found. IfOk found (λ rows. HoldsNumbers (P.pages pages.old) root rows.items)) }
    ensures once { AreReadable (P.pages pages.old) (P.count pages.old)
        → IfOk result (λ found. OnOk found (AreUsedOnce (P.count pages.old) (held seen.old) (map_uses numbers_form (P.pages pages.old) root))) }
    ensures gains { AreReadable (P.pages pages.old) (P.count pages.old)
        → IfOk result (λ found. OnOk found ((n : ℕ) → held seen.new n ≡ held seen.old n + map_uses numbers_form (P.pages pages.old) root n)) }
    ensures damaged { AreReadable (P.pages pages.old) (P.count pages.old)
        → IfOk result (λ found. (damage : Damage) → IsErrOf found damage
        → IsBadMap BreaksNumberRow numbers_form (P.pages pages.old) (P.count pages.old) (held seen.old) root damage) }
    ensures exact { AreReadable (P.pages pages.old) (P.count pages.old)
        → IfOk result (λ found. OnErr found ((entries : List (ℕ × CountedRow)) → HoldsNumbers (P.pages pages.old) root entries
        → ¬ AreUsedOnce (P.count pages.old) (held seen.old) (map_uses numbers_form (P.pages pages.old) root))) }
    ensures meets { AreReadable (P.pages pages.old) (P.count pages.old)
        → Meets (map_uses numbers_form (P.pages pages.old) root) (P.asked pages.old) (P.asked pages.new) (held seen.old) (held seen.new) }
    ensures undamaged { (damage : Damage) → result ≢ Err (PageFault.Damaged damage) }
    ensures fails { FailsReading P.Pages pages.old pages.new result }
    ensures frame { Reads P.Pages pages.old pages.new }
{
    let map = PagedMap::<Numbers>::at(root);
    let mut sink = NumberSink {
        rows: Vec::new(alloc),
    };
    match map.check_into(pages, seen, &mut sink)? {
        Some(damage) => Ok(Err(damage)),
        None => Ok(Ok(sink.rows)),
    }
}
