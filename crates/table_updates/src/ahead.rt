//! Words that are held before the places that hold them are put.
ghost use Rattle.std.specs.Prelude.{◌≡◌, ℕ, ◌≤◌, ◌+◌, ◌*◌, ◌^◌, List, [], length, OnOk, OnErr, IfOk, IsErrOf};
ghost use Rattle.std.specs.Str.{bytes_eq};
ghost use Rattle.indexmap.specs.IndexMap.{insert_entry};
ghost use Rattle.page_face.specs.Calls.{FailsChanging, Changes, TakesAtMost};
ghost use Rattle.btree_nodes.specs.Supply.{view};
ghost use Rattle.btree_nodes.specs.Damages.{AreReadable};
ghost use Rattle.store_tables.specs.Entries.{Entries};
ghost use Rattle.store_tables.specs.Holding.{Holds, IsApart, IsChanged};
ghost use Rattle.store_model.specs.Ahead.{CanHoldAhead, held_ahead};
ghost use Rattle.store_tables.specs.Broken.{SparesHead};

use indexmap::IndexMap;
use page_face::{Damage, PageFault, Pages};
use std::alloc::Global;
use store_tables::Tables;
use term_impacts::Word;

/// Adds for each word its count in `counts` to the places that hold it. Returns the number of each word.
///
/// The words are held one after another in the order of `counts`, so that new words take their numbers in that order.
///
/// Refuses as [`Tables::hold`] does, and `Memory`. After a refusal pages and the tables may have changed. Costs for each word, however
/// many places are to hold it, a look-up by text, a look-up by number, and one or two puts.
pub fn hold_words<P: Pages>(
    alloc: Global,
    pages: &mut P,
    tables: &mut Tables,
    counts: &IndexMap<Word, u32>,
) -> Result<IndexMap<Word, u64>, PageFault>
    requires next { tables.old.next_word + length counts.now.entries ≤ 2 ^ 63 }
    ensures held { (entries : Entries) (free : List ℕ) → Holds (P.pages pages.old) tables.old entries → IsApart (view (P.pages pages.old) (P.count pages.old) (P.first pages.old) free) tables.old
        → IfOk result (λ numbers. (numbers.entries ≡ (held_ahead counts.now.entries tables.old.next_word entries).numbers)
        × (tables.new.next_word ≡ (held_ahead counts.now.entries tables.old.next_word entries).next_word)
        × IsChanged (view (P.pages pages.old) (P.count pages.old) (P.first pages.old) free) tables.old
        (P.pages pages.new) (P.count pages.new) (P.first pages.new) tables.new (held_ahead counts.now.entries tables.old.next_word entries).entries) }
    ensures no_false_damage { (entries : Entries) (free : List ℕ) → Holds (P.pages pages.old) tables.old entries → IsApart (view (P.pages pages.old) (P.count pages.old) (P.first pages.old) free) tables.old
        → CanHoldAhead counts.now.entries (record { entries = entries; next_word = tables.old.next_word; numbers = [] })
        → AreReadable (P.pages pages.old) (P.count pages.old) → (damage : Damage) → ¬ IsErrOf result (PageFault.Damaged damage) }
    ensures rises { OnOk result (tables.new.next_word ≤ tables.old.next_word + length counts.now.entries) }
    ensures no_head { ((p : P) → AreReadable (P.pages p) (P.count p)) → SparesHead result }
    ensures at_most { TakesAtMost P.Pages (514 * length counts.now.entries) pages.old pages.new result }
    ensures fails { FailsChanging P.Pages pages.old pages.new result }
    ensures frame { Changes P.Pages pages.old pages.new }
{
    let mut numbers = IndexMap::new(alloc);
    for (word, places) in counts {
        let number = tables.hold(pages, word, *places)?;
        put_number(&mut numbers, word, number)?;
    }
    Ok(numbers)
}

// Maps a word to its number.
fn put_number(numbers: &mut IndexMap<Word, u64>, word: &Word, number: u64) -> Result<(), PageFault>
    ensures put { OnOk result (numbers.new.entries ≡ insert_entry bytes_eq numbers.old.entries word.now number) }
    ensures memory { OnErr result (result ≡ Err PageFault.Memory) }
{
    match numbers.insert(*word, number) {
        Ok(_) => Ok(()),
        Err(_) => Err(PageFault::Memory),
    }
}
