//! The words that a batch puts, counted.
ghost use Rattle.std.specs.Prelude.{◌≡◌, ℕ, ◌+◌, ◌*◌, ◌≤◌, ◌<◌, ◌^◌, List, Bool, true, if◌then◌else◌, [], ◌∷◌, length, fold, IfOk, OnOk, OnErr};
ghost use Rattle.std.specs.Map.{keys_of};
ghost use Rattle.store_model.specs.Ahead.{AreCountedWords, place_count, puts_in, times_counted, word_count, words_put};
ghost use Rattle.table_updates.specs.Order.{behind, in_order};

use indexmap::IndexMap;
use page_face::PageFault;
use place_values::Update;
use std::alloc::Global;
use term_impacts::Word;

/// The words that updates put, each with how many updates put it, in the order in which they first appear.
///
/// Refuses `Memory`. Costs a look-up by hash for each word of each place, and a second one at each word's first appearance.
pub fn gather_words(alloc: Global, updates: &[Update]) -> Result<IndexMap<Word, u32>, PageFault>
    requires few { length updates.now ≤ 2 ^ 24 }
    ensures gathered { IfOk result (λ counts. (has : List ℕ → Bool) → times_counted has counts.entries ≡ word_count has updates.now) }
    ensures counted { IfOk result (λ counts. AreCountedWords counts.entries) }
    ensures order { IfOk result (λ counts. keys_of counts.entries ≡ in_order updates.now) }
    ensures few { IfOk result (λ counts. times_counted (λ word. true) counts.entries ≤ 64 * puts_in updates.now) }
    ensures memory { OnErr result (result ≡ Err PageFault.Memory) }
{
    let mut counts = IndexMap::new(alloc);
    let mut left = updates;
    while let Some((update, rest)) = left.split_first() {
        count_update(update, &mut counts)?;
        left = rest;
    }
    Ok(counts)
}

// Adds one to the count of each word that an update puts.
fn count_update(update: &Update, counts: &mut IndexMap<Word, u32>) -> Result<(), PageFault>
    requires counted { AreCountedWords counts.old.entries }
    requires room { times_counted (λ word. true) counts.old.entries + 64 < 2 ^ 32 }
    ensures counted { OnOk result (AreCountedWords counts.new.entries) }
    ensures more { OnOk result ((has : List ℕ → Bool) → times_counted has counts.new.entries ≡ times_counted has counts.old.entries + place_count has (words_put update.now)) }
    ensures order { OnOk result (keys_of counts.new.entries ≡ fold behind (keys_of counts.old.entries) (keys_of (words_put update.now))) }
    ensures few { OnOk result (times_counted (λ word. true) counts.new.entries ≤ times_counted (λ word. true) counts.old.entries + 64 * puts_in (update.now ∷ [])) }
    ensures memory { OnErr result (result ≡ Err PageFault.Memory) }
{
    match update {
        Update::Put { words, .. } => count_words(words.pairs(), counts),
        Update::Remove { .. } => Ok(()),
    }
}

// Adds one to the count of each of these words.
fn count_words(words: &[(Word, u8)], counts: &mut IndexMap<Word, u32>) -> Result<(), PageFault>
    requires counted { AreCountedWords counts.old.entries }
    requires room { times_counted (λ word. true) counts.old.entries + length words.now < 2 ^ 32 }
    ensures counted { OnOk result (AreCountedWords counts.new.entries) }
    ensures more { OnOk result ((has : List ℕ → Bool) → times_counted has counts.new.entries ≡ times_counted has counts.old.entries + place_count has words.now) }
    ensures order { OnOk result (keys_of counts.new.entries ≡ fold behind (keys_of counts.old.entries) (keys_of words.now)) }
    ensures memory { OnErr result (result ≡ Err PageFault.Memory) }
{
    let Some(((word, _), rest)) = words.split_first() else {
        return Ok(());
    };
    count_word(word, counts)?;
    count_words(rest, counts)
}

// Adds one to the count of a word.
fn count_word(word: &Word, counts: &mut IndexMap<Word, u32>) -> Result<(), PageFault>
    requires counted { AreCountedWords counts.old.entries }
    requires room { times_counted (λ word. true) counts.old.entries + 1 < 2 ^ 32 }
    ensures counted { OnOk result (AreCountedWords counts.new.entries) }
    ensures more { OnOk result ((has : List ℕ → Bool) → times_counted has counts.new.entries ≡ times_counted has counts.old.entries + (if has word.now then 1 else 0)) }
    ensures order { OnOk result (keys_of counts.new.entries ≡ behind (keys_of counts.old.entries) word.now) }
    ensures memory { OnErr result (result ≡ Err PageFault.Memory) }
{
    if let Some(at) = counts.get_index_of(word) {
        counts[at] += 1;
        return Ok(());
    }
    match counts.insert(*word, 1) {
        Ok(_) => Ok(()),
        Err(_) => Err(PageFault::Memory),
    }
}
