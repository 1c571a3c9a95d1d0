//! The words by text and by number, and how many places hold each.
ghost use Rattle.std.specs.Prelude.{◌≡◌, ◌↔◌, ◌<◌, ◌≤◌, ℕ, drop, map, length, slice_index, All, IsTrue, IfOk};
ghost use Rattle.std.specs.List.Sorted.{IsNonDecreasing, IsNonDecreasingBy, IsPermutation, IsStrictlySortedBy};
ghost use Rattle.std.specs.Map.{keys_of};
ghost use Rattle.std.specs.Ordering.{nat_cmp};
ghost use Rattle.row_codec.specs.declared.counted.Counted.{Counted as CountedRow};
ghost use Rattle.store_tables.specs.Entries.{word_cmp};
ghost use Rattle.store_tables.specs.Words.{WordTablesAgree};
ghost use Rattle.store_verify.specs.Words.{AreBelow, AreCounted, AreInverse, HaveAPlace, Named, named, number_times, spread, turned};

use row_codec::Counted;
use std::alloc::{AllocError, Global};
use term_impacts::Word;

// The words by text, the other way round.
fn turn(alloc: Global, texts: &[(Word, u64)]) -> Result<Vec<(u64, Word)>, AllocError>
    ensures { IfOk result (λ rows. rows.items ≡ map turned texts.now) }
{
    texts.iter().map(|row| (row.1, row.0)).collect(alloc)
}

// The words by text, the other way round, in the order of their numbers.
fn by_number(alloc: Global, texts: &[(Word, u64)]) -> Result<Vec<(u64, Word)>, AllocError>
    ensures moved { IfOk result (λ rows. IsPermutation (map turned texts.now) rows.items) }
    ensures sorted { IfOk result (λ rows. IsNonDecreasingBy (λ (row : Named). row.0) rows.items) }
{
    let mut rows = turn(alloc, texts)?;
    rows.sort()?;
    Ok(rows)
}

// The words by number, without how many places hold them.
fn names(alloc: Global, numbers: &[(u64, Counted)]) -> Result<Vec<(u64, Word)>, AllocError>
    ensures { IfOk result (λ rows. rows.items ≡ map named numbers.now) }
{
    numbers.iter().map(|row| (row.0, row.1.word)).collect(alloc)
}

// Whether both have the same rows.
fn are_same(rows: &[(u64, Word)], others: &[(u64, Word)]) -> bool
    ensures { IsTrue result ↔ (rows.now ≡ others.now) }
{
    rows == others
}

/// Whether the words by text and the words by number are each other's inverse.
fn are_inverse(
    alloc: Global,
    texts: &[(Word, u64)],
    numbers: &[(u64, Counted)],
) -> Result<bool, AllocError>
    ensures { IsStrictlySortedBy word_cmp (keys_of texts.now) → IsStrictlySortedBy nat_cmp (keys_of numbers.now)
        → IfOk result (λ agree. IsTrue agree ↔ AreInverse texts.now numbers.now) }
{
    let back = by_number(alloc, texts)?;
    let names = names(alloc, numbers)?;
    Ok(are_same(&back, &names))
}

// The numbers from a place on.
fn from_place(held: &[u64], at: usize) -> &[u64]
    requires { at ≤ length held.now }
    ensures { result.now ≡ drop at held.now }
{
    &held[at..]
}

// How many of the numbers come before the first one that isn't this one.
fn run_of(held: &[u64], number: u64) -> usize
    ensures within { result ≤ length held.now }
    ensures same { (k : ℕ) → k < result → slice_index held.now k ≡ number }
    ensures other { result < length held.now → slice_index held.now result ≡ number → ⊥ }
{
    for (at, n) in held.iter().enumerate() {
        if *n != number {
            return at;
        }
    }
    held.len()
}

// Whether numbers in order are those of the rows, each as often as places hold its word, and at least once.
fn are_counts(numbers: &[(u64, Counted)], held: &[u64]) -> bool
    ensures { IsStrictlySortedBy nat_cmp (keys_of numbers.now) → (IsTrue result ↔ ((held.now ≡ spread numbers.now) × HaveAPlace numbers.now)) }
{
    let mut at = 0;
    for row in numbers {
        let run = run_of(from_place(held, at), row.0);
        if run == 0 || run != row.1.places as usize {
            return false;
        }
        at += run;
    }
    at == held.len()
}

// Whether each word has as many places as its number is often in the list, which is put in order, and at least one.
fn are_held(numbers: &[(u64, Counted)], held: &mut [u64]) -> bool
    ensures { IsStrictlySortedBy nat_cmp (keys_of numbers.now) → (IsTrue result ↔ AreCounted (number_times held.old) numbers.now) }
{
    held.sort_unstable();
    are_counts(numbers, held)
}

// Whether each number is below the next one.
fn are_below(numbers: &[(u64, Counted)], next_word: u64) -> bool
    ensures { IsTrue result ↔ AreBelow next_word numbers.now }
{
    for row in numbers {
        if row.0 >= next_word {
            return false;
        }
    }
    true
}

/// Whether the word tables agree with each other and with the places, whose words have the numbers `held`.
///
/// They agree if the words by text and by number are each other's inverse, each count of places is how often its number is in `held`,
/// no count is 0, each number of `held` has a word, and each number is below `next_word`. It says so if the rows are in the order of their
/// keys. `held` has a number for each word of each place, in any order, and is left in order. The call takes 96 bytes a word.
pub fn words_agree(
    alloc: Global,
    texts: &[(Word, u64)],
    numbers: &[(u64, Counted)],
    held: &mut [u64],
    next_word: u64,
) -> Result<bool, AllocError>
    ensures { IsStrictlySortedBy word_cmp (keys_of texts.now) → IsStrictlySortedBy nat_cmp (keys_of numbers.now)
        → IfOk result (λ agree. IsTrue agree ↔ WordTablesAgree (number_times held.old) texts.now numbers.now next_word) }
{
    if !are_inverse(alloc, texts, numbers)? {
        return Ok(false);
    }
    if !are_held(numbers, held) {
        return Ok(false);
    }
    Ok(are_below(numbers, next_word))
}
