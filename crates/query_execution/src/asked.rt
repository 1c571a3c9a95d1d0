//! The words that a query asks about.
ghost use Rattle.std.specs.Prelude.{◌≡◌, ◌++◌, ℕ, List, IfOk, OnOk};
ghost use Rattle.std.specs.List.{Contains};
ghost use Rattle.std.specs.List.Sorted.{IsStrictlySortedBy};
ghost use Rattle.store_tables.specs.Entries.{word_cmp};
ghost use Rattle.query_execution.specs.Asked.{words_in, words_by, words_of, asked_in};

use place_values::{Expr, Query};
use std::alloc::{AllocError, Global};
use term_impacts::Word;

// Adds the words of an expression, from the left.
fn add_words(filter: &Expr, words: &mut Vec<Word>) -> Result<(), AllocError>
    ensures { OnOk result (words.new.items ≡ words.old.items ++ words_in filter.now) }
{
    match filter {
        Expr::Has(word) => {
            words.push(*word)?;
            Ok(())
        }
        Expr::Not(one) => add_words(one, words),
        Expr::And(one, other) => {
            add_words(one, words)?;
            add_words(other, words)
        }
        Expr::Or(one, other) => {
            add_words(one, words)?;
            add_words(other, words)
        }
    }
}

// Adds the words of a filter, if there is one.
fn add_filter(filter: &Option<Expr>, words: &mut Vec<Word>) -> Result<(), AllocError>
    ensures { OnOk result (words.new.items ≡ words.old.items ++ words_by filter.now) }
{
    match filter {
        Some(filter) => add_words(filter, words),
        None => Ok(()),
    }
}

// Adds weighed words.
fn add_terms(terms: &[(Word, u8)], words: &mut Vec<Word>) -> Result<(), AllocError>
    ensures { OnOk result (words.new.items ≡ words.old.items ++ words_of terms.now) }
{
    for (word, _) in terms {
        words.push(*word)?;
    }
    Ok(())
}

// Adds words without weights.
fn add_plain(plain: &[Word], words: &mut Vec<Word>) -> Result<(), AllocError>
    ensures { OnOk result (words.new.items ≡ words.old.items ++ plain.now) }
{
    for word in plain {
        words.push(*word)?;
    }
    Ok(())
}

// Adds the words of a query, in the order in which it has them.
fn add_asked(query: &Query, words: &mut Vec<Word>) -> Result<(), AllocError>
    ensures { OnOk result (words.new.items ≡ words.old.items ++ asked_in query.now) }
{
    match query {
        Query::Range { filter, .. } => add_filter(filter, words),
        Query::Inside { filter, .. } => add_filter(filter, words),
        Query::Nearest { filter, .. } => add_filter(filter, words),
        Query::Top { words: terms, .. } => add_terms(terms.as_slice(), words),
        Query::Rare { words: plain, .. } => add_plain(plain.as_slice(), words),
        Query::Group { words: plain, .. } => add_plain(plain.as_slice(), words),
        Query::Gather { words: plain, .. } => add_plain(plain.as_slice(), words),
    }
}

// Some words in ascending order, each once.
fn in_order(mut words: Vec<Word>) -> Vec<Word>
    ensures ascending { IsStrictlySortedBy word_cmp result.items }
    ensures every { (word : List ℕ) → Contains words.items word → Contains result.items word }
{
    words.sort_unstable();
    words.dedup();
    words
}

/// The words that a query asks about, in ascending order, each once.
pub(crate) fn asked_words(alloc: Global, query: &Query) -> Result<Vec<Word>, AllocError>
    ensures ascending { IfOk result (λ words. IsStrictlySortedBy word_cmp words.items) }
    ensures every { IfOk result (λ words. (word : List ℕ) → Contains (asked_in query.now) word → Contains words.items word) }
{
    let mut words = Vec::new(alloc);
    add_asked(query, &mut words)?;
    Ok(in_order(words))
}
