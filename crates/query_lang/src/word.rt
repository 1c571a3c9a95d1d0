//! Reads the words of top, group and gather queries.
ghost use Rattle.std.specs.Prelude.{◌≡◌, ◌<◌, ◌+◌, ◌++◌, ◌∷◌, [], length, take, drop, slice_index, option_map, IfSome, IfOk, IfErr};
ghost use Rattle.line_tokens.specs.Seen.{seen};
ghost use Rattle.place_values.specs.Query.{IsTerms, IsWeights};
ghost use Rattle.query_lang.specs.Reader.{Answers};
ghost use Rattle.query_lang.specs.Word as spec;
ghost use Rattle.query_lang.specs.Word.{word_of, term_of, at_star, some_words};

use crate::number::number_in;
use crate::part::{next, token};
use line_tokens::Token;
use place_values::{TERMS_MAX, WEIGHT_MAX};
use query_replies::LineFault;
use std::alloc::Global;
use term_impacts::{Word, one_word};

// The most words after the first one.
const MORE: u8 = TERMS_MAX as u8 - 1;

// Whether a word is among these.
fn is_among(words: &[Word], word: &Word) -> bool
    ensures { result ≡ spec.is_among words.now word.now }
{
    words.contains(word)
}

// Whether a word is among the words of these terms.
fn is_term(terms: &[(Word, u8)], word: &Word) -> bool
    ensures { result ≡ spec.is_term terms.now word.now }
{
    terms.iter().any(|term| term.0 == *word)
}

// The one word of a text, which must differ from all of these.
fn new_word(alloc: Global, text: &str, named: &[Word]) -> Result<Word, LineFault>
    ensures { Answers (λ w. w) result (spec.word_in (spec.is_among named.now) text.now) }
{
    let Ok(found) = one_word(alloc, text) else {
        return Err(LineFault::Memory);
    };
    let Some(word) = found else {
        return Err(LineFault::Word);
    };
    if is_among(named, &word) {
        return Err(LineFault::Word);
    }
    Ok(word)
}

// The one word of a text, which must differ from the words of these terms.
fn new_term(alloc: Global, text: &str, named: &[(Word, u8)]) -> Result<Word, LineFault>
    ensures { Answers (λ w. w) result (spec.word_in (spec.is_term named.now) text.now) }
{
    let Ok(found) = one_word(alloc, text) else {
        return Err(LineFault::Memory);
    };
    let Some(word) = found else {
        return Err(LineFault::Word);
    };
    if is_term(named, &word) {
        return Err(LineFault::Word);
    }
    Ok(word)
}

// The word that a token names in a query whose words have no weights.
fn word(alloc: Global, token: &Token, named: &[Word]) -> Result<Word, LineFault>
    ensures { Answers (λ w. w) result (word_of named.now (seen token.now)) }
{
    match token {
        Token::Bare(text) => new_word(alloc, text, named),
        Token::Quoted(text) => new_word(alloc, text.as_str(), named),
        _ => Err(LineFault::Word),
    }
}

// The offset of the last `*`.
fn star(text: &[u8]) -> Option<usize>
    ensures within { IfSome result (λ at. (at < length text.now) × (slice_index text.now at ≡ 42)) }
    ensures parts { option_map (λ at. (take at text.now, drop (at + 1) text.now)) result ≡ at_star text.now }
{
    let mut at = text.len();
    while at > 0 {
        at -= 1;
        if text[at] == b'*' {
            return Some(at);
        }
    }
    None
}

// The term that a bare token names.
fn bare_term(alloc: Global, text: &str, named: &[(Word, u8)]) -> Result<(Word, u8), LineFault>
    ensures { Answers (λ t. (t.0, t.1)) result (spec.bare_term named.now text.now (at_star text.now)) }
{
    let Some(at) = star(text.as_bytes()) else {
        let word = new_term(alloc, text, named)?;
        return Ok((word, 1));
    };
    let (word, _) = text.split_at(at);
    let word = new_term(alloc, word, named)?;
    let weight = number_in(&text.as_bytes()[at + 1..], 1, WEIGHT_MAX as u16)?;
    Ok((word, weight as u8))
}

// The term that a quoted token names.
fn quoted_term(alloc: Global, text: &str, named: &[(Word, u8)]) -> Result<(Word, u8), LineFault>
    ensures { Answers (λ t. (t.0, t.1)) result (spec.unweighted (spec.word_in (spec.is_term named.now) text.now)) }
{
    let word = new_term(alloc, text, named)?;
    Ok((word, 1))
}

// The term that a token of a top query with weights names.
fn term(alloc: Global, token: &Token, named: &[(Word, u8)]) -> Result<(Word, u8), LineFault>
    ensures { Answers (λ t. (t.0, t.1)) result (term_of named.now (seen token.now)) }
{
    match token {
        Token::Bare(text) => bare_term(alloc, text, named),
        Token::Quoted(text) => quoted_term(alloc, text.as_str(), named),
        _ => Err(LineFault::Word),
    }
}

// The items with one more at the end.
fn pushed<T: Drop>(mut items: Vec<T>, item: T) -> Result<Vec<T>, LineFault>
    ensures items { IfOk result (λ more. more.items ≡ items.items ++ item ∷ []) }
    ensures memory { IfErr result (λ fault. fault ≡ LineFault.Memory) }
{
    items.push(item).map_err(|_| LineFault::Memory)?;
    Ok(items)
}

// These words and those that follow up to the end of the line, at most `left` more.
#[cycle(words)]
fn more_words(alloc: Global, left: u8, words: Vec<Word>, text: &str) -> Result<Vec<Word>, LineFault>
    ensures { Answers (λ words. words.items) result (spec.more_words word_of left words.items text.now) }
{
    let found = match token(alloc, text) {
        Ok(found) => found,
        Err(_) => return Err(LineFault::Memory),
    };
    let Some((token, rest)) = found else {
        return Ok(words);
    };
    if left == 0 {
        return Err(LineFault::Extra);
    }
    next_word(alloc, left - 1, words, &token, rest)
}

// These words, the one that a token names, and at most `left` more.
#[cycle(words)]
fn next_word(
    alloc: Global,
    left: u8,
    words: Vec<Word>,
    token: &Token,
    text: &str,
) -> Result<Vec<Word>, LineFault>
    ensures { Answers (λ words. words.items) result
        (spec.one_more word_of left words.items (seen token.now) text.now) }
{
    let word = match word(alloc, token, words.as_slice()) {
        Ok(word) => word,
        Err(fault) => return Err(fault),
    };
    let words = pushed(words, word)?;
    more_words(alloc, left, words, text)
}

/// Returns the 1 to 8 words of a query whose words have no weights, up to the end of the line.
pub(crate) fn words(alloc: Global, text: &str) -> Result<Vec<Word>, LineFault>
    ensures says { Answers (λ words. words.items) result (some_words word_of text.now) }
    ensures sound { IfOk result (λ words. IsTerms words.items) }
{
    let (token, text) = next(alloc, text)?;
    let first = word(alloc, &token, &[])?;
    let words = pushed(Vec::new(alloc), first)?;
    more_words(alloc, MORE, words, text)
}

// These terms and those that follow up to the end of the line, at most `left` more.
#[cycle(terms)]
fn more_terms(
    alloc: Global,
    left: u8,
    terms: Vec<(Word, u8)>,
    text: &str,
) -> Result<Vec<(Word, u8)>, LineFault>
    ensures { Answers (λ terms. terms.items) result (spec.more_words term_of left terms.items text.now) }
{
    let found = match token(alloc, text) {
        Ok(found) => found,
        Err(_) => return Err(LineFault::Memory),
    };
    let Some((token, rest)) = found else {
        return Ok(terms);
    };
    if left == 0 {
        return Err(LineFault::Extra);
    }
    next_term(alloc, left - 1, terms, &token, rest)
}

// These terms, the one that a token names, and at most `left` more.
#[cycle(terms)]
fn next_term(
    alloc: Global,
    left: u8,
    terms: Vec<(Word, u8)>,
    token: &Token,
    text: &str,
) -> Result<Vec<(Word, u8)>, LineFault>
    ensures { Answers (λ terms. terms.items) result
        (spec.one_more term_of left terms.items (seen token.now) text.now) }
{
    let term = match term(alloc, token, terms.as_slice()) {
        Ok(term) => term,
        Err(fault) => return Err(fault),
    };
    let terms = pushed(terms, term)?;
    more_terms(alloc, left, terms, text)
}

/// Returns the 1 to 8 words of a top query with their weights, up to the end of the line.
pub(crate) fn terms(alloc: Global, text: &str) -> Result<Vec<(Word, u8)>, LineFault>
    ensures says { Answers (λ terms. terms.items) result (some_words term_of text.now) }
    ensures sound { IfOk result (λ terms. IsWeights terms.items) }
{
    let (token, text) = next(alloc, text)?;
    let first = term(alloc, &token, &[])?;
    let terms = pushed(Vec::new(alloc), first)?;
    more_terms(alloc, MORE, terms, text)
}
