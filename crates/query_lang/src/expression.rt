//! Reads the expression of a filter.
ghost use Rattle.std.specs.Prelude.{◌≡◌, codes, Some, None, option_map, IfOk, IfErr};
ghost use Rattle.place_values.specs.Limits.{IsFilter};
ghost use Rattle.line_tokens.specs.Seen.{seen};
ghost use Rattle.line_tokens.specs.Token.{token_of};
ghost use Rattle.query_lang.specs.Expression as spec;
ghost use Rattle.query_lang.specs.Expression.{kind_of, behind_word, behind_kind, next_level, factor, conjunction, expression, plain_clause, filter_of, condition};
ghost use Rattle.query_lang.specs.Plain.{plain, plain_filter};
ghost use Rattle.query_lang.specs.Reader.{Answers, part, followed};

use crate::clause::{Clause, both, either, named, negated};
use crate::kind::{Kind, is_word, kind_in};
use crate::part::{end, next, token};
use line_tokens::Token;
use place_values::{EXPR_LEVELS_MAX, Expr};
use query_replies::LineFault;
use std::alloc::Global;

/// Returns the text after a bare word, if that word is the next token. Refuses only if memory runs out.
pub(crate) fn behind_word<'a>(
    alloc: Global,
    word: &str,
    text: &'a str,
) -> Result<Option<&'a str>, LineFault>
    ensures says { IfOk result (λ rest. option_map (λ r. r.now) rest ≡ behind_word word.now (token_of text.now)) }
    ensures memory { IfErr result (λ fault. fault ≡ LineFault.Memory) }
{
    match token(alloc, text)? {
        Some((token, rest)) => {
            if is_word(&token, word) {
                Ok(Some(rest))
            } else {
                Ok(None)
            }
        }
        None => Ok(None),
    }
}

// The text after the closing parenthesis.
fn behind_closing(alloc: Global, text: &str) -> Result<&str, LineFault>
    ensures { Answers (λ rest. (tt {0}, rest.now)) result (part (λ token. spec.closing (kind_of token)) text.now) }
{
    let (token, text) = next(alloc, text)?;
    match kind_in(&token) {
        Kind::Close => Ok(text),
        _ => Err(LineFault::Expression),
    }
}

// A word, and the text after it.
fn named_at<'a>(
    alloc: Global,
    words: usize,
    name: &str,
    text: &'a str,
) -> Result<(Clause, &'a str), LineFault>
    ensures { Answers (λ got. (plain_clause got.0, got.1.now)) result (followed text.now (spec.named words name.now)) }
{
    let clause = named(alloc, words, name)?;
    Ok((clause, text))
}

// A clause, and the text after the parenthesis that closes it.
fn closed(alloc: Global, clause: Clause, text: &str) -> Result<(Clause, &str), LineFault>
    ensures { Answers (λ got. (plain_clause got.0, got.1.now)) result (spec.closed (plain_clause clause) text.now) }
{
    let rest = behind_closing(alloc, text)?;
    Ok((clause, rest))
}

// An F: `not` and an F, an E in parentheses, or a word.
#[cycle(grammar)]
fn factor(alloc: Global, levels: u8, words: usize, text: &str) -> Result<(Clause, &str), LineFault>
    ensures { Answers (λ got. (plain_clause got.0, got.1.now)) result
        (factor levels words text.now) }
{
    let (token, rest) = match next(alloc, text) {
        Ok(read) => read,
        Err(fault) => return Err(fault),
    };
    factor_at(alloc, levels, words, &token, rest)
}

// The F that a token begins.
#[cycle(grammar)]
fn factor_at<'a>(
    alloc: Global,
    levels: u8,
    words: usize,
    token: &Token<'_>,
    text: &'a str,
) -> Result<(Clause, &'a str), LineFault>
    ensures { Answers (λ got. (plain_clause got.0, got.1.now)) result
        (behind_kind (next_level levels) words (kind_of (seen token.now)) text.now) }
{
    match kind_in(token) {
        Kind::Word(name) => named_at(alloc, words, name, text),
        Kind::Not => {
            if levels == 0 {
                return Err(LineFault::Expression);
            }
            denied(alloc, levels - 1, words, text)
        }
        Kind::Open => {
            if levels == 0 {
                return Err(LineFault::Expression);
            }
            enclosed(alloc, levels - 1, words, text)
        }
        Kind::Close => Err(LineFault::Expression),
        Kind::Other => Err(LineFault::Expression),
    }
}

// The negation of the F after `not`.
#[cycle(grammar)]
fn denied(alloc: Global, levels: u8, words: usize, text: &str) -> Result<(Clause, &str), LineFault>
    ensures { Answers (λ got. (plain_clause got.0, got.1.now)) result
        (spec.denied (factor levels) words text.now) }
{
    let (clause, rest) = match factor(alloc, levels, words, text) {
        Ok(read) => read,
        Err(fault) => return Err(fault),
    };
    let clause = negated(alloc, clause)?;
    Ok((clause, rest))
}

// An E, and the text after the parenthesis that closes it.
#[cycle(grammar)]
fn enclosed(
    alloc: Global,
    levels: u8,
    words: usize,
    text: &str,
) -> Result<(Clause, &str), LineFault>
    ensures { Answers (λ got. (plain_clause got.0, got.1.now)) result
        (spec.enclosed (factor levels) words text.now) }
{
    let (clause, rest) = match expression(alloc, levels, words, text) {
        Ok(read) => read,
        Err(fault) => return Err(fault),
    };
    closed(alloc, clause, rest)
}

// A T: an F, or several joined by `and`.
#[cycle(grammar)]
fn conjunction(
    alloc: Global,
    levels: u8,
    words: usize,
    text: &str,
) -> Result<(Clause, &str), LineFault>
    ensures { Answers (λ got. (plain_clause got.0, got.1.now)) result
        (conjunction (factor levels) words text.now) }
{
    let (one, rest) = match factor(alloc, levels, words, text) {
        Ok(read) => read,
        Err(fault) => return Err(fault),
    };
    more_factors(alloc, levels, 64, one, rest)
}

// The clause so far, and at most `left` more F, each after `and`.
#[cycle(grammar)]
fn more_factors(
    alloc: Global,
    levels: u8,
    left: u8,
    one: Clause,
    text: &str,
) -> Result<(Clause, &str), LineFault>
    ensures { Answers (λ got. (plain_clause got.0, got.1.now)) result
        (spec.more_joined left (codes "and") (factor levels) spec.both (plain_clause one) text.now) }
{
    if left == 0 {
        return Ok((one, text));
    }
    let behind = match behind_word(alloc, "and", text) {
        Ok(behind) => behind,
        Err(_) => return Err(LineFault::Memory),
    };
    let Some(rest) = behind else {
        return Ok((one, text));
    };
    joined_factor(alloc, levels, left - 1, one, rest)
}

// The clause so far joined to the next F, and at most `left` more after it.
#[cycle(grammar)]
fn joined_factor(
    alloc: Global,
    levels: u8,
    left: u8,
    one: Clause,
    text: &str,
) -> Result<(Clause, &str), LineFault>
    ensures { Answers (λ got. (plain_clause got.0, got.1.now)) result
        (spec.join_next left (codes "and") (factor levels) spec.both (plain_clause one) text.now) }
{
    let (other, rest) = match factor(alloc, levels, one.words, text) {
        Ok(read) => read,
        Err(fault) => return Err(fault),
    };
    let clause = both(alloc, one, other)?;
    more_factors(alloc, levels, left, clause, rest)
}

// An E: a T, or several joined by `or`.
#[cycle(grammar)]
fn expression(
    alloc: Global,
    levels: u8,
    words: usize,
    text: &str,
) -> Result<(Clause, &str), LineFault>
    ensures { Answers (λ got. (plain_clause got.0, got.1.now)) result
        (expression (factor levels) words text.now) }
{
    let (one, rest) = match conjunction(alloc, levels, words, text) {
        Ok(read) => read,
        Err(fault) => return Err(fault),
    };
    more_conjunctions(alloc, levels, 64, one, rest)
}

// The clause so far, and at most `left` more T, each after `or`.
#[cycle(grammar)]
fn more_conjunctions(
    alloc: Global,
    levels: u8,
    left: u8,
    one: Clause,
    text: &str,
) -> Result<(Clause, &str), LineFault>
    ensures { Answers (λ got. (plain_clause got.0, got.1.now)) result
        (spec.more_joined left (codes "or") (conjunction (factor levels)) spec.either (plain_clause one) text.now) }
{
    if left == 0 {
        return Ok((one, text));
    }
    let behind = match behind_word(alloc, "or", text) {
        Ok(behind) => behind,
        Err(_) => return Err(LineFault::Memory),
    };
    let Some(rest) = behind else {
        return Ok((one, text));
    };
    joined_conjunction(alloc, levels, left - 1, one, rest)
}

// The clause so far joined to the next T, and at most `left` more after it.
#[cycle(grammar)]
fn joined_conjunction(
    alloc: Global,
    levels: u8,
    left: u8,
    one: Clause,
    text: &str,
) -> Result<(Clause, &str), LineFault>
    ensures { Answers (λ got. (plain_clause got.0, got.1.now)) result
        (spec.join_next left (codes "or") (conjunction (factor levels)) spec.either (plain_clause one) text.now) }
{
    let (other, rest) = match conjunction(alloc, levels, one.words, text) {
        Ok(read) => read,
        Err(fault) => return Err(fault),
    };
    let clause = either(alloc, one, other)?;
    more_conjunctions(alloc, levels, left, clause, rest)
}

// The E after `where`, up to the end of the line.
fn condition(alloc: Global, text: &str) -> Result<Expr, LineFault>
    ensures { Answers (λ expr. Some (plain expr)) result (condition text.now) }
{
    let (clause, text) = match expression(alloc, EXPR_LEVELS_MAX, 0, text) {
        Ok(read) => read,
        Err(fault) => return Err(fault),
    };
    end(alloc, text)?;
    let Clause { expr, words: _ } = clause;
    Ok(expr)
}

/// Returns the filter that `where` begins, up to the end of the line, or `None` if the line ends. A filter is within the limits.
pub(crate) fn filter(alloc: Global, text: &str) -> Result<Option<Expr>, LineFault>
    ensures says { Answers plain_filter result (filter_of text.now) }
    ensures sound { IfOk result IsFilter }
{
    let found = match token(alloc, text) {
        Ok(found) => found,
        Err(_) => return Err(LineFault::Memory),
    };
    let Some((token, rest)) = found else {
        return Ok(None);
    };
    if is_word(&token, "where") {
        some_filter(alloc, rest)
    } else {
        Err(LineFault::Extra)
    }
}

// The filter after `where`.
fn some_filter(alloc: Global, text: &str) -> Result<Option<Expr>, LineFault>
    ensures { Answers plain_filter result (condition text.now) }
{
    let expr = condition(alloc, text)?;
    Ok(Some(expr))
}
