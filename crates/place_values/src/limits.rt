// The limits of queries.
ghost use Rattle.std.specs.Prelude.{◌≡◌, ◌↔◌, ◌≤◌, ◌-◌, false, IsTrue, map, All, SomeIff};
ghost use Rattle.std.specs.List.{AllByRecursion, IsDistinct};
ghost use Rattle.std.specs.Str.{bytes_eq};
ghost use Rattle.place_values.specs.Forms.{form_seen};
ghost use Rattle.place_values.specs.Limits as limits;
ghost use Rattle.place_values.specs.Limits.{IsExpression, IsFilter, levels_as, words_in};
ghost use Rattle.place_values.specs.Query.{IsBlend, IsCount, IsTerms, IsWeight, IsWeights, IsWithinLimits};

use crate::{Expr, Query};
use spatial_base::SCALE_MAX;
use term_impacts::Word;

/// At this many live places or more, a new key is refused.
pub const PLACES_MAX: usize = 1_000_000;

/// The update number at which no further change is accepted.
pub const NUMBER_MAX: u64 = 1 << 40;

/// The greatest radius of a range query, in degrees times 10^7.
pub const RADIUS_MAX: u64 = 1_000_000_000_000;

/// The greatest reach of a top query, in degrees times 10^7. It is greater than the greatest distance.
pub const REACH_MAX: u64 = 4_024_922_359;

/// The most hits that a query may ask for.
pub const COUNT_MAX: u16 = 1000;

/// The greatest share of the distance in a cost, in thousandths.
pub const ALPHA_MAX: u16 = 1000;

/// The most words that a query may ask for.
pub const TERMS_MAX: usize = 8;

/// The greatest weight of a word.
pub const WEIGHT_MAX: u8 = 20;

/// The most words that a filter may have, repeats included.
pub const EXPR_WORDS_MAX: usize = 64;

/// The most levels of `not` and parentheses that a filter may need when it is written.
pub const EXPR_LEVELS_MAX: u8 = 32;

// How an expression is written: on its own, as an operand of `or`, or as an operand of `and`.
#[derive(Clone, Copy)]
enum Form {
    Whole,
    Term,
    Factor,
}

// How many levels the parentheses around an `or` need in this form.
fn around_or(form: Form) -> u8
    ensures { result ≡ limits.around_or (form_seen form) }
{
    match form {
        Form::Whole => 0,
        Form::Term | Form::Factor => 1,
    }
}

// How many levels the parentheses around an `and` need in this form.
fn around_and(form: Form) -> u8
    ensures { result ≡ limits.around_and (form_seen form) }
{
    match form {
        Form::Whole | Form::Term => 0,
        Form::Factor => 1,
    }
}

// How many of `left` words remain after those of an expression, or `None` if it has more than `left`.
fn words_left(expr: &Expr, left: usize) -> Option<usize>
    ensures { SomeIff result (words_in expr.now ≤ left) (left - words_in expr.now) }
{
    match expr {
        Expr::Has(_) => left.checked_sub(1),
        Expr::Not(one) => words_left(one, left),
        Expr::And(one, other) => words_left(other, words_left(one, left)?),
        Expr::Or(one, other) => words_left(other, words_left(one, left)?),
    }
}

// Whether an expression can be written in a form on at most `left` levels.
fn keeps_levels(expr: &Expr, form: Form, left: u8) -> bool
    ensures { IsTrue result ↔ (levels_as (form_seen form) expr.now ≤ left) }
{
    match expr {
        Expr::Has(_) => true,
        Expr::Not(one) => 1 <= left && keeps_levels(one, Form::Factor, left - 1),
        Expr::And(one, other) => {
            let around = around_and(form);
            around <= left
                && keeps_levels(one, Form::Term, left - around)
                && keeps_levels(other, Form::Factor, left - around)
        }
        Expr::Or(one, other) => {
            let around = around_or(form);
            around <= left
                && keeps_levels(one, Form::Whole, left - around)
                && keeps_levels(other, Form::Term, left - around)
        }
    }
}

// Whether an expression is within the limits.
fn is_expression(expr: &Expr) -> bool
    ensures { IsTrue result ↔ IsExpression expr.now }
{
    words_left(expr, EXPR_WORDS_MAX).is_some() && keeps_levels(expr, Form::Whole, EXPR_LEVELS_MAX)
}

// Whether a filter is within the limits.
fn is_filter(filter: &Option<Expr>) -> bool
    ensures { IsTrue result ↔ IsFilter filter.now }
{
    match filter {
        Some(expr) => is_expression(expr),
        None => true,
    }
}

// Whether a query may ask for this many hits.
fn is_count(k: u16) -> bool
    ensures { IsTrue result ↔ IsCount k }
{
    1 <= k && k <= COUNT_MAX
}

// Whether a top query may have this alpha and this reach.
fn is_blend(alpha: u16, reach: u64) -> bool
    ensures { IsTrue result ↔ IsBlend alpha reach }
{
    alpha <= ALPHA_MAX && 1 <= reach && reach <= REACH_MAX
}

// Whether a word differs from all the others.
fn is_new(word: &Word, others: &[Word]) -> bool
    ensures { IsTrue result ↔ AllByRecursion (λ other. bytes_eq word.now other ≡ false) others.now }
{
    match others.split_first() {
        Some((other, rest)) => word != other && is_new(word, rest),
        None => true,
    }
}

// Whether no two words are the same.
fn are_distinct(words: &[Word]) -> bool
    ensures { IsTrue result ↔ IsDistinct bytes_eq words.now }
{
    match words.split_first() {
        Some((word, others)) => is_new(word, others) && are_distinct(others),
        None => true,
    }
}

// Whether a query that gives no weights may have these words.
fn are_terms(words: &[Word]) -> bool
    ensures { IsTrue result ↔ IsTerms words.now }
{
    1 <= words.len() && words.len() <= TERMS_MAX && are_distinct(words)
}

// Whether a word differs from all the others, which have weights.
fn is_new_weighted(word: &Word, others: &[(Word, u8)]) -> bool
    ensures { IsTrue result ↔ AllByRecursion (λ other. bytes_eq word.now other ≡ false) (map (λ term. term.0) others.now) }
{
    match others.split_first() {
        Some((other, rest)) => *word != other.0 && is_new_weighted(word, rest),
        None => true,
    }
}

// Whether no two of these words, which have weights, are the same.
fn are_distinct_weighted(words: &[(Word, u8)]) -> bool
    ensures { IsTrue result ↔ IsDistinct bytes_eq (map (λ term. term.0) words.now) }
{
    match words.split_first() {
        Some((first, others)) => is_new_weighted(&first.0, others) && are_distinct_weighted(others),
        None => true,
    }
}

// Whether each weight is allowed.
fn have_weights(words: &[(Word, u8)]) -> bool
    ensures { IsTrue result ↔ All IsWeight words.now }
{
    words.iter().all(|term| 1 <= term.1 && term.1 <= WEIGHT_MAX)
}

// Whether a top query may have these words and weights.
fn are_weights(words: &[(Word, u8)]) -> bool
    ensures { IsTrue result ↔ IsWeights words.now }
{
    1 <= words.len()
        && words.len() <= TERMS_MAX
        && are_distinct_weighted(words)
        && have_weights(words)
}

impl Query {
    /// Returns whether the query is within the limits that `State::answer` requires:
    ///
    /// - a scale of longitudes of at most 1000,
    /// - a radius of at most 10^12,
    /// - 1 to 1000 hits,
    /// - an alpha of at most 1000 and a reach of 1 to 4,024,922,359,
    /// - 1 to 8 distinct words, with weights of 1 to 20,
    /// - a filter of at most 64 words that can be written on 32 levels of `not` and parentheses.
    ///
    /// It looks at each part of a filter at most twice, and stops at the first limit that is exceeded.
    pub fn is_within_limits(&self) -> bool
        ensures { IsTrue result ↔ IsWithinLimits self.now }
    {
        match self {
            Query::Range {
                scale,
                radius,
                filter,
                ..
            } => *scale <= SCALE_MAX && *radius <= RADIUS_MAX && is_filter(filter),
            Query::Inside { filter, .. } => is_filter(filter),
            Query::Nearest {
                scale,
                k,
                filter,
                ..
            } => *scale <= SCALE_MAX && is_count(*k) && is_filter(filter),
            Query::Top {
                scale,
                k,
                alpha,
                reach,
                words,
                ..
            } => {
                *scale <= SCALE_MAX
                    && is_count(*k)
                    && is_blend(*alpha, *reach)
                    && are_weights(words.as_slice())
            }
            Query::Rare {
                scale,
                k,
                alpha,
                reach,
                words,
                ..
            } => {
                *scale <= SCALE_MAX
                    && is_count(*k)
                    && is_blend(*alpha, *reach)
                    && are_terms(words.as_slice())
            }
            Query::Group { scale, words, .. } | Query::Gather { scale, words, .. } => {
                *scale <= SCALE_MAX && are_terms(words.as_slice())
            }
        }
    }
}
