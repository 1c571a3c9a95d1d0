//! Expressions while they are read.
ghost use Rattle.std.specs.Prelude.{◌≡◌, IfOk, IfErr};
ghost use Rattle.query_lang.specs.Expression as spec;
ghost use Rattle.query_lang.specs.Expression.{plain_clause};
ghost use Rattle.query_lang.specs.Reader.{Answers};

use place_values::{EXPR_WORDS_MAX, Expr};
use query_replies::LineFault;
use std::alloc::Global;
use term_impacts::one_word;

/// An expression, and how many words its filter has up to its end.
#[derive(Drop)]
pub(crate) struct Clause {
    pub expr: Expr,
    pub words: usize,
}

/// Returns a word as a clause, after `words` others. The 65th word is refused before it is looked at.
pub(crate) fn named(alloc: Global, words: usize, text: &str) -> Result<Clause, LineFault>
    ensures { Answers plain_clause result (spec.named words text.now) }
{
    if words >= EXPR_WORDS_MAX {
        return Err(LineFault::Expression);
    }
    let Ok(found) = one_word(alloc, text) else {
        return Err(LineFault::Memory);
    };
    match found {
        Some(word) => Ok(Clause {
            expr: Expr::Has(word),
            words: words + 1,
        }),
        None => Err(LineFault::Word),
    }
}

// Puts an expression in a box.
fn boxed(alloc: Global, expr: Expr) -> Result<Box<Expr>, LineFault>
    ensures value { IfOk result (λ b. b.value ≡ expr) }
    ensures memory { IfErr result (λ fault. fault ≡ LineFault.Memory) }
{
    Box::new(alloc, expr).map_err(|_| LineFault::Memory)
}

/// Returns the negation of a clause.
pub(crate) fn negated(alloc: Global, clause: Clause) -> Result<Clause, LineFault>
    ensures value { IfOk result (λ c. plain_clause c ≡ spec.negated (plain_clause clause)) }
    ensures memory { IfErr result (λ fault. fault ≡ LineFault.Memory) }
{
    let Clause { expr, words } = clause;
    let expr = Expr::Not(boxed(alloc, expr)?);
    Ok(Clause { expr, words })
}

/// Returns the clause that needs both of two clauses.
pub(crate) fn both(alloc: Global, one: Clause, other: Clause) -> Result<Clause, LineFault>
    ensures value { IfOk result (λ c. plain_clause c ≡ spec.both (plain_clause one) (plain_clause other)) }
    ensures memory { IfErr result (λ fault. fault ≡ LineFault.Memory) }
{
    let Clause {
        expr: left,
        words: _,
    } = one;
    let Clause { expr: right, words } = other;
    let left = boxed(alloc, left)?;
    let right = boxed(alloc, right)?;
    Ok(Clause {
        expr: Expr::And(left, right),
        words,
    })
}

/// Returns the clause that needs at least one of two clauses.
pub(crate) fn either(alloc: Global, one: Clause, other: Clause) -> Result<Clause, LineFault>
    ensures value { IfOk result (λ c. plain_clause c ≡ spec.either (plain_clause one) (plain_clause other)) }
    ensures memory { IfErr result (λ fault. fault ≡ LineFault.Memory) }
{
    let Clause {
        expr: left,
        words: _,
    } = one;
    let Clause { expr: right, words } = other;
    let left = boxed(alloc, left)?;
    let right = boxed(alloc, right)?;
    Ok(Clause {
        expr: Expr::Or(left, right),
        words,
    })
}
