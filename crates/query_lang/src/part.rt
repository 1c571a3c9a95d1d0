//! The parts of a line: each reads the next token, and returns its value and the text after it.
ghost use Rattle.std.specs.Prelude.{◌≡◌, ◌≢◌, ◌≤◌, ◌<◌, ◌^◌, ◌≤ℤ◌, Some, None, option_map, IsSome, OnOk, IfOk, IfErr};
ghost use Rattle.line_tokens.specs.Seen.{seen};
ghost use Rattle.line_tokens.specs.Token.{token_of};
ghost use Rattle.query_lang.specs.Degrees.{degrees_of};
ghost use Rattle.query_lang.specs.Number.{whole_of};
ghost use Rattle.query_lang.specs.Reader.{Answers, part};

use crate::degrees::degrees;
use crate::number::whole;
use line_tokens::{Token, next_token};
use query_replies::LineFault;
use std::alloc::Global;

/// Returns the next token and the text after it, or `None` if there is none. Refuses only if memory runs out.
pub(crate) fn token(alloc: Global, text: &str) -> Result<Option<(Token<'_>, &str)>, LineFault>
    ensures token { IfOk result (λ found. option_map (λ f. (seen f.0, f.1.now)) found ≡ token_of text.now) }
    ensures memory { IfErr result (λ fault. fault ≡ LineFault.Memory) }
{
    next_token(alloc, text).map_err(|_| LineFault::Memory)
}

/// Returns the next token and the text after it, or refuses with `Missing` if the line ends.
pub(crate) fn next(alloc: Global, text: &str) -> Result<(Token<'_>, &str), LineFault>
    ensures token { IfOk result (λ found. token_of text.now ≡ Some (seen found.0, found.1.now)) }
    ensures missing { IfErr result (λ fault. fault ≢ LineFault.Memory → (fault ≡ LineFault.Missing) × (token_of text.now ≡ None)) }
{
    token(alloc, text)?.ok_or(LineFault::Missing)
}

/// Returns degrees in units of 10^-7, from `low` to `high`, and the text after them.
pub(crate) fn degrees_part(
    alloc: Global,
    low: i64,
    high: i64,
    text: &str,
) -> Result<(i64, &str), LineFault>
    ensures says { Answers (λ got. (got.0, got.1.now)) result (part (degrees_of low high) text.now) }
    ensures within { IfOk result (λ got. (low ≤ℤ got.0) × (got.0 ≤ℤ high)) }
{
    let (token, text) = next(alloc, text)?;
    let value = degrees(&token, low, high)?;
    Ok((value, text))
}

/// Returns a whole number from `low` to `high`, and the text after it.
pub(crate) fn whole_part(
    alloc: Global,
    low: u16,
    high: u16,
    text: &str,
) -> Result<(u16, &str), LineFault>
    ensures says { Answers (λ got. (got.0, got.1.now)) result (part (whole_of low high) text.now) }
    ensures within { IfOk result (λ got. (low ≤ got.0) × (got.0 ≤ high)) }
{
    let (token, text) = next(alloc, text)?;
    let number = whole(&token, low, high)?;
    Ok((number, text))
}

/// Accepts the end of the line, and refuses with `Extra` if there is another token.
pub(crate) fn end(alloc: Global, text: &str) -> Result<(), LineFault>
    ensures ended { OnOk result (token_of text.now ≡ None) }
    ensures extra { IfErr result (λ fault. fault ≢ LineFault.Memory → (fault ≡ LineFault.Extra) × IsSome (token_of text.now)) }
{
    match token(alloc, text)? {
        Some(_) => Err(LineFault::Extra),
        None => Ok(()),
    }
}
