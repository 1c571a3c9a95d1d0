//! Reads a token as degrees.
ghost use Rattle.std.specs.Prelude.{◌≡◌, ◌≤ℤ◌, IfOk};
ghost use Rattle.line_tokens.specs.Seen.{seen};
ghost use Rattle.query_lang.specs.Degrees.{reading_of, reading_in, degrees_of};

use fixed_coords::{NumberFault, read_fixed};
use line_tokens::Token;
use query_replies::LineFault;

// The value that a spelling gives.
fn reading(text: &str) -> Result<i64, NumberFault>
    ensures { result ≡ reading_of text.now }
{
    read_fixed(text)
}

// The value that a spelling gives, if it is from `low` to `high`.
fn reading_in(text: &str, low: i64, high: i64) -> Result<i64, LineFault>
    ensures value { result ≡ reading_in low high (reading_of text.now) }
    ensures within { IfOk result (λ value. (low ≤ℤ value) × (value ≤ℤ high)) }
{
    match reading(text) {
        Ok(value) => {
            if low <= value && value <= high {
                Ok(value)
            } else {
                Err(LineFault::Range)
            }
        }
        Err(NumberFault::NotANumber | NumberFault::TooLong) => Err(LineFault::Number),
        Err(NumberFault::TooBig | NumberFault::OutOfRange) => Err(LineFault::Range),
    }
}

/// Returns the degrees that a token gives, in units of 10^-7, from `low` to `high`.
pub(crate) fn degrees(token: &Token, low: i64, high: i64) -> Result<i64, LineFault>
    ensures value { result ≡ degrees_of low high (seen token.now) }
    ensures within { IfOk result (λ value. (low ≤ℤ value) × (value ≤ℤ high)) }
{
    match token {
        Token::Bare(text) => reading_in(text, low, high),
        _ => Err(LineFault::Number),
    }
}
