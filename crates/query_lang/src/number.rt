//! Reads a token as a whole number.
ghost use Rattle.std.specs.Prelude.{◌≡◌, ◌≤◌, ◌<◌, is_some, IfSome, IfOk};
ghost use Rattle.std.specs.List.{list_all};
ghost use Rattle.std.specs.Char.{is_ascii_digit};
ghost use Rattle.line_tokens.specs.Seen.{seen};
ghost use Rattle.query_lang.specs.Number.{number_of, number_in, whole_of};

use line_tokens::Token;
use query_replies::LineFault;

/// The most digits that a number has.
const DIGITS_MAX: usize = 20;

// The bytes as a text, if they are all ASCII digits.
fn digits(bytes: &[u8]) -> Option<&str>
    ensures test { is_some result ≡ list_all is_ascii_digit bytes.now }
    ensures text { IfSome result (λ text. text.now ≡ bytes.now) }
{
    if !bytes.iter().all(u8::is_ascii_digit) {
        return None;
    }
    std::str::from_utf8(bytes).ok()
}

/// Returns the number that 1 to 20 digits write, or `None` for any other bytes.
pub(crate) fn number(bytes: &[u8]) -> Option<u128>
    ensures { result ≡ number_of bytes.now }
{
    if bytes.len() > DIGITS_MAX {
        return None;
    }
    digits(bytes)?.parse().ok()
}

/// Returns the number that 1 to 20 digits write, if it is from `low` to `high`.
pub(crate) fn number_in(bytes: &[u8], low: u16, high: u16) -> Result<u16, LineFault>
    ensures value { result ≡ number_in low high bytes.now }
    ensures within { IfOk result (λ n. (low ≤ n) × (n ≤ high)) }
{
    let Some(n) = number(bytes) else {
        return Err(LineFault::Number);
    };
    if u128::from(low) <= n && n <= u128::from(high) {
        Ok(n as u16)
    } else {
        Err(LineFault::Range)
    }
}

/// Returns the whole number that a token gives, from `low` to `high`.
pub(crate) fn whole(token: &Token, low: u16, high: u16) -> Result<u16, LineFault>
    ensures value { result ≡ whole_of low high (seen token.now) }
    ensures within { IfOk result (λ n. (low ≤ n) × (n ≤ high)) }
{
    match token {
        Token::Bare(text) => number_in(text.as_bytes(), low, high),
        _ => Err(LineFault::Number),
    }
}
