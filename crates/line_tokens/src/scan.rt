//! Finds the first token of a text.
ghost use Rattle.std.specs.Prelude.{◌≡◌, ◌<◌, length, drop, slice_index, option_map, IfOk, IfSome, IfNone};
ghost use Rattle.std.specs.List.{prefix_len};
ghost use Rattle.line_tokens.specs.Literal.{is_plain, literal_of};
ghost use Rattle.line_tokens.specs.Token as tokens;
ghost use Rattle.line_tokens.specs.Token.{is_blank, is_bare, token_of, quoted_at};
ghost use Rattle.line_tokens.specs.Seen.{seen};

use crate::literal::{decoded, literal_len};
use crate::token::{Quoted, Token};
use spatial_base::Memory;
use std::alloc::Global;

// Whether a byte is a space or a tab.
fn is_blank(byte: u8) -> bool
    ensures { result ≡ is_blank byte }
{
    matches!(byte, b' ' | b'\t')
}

// Whether a byte belongs to a run.
fn is_bare(byte: u8) -> bool
    ensures { result ≡ is_bare byte }
{
    !matches!(byte, b' ' | b'\t' | b'(' | b')' | b'"')
}

// Whether a byte of a literal means itself.
fn is_plain(byte: u8) -> bool
    ensures { result ≡ is_plain byte }
{
    byte >= b' ' && byte != b'"' && byte != b'\\'
}

// How many blanks the text begins with.
fn blank_len(text: &[u8]) -> usize
    ensures { result ≡ prefix_len is_blank text.now }
{
    text.iter().take_while(|byte| is_blank(**byte)).count()
}

// How many bytes of a run the text begins with.
fn bare_len(text: &[u8]) -> usize
    ensures { result ≡ prefix_len is_bare text.now }
{
    text.iter().take_while(|byte| is_bare(**byte)).count()
}

// How many bytes that mean themselves the text begins with.
fn plain_len(text: &[u8]) -> usize
    ensures { result ≡ prefix_len is_plain text.now }
{
    text.iter().take_while(|byte| is_plain(**byte)).count()
}

/// Returns the text without its leading spaces and tabs.
pub fn after_blanks(text: &str) -> &str
    ensures { result.now ≡ tokens.after_blanks text.now }
{
    let (_, rest) = text.split_at(blank_len(text.as_bytes()));
    rest
}

// The run that the text begins with, and the text after it.
fn bare(text: &str) -> (Token<'_>, &str)
    ensures { (seen result.0, result.1.now) ≡ tokens.bare_at text.now }
{
    let (run, rest) = text.split_at(bare_len(text.as_bytes()));
    (Token::Bare(run), rest)
}

// The first byte of a text.
fn first_byte(text: &str) -> Option<u8>
    ensures none { IfNone result (length text.now ≡ 0) }
    ensures some { IfSome result (λ byte. (0 < length text.now) × (slice_index text.now 0 ≡ byte)) }
{
    text.as_bytes().first().copied()
}

// The text without its first byte.
fn behind_first(text: &str) -> &str
    requires some { 0 < length text.now }
    requires ascii { slice_index text.now 0 < 128 }
    ensures { result.now ≡ drop 1 text.now }
{
    let (_, rest) = text.split_at(1);
    rest
}

// The literal after a quotation mark, if each of its bytes means itself, and the text after the literal.
fn plain(text: &str) -> Option<(&str, &str)>
    ensures { IfSome result (λ found. literal_of text.now ≡ Some (found.0.now, found.1.now)) }
{
    let (says, rest) = text.split_at(plain_len(text.as_bytes()));
    match first_byte(rest) {
        Some(b'"') => Some((says, behind_first(rest))),
        _ => None,
    }
}

// The token that the leading quotation mark begins, and the text after it.
fn quoted(alloc: Global, text: &str) -> Result<(Token<'_>, &str), Memory>
    requires some { 0 < length text.now }
    requires mark { slice_index text.now 0 ≡ 34 }
    ensures { IfOk result (λ found. (seen found.0, found.1.now) ≡ quoted_at (literal_of (drop 1 text.now))) }
{
    let content = behind_first(text);
    if let Some((says, rest)) = plain(content) {
        return Ok((Token::Quoted(Quoted::Plain(says)), rest));
    }
    match literal_len(content.as_bytes()) {
        Some(len) => {
            let (literal, rest) = text.split_at(1 + len);
            let says = decoded(alloc, literal)?;
            Ok((Token::Quoted(Quoted::Decoded(says)), rest))
        }
        None => Ok((Token::Broken, "")),
    }
}

/// Returns the first token of a text and the text after it, or `None` if only spaces and tabs are left.
///
/// It reads no byte after the token, except in a literal that does not end. It allocates memory only for the decoded text of a literal
/// with escapes, and fails only if that runs out.
pub fn next_token(alloc: Global, text: &str) -> Result<Option<(Token<'_>, &str)>, Memory>
    ensures { IfOk result (λ found. option_map (λ f. (seen f.0, f.1.now)) found ≡ token_of text.now) }
{
    let text = after_blanks(text);
    let Some(first) = first_byte(text) else {
        return Ok(None);
    };
    if first == b'(' {
        Ok(Some((Token::Open, behind_first(text))))
    } else if first == b')' {
        Ok(Some((Token::Close, behind_first(text))))
    } else if first == b'"' {
        Ok(Some(quoted(alloc, text)?))
    } else {
        Ok(Some(bare(text)))
    }
}
