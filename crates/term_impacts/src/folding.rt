//! Case-folds a piece of text, and writes it straight into a word's form.
ghost use Rattle.std.specs.Prelude.{◌≡◌, ◌+◌, ◌-◌, ◌<◌, ◌≤◌, ◌++◌, length, take, drop, encode_utf8, MatchOption, IsAscii};
ghost use Rattle.std.specs.Option.{SomeIff};
ghost use Rattle.std.specs.Str.{IsUtf8};
ghost use Rattle.term_impacts.specs.Text.{folded};

use crate::word::{WORD_MAX, Word};
use caseless::Caseless;

/// Returns the word that a piece of text is after case folding, or `None` exactly if the folded text has more than 32 bytes.
#[inline]
pub(crate) fn folded_word(piece: &str) -> Option<Word>
    requires { 1 ≤ length piece.now }
    ensures { SomeIff result (length (folded piece.now) ≤ 32) (folded piece.now) }
{
    if piece.is_ascii() {
        ascii_word(piece)
    } else {
        unicode_word(piece)
    }
}

/// The same for ASCII, which folds to lower case byte by byte.
#[inline]
fn ascii_word(piece: &str) -> Option<Word>
    requires some { 1 ≤ length piece.now }
    requires ascii { IsAscii piece.now }
    ensures { SomeIff result (length (folded piece.now) ≤ 32) (folded piece.now) }
{
    let len = piece.len();
    if len > WORD_MAX {
        return None;
    }
    let mut form = [0; 33];
    form[..len].copy_from_slice(piece.as_bytes());
    form[..len].make_ascii_lowercase();
    Some(Word::sealed(form, len))
}

/// The same for any text, character by character.
fn unicode_word(piece: &str) -> Option<Word>
    requires { 1 ≤ length piece.now }
    ensures { SomeIff result (length (folded piece.now) ≤ 32) (folded piece.now) }
{
    let mut form = [0; 33];
    let mut len = 0;
    'characters: for c in piece.chars().default_case_fold() {
        len = put_char(&mut form, len, c)?;
    }
    Some(Word::sealed(form, len))
}

/// Writes a character after the `len` bytes of text in the form. Returns the text's new length, or `None` if it would be more than 32.
fn put_char(form: &mut [u8; 33], len: usize, c: char) -> Option<usize>
    requires { len ≤ 32 }
    ensures room { MatchOption result (32 < len + length (encode_utf8 c)) (λ end. (end ≡ len + length (encode_utf8 c)) × (end ≤ 32)
        × (take end form.new ≡ take len form.old ++ encode_utf8 c) × (drop end form.new ≡ drop end form.old)) }
    ensures utf8 { IsUtf8 (encode_utf8 c) }
{
    let mut unit = [0; 4];
    let character = c.encode_utf8(&mut unit).as_bytes();
    let end = len + character.len();
    if end > WORD_MAX {
        return None;
    }
    form[len..end].copy_from_slice(character);
    Some(end)
}
