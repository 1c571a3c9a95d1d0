//! Finds the end of a JSON string literal, and decodes it.
ghost use Rattle.std.specs.Prelude.{◌≡◌, ◌∷◌, ◌≤◌, ◌-◌, ℕ, List, [], None, Some, if◌then◌else◌, length, drop, slice_index, is_some, option_map, IfSome, IfOk, string_bytes};
ghost use Rattle.std.specs.Bool.{OnTrue};
ghost use Rattle.json_spelled.specs.Grammar.{Quoted, escaped, hex_digit};
ghost use Rattle.json_spelled.specs.Json.{text};
ghost use Rattle.json_spelled.specs.View.{json_of};
ghost use Rattle.line_tokens.specs.Literal.{behind, escape_at, literal_of, unit_at};

use json_spelled::{Tree, read_tree};
use spatial_base::Memory;
use std::alloc::Global;

// Whether a letter after a backslash means one character.
fn is_escape(letter: u8) -> bool
    ensures { result ≡ is_some (escaped letter) }
{
    matches!(
        letter,
        b'"' | b'\\' | b'/' | b'b' | b'f' | b'n' | b'r' | b't'
    )
}

// Whether a byte is a hexadecimal digit.
fn is_hex(byte: u8) -> bool
    ensures { result ≡ is_some (hex_digit byte) }
{
    matches!(byte, b'0'..=b'9' | b'A'..=b'F' | b'a'..=b'f')
}

// Whether the bytes begin with the four digits of a code unit.
fn is_unit(bytes: &[u8]) -> bool
    ensures within { OnTrue result (4 ≤ length bytes.now) }
    ensures rest { option_map (λ unit. unit.1) (unit_at bytes.now) ≡ (if result then Some (drop 4 bytes.now) else None) }
{
    match bytes {
        [a, b, c, d, ..] => is_hex(*a) & is_hex(*b) & is_hex(*c) & is_hex(*d),
        _ => false,
    }
}

// How many bytes an escape has after its backslash.
fn escape_len(bytes: &[u8]) -> Option<usize>
    ensures within { IfSome result (λ len. len ≤ length bytes.now) }
    ensures rest { option_map (λ piece. piece.1) (escape_at bytes.now) ≡ option_map (λ len. drop len bytes.now) result }
{
    match bytes {
        [b'u', digits @ ..] if is_unit(digits) => Some(5),
        [letter, ..] if is_escape(*letter) => Some(1),
        _ => None,
    }
}

/// Returns how many bytes a literal has after its opening quotation mark, its closing one included, or `None` if it does not end.
pub(crate) fn literal_len(bytes: &[u8]) -> Option<usize>
    ensures within { IfSome result (λ len. (1 ≤ len) × (len ≤ length bytes.now)) }
    ensures mark { IfSome result (λ len. slice_index bytes.now (len - 1) ≡ 34) }
    ensures rest { behind bytes.now ≡ option_map (λ len. drop len bytes.now) result }
{
    let mut at = 0;
    while at < bytes.len() {
        match bytes[at] {
            b'"' => return Some(at + 1),
            b'\\' => at += 1 + escape_len(&bytes[at + 1..])?,
            0..=31 => return None,
            _ => at += 1,
        }
    }
    None
}

// The text of a tree that is a string.
fn text_in(tree: Tree) -> Option<String>
    ensures { IfSome result (λ says. json_of tree ≡ text (string_bytes says)) }
{
    match tree {
        Tree::Text(says) => Some(says),
        _ => None,
    }
}

/// Returns the decoded text of a whole literal.
pub(crate) fn decoded(alloc: Global, literal: &str) -> Result<String, Memory>
    ensures { (bytes says : List ℕ) → literal.now ≡ 34 ∷ bytes → literal_of bytes ≡ Some (says, [])
        → IfOk result (λ text. string_bytes text ≡ says) }
{
    match read_tree(alloc, literal.as_bytes()) {
        // A literal is a JSON text of one string, so the only possible failure is that memory runs out.
        Ok(tree) => text_in(tree).ok_or(Memory),
        Err(_) => Err(Memory),
    }
}

/// A literal is a string of JSON's grammar, and has the same meaning. The call does nothing: its contract is the law.
pub fn literals_are_json()
    ensures read { (bytes says rest : List ℕ) → literal_of bytes ≡ Some (says, rest) → Quoted says bytes rest }
    ensures only { (bytes says rest : List ℕ) → Quoted says bytes rest → literal_of bytes ≡ Some (says, rest) }
{}
