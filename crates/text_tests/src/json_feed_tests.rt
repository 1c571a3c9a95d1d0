ghost use Rattle.std.specs.Prelude.{◌<◌};

use crate::json_spelled_tests::{REFUSALS, TEXT, VALUES};
use json_spelled::{Feed, JsonFault, Tree, read_tree};
use std::alloc::Global;
use std::test::Fail;

/// How long the pieces are that a text is cut into.
static SIZES: [usize; 4] = [1, 2, 3, 7];

/// What a feed gives that takes a text in two pieces.
fn in_two(alloc: Global, bytes: &[u8], cut: usize) -> Result<Tree, JsonFault> {
    let mut feed = Feed::new(alloc);
    feed.push(&bytes[..cut.min(bytes.len())])?;
    feed.push(&bytes[cut.min(bytes.len())..])?;
    feed.end()
}

/// What a feed gives that takes a text in pieces of so many bytes, the last of which may be shorter.
fn in_pieces(alloc: Global, bytes: &[u8], size: usize) -> Result<Tree, JsonFault>
    requires { 0 < size }
{
    let mut feed = Feed::new(alloc);
    let mut rest = bytes;
    while !rest.is_empty() {
        let len = size.min(rest.len());
        feed.push(&rest[..len])?;
        rest = &rest[len..];
    }
    feed.end()
}

/// Whether a feed gives the same as the whole text, wherever the text is cut.
fn is_same_in_two(alloc: Global, bytes: &[u8]) -> bool {
    let whole = read_tree(alloc, bytes);
    for cut in 0..bytes.len() {
        if in_two(alloc, bytes, cut) != whole {
            return false;
        }
    }
    true
}

/// Whether a feed gives the same as the whole text, in pieces of each length.
fn is_same_in_pieces(alloc: Global, bytes: &[u8]) -> bool {
    let whole = read_tree(alloc, bytes);
    for size in &SIZES {
        if in_pieces(alloc, bytes, (*size).max(1)) != whole {
            return false;
        }
    }
    true
}

#[test]
fn texts_have_their_values_wherever_they_are_cut(rt: HostRuntime) {
    for (text, _) in &VALUES {
        assert!(rt; is_same_in_two(rt.alloc(), text.as_bytes()), "{text}");
        assert!(rt; is_same_in_pieces(rt.alloc(), text.as_bytes()), "{text}");
    }
    assert!(rt; is_same_in_two(rt.alloc(), TEXT.as_bytes()));
    assert!(rt; is_same_in_pieces(rt.alloc(), TEXT.as_bytes()));
}

#[test]
fn refusals_name_the_first_offence_wherever_the_text_is_cut(rt: HostRuntime) {
    for (bytes, _) in &REFUSALS {
        assert!(rt; is_same_in_two(rt.alloc(), bytes), "{bytes:?}");
        assert!(rt; is_same_in_pieces(rt.alloc(), bytes), "{bytes:?}");
    }
}

#[test]
fn a_refusal_is_given_again(rt: HostRuntime) {
    let mut feed = Feed::new(rt.alloc());
    assert!(rt; feed.push(b"[1,").is_ok());
    assert!(rt; feed.push(b" ]") == Err(JsonFault::Syntax(4)));
    assert!(rt; feed.push(b"2]") == Err(JsonFault::Syntax(4)));
    assert!(rt; feed.end() == Err(JsonFault::Syntax(4)));
}

#[test]
fn a_cut_character_is_refused_at_the_end_alone(rt: HostRuntime) {
    let mut feed = Feed::new(rt.alloc());
    assert!(rt; feed.push(b"\"\xf0\x9d").is_ok());
    assert!(rt; feed.push(b"\x84").is_ok());
    assert!(rt; feed.end() == Err(JsonFault::NotUtf8(1)));
}
