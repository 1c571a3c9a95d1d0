use spatial_base::Memory;
use std::alloc::{AllocError, Global};
use std::fmt::Write;
use std::test::Fail;
use term_impacts::{Word, Words, impacts, one_word};

/// The pairs of a map, as `word impact` one after another.
fn told(alloc: Global, words: &Words) -> Result<String, AllocError> {
    let mut out = String::new(alloc);
    for (word, impact) in words.pairs() {
        let word = word.text();
        write!(out, "{word} {impact} ")?;
    }
    Ok(out)
}

/// Texts with the impacts of their words, worked out by hand.
static WEIGHED: [(&str, &str); 9] = [
    ("Café café bar", "bar 85 café 170 "),
    ("Café Ny", "café 128 ny 128 "),
    ("Bar", "bar 255 "),
    ("", ""),
    ("- ? -", ""),
    // Ten capital I with a dot grow from 20 bytes to 30. With two more letters they fit; with three, the word does not count.
    ("İİİİİİİİİİab", "i̇i̇i̇i̇i̇i̇i̇i̇i̇i̇ab 255 "),
    ("İİİİİİİİİİabc x", "x 255 "),
    // Sixteen sharp s become 32 bytes, and seventeen 34. Eleven capital ones shrink from 33 bytes to 22.
    ("ßßßßßßßßßßßßßßßß", "ssssssssssssssssssssssssssssssss 255 "),
    (
        "ẞẞẞẞẞẞẞẞẞẞẞ ßßßßßßßßßßßßßßßßß",
        "ssssssssssssssssssssss 255 ",
    ),
];

/// Whether the words of a text have these impacts.
fn weighs_so(alloc: Global, text: &str, wanted: &str) -> Result<bool, Fail> {
    let words = impacts(alloc, text)?;
    Ok(told(alloc, &words)?.as_str() == wanted)
}

#[test]
fn impacts_are_shares_of_the_counted_words(rt: HostRuntime) -> Result<(), Fail> {
    for (text, wanted) in &WEIGHED {
        assert!(rt; weighs_so(rt.alloc(), text, wanted)?, "{text}");
    }
    Ok(())
}

/// The numbers from 0 up to a limit, as one text.
fn numbers(alloc: Global, limit: u16) -> Result<String, AllocError> {
    let mut text = String::new(alloc);
    for number in 0..limit {
        write!(text, "{number} ")?;
    }
    Ok(text)
}

/// The impacts of a text's words, as a copy.
fn copied_impacts(alloc: Global, text: &str) -> Result<Words, Memory> {
    impacts(alloc, text)?.copy(alloc)
}

/// Whether 64 words are kept, and each has the impact 3.
fn are_64_of_3(words: &Words) -> bool {
    for (_, impact) in words.pairs() {
        if *impact != 3 {
            return false;
        }
    }
    words.pairs().len() == 64
}

/// The impact, among these words, of the one word of a text, or `None` if the text does not have exactly one word.
fn impact_of(alloc: Global, words: &Words, text: &str) -> Option<u8> {
    match one_word(alloc, text) {
        Ok(Some(word)) => Some(words.impact(&word)),
        _ => None,
    }
}

#[test]
fn the_65th_word_counts_among_all_but_is_not_kept(rt: HostRuntime) -> Result<(), Fail> {
    let text = numbers(rt.alloc(), 127)?;
    let words = copied_impacts(rt.alloc(), text.as_str())?;
    assert!(rt; are_64_of_3(&words));
    assert!(rt; impact_of(rt.alloc(), &words, "63") == Some(3));
    assert!(rt; impact_of(rt.alloc(), &words, "64") == Some(0));
    Ok(())
}

/// Texts with their one word, empty if there is none or more than one.
static SINGLE: [(&str, &str); 6] = [
    ("Café", "café"),
    (" (3.5) ", "3.5"),
    ("don't", "don't"),
    ("a b", ""),
    ("", ""),
    ("abcdefghijklmnopqrstuvwxyzabcdefg Z", "z"),
];

/// Whether a text has this one word, or no one word if this is empty.
fn is_single(alloc: Global, text: &str, wanted: &str) -> bool {
    match one_word(alloc, text) {
        Ok(Some(word)) => word.text() == wanted,
        Ok(None) => wanted.is_empty(),
        Err(_) => false,
    }
}

#[test]
fn one_word_is_the_only_one(rt: HostRuntime) {
    for (text, wanted) in &SINGLE {
        assert!(rt; is_single(rt.alloc(), text, wanted), "{text}");
    }
}

/// The form of `café`.
static CAFE: [u8; 33] = [
    0x63, 0x61, 0x66, 0xc3, 0xa9, 0, 0, 0, 0, 0, 0, 0, 0, 0, 0, 0, 0, 0, 0, 0, 0, 0, 0, 0, 0, 0, 0,
    0, 0, 0, 0, 0, 5,
];

/// An offset in that form, the byte put there, and whether the result is a form. With the length 6, the text would end in a zero byte.
static CHANGES: [(usize, u8, bool); 7] = [
    (32, 5, true),
    (32, 6, true),
    (32, 0, false),
    (32, 4, false),
    (32, 33, false),
    (5, 1, false),
    (31, 1, false),
];

/// Whether the form is still one after the byte at this offset is changed to this one.
fn is_form_with(at: usize, byte: u8) -> bool {
    let mut form = CAFE;
    if let Some(changed) = form.get_mut(at) {
        *changed = byte;
    }
    Word::of_bytes(&form).is_some()
}

#[test]
fn a_form_is_read_back_and_a_damaged_one_refused(rt: HostRuntime) -> Result<(), Fail> {
    let word = one_word(rt.alloc(), "Café")?.ok_or("a word")?;
    assert!(rt; word.bytes() == CAFE);
    for (at, byte, accepted) in &CHANGES {
        assert!(rt; is_form_with(*at, *byte) == *accepted, "{at} {byte}");
    }
    Ok(())
}
