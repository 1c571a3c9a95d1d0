//! Values whose bytes were worked out by hand from the format.
use row_codec::{Counted, Stored, number_bytes, number_of_bytes};
use spatial_base::Point;
use std::test::Fail;
use term_impacts::Label;

// 1 degree west in units of 10^-7 (-10,000,000), 50 degrees north (500,000,000), and the words 1 and 258 with impacts 9 and 255.
static HEAD: [u8; 27] = [
    0xff, 0x67, 0x69, 0x80, 0x1d, 0xcd, 0x65, 0x00, 2, 0, 0, 0, 0, 0, 0, 0, 1, 9, 0, 0, 0, 0, 0, 0,
    1, 2, 255,
];

// The label Café Ny, of 8 bytes.
static LABEL: [u8; 8] = [0x43, 0x61, 0x66, 0xc3, 0xa9, 0x20, 0x4e, 0x79];

// The word café in its form (its text, 27 zero bytes and its length), and 258 places.
static CAFE: [u8; 37] = [
    0x63, 0x61, 0x66, 0xc3, 0xa9, 0, 0, 0, 0, 0, 0, 0, 0, 0, 0, 0, 0, 0, 0, 0, 0, 0, 0, 0, 0, 0, 0,
    0, 0, 0, 0, 0, 5, 0, 0, 1, 2,
];

// A byte of the place above that is changed, and its new value. The bytes are then not those of a place.
static BROKEN: [(usize, u8); 15] = [
    // a longitude of more than 180 degrees west
    (0, 0x80),
    // 65 words
    (8, 65),
    // a third word, of number 0 and impact 0
    (8, 3),
    // the first word's number above the second's
    (15, 2),
    // an impact of 0
    (17, 0),
    // a pair after the words
    (584, 1),
    // a label of 64 bytes, and one of 255
    (648, 64),
    (648, 255),
    // a label of 7 bytes, with a byte behind them
    (648, 7),
    // bytes behind the label: the first and the last
    (593, 1),
    (647, 1),
    // a label that ends within a character
    (648, 4),
    // no UTF-8: a byte that none has, and a character without its second byte
    (585, 0xff),
    (589, 0x20),
    // LF
    (590, 0x0a),
];

fn place_bytes() -> [u8; 649] {
    let mut bytes = [0; 649];
    let (head, rest) = bytes.split_at_mut(27);
    head.copy_from_slice(&HEAD);
    let (_, label) = rest.split_at_mut(558);
    let (text, _) = label.split_at_mut(8);
    text.copy_from_slice(&LABEL);
    bytes[648] = 8;
    bytes
}

// The place whose bytes these are.
fn place() -> Option<Stored> {
    let mut pairs = [(0, 0); 64];
    pairs[0] = (1, 9);
    pairs[1] = (258, 255);
    Some(Stored {
        point: Point::new(-10_000_000, 500_000_000)?,
        count: 2,
        pairs,
        label: Label::of_text("Café Ny"),
    })
}

#[test]
fn a_place_is_649_bytes(rt: HostRuntime) -> Result<(), Fail> {
    let stored = place().ok_or("off the map")?;
    let bytes = place_bytes();
    assert!(rt; stored.encode() == bytes);
    assert!(rt; Stored::decode(&bytes) == Some(stored));
    assert!(rt; stored.is_of_form());
    Ok(())
}

// Whether the bytes are those of a place after the byte at this offset is changed to this one.
fn is_place_with(at: usize, byte: u8) -> bool {
    let mut bytes = place_bytes();
    if let Some(changed) = bytes.get_mut(at) {
        *changed = byte;
    }
    Stored::decode(&bytes).is_some()
}

#[test]
fn a_broken_place_is_refused(rt: HostRuntime) {
    for (at, byte) in &BROKEN {
        assert!(rt; !is_place_with(*at, *byte), "byte {at}");
    }
}

// Texts and the labels that they have.
static LABELS: [(&str, &str); 21] = [
    ("", ""),
    ("Café Ny", "Café Ny"),
    // 62, 63 and 64 bytes
    (
        "01234567890123456789012345678901234567890123456789012345678901",
        "01234567890123456789012345678901234567890123456789012345678901",
    ),
    (
        "012345678901234567890123456789012345678901234567890123456789012",
        "012345678901234567890123456789012345678901234567890123456789012",
    ),
    (
        "0123456789012345678901234567890123456789012345678901234567890123",
        "012345678901234567890123456789012345678901234567890123456789012",
    ),
    // two bytes: up to 63, and cut at 62
    (
        "0123456789012345678901234567890123456789012345678901234567890é",
        "0123456789012345678901234567890123456789012345678901234567890é",
    ),
    (
        "01234567890123456789012345678901234567890123456789012345678901é",
        "01234567890123456789012345678901234567890123456789012345678901",
    ),
    // three bytes: up to 63, and cut at 61 and 62
    (
        "012345678901234567890123456789012345678901234567890123456789€",
        "012345678901234567890123456789012345678901234567890123456789€",
    ),
    (
        "0123456789012345678901234567890123456789012345678901234567890€",
        "0123456789012345678901234567890123456789012345678901234567890",
    ),
    (
        "01234567890123456789012345678901234567890123456789012345678901€",
        "01234567890123456789012345678901234567890123456789012345678901",
    ),
    // four bytes: up to 63, and cut at 60, 61 and 62
    (
        "01234567890123456789012345678901234567890123456789012345678𝄞",
        "01234567890123456789012345678901234567890123456789012345678𝄞",
    ),
    (
        "012345678901234567890123456789012345678901234567890123456789𝄞",
        "012345678901234567890123456789012345678901234567890123456789",
    ),
    (
        "0123456789012345678901234567890123456789012345678901234567890𝄞",
        "0123456789012345678901234567890123456789012345678901234567890",
    ),
    (
        "01234567890123456789012345678901234567890123456789012345678901𝄞",
        "01234567890123456789012345678901234567890123456789012345678901",
    ),
    // what follows a character that has no room is left out, though it has room itself
    (
        "01234567890123456789012345678901234567890123456789012345678901éa",
        "01234567890123456789012345678901234567890123456789012345678901",
    ),
    // a line ends at its LF, and a CR before it is kept
    ("Café\nNy", "Café"),
    ("Café\r\nNy", "Café\r"),
    ("\nCafé", ""),
    ("Café\n", "Café"),
    (
        "012345678901234567890123456789012345678901234567890123456789012\n",
        "012345678901234567890123456789012345678901234567890123456789012",
    ),
    (
        "0123456789012345678901234567890123456789012345678901234567890123\n",
        "012345678901234567890123456789012345678901234567890123456789012",
    ),
];

// A label's form: its text, zeros to 63 bytes, and its length.
fn form_of(text: &str) -> [u8; 64] {
    let mut form = [0; 64];
    for (to, from) in form.iter_mut().zip(text.as_bytes()) {
        *to = *from;
    }
    form[63] = u8::try_from(text.len()).unwrap_or(u8::MAX);
    form
}

// Whether the text has this label, and the place with it has the label's form behind its words and is decoded from its bytes.
fn has_label(text: &str, wanted: &str) -> bool {
    let Some(mut stored) = place() else {
        return false;
    };
    stored.label = Label::of_text(text);
    let bytes = stored.encode();
    let (_, form) = bytes.split_at(585);
    stored.label.text() == wanted
        && form == &form_of(wanted)[..]
        && Stored::decode(&bytes) == Some(stored)
}

#[test]
fn a_label_is_64_bytes(rt: HostRuntime) {
    for (text, wanted) in &LABELS {
        assert!(rt; has_label(text, wanted), "{text}");
    }
}

#[test]
fn places_with_other_labels_differ(rt: HostRuntime) -> Result<(), Fail> {
    let stored = place().ok_or("off the map")?;
    let other = Stored {
        label: Label::of_text("Café Ny "),
        ..stored
    };
    assert!(rt; stored != other && stored.encode() != other.encode());
    Ok(())
}

#[test]
fn a_word_and_its_places_are_37_bytes(rt: HostRuntime) -> Result<(), Fail> {
    let counted = Counted::decode(&CAFE).ok_or("no word")?;
    assert!(rt; counted.word.text() == "café" && counted.places == 258);
    assert!(rt; counted.encode() == CAFE);
    Ok(())
}

#[test]
fn a_number_is_8_bytes(rt: HostRuntime) {
    let bytes = number_bytes(258);
    assert!(rt; bytes == [0, 0, 0, 0, 0, 0, 1, 2]);
    assert!(rt; number_of_bytes(&bytes) == 258);
}
