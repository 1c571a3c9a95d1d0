use json_spelled::{JsonFault, read_tree};
use std::alloc::{AllocError, Global};
use std::test::Fail;

/// Texts, and their values as they print. The first two texts are from RFC 8259, section 13.
pub(crate) static VALUES: [(&str, &str); 24] = [
    (
        "{\n        \"Image\": {\n            \"Width\":  800,\n            \"Height\": 600,\n            \"Title\":  \"View from 15th Floor\",\n            \"Thumbnail\": {\n                \"Url\":    \"http://www.example.com/image/481989943\",\n                \"Height\": 125,\n                \"Width\":  100\n            },\n            \"Animated\" : false,\n            \"IDs\": [116, 943, 234, 38793]\n          }\n      }",
        "Members([(\"Image\", Members([(\"Width\", Spelled(\"800\")), (\"Height\", Spelled(\"600\")), (\"Title\", Text(\"View from 15th Floor\")), (\"Thumbnail\", Members([(\"Url\", Text(\"http://www.example.com/image/481989943\")), (\"Height\", Spelled(\"125\")), (\"Width\", Spelled(\"100\"))])), (\"Animated\", Truth(false)), (\"IDs\", List([Spelled(\"116\"), Spelled(\"943\"), Spelled(\"234\"), Spelled(\"38793\")]))]))])",
    ),
    (
        "[\n        {\n           \"precision\": \"zip\",\n           \"Latitude\":  37.7668,\n           \"Longitude\": -122.3959,\n           \"Address\":   \"\",\n           \"City\":      \"SAN FRANCISCO\",\n           \"State\":     \"CA\",\n           \"Zip\":       \"94107\",\n           \"Country\":   \"US\"\n        },\n        {\n           \"precision\": \"zip\",\n           \"Latitude\":  37.371991,\n           \"Longitude\": -122.026020,\n           \"Address\":   \"\",\n           \"City\":      \"SUNNYVALE\",\n           \"State\":     \"CA\",\n           \"Zip\":       \"94085\",\n           \"Country\":   \"US\"\n        }\n      ]",
        "List([Members([(\"precision\", Text(\"zip\")), (\"Latitude\", Spelled(\"37.7668\")), (\"Longitude\", Spelled(\"-122.3959\")), (\"Address\", Text(\"\")), (\"City\", Text(\"SAN FRANCISCO\")), (\"State\", Text(\"CA\")), (\"Zip\", Text(\"94107\")), (\"Country\", Text(\"US\"))]), Members([(\"precision\", Text(\"zip\")), (\"Latitude\", Spelled(\"37.371991\")), (\"Longitude\", Spelled(\"-122.026020\")), (\"Address\", Text(\"\")), (\"City\", Text(\"SUNNYVALE\")), (\"State\", Text(\"CA\")), (\"Zip\", Text(\"94085\")), (\"Country\", Text(\"US\"))])])",
    ),
    ("\"Hello world!\"", "Text(\"Hello world!\")"),
    ("42", "Spelled(\"42\")"),
    ("true", "Truth(true)"),
    (" null\n", "Null"),
    ("\u{feff}[]", "List([])"),
    ("-0", "Spelled(\"-0\")"),
    ("1E400", "Spelled(\"1E400\")"),
    ("0.1e-7", "Spelled(\"0.1e-7\")"),
    (
        "3.14159265358979323846",
        "Spelled(\"3.14159265358979323846\")",
    ),
    (
        "{\"a\":1,\"b\":2,\"a\":3}",
        "Members([(\"a\", Spelled(\"1\")), (\"b\", Spelled(\"2\")), (\"a\", Spelled(\"3\"))])",
    ),
    ("{\"\":{}}", "Members([(\"\", Members([]))])"),
    (
        "\"\\\"\\\\\\/\\b\\f\\n\\r\\t\"",
        "Text(\"\\\"\\\\/\\u{8}\\u{c}\\n\\r\\t\")",
    ),
    ("\"\\u0041\\u00e9\\u20ac\"", "Text(\"Aé€\")"),
    ("\"\\ud834\\udd1e\"", "Text(\"𝄞\")"),
    ("\"\\ud834\"", "Text(\"�\")"),
    ("\"\\udd1e\"", "Text(\"�\")"),
    ("\"\\ud834x\"", "Text(\"�x\")"),
    ("\"\\ud834\\n\"", "Text(\"�\\n\")"),
    ("\"\\ud834\\ud834\\udd1e\"", "Text(\"�𝄞\")"),
    ("\"\\uDD1E\\uD834\"", "Text(\"��\")"),
    ("\"\\ud834\\u0041\"", "Text(\"�A\")"),
    ("\"é€𝄞\x7f\"", "Text(\"é€𝄞\\u{7f}\")"),
];

/// Bytes, and why they are refused.
pub(crate) static REFUSALS: [(&[u8], JsonFault); 58] = [
    (b"", JsonFault::Syntax(0)),
    (b" ", JsonFault::Syntax(1)),
    (b"{\"type\":\"Fea", JsonFault::Syntax(12)),
    (b"{\"a\":\"\xff\"}", JsonFault::NotUtf8(6)),
    (b"01", JsonFault::Syntax(1)),
    (b"-", JsonFault::Syntax(1)),
    (b"-a", JsonFault::Syntax(1)),
    (b"+1", JsonFault::Syntax(0)),
    (b".5", JsonFault::Syntax(0)),
    (b"1.", JsonFault::Syntax(2)),
    (b"1.e1", JsonFault::Syntax(2)),
    (b"1e", JsonFault::Syntax(2)),
    (b"1e+", JsonFault::Syntax(3)),
    (b"1e5.", JsonFault::Syntax(3)),
    (b"[1,]", JsonFault::Syntax(3)),
    (b"[,1]", JsonFault::Syntax(1)),
    (b"[1 2]", JsonFault::Syntax(3)),
    (b"{\"a\":1,}", JsonFault::Syntax(7)),
    (b"{,}", JsonFault::Syntax(1)),
    (b"{\"a\"}", JsonFault::Syntax(4)),
    (b"{a:1}", JsonFault::Syntax(1)),
    (b"{\"a\":}", JsonFault::Syntax(5)),
    (b"\"\x09\"", JsonFault::Syntax(1)),
    (b"\"\x00\"", JsonFault::Syntax(1)),
    (b"\"\\x\"", JsonFault::Syntax(2)),
    (b"\"\\u12\"", JsonFault::Syntax(5)),
    (b"\"\\u12g4\"", JsonFault::Syntax(5)),
    (b"nul", JsonFault::Syntax(3)),
    (b"nulll", JsonFault::Syntax(4)),
    (b"True", JsonFault::Syntax(0)),
    (b"tru ", JsonFault::Syntax(3)),
    (b"1 2", JsonFault::Syntax(2)),
    (b"[]]", JsonFault::Syntax(2)),
    (b"[}", JsonFault::Syntax(1)),
    (b"{]", JsonFault::Syntax(1)),
    (b"\xef\xbb\xbf", JsonFault::Syntax(3)),
    (b"\xef\xbb\xbf1x", JsonFault::Syntax(4)),
    (b"[\xef\xbb\xbf1]", JsonFault::Syntax(1)),
    (b" \xef\xbb\xbf1", JsonFault::Syntax(1)),
    (b"\xef\xbb\xbc", JsonFault::Syntax(2)),
    (b"\xef\xbb", JsonFault::NotUtf8(0)),
    (b"\xef\xbbx", JsonFault::NotUtf8(0)),
    (b"\xef\xbb\xbf\xef\xbb\xbf1", JsonFault::Syntax(3)),
    (b"\"\xc0\xaf\"", JsonFault::NotUtf8(1)),
    (b"\"\xed\xa0\x80\"", JsonFault::NotUtf8(1)),
    (b"\"\xf4\x90\x80\x80\"", JsonFault::NotUtf8(1)),
    (b"\"\xe2\x82\"", JsonFault::NotUtf8(1)),
    (b"\"\xe2\x82", JsonFault::NotUtf8(1)),
    (b"[\xff", JsonFault::NotUtf8(1)),
    (b"x\xff", JsonFault::Syntax(0)),
    (b"[1}\xff", JsonFault::Syntax(2)),
    (b"\"\\u12\xc3\xa9\"", JsonFault::Syntax(5)),
    (b"\"\\u12\xff\"", JsonFault::NotUtf8(5)),
    (b"'a'", JsonFault::Syntax(0)),
    (b"[1]//", JsonFault::Syntax(3)),
    (b"NaN", JsonFault::Syntax(0)),
    (b"-Infinity", JsonFault::Syntax(1)),
    (
        b"[[[[[[[[[[[[[[[[[[[[[[[[[[[[[[[[[[[[[[[[[[[[[[[[[[[[[[[[[[[[[[[[[",
        JsonFault::TooDeep(64),
    ),
];

/// A text that has every construct. A character of two bytes begins at offset 58.
pub(crate) static TEXT: &str =
    "{\"a\":[1,-0.5e+10,true,false,null],\"\\u00e9\\ud83d\\ude00\\n\":\"é\\\"/\",\"c\":{},\"d\":[ 20E-1, [] ]}";

/// Whether another JSON reader accepts that text with one bit flipped: one digit for each bit, the lowest of a byte first.
static FLIPPED: &str = concat!(
    "00000000000000001111111000000000000000000000000011110000000000000000010011110000",
    "01000000111000000000010000000000111100001111100000000000000000000000000000000000",
    "00000000000000000000000000000000000000000000000000000000000000000000000000000000",
    "00000000000000000000000000000000000000001111110010000000111100001111000010100100",
    "10010000111111001000000011000100100100001110000011000100111111001000000011000100",
    "10100100111100001111000011111100000100000000000000000000000000001011100011111100",
    "00000000000000101111101000000000000000000000000011111110000000000000000000000000",
    "00000000000000000000000011111110000000000000000000000000000000001010000011110000",
    "00000100000000001111000000000000000000000000000000000000000000000000000000000000",
);

/// The value of a text as it prints.
fn shown(alloc: Global, text: &str) -> Result<String, Fail> {
    let tree = read_tree(alloc, text.as_bytes())?;
    Ok(format!(in alloc; "{tree:?}")?)
}

#[test]
fn texts_have_their_values(rt: HostRuntime) -> Result<(), Fail> {
    for (text, value) in &VALUES {
        let shown = shown(rt.alloc(), text)?;
        assert_eq!(rt; shown.as_str(), *value);
    }
    Ok(())
}

/// Why bytes are refused, or `None` if they are read.
fn refusal(alloc: Global, bytes: &[u8]) -> Option<JsonFault> {
    read_tree(alloc, bytes).err()
}

#[test]
fn refusals_name_the_first_offence(rt: HostRuntime) {
    for (bytes, fault) in &REFUSALS {
        assert!(rt; refusal(rt.alloc(), bytes) == Some(*fault), "{bytes:?}");
    }
}

#[test]
fn each_truncation_ends_too_early(rt: HostRuntime) {
    let text = TEXT.as_bytes();
    for end in 0..text.len() {
        let fault = if end == 59 {
            JsonFault::NotUtf8(58)
        } else {
            JsonFault::Syntax(end as u64)
        };
        assert!(rt; refusal(rt.alloc(), &text[..end]) == Some(fault), "{end}");
    }
}

/// Whether that text is read after these bits of one byte are flipped.
fn is_read_with(alloc: Global, at: usize, bits: u8) -> Result<bool, AllocError> {
    let mut bytes = TEXT.as_bytes().to_vec(alloc)?;
    if let Some(byte) = bytes.get_mut(at) {
        *byte ^= bits;
    }
    Ok(read_tree(alloc, &bytes).is_ok())
}

#[test]
fn each_bit_turned_over_is_judged_as_elsewhere(rt: HostRuntime) -> Result<(), Fail> {
    assert_eq!(rt; FLIPPED.len(), 8 * TEXT.len());
    for (n, judged) in FLIPPED.as_bytes().iter().enumerate() {
        let is_read = is_read_with(rt.alloc(), n / 8, 1 << (n % 8))?;
        assert_eq!(rt; is_read, *judged == b'1', "bit {n}");
    }
    Ok(())
}

/// Why a text inside 64 levels of alternating arrays and objects is refused, or `None` if it is read.
fn refusal_within(alloc: Global, text: &str) -> Result<Option<JsonFault>, AllocError> {
    let mut nested = String::new(alloc);
    for _ in 0..32 {
        nested.push_str("[{\"a\":")?;
    }
    nested.push_str(text)?;
    for _ in 0..32 {
        nested.push_str("}]")?;
    }
    Ok(refusal(alloc, nested.as_bytes()))
}

#[test]
fn sixty_four_levels_are_read_and_no_more(rt: HostRuntime) -> Result<(), Fail> {
    assert_eq!(rt; refusal_within(rt.alloc(), "1")?, None);
    // The text comes after 32 times six bytes: two brackets and a name.
    assert_eq!(rt;
        refusal_within(rt.alloc(), "[1]")?,
        Some(JsonFault::TooDeep(192))
    );
    Ok(())
}
