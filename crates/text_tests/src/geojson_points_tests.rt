use geojson_points::{Taken, take};
use std::alloc::{AllocError, Global};
use std::fmt::Write;
use std::test::Fail;

/// The most bytes that a text of these tests has.
const TEXT_MAX: usize = 1000;

/// Appends what an item gives: `KEY X Y TEXT` for a place, with `-` if it has no key, or `skip INDEX REASON`.
fn tell(out: &mut String, item: &Taken) -> Result<(), AllocError> {
    match item {
        Taken::Place(draft) => {
            let key = match &draft.id {
                Some(key) => key.text().unwrap_or("#"),
                None => "-",
            };
            let (x, y) = (draft.point.x(), draft.point.y());
            let text = draft.text.as_str();
            write!(out, "{key} {x} {y} {text}")
        }
        Taken::Skipped(index, reason) => write!(out, "skip {index} {reason:?}"),
    }
}

/// What each item gives, separated by `; `.
fn told(alloc: Global, items: &[Taken]) -> Result<String, AllocError> {
    let mut out = String::new(alloc);
    for item in items {
        if !out.is_empty() {
            out.push_str("; ")?;
        }
        tell(&mut out, item)?;
    }
    Ok(out)
}

/// Whether a text gives this, or is refused with it.
fn gives(alloc: Global, text: &[u8], only: Option<&str>, wanted: &str) -> Result<bool, AllocError> {
    if text.len() > TEXT_MAX {
        return Ok(false);
    }
    let told = match take(alloc, text, only) {
        Ok(items) => told(alloc, items.as_slice())?,
        Err(fault) => format!(in alloc; "{fault:?}")?,
    };
    Ok(told.as_str() == wanted)
}

/// Whole texts, and what each gives.
static TEXTS: [(&[u8], &str); 17] = [
    (
        b"{\"features\":[{\"type\":\"Feature\",\"id\":7,\"geometry\":{\"type\":\"Point\",\"coordinates\":[12.5683,55.6761,3.0]},\"properties\":{\"name\":\"Caf\xc3\xa9 Ny\",\"rank\":2}},{\"type\":\"Feature\",\"geometry\":{\"type\":\"Polygon\",\"coordinates\":[]},\"properties\":null},{\"type\":\"Feature\",\"geometry\":{\"type\":\"Point\",\"coordinates\":[12.57,55.68]},\"properties\":{\"name\":\"Bar\"}},{\"type\":\"Feature\",\"geometry\":null,\"properties\":{}}],\"type\":\"FeatureCollection\"}",
        "7 125683000 556761000 Café Ny; skip 1 NotPoint; - 125700000 556800000 Bar; skip 3 NoGeometry",
    ),
    (
        b"{\"type\":\"Feature\",\"geometry\":{\"type\":\"Point\",\"coordinates\":[1,2]},\"properties\":{\"a\":\"x\"}}",
        "- 10000000 20000000 x",
    ),
    (b"{\"type\":\"Feature\"}", "skip 0 NoGeometry"),
    (
        b"\xef\xbb\xbf{\r\n\"type\": \"FeatureCollection\",\r\n\"features\": [\r\n7\r\n]\r\n}\r\n",
        "skip 0 NotFeature",
    ),
    (b"{\"type\":\"FeatureCollection\",\"features\":[]}", ""),
    (
        b"{\"type\":\"Feature\",\"features\":[1],\"type\":\"FeatureCollection\",\"features\":[]}",
        "",
    ),
    (
        b"{\"type\":\"FeatureCollection\",\"features\":[],\"features\":{}}",
        "NotFeatures",
    ),
    (b"{\"type\":\"FeatureCollection\"}", "NotFeatures"),
    (b"[]", "NotFeatures"),
    (b"{\"type\":\"Point\",\"coordinates\":[1,2]}", "NotFeatures"),
    (b"{\"type\":[\"Feature\"]}", "NotFeatures"),
    (b"\"Feature\"", "NotFeatures"),
    (b"{\"type\":\"Fea", "Json(Syntax(12))"),
    (b"{\"a\":\"\xff\"}", "Json(NotUtf8(6))"),
    (
        b"[[[[[[[[[[[[[[[[[[[[[[[[[[[[[[[[[[[[[[[[[[[[[[[[[[[[[[[[[[[[[[[[[",
        "Json(TooDeep(64))",
    ),
    (b"", "Json(Syntax(0))"),
    (b"{\"type\":\"Feature\"}}", "Json(Syntax(18))"),
];

#[test]
fn a_text_gives_its_places_and_skips(rt: HostRuntime) -> Result<(), Fail> {
    for (text, wanted) in &TEXTS {
        assert!(rt; gives(rt.alloc(), text, None, wanted)?, "{wanted}");
    }
    Ok(())
}

/// Whether a text made of these two ends and a part between them gives this.
fn gives_between(
    alloc: Global,
    front: &str,
    part: &str,
    back: &str,
    wanted: &str,
) -> Result<bool, AllocError> {
    let text = format!(in alloc; "{front}{part}{back}")?;
    gives(alloc, text.as_bytes(), None, wanted)
}

/// Items, and what each gives. If two reasons apply, the first is given.
static ITEMS: [(&str, &str); 12] = [
    ("5", "skip 0 NotFeature"),
    (
        "{\"type\":\"feature\",\"geometry\":null}",
        "skip 0 NotFeature",
    ),
    (
        "{\"type\":\"Feature\",\"type\":\"Point\"}",
        "skip 0 NotFeature",
    ),
    ("{\"type\":\"Feature\",\"id\":true}", "skip 0 NoGeometry"),
    (
        "{\"type\":\"Feature\",\"geometry\":null}",
        "skip 0 NoGeometry",
    ),
    (
        "{\"type\":\"Feature\",\"geometry\":{\"type\":\"Point\"},\"geometry\":null}",
        "skip 0 NoGeometry",
    ),
    ("{\"type\":\"Feature\",\"geometry\":7}", "skip 0 NotPoint"),
    (
        "{\"type\":\"Feature\",\"geometry\":{\"type\":\"MultiPoint\",\"coordinates\":[[1,2]]},\"id\":[]}",
        "skip 0 NotPoint",
    ),
    (
        "{\"type\":\"Feature\",\"geometry\":{\"type\":\"Point\"},\"id\":[]}",
        "skip 0 BadPosition",
    ),
    (
        "{\"type\":\"Feature\",\"geometry\":{\"type\":\"Point\",\"coordinates\":[181,0]},\"id\":true}",
        "skip 0 OutOfRange",
    ),
    (
        "{\"type\":\"Feature\",\"geometry\":{\"type\":\"Point\",\"coordinates\":[0,0]},\"id\":7,\"id\":true}",
        "skip 0 BadId",
    ),
    (
        "{\"properties\":{\"a\":\"b\"},\"geometry\":{\"coordinates\":[9,9],\"type\":\"Point\",\"coordinates\":[1,2]},\"id\":\"k\",\"type\":\"Feature\"}",
        "k 10000000 20000000 b",
    ),
];

#[test]
fn an_item_gives_a_place_or_the_first_reason(rt: HostRuntime) -> Result<(), Fail> {
    let front = "{\"type\":\"FeatureCollection\",\"features\":[";
    for (item, wanted) in &ITEMS {
        assert!(rt;
            gives_between(rt.alloc(), front, item, "]}", wanted)?,
            "{item}"
        );
    }
    Ok(())
}

/// The coordinates of a Point, and what its Feature gives.
static COORDINATES: [(&str, &str); 20] = [
    ("[180,90]", "- 1800000000 900000000 "),
    ("[-180,-90]", "- -1800000000 -900000000 "),
    ("[1e1,-25e-8]", "- 100000000 -3 "),
    ("[1,2,3]", "- 10000000 20000000 "),
    ("[1,2,\"up\",null]", "- 10000000 20000000 "),
    ("[180.00000004,0]", "- 1800000000 0 "),
    ("[180.00000005,0]", "skip 0 OutOfRange"),
    ("[0,-90.00000005]", "skip 0 OutOfRange"),
    ("[0,100]", "skip 0 OutOfRange"),
    ("[1e6,0]", "skip 0 OutOfRange"),
    ("[1e6,1e6]", "skip 0 OutOfRange"),
    ("[200,\"0\"]", "skip 0 BadPosition"),
    ("[\"1\",2]", "skip 0 BadPosition"),
    ("[1]", "skip 0 BadPosition"),
    ("[]", "skip 0 BadPosition"),
    ("[[1,2]]", "skip 0 BadPosition"),
    ("{\"0\":1,\"1\":2}", "skip 0 BadPosition"),
    (
        "[0.00000000000000000000000000000000000000000000000000000000000000,1]",
        "- 0 10000000 ",
    ),
    (
        "[0.000000000000000000000000000000000000000000000000000000000000000,1]",
        "skip 0 BadPosition",
    ),
    (
        "[200,0.000000000000000000000000000000000000000000000000000000000000000]",
        "skip 0 BadPosition",
    ),
];

#[test]
fn a_position_is_two_numbers_within_range(rt: HostRuntime) -> Result<(), Fail> {
    let front = "{\"type\":\"Feature\",\"geometry\":{\"type\":\"Point\",\"coordinates\":";
    for (coordinates, wanted) in &COORDINATES {
        assert!(rt;
            gives_between(rt.alloc(), front, coordinates, "}}", wanted)?,
            "{coordinates}"
        );
    }
    Ok(())
}

/// Identifiers, and what a Feature at 0, 0 gives with them.
static IDS: [(&str, &str); 11] = [
    ("7", "7 0 0 "),
    ("7.0", "7.0 0 0 "),
    ("\"7\"", "7 0 0 "),
    ("-0E+1", "-0E+1 0 0 "),
    ("\"\\u00e9\"", "é 0 0 "),
    ("null", "- 0 0 "),
    ("true", "skip 0 BadId"),
    ("{}", "skip 0 BadId"),
    ("\"\"", "skip 0 BadId"),
    (
        "\"0123456789012345678901234567890123456789012345678901234567890123\"",
        "0123456789012345678901234567890123456789012345678901234567890123 0 0 ",
    ),
    (
        "\"01234567890123456789012345678901234567890123456789012345678901234\"",
        "skip 0 BadId",
    ),
];

#[test]
fn an_id_is_a_key_as_it_is_spelled(rt: HostRuntime) -> Result<(), Fail> {
    let front =
        "{\"type\":\"Feature\",\"geometry\":{\"type\":\"Point\",\"coordinates\":[0,0]},\"id\":";
    for (id, wanted) in &IDS {
        assert!(rt; gives_between(rt.alloc(), front, id, "}", wanted)?, "{id}");
    }
    Ok(())
}

/// Properties, the one member that is read if any, and the text of a Feature at 0, 0.
static PROPERTIES: [(&str, Option<&str>, &str); 18] = [
    ("{\"a\":\"x\",\"b\":1,\"c\":\"y\"}", None, "x\ny"),
    ("{\"a\":\"x\",\"a\":\"y\"}", None, "y"),
    ("{\"a\":\"x\",\"b\":\"z\",\"a\":\"y\"}", None, "z\ny"),
    ("{\"a\":\"x\",\"a\":1}", None, ""),
    ("{\"a\":1,\"b\":\"z\",\"a\":\"x\"}", None, "z\nx"),
    (
        "{\"a\":{\"b\":\"deep\"},\"c\":[\"s\"],\"d\":\"t\"}",
        None,
        "t",
    ),
    ("{\"a\":\"\",\"b\":\"x\",\"c\":\"\"}", None, "\nx\n"),
    ("{}", None, ""),
    ("null", None, ""),
    ("[\"x\"]", None, ""),
    ("\"x\"", None, ""),
    ("{\"name\":\"A\",\"b\":\"B\"}", Some("name"), "A"),
    ("{\"name\":\"A\",\"name\":\"B\"}", Some("name"), "B"),
    ("{\"name\":\"A\",\"name\":1}", Some("name"), ""),
    ("{\"Name\":\"A\"}", Some("name"), ""),
    ("{\"\":\"A\",\"b\":\"B\"}", Some(""), "A"),
    ("\"name\"", Some("name"), ""),
    (
        "null,\"properties\":{\"n\\u0061me\":\"x\"}",
        Some("name"),
        "x",
    ),
];

/// Whether a Feature at 0, 0 with these properties has this text.
fn has_text(
    alloc: Global,
    properties: &str,
    only: Option<&str>,
    wanted: &str,
) -> Result<bool, AllocError> {
    let text = format!(in alloc;
        "{{\"type\":\"Feature\",\"geometry\":{{\"type\":\"Point\",\"coordinates\":[0,0]}},\"properties\":{properties}}}"
    )?;
    let wanted = format!(in alloc; "- 0 0 {wanted}")?;
    gives(alloc, text.as_bytes(), only, wanted.as_str())
}

#[test]
fn a_text_is_the_strings_among_the_properties(rt: HostRuntime) -> Result<(), Fail> {
    for (properties, only, wanted) in &PROPERTIES {
        assert!(rt;
            has_text(rt.alloc(), properties, *only, wanted)?,
            "{properties}"
        );
    }
    Ok(())
}
