//! The reply to each line.
use crate::runs::{RUN, ends_so, numbered};
use irtree_top::Ended;
use std::alloc::AllocError;
use std::test::Fail;

// A script, and what it prints.
static SCRIPTS: [(&[u8], &[u8]); 14] = [
    // A place is shown with its label, and its words in their order.
    (
        b"add k 0 0 Caf\xc3\xa9 caf\xc3\xa9 bar\nshow k\nshow z\n",
        b"ok\nplace \"k\" 0.0000000 0.0000000 2 \"Caf\xc3\xa9 caf\xc3\xa9 bar\"\n\"bar\" 85\n\"caf\xc3\xa9\" 170\nabsent\n",
    ),
    // The cost of a top query, with and without its reasons.
    (
        b"add p 0 0.5 cafe\nadd q 0 0 cafe bar\ntop 0 0 2 500 1 words cafe\nexplain top 0 0 1 500 1 words cafe\n",
        b"ok\nok\n= 2\n1 \"q\" 635000000000\n2 \"p\" 637500000000\n= 1\n1 \"q\" 635000000000 at 0.0000000 0.0000000 dist 0.0000000 text 128 of 255\n",
    ),
    // A place is replaced and taken out.
    (
        b"add a 0 0 x\nadd a 1 1 y\nrange 0 0 180 where x\nremove a\nremove a\n",
        b"ok\nok replaced\n= 0\nok\nabsent\n",
    ),
    // A group of least cost, which is not that of the nearest places.
    (
        b"add a1 1 0 a\nadd b1 -1 0 b\nadd c1 0 -1 c\nadd b2 1.2 0 b\nadd c2 1.1 0 c\ngroup 0 0 words a b c\n",
        b"ok\nok\nok\nok\nok\n= 3 1.4000000\n1 \"a\" \"a1\" 1.0000000\n2 \"b\" \"b2\" 1.2000000\n3 \"c\" \"c2\" 1.1000000\n",
    ),
    // A place that serves two words, a word that no place has, and a word that is named twice.
    (
        b"add m 0 1 a b\ngroup 0 0 words a b\ngroup 0 0 words a z\ngroup 0 0 words a A\n",
        b"ok\n= 2 1.0000000\n1 \"a\" \"m\" 1.0000000\n2 \"b\" \"m\" 1.0000000\nnone\nbad word\n",
    ),
    // A place that serves three words costs less in sum than three places. Its reasons, a word that no place has, and one with a weight.
    (
        b"add m 0 2 a b c\nadd a1 1 0 a\nadd b1 0 1 b\nadd c1 -1 0 c\ngather 0 0 words a b c\nexplain gather 0 0 scale 500 words a\ngather 0 0 words a z\ngather 0 0 words a*2\n",
        b"ok\nok\nok\nok\n= 3 2.0000000\n1 \"a\" \"m\" 2.0000000\n2 \"b\" \"m\" 2.0000000\n3 \"c\" \"m\" 2.0000000\n= 1 0.5000000\n1 \"a\" \"a1\" 0.5000000 at 1.0000000 0.0000000\nnone\nbad word\n",
    ),
    // Weights by rarity: one place has \"bar\", and both have \"cafe\".
    (
        b"add p 0 0.5 cafe\nadd q 0 0 cafe bar\ntop 0 0 2 500 1 idf words cafe bar\ntop 0 0 2 500 1 idf words tea\ntop 0 0 2 500 1 idf words cafe*2\nexplain top 0 0 2 500 1 idf words cafe\ntop 0 0 2 500 1 words idf\n",
        b"ok\nok\n= 2\n1 \"q\" 1905000000000\n2 \"p\" 4462500000000\n= 0\nbad word\nbad extra\n= 0\n",
    ),
    // Filters, a reserved word in quotes, and the border of a box.
    (
        b"add u 0 0 a\nadd v 0 1 a b\nadd w 0 2 a and\nrange 0 0 5 where a and not (b or c)\nrange 0 0 5 where \"and\"\nrange 0 0 5 where a b\nbox -1 -1 1 1\nbox 1 0 -1 0\n",
        b"ok\nok\nok\n= 2\n1 \"u\" 0.0000000\n2 \"w\" 2.0000000\n= 1\n1 \"w\" 2.0000000\nbad extra\n= 2\n1 \"u\"\n2 \"v\"\nbad range\n",
    ),
    // Each reason why a line is refused, the first from the left.
    (
        b"fly\nadd\nadd #1 0 0\nadd \"\" 0 0\nadd a x 0\nadd a 181 0\nrange 0 0 5 where (a\nrange 0 0 5 where and\nremove a b\ntop 0 0 1 500 1 words a*21\n",
        b"bad command\nbad missing\nbad key\nbad key\nbad number\nbad range\nbad missing\nbad expression\nbad extra\nbad range\n",
    ),
    // Longitudes meet at the 180th meridian.
    (
        b"add e 179.9 0\nadd f -179.8 0\nnearest -179.9 0 2\n",
        b"ok\nok\n= 2\n1 \"f\" 0.1000000\n2 \"e\" 0.2000000\n",
    ),
    // A scale of longitudes, and what is none.
    (
        b"add g 3 4\nnearest 0 0 1 scale 500\nnearest 0 0 1 scale 0\nnearest 0 0 1 scale 1001\nnearest 0 0 1 scale\nnearest 0 0 1 \"scale\" 0\nbox 0 0 5 5 scale 500\n",
        b"ok\n= 1\n1 \"g\" 4.2720018\n= 1\n1 \"g\" 4.0000000\nbad range\nbad missing\nbad extra\nbad extra\n",
    ),
    // A key that holds a tab.
    (
        b"add \"x\\ty\" 0 0 q\nnearest 0 0 1\n",
        b"ok\n= 1\n1 \"x\\ty\" 0.0000000\n",
    ),
    // A label goes with its place. Blanks before the text are none of it, those behind are.
    (
        b"add a 0 0 x\nadd a 1 1   y \nshow a\nadd a 2 2\nshow a\nremove a\nshow a\n",
        b"ok\nok replaced\nplace \"a\" 1.0000000 1.0000000 1 \"y \"\n\"y\" 255\nok replaced\nplace \"a\" 2.0000000 2.0000000 0 \"\"\nok\nabsent\n",
    ),
    // A label with quotes, a backslash and control characters.
    (
        b"add k 0 0 \"x\" \\ \t\x01\x1f\x7f\nshow k\n",
        b"ok\nplace \"k\" 0.0000000 0.0000000 1 \"\\\"x\\\" \\\\ \\t\\u0001\\u001f\x7f\"\n\"x\" 255\n",
    ),
];

// How many bytes `x` a text has and what follows them, and the same of its label.
static CUTS: [(usize, &str, usize, &str); 10] = [
    (62, "", 62, ""),
    (63, "", 63, ""),
    (64, "", 63, ""),
    (61, "é", 61, "é"),
    (62, "é", 62, ""),
    (60, "€", 60, "€"),
    (61, "€", 61, ""),
    (59, "𝄞", 59, "𝄞"),
    (60, "𝄞", 60, ""),
    (61, "éx", 61, "é"),
];

#[test]
fn each_line_is_answered(rt: HostRuntime) -> Result<(), Fail> {
    for (row, (input, replies)) in SCRIPTS.iter().enumerate() {
        assert!(rt;
            ends_so(rt.alloc(), &RUN, input, 1_000, Ended::Done, replies)?,
            "row {row}"
        );
    }
    Ok(())
}

// Forty places are at one point, more than a node of the tree holds.
#[test]
fn a_tie_goes_to_the_lesser_keys(rt: HostRuntime) -> Result<(), Fail> {
    let mut script = numbered(rt.alloc(), 40, "add k# 1 1 x\n")?;
    script.push_str("top 0 0 5 500 1 words x\n")?;
    let mut replies = numbered(rt.alloc(), 40, "ok\n")?;
    replies.push_str(
        "= 5\n1 \"k00\" 1803122212500\n2 \"k01\" 1803122212500\n3 \"k02\" 1803122212500\n4 \"k03\" 1803122212500\n5 \"k04\" 1803122212500\n",
    )?;
    let (script, replies) = (script.as_bytes(), replies.as_bytes());
    assert!(rt; ends_so(rt.alloc(), &RUN, script, 1_000, Ended::Done, replies)?);
    Ok(())
}

// Appends a text that begins with so many bytes `x`.
fn push_text(out: &mut String, count: usize, rest: &str) -> Result<(), AllocError> {
    for _ in 0..count {
        out.push_str("x")?;
    }
    out.push_str(rest)
}

#[test]
fn a_label_is_cut_between_characters(rt: HostRuntime) -> Result<(), Fail> {
    let mut script = String::new(rt.alloc());
    let mut replies = String::new(rt.alloc());
    for (count, rest, kept, kept_rest) in &CUTS {
        script.push_str("add k 0 0 ")?;
        push_text(&mut script, *count, rest)?;
        script.push_str("\nshow k\nremove k\n")?;
        replies.push_str("ok\nplace \"k\" 0.0000000 0.0000000 0 \"")?;
        push_text(&mut replies, *kept, kept_rest)?;
        replies.push_str("\"\nok\n")?;
    }
    let (script, replies) = (script.as_bytes(), replies.as_bytes());
    assert!(rt; ends_so(rt.alloc(), &RUN, script, 1_000, Ended::Done, replies)?);
    Ok(())
}
