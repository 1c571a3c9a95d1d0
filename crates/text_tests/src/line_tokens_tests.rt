use line_tokens::{Quoted, Token, next_token};
use std::alloc::{AllocError, Global};
use std::fmt::Write;
use std::test::Fail;

/// Lines, and their tokens: a run as `run:..`, the content of a literal as `says:..`, and each token before a `|`.
static LINES: [(&str, &str); 9] = [
    // A line of blanks only has no token.
    ("", ""),
    (" \t ", ""),
    // Tabs separate as spaces do, however many there are.
    ("\tadd  Nyhavn\t12.59 ", "run:add|run:Nyhavn|run:12.59|"),
    // A parenthesis ends a run and is a token of its own. Other marks belong to a run.
    (
        "(caf\u{e9})and #1*20",
        "(|run:caf\u{e9}|)|run:and|run:#1*20|",
    ),
    // A literal keeps its blanks and may be empty. It ends a run, and a run may begin right after it.
    ("show\"a (b)\"\"\"to", "run:show|says:a (b)|says:|run:to|"),
    // Escapes give other characters. Half a surrogate pair gives U+FFFD.
    (
        "\"\\\"\\u00e9\\n\\ud83d\\ude00\\ud83d\" x",
        "says:\"\u{e9}\n\u{1f600}\u{fffd}|run:x|",
    ),
    // A literal that does not end, a tab in a literal, and an unknown escape each break the rest of the line.
    ("remove \"a b", "run:remove|broken|"),
    ("x \"a\tb\" c", "run:x|broken|"),
    ("x \"a\\e\" c", "run:x|broken|"),
];

/// Appends a token.
fn tell(out: &mut String, token: &Token) -> Result<(), AllocError> {
    match token {
        Token::Bare(run) => write!(out, "run:{run}|")?,
        Token::Quoted(literal) => {
            let says = literal.as_str();
            write!(out, "says:{says}|")?
        }
        Token::Open => write!(out, "(|")?,
        Token::Close => write!(out, ")|")?,
        Token::Broken => write!(out, "broken|")?,
    }
    Ok(())
}

/// The tokens of a line.
fn told(alloc: Global, line: &str) -> Result<String, Fail> {
    let mut told = String::new(alloc);
    let mut text = line;
    // A token has at least one byte, so one step more finds the end of each line.
    for _ in 0..=line.len() {
        let Some((token, rest)) = next_token(alloc, text)? else {
            break;
        };
        tell(&mut told, &token)?;
        text = rest;
    }
    Ok(told)
}

#[test]
fn lines_have_their_tokens(rt: HostRuntime) -> Result<(), Fail> {
    for (line, wanted) in &LINES {
        let told = told(rt.alloc(), line)?;
        assert_eq!(rt; told.as_str(), *wanted);
    }
    Ok(())
}
