//! What a token can be in an expression.
ghost use Rattle.std.specs.Prelude.{◌≡◌};
ghost use Rattle.line_tokens.specs.Seen.{seen};
ghost use Rattle.line_tokens.specs.Token as tokens;
ghost use Rattle.query_lang.specs.Expression.{kind_of};
ghost use Rattle.query_lang.specs.Kinds.{kind_seen};
ghost use Rattle.query_lang.specs.Reader as reader;

use line_tokens::Token;

/// What a token can be in an expression.
#[derive(Clone, Copy)]
pub(crate) enum Kind<'a> {
    /// A bare word, or the content of a literal.
    Word(&'a str),
    /// `not`
    Not,
    /// `(`
    Open,
    /// `)`
    Close,
    /// `or`, `and`, or a literal that does not end.
    Other,
}

// What a bare token is.
fn bare_kind(text: &str) -> Kind<'_>
    ensures { kind_seen result ≡ kind_of (tokens.Bare text.now) }
{
    match text {
        "or" => Kind::Other,
        "and" => Kind::Other,
        "not" => Kind::Not,
        _ => Kind::Word(text),
    }
}

/// Returns what a token is. `or`, `and` and `not` are words only if they are quoted.
pub(crate) fn kind_in<'a>(token: &'a Token<'_>) -> Kind<'a>
    ensures { kind_seen result ≡ kind_of (seen token.now) }
{
    match token {
        Token::Bare(text) => bare_kind(text),
        Token::Quoted(text) => Kind::Word(text.as_str()),
        Token::Open => Kind::Open,
        Token::Close => Kind::Close,
        Token::Broken => Kind::Other,
    }
}

/// Returns whether a token is this bare word.
pub(crate) fn is_word(token: &Token, word: &str) -> bool
    ensures { result ≡ reader.is_word word.now (seen token.now) }
{
    match token {
        Token::Bare(text) => *text == word,
        _ => false,
    }
}
