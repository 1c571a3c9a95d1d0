//! The tokens of a line.
ghost use Rattle.std.specs.Prelude.{◌≡◌};

/// A token of a line.
#[derive(Drop)]
pub enum Token<'a> {
    /// A longest run of bytes without a space, a tab, a parenthesis or a quotation mark.
    Bare(&'a str),
    /// A JSON string literal.
    Quoted(Quoted<'a>),
    /// `(`
    Open,
    /// `)`
    Close,
    /// A quotation mark that begins no whole literal, and the rest of the line.
    Broken,
}

/// The content of a JSON string literal. Without an escape, it is the literal's own bytes.
#[derive(Drop)]
pub enum Quoted<'a> {
    /// The bytes between the quotation marks.
    Plain(&'a str),
    /// The decoded text of a literal with escapes. A surrogate without its partner is U+FFFD.
    Decoded(String),
}

impl Quoted<'_> {
    ghost use Rattle.line_tokens.specs.Seen.{says};

    /// Returns the literal's content.
    pub fn as_str(&self) -> &str
        ensures { result.now ≡ says self.now }
    {
        match self {
            Quoted::Plain(text) => text,
            Quoted::Decoded(text) => text.as_str(),
        }
    }
}
