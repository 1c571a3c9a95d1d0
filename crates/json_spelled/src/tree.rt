/// A JSON value. A value that was read has at most 64 levels of arrays and objects.
#[derive(Debug, PartialEq, Drop)]
pub enum Tree {
    /// `null`.
    Null,
    /// `true` or `false`.
    Truth(bool),
    /// A number, as it is spelled.
    Spelled(String),
    /// A string with its escapes decoded. A surrogate without its partner is U+FFFD.
    Text(String),
    /// An array.
    List(Vec<Tree>),
    /// An object: its members in the text's order, repeats included.
    Members(Vec<(String, Tree)>),
}

/// Why a text is refused. An offset counts bytes from 0, those of a byte order mark included.
#[derive(Clone, Copy, Debug, PartialEq, Eq, Drop)]
pub enum JsonFault {
    /// The first ill-formed sequence of UTF-8 begins at this offset.
    NotUtf8(u64),
    /// The bytes before this offset begin some JSON text, but the byte at the offset does not continue one, or the text ends there too
    /// early.
    Syntax(u64),
    /// The bracket at this offset opens the 65th level of arrays and objects.
    TooDeep(u64),
    /// Memory ran out.
    Memory,
}
