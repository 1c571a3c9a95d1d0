use crate::lexeme::Lexeme;
use crate::tree::Tree;
use std::alloc::Global;

/// An array or an object that waits for a value.
#[derive(Drop)]
pub(crate) enum Open {
    List(Vec<Tree>),
    /// The members so far, and the name of the next one.
    Object(Vec<(String, Tree)>, String),
}

/// What may come while no token is open.
#[derive(Drop)]
pub(crate) enum Place {
    /// Nothing was read.
    Start,
    /// The first byte of a byte order mark was read. In `Mark2`, the second was too.
    Mark1,
    Mark2,
    /// A value has to come.
    Value,
    FirstItem,
    BehindItem(Vec<Tree>),
    FirstName,
    /// A name has to come after these members.
    Name(Vec<(String, Tree)>),
    BehindName(Vec<(String, Tree)>, String),
    BehindMember(Vec<(String, Tree)>),
    /// The value of the text is whole.
    Ended(Tree),
}

/// A reader of JSON that takes one byte at a time.
#[derive(Drop)]
pub(crate) struct Reader {
    pub alloc: Global,
    pub lexeme: Lexeme,
    /// What may come while no token is open. In a string: whether the string is a name.
    pub place: Place,
    /// The number so far, or the decoded string so far.
    pub token: String,
    /// The high surrogate right before, if there is one.
    pub high: Option<u32>,
    /// The digits so far of the code unit that is being read.
    pub first: u8,
    pub second: u8,
    pub third: u8,
    /// The open arrays and objects, the innermost last.
    pub opened: Vec<Open>,
}
