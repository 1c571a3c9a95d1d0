//! The three maps of a store's tables.

/// The roots of the place table and of the word tables, and the next word number.
#[derive(Clone, Copy, Debug, PartialEq, Eq)]
pub struct Tables {
    /// Root of the places by key.
    pub places: u32,
    /// Root of the words by text.
    pub texts: u32,
    /// Root of the words by number.
    pub numbers: u32,
    /// The number that the next new word is given.
    pub next_word: u64,
}
