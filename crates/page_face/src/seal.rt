//! A seal: what a page of cells was found to be when it was checked.

/// What a page of a map is checked as: the map's number, the lengths of its keys and values in bytes, and the page's level.
///
/// `specs/Sound.antt` states which rules a page keeps by itself, so that it needn't be checked again while its bytes stay the same.
#[derive(Clone, Copy, Debug, PartialEq, Eq)]
pub struct Seal {
    /// The map's number.
    pub map: u8,
    /// Length of a key.
    pub key: usize,
    /// Length of a value.
    pub value: usize,
    /// The page's level; 0 is a leaf.
    pub level: u8,
}
