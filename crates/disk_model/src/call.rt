//! The calls of a station.
use crate::Area;

/// The kinds of call that can be made to fail.
#[derive(Clone, Copy, Debug, PartialEq, Eq)]
pub enum CallKind {
    /// A read of an area.
    Read,
    /// A write to an area.
    Write,
    /// A sync of an area.
    Sync,
    /// A write to the sink.
    Say,
}

/// The `nth` call of a kind, counted from 1.
#[derive(Clone, Copy, Debug, PartialEq, Eq)]
pub struct Fail {
    /// The kind of call.
    pub kind: CallKind,
    /// Its number among the calls of this kind.
    pub nth: u64,
}

// A call in a memory station's record.
#[derive(Drop)]
pub(crate) enum Call {
    // area, offset and length
    Read(Area, u64, usize),
    // area, offset and bytes, and whether the write succeeded
    Write(Area, u64, Vec<u8>, bool),
    // area, and whether the sync succeeded
    Sync(Area, bool),
    // the piece, and how many bytes of it were written to the sink
    Say(Vec<u8>, usize),
}
