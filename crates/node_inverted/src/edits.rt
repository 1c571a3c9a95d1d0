//! Changes of a node's rows.
ghost use Rattle.std.specs.Prelude.{◌≡◌, ◌<◌, ℕ, IfSome, IfNone};

use crate::taking::NodeRow;

/// A slot of a node.
#[derive(Drop, Clone, Copy)]
pub(crate) struct Slot {
    pub(crate) at: usize,
    ghost fits: { at < 32 },
}

/// A change of a row.
#[derive(Drop, Clone, Copy)]
pub(crate) enum RowEdit<'a> {
    /// The row is set to these bytes.
    Set(&'a [u8; 32]),
    /// The byte at the slot is raised to at least the impact.
    Raise(Slot, u8),
}

/// Changes of the rows of one node, one after another.
#[derive(Drop, Clone, Copy)]
pub(crate) enum RowEdits<'a> {
    /// These rows are set.
    Sets(&'a [NodeRow]),
    /// A slot is raised by these words, each by its number, with their impacts.
    Raises(Slot, &'a [(u64, u8)]),
}

impl<'a> RowEdits<'a> {
    ghost use Rattle.node_rows.specs.Rows.{Bytes};
    ghost use Rattle.node_inverted.specs.Drafts.{edited, edited_by, edits_in};

    /// The first row's word, by its number, its change, and the changes after it; or `None` if there is none.
    pub fn split_first(&self) -> Option<(u64, RowEdit<'a>, RowEdits<'a>)>
        ensures some { IfSome result (λ parts. (node : ℕ) (b : Bytes) → edited_by node self.now b ≡ edited_by node parts.2 (edited node parts.0 parts.1 b)) }
        ensures fewer { IfSome result (λ parts. edits_in parts.2 < edits_in self.now) }
        ensures none { IfNone result ((node : ℕ) (b : Bytes) → edited_by node self.now b ≡ b) }
    {
        match self {
            RowEdits::Sets(rows) => {
                let (row, rest) = rows.split_first()?;
                Some((row.number, RowEdit::Set(&row.bytes), RowEdits::Sets(rest)))
            }
            RowEdits::Raises(slot, pairs) => {
                let (pair, rest) = pairs.split_first()?;
                Some((
                    pair.0,
                    RowEdit::Raise(*slot, pair.1),
                    RowEdits::Raises(*slot, rest),
                ))
            }
        }
    }
}
