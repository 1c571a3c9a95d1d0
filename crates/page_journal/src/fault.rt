//! Why a call of the journal failed.
ghost use Rattle.std.specs.Prelude.{◌≡◌};
ghost use Rattle.page_journal.specs.declared.fault.JournalFault.TheVariants as faults;

use disk_model::Failed;

/// Why an append, a checkpoint or a recovery failed.
#[derive(Clone, Copy, Debug, PartialEq, Eq)]
pub enum JournalFault {
    /// The disk failed, and its count of faults rose.
    Disk,
    /// An open gate comes before bytes that are no record: the offset of the first byte of the field that breaks its form.
    BadJournal(u64),
}

impl From<Failed> for JournalFault {
    ghost from_gives = { λ _ e. e ≡ faults.Disk };

    fn from(_: Failed) -> Self {
        JournalFault::Disk
    }
}
