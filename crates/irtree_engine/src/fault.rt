//! Why a call of the engine was refused.
ghost use Rattle.std.specs.Prelude.{◌≡◌};

use page_face::{Damage, PageFault, Rule};

/// Why a call of the engine was refused.
#[derive(Clone, Copy, Debug, PartialEq, Eq)]
pub enum EngineFault {
    /// The disk failed, and its count of faults rose.
    Disk,
    /// Page 0 of the recovered store isn't all zero, and begins neither with the magic nor with that of version 1.
    NotAStore,
    /// An open gate is followed by bytes that are no record. The number is the offset of the field that breaks its form.
    BadJournal(u64),
    /// A page breaks a rule, so the image is no well-formed store.
    Damaged(Damage),
    /// 1,000,000 or more places live, and the key is new.
    Full,
    /// The update number is 2^40, and the update would change the map.
    Worn,
    /// No page is free, and there is room for no more pages than are counted.
    NoRoom,
    /// An earlier commit of this engine failed: the store is to be opened again.
    Stopped,
    /// Page 0 of the recovered store begins with the magic of version 1.
    Version1,
    /// Out of memory, or a change that would take more pages than it is allowed.
    Memory,
}

impl From<PageFault> for EngineFault {
    ghost use Rattle.std.specs.Prelude.{◌≡◌};
    ghost use Rattle.irtree_engine.specs.Faults.{fault_of_pages};

    ghost from_gives = { λ fault engine. engine ≡ fault_of_pages fault };

    fn from(fault: PageFault) -> EngineFault {
        match fault {
            PageFault::Disk => EngineFault::Disk,
            PageFault::NoRoom => EngineFault::NoRoom,
            PageFault::Stopped => EngineFault::Stopped,
            PageFault::Damaged(damage) => EngineFault::Damaged(damage),
            PageFault::Memory => EngineFault::Memory,
        }
    }
}

/// A rule that page 0's fields break.
pub(crate) fn broken_by_head(rule: Rule) -> Damage
    ensures { result ≡ record { page = 0; rule = rule } }
{
    Damage { page: 0, rule }
}
