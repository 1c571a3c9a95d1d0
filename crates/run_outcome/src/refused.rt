//! How a run ends if the engine refused.
ghost use Rattle.std.specs.Prelude.{◌≡◌};
ghost use Rattle.run_outcome.specs.Causes.{end_of_engine};

use crate::{Ended, LimitFault, StoreFault};
use irtree_engine::EngineFault;

/// Returns how a run ends if the engine refused a call for this cause.
pub fn ended_by(fault: EngineFault) -> Ended
    ensures { result ≡ end_of_engine fault }
{
    match fault {
        EngineFault::Disk | EngineFault::Stopped => Ended::Disk,
        EngineFault::NotAStore => Ended::Store(StoreFault::NotAStore),
        EngineFault::BadJournal(at) => Ended::Store(StoreFault::BadJournal(at)),
        EngineFault::Damaged(damage) => Ended::Store(StoreFault::Damaged(damage)),
        EngineFault::Full => Ended::Limit(LimitFault::Full),
        EngineFault::Worn => Ended::Limit(LimitFault::Worn),
        EngineFault::NoRoom => Ended::Limit(LimitFault::NoRoom),
        EngineFault::Version1 => Ended::Store(StoreFault::Version1),
        EngineFault::Memory => Ended::Memory,
    }
}
