//! Runs in which calls of the station fail.
use disk_model::{CallKind, Fail as Planned, MemoryStation, Tear};
use irtree_top::Ended;
use std::test::Fail;

/// What a crash may do to bytes that are pending.
pub(crate) static TEARS: [Tear; 5] = [
    Tear::Kept,
    Tear::Lost,
    Tear::Filled(0),
    Tear::Filled(1),
    Tear::Filled(255),
];

/// Which calls of a station fail, by a number that counts from 1.
#[derive(Clone, Copy, Debug)]
pub(crate) enum Failing {
    /// The call of this number among those of a kind.
    Once(CallKind),
    /// The call of this number among all, and each later one.
    Onward,
}

/// Each way in which calls fail.
pub(crate) static EACH_WAY: [Failing; 5] = [
    Failing::Once(CallKind::Read),
    Failing::Once(CallKind::Write),
    Failing::Once(CallKind::Sync),
    Failing::Once(CallKind::Say),
    Failing::Onward,
];

/// Makes calls of a station fail.
pub(crate) fn set_to_fail(
    station: &mut MemoryStation,
    failing: Failing,
    nth: u64,
) -> Result<(), Fail> {
    match failing {
        Failing::Once(kind) => station.fail_at(&[Planned { kind, nth }])?,
        Failing::Onward => station.stop_after(nth.saturating_sub(1)),
    }
    Ok(())
}

// Whether a process's status is that of a call that fails so.
fn is_status_of(failing: Failing, status: u8) -> bool {
    match failing {
        Failing::Once(CallKind::Say) => status == 5,
        Failing::Once(_) => status == 3,
        Failing::Onward => status == 3 || status == 5,
    }
}

/// Whether no call of a station has failed.
pub(crate) fn is_faultless(station: &MemoryStation) -> bool {
    station.faults() == (0, 0)
}

/// Whether a run over a station in which calls failed so has their status, and printed a prefix of a text. If none failed, it must be done
/// and have printed all of it.
pub(crate) fn is_named(
    failing: Failing,
    ended: Ended,
    station: &MemoryStation,
    whole: &[u8],
) -> bool {
    if is_faultless(station) {
        ended == Ended::Done && station.said() == whole
    } else {
        is_status_of(failing, ended.status()) && whole.starts_with(station.said())
    }
}
