//! Stores that runs make, and the bytes of their pages.
use crate::tree_nodes::number_at;
use disk_model::{Area, Disk, MemorySource, MemoryStation};
use irtree_top::{Ended, run};
use split_policy::SplitPolicy;
use std::alloc::Global;
use std::test::Fail;

/// How many pages a station has room for.
pub(crate) const ROOM: u32 = 100_000;

/// Runs an action on a text under a policy, and fails unless it ends well.
pub(crate) fn run_well(
    alloc: Global,
    action: &str,
    text: &str,
    station: &mut MemoryStation,
    policy: Box<dyn SplitPolicy>,
) -> Result<(), Fail> {
    let mut words = Vec::new(alloc);
    words.push("-".to_string(alloc)?)?;
    words.push(action.to_string(alloc)?)?;
    let mut source = MemorySource::new(alloc, text.as_bytes(), 65_536, &[])?;
    match run(alloc, &words, &mut source, station, policy) {
        Ended::Done => Ok(()),
        _ => Err("the run didn't end well".into()),
    }
}

// The first bytes of a station's pages.
fn first_bytes(alloc: Global, station: &mut MemoryStation, len: u32) -> Result<Vec<u8>, Fail> {
    let mut bytes = vec![in alloc; 0; len as usize]?;
    station.read(Area::Pages, 0, &mut bytes)?;
    Ok(bytes)
}

/// Returns the bytes of all pages of a store.
pub(crate) fn all_pages(alloc: Global, station: &mut MemoryStation) -> Result<Vec<u8>, Fail> {
    let head = first_bytes(alloc, station, 4_096)?;
    let counted = number_at(&head, 0, 8)?;
    first_bytes(alloc, station, counted.saturating_mul(4_096))
}
