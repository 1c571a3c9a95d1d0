//! An example of the library: the ten places nearest to a point.
//!
//! The README quotes this file. A crate of your own begins as this one does: it names the crates that it uses in `crates.txt`.
#![tactic(auto)]

use disk_model::Station;
use irtree_engine::{Engine, EngineFault};
use place_values::{Answer, Query};
use spatial_base::{Point, SCALE_MAX};
use split_policy::SplitPolicy;
use std::alloc::Global;

/// Returns the ten places nearest to a point in the store that a station holds, nearest first; fewer if fewer live there.
///
/// Refuses what `Engine::open` and `Engine::answer` refuse. What the answer is, the clause `answered` of `Engine::answer` states.
pub fn ten_nearest<S: Station>(
    alloc: Global,
    station: &mut S,
    policy: Box<dyn SplitPolicy>,
    point: Point,
) -> Result<Answer, EngineFault> {
    let nearest = Query::Nearest {
        at: point,
        scale: SCALE_MAX,
        k: 10,
        filter: None,
    };
    let mut engine = Engine::open(alloc, station, 1_024, policy)?;
    let answer = engine.answer(&nearest);
    let _station = engine.into_disk();
    answer
}
