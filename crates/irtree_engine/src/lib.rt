//! A store as one object: the map of live places on a disk that may crash.
//!
//! An [`Engine`] borrows a station. If the contracts know the station's bytes, the engine holds the state that the station's image holds
//! (`store_model`). [`Engine::show`], [`Engine::count`] and [`Engine::answer`] read that state, and [`Engine::apply`] and
//! [`Engine::apply_batch`] change it. An update, or a whole batch of them, is stored in one commit. A crash at any moment of it leaves an
//! image of the state before it or of the one after all of it. [`Engine::open`], which recovers the journal, keeps that state.
//! [`Engine::settle`] brings what the journal holds to its place, and [`Engine::read_log`] names the pages that the last call requested.
//! [`Engine::verify`] decides whether the image holds a state at all, and otherwise names a page and the rule that is broken there.
//!
//! Beside the place table the store keeps an R-tree with one entry for each place, which the same commit changes. It grows under the policy
//! that the engine was handed, a box of any `SplitPolicy`; [`Engine::set_policy`] hands it another. Answers come from the tree. The policy
//! decides how much of the tree a query looks at, and no answer.
//!
//! After a refusal the map is as before. A commit that fails stops the engine: from then on each call that reads or changes places returns
//! `Stopped`, and the store is to be opened again.
//!
//! [`recover_superblock`] and then [`Engine::over`] are together `open`, for a caller that has to know what a refused opening left.
//! [`Engine::into_disk`] gives the loan back.
//!
//! Tests: `search_tests/src/irtree_engine_tests.rt`.
#![tactic(auto)]

mod answering;
mod change;
mod engine;
mod fault;
mod opening;
mod queries;
mod ranges;
mod reading;
mod room;
mod updating;
mod upgrading;
mod verifying;

pub use engine::Engine;
pub use fault::EngineFault;
pub use opening::recover_superblock;
pub use store_verify::Verdict;
pub use upgrading::upgrade;
