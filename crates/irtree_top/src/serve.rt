//! A job, over a store that is opened.
ghost use Rattle.std.specs.Prelude.{◌≡◌, ◌≢◌, ◌≤◌, false, option_copied, option_map, string_bytes, IfErr, IsErrOf, IsTrue, OnOk};
ghost use Rattle.disk_model.specs.World.{HasDiskCause, LeavesOnly, LeavesOnlySeen, ReadsJournalOnly};
ghost use Rattle.place_values.specs.State.{Contents};
ghost use Rattle.irtree_engine.specs.Holding.{HoldsState, IsOpenable, LeavesState};
ghost use Rattle.irtree_engine.specs.Queries.{contents_held};
ghost use Rattle.irtree_engine.specs.Verified.{HoldsSome};
ghost use Rattle.page_face.specs.declared.fault.Damage.{Damage};
ghost use Rattle.run_outcome.specs.Asking.{AreAsking};
ghost use Rattle.page_journal.specs.Record.{IsReady};
ghost use Rattle.run_outcome.specs.Causes.{GoesOn, HasJobEnd};
ghost use Rattle.run_outcome.specs.Reading.{AreReading, IsMetIn};
ghost use Rattle.run_outcome.specs.Script.{script_lines};
ghost use Rattle.irtree_top.specs.Run.{EndsJob, HasRunEnd, HoldsPrefix, IsLimitReached, IsInputEnd, IsLimitOf, IsUnreadEnd, IsWholeInput, LacksRoomFor, LeavesAlike, LeavesAlone, LeavesAtRest, LeavesInput, NamesBrokenRule, OpensFew, ReachesLimitBy, ReadsNothing, RestsIfOpened};
ghost use Rattle.irtree_top.specs.Verify.{SaysBroken, TellsBroken};
ghost use Rattle.command_words.specs.Job.{asked_of};

use crate::verifying::run_verify;
use crate::{transcript_is_one, transcript_is_some};
use command_words::{Action, Job};
use disk_model::{Failed, Source, Station};
use geojson_points::outcome_is_one;
use irtree_engine::{Engine, EngineFault, recover_superblock};
use load_run::{run_load, run_make};
use run_outcome::{Ended, InputFault, LimitFault, StoreFault, ended_by};
use script_run::run_script;
use split_policy::SplitPolicy;
use std::alloc::Global;

// The name of the one property that a load reads, if the job has one.
fn property_of(job: &Job) -> Option<&str>
    ensures { option_copied result ≡ option_map string_bytes job.now.text }
{
    match &job.text {
        Some(text) => Some(text.as_str()),
        None => None,
    }
}

// Does a job over an engine.
fn act<'d, S: Source, T: Station>(
    alloc: Global,
    job: &Job,
    source: &mut S,
    engine: &mut Engine<'d, T>,
) -> Result<(), Ended>
    requires on { engine.old.stopped ≡ false }
    requires acts { job.now.action ≢ Action.Upgrade }
    requires few { job.now.batch ≤ 10000 }
    requires some { 1 ≤ job.now.batch }
    requires count { job.now.count ≤ 100000 }
    ensures same_loan { engine.new.store.disk.ghost_name ≡ engine.old.store.disk.ghost_name }
    ensures told { IsTrue S.readable → IsTrue T.readable → (state : Contents) → HoldsState (T.world engine.old.store.disk.now) state
        → EndsJob (asked_of job.now) state (S.left source.old) (S.left source.new) (T.world engine.old.store.disk.now) (T.world engine.new.store.disk.now) result }
    ensures any_moment { IsTrue S.readable → IsTrue T.readable → (state : Contents) → HoldsState (T.world engine.old.store.disk.now) state
        → LeavesOnly (T.world engine.old.store.disk.now) (T.world engine.new.store.disk.now) (HoldsPrefix (asked_of job.now) state (S.left source.old) (T.world engine.old.store.disk.now)) }
    ensures opens_few { job.now.action ≡ Action.Run → IsTrue S.readable → IsTrue T.readable → (state : Contents) → HoldsState (T.world engine.old.store.disk.now) state
        → AreAsking (script_lines (S.left source.old)) → OnOk result (OpensFew state (S.left source.old) (T.world engine.old.store.disk.now) (T.world engine.new.store.disk.now)) }
    ensures met { job.now.action ≡ Action.Run → IsTrue S.readable → IsTrue T.readable → AreReading (script_lines (S.left source.old))
        → IfErr result (IsMetIn (T.world engine.old.store.disk.now).seen) }
    ensures verified { job.now.action ≡ Action.Verify → IsTrue T.readable → OnOk result (HoldsSome (T.world engine.old.store.disk.now).seen) }
    ensures named { job.now.action ≡ Action.Verify → IsTrue T.readable → (damage : Damage) → IsErrOf result (Ended.Store (StoreFault.Damaged damage))
        → SaysBroken damage (T.world engine.old.store.disk.now) (T.world engine.new.store.disk.now) }
    ensures goes_on { GoesOn engine.new.stopped result }
    ensures cause { HasJobEnd T.readable (S.faults source.old) (S.faults source.new) (T.world engine.old.store.disk.now) (T.world engine.new.store.disk.now) result }
    ensures input { IsTrue S.readable → (fault : InputFault) → IsErrOf result (Ended.Input fault) → IsInputEnd job.now.action (option_map string_bytes job.now.text) (S.left source.old) fault }
    ensures whole { IsTrue S.readable → OnOk result (LeavesInput job.now.action (S.left source.old) (S.left source.new) × IsWholeInput job.now.action (option_map string_bytes job.now.text) (S.left source.old)) }
    ensures unread { ReadsNothing job.now.action → (source.new ≡ source.old) × IfErr result IsUnreadEnd }
    ensures limits { (fault : LimitFault) → IsErrOf result (Ended.Limit fault) → IsLimitOf job.now.action fault }
    ensures reached { IsTrue S.readable → (fault : LimitFault) → IsErrOf result (Ended.Limit fault)
        → ReachesLimitBy job.now.action (asked_of job.now) fault engine.old.store.current.head.live engine.old.store.current.head.number (S.left source.old) }
    ensures lacks { IsTrue T.readable → IsErrOf result (Ended.Limit LimitFault.NoRoom)
        → LacksRoomFor job.now.action job.now.batch (T.room_of engine.new.store.disk.now) (T.world engine.new.store.disk.now).seen }
{
    match job.action {
        Action::Run => run_script(alloc, source, engine),
        Action::Load => {
            outcome_is_one();
            let only = property_of(job);
            run_load(alloc, job.batch, only, source, engine)
        }
        Action::Verify => run_verify(alloc, engine),
        Action::Make => run_make(alloc, job.batch, job.from, job.count, engine),
        Action::Upgrade => unreachable!(),
    }
}

// Brings what the journal holds to its place. Does nothing if an earlier commit failed.
//
// The premise demands nothing. Without one the checker doesn't cover the callers, since an engine holds a boxed policy.
fn settle<'d, T: Station>(engine: &mut Engine<'d, T>) -> Result<(), Failed>
    requires { Unit {0} }
    ensures same_loan { engine.new.store.disk.ghost_name ≡ engine.old.store.disk.ghost_name }
    ensures holds { IsTrue T.readable → (state : Contents) → HoldsState (T.world engine.old.store.disk.now) state → OnOk result (HoldsState (T.world engine.new.store.disk.now) state) }
    ensures any_moment { IsTrue T.readable → (state : Contents) → HoldsState (T.world engine.old.store.disk.now) state
        → LeavesOnly (T.world engine.old.store.disk.now) (T.world engine.new.store.disk.now) (LeavesState state (T.world engine.old.store.disk.now)) }
    ensures silent { IsTrue T.readable → (T.world engine.new.store.disk.now).said ≡ (T.world engine.old.store.disk.now).said }
    ensures reads { IsTrue T.readable → ReadsJournalOnly (T.world engine.old.store.disk.now) (T.world engine.new.store.disk.now) }
    ensures cause { HasDiskCause (T.world engine.old.store.disk.now) (T.world engine.new.store.disk.now) result }
    ensures room { T.room_of engine.new.store.disk.now ≡ T.room_of engine.old.store.disk.now }
    ensures at_rest { IsTrue T.readable → engine.old.stopped ≡ false → OnOk result (IsReady 0 (T.world engine.new.store.disk.now)) }
    ensures alike { IsTrue T.readable → OnOk result (contents_held (T.world engine.new.store.disk.now).seen ≡ contents_held (T.world engine.old.store.disk.now).seen) }
{
    match engine.settle() {
        Ok(()) => Ok(()),
        Err(EngineFault::Disk) => Err(Failed),
        Err(_) => Ok(()),
    }
}

// Does a job over an engine with nothing pending, and brings what the journal holds then to its place.
fn serve<'d, S: Source, T: Station>(
    alloc: Global,
    job: &Job,
    source: &mut S,
    engine: &mut Engine<'d, T>,
) -> Result<(), Ended>
    requires on { engine.old.stopped ≡ false }
    requires acts { job.now.action ≢ Action.Upgrade }
    requires few { job.now.batch ≤ 10000 }
    requires some { 1 ≤ job.now.batch }
    requires count { job.now.count ≤ 100000 }
    requires quiet { IsTrue T.readable → LeavesOnlySeen (T.world engine.old.store.disk.now) }
    ensures same_loan { engine.new.store.disk.ghost_name ≡ engine.old.store.disk.ghost_name }
    ensures told { IsTrue S.readable → IsTrue T.readable → (state : Contents) → HoldsState (T.world engine.old.store.disk.now) state
        → EndsJob (asked_of job.now) state (S.left source.old) (S.left source.new) (T.world engine.old.store.disk.now) (T.world engine.new.store.disk.now) result }
    ensures any_moment { IsTrue S.readable → IsTrue T.readable → (state : Contents) → HoldsState (T.world engine.old.store.disk.now) state
        → LeavesOnly (T.world engine.old.store.disk.now) (T.world engine.new.store.disk.now) (HoldsPrefix (asked_of job.now) state (S.left source.old) (T.world engine.old.store.disk.now)) }
    ensures opens_few { job.now.action ≡ Action.Run → IsTrue S.readable → IsTrue T.readable → (state : Contents) → HoldsState (T.world engine.old.store.disk.now) state
        → AreAsking (script_lines (S.left source.old)) → OnOk result (OpensFew state (S.left source.old) (T.world engine.old.store.disk.now) (T.world engine.new.store.disk.now)) }
    ensures met { job.now.action ≡ Action.Run → IsTrue S.readable → IsTrue T.readable → AreReading (script_lines (S.left source.old))
        → IfErr result (IsMetIn (T.world engine.old.store.disk.now).seen) }
    ensures verified { job.now.action ≡ Action.Verify → IsTrue T.readable → OnOk result (HoldsSome (T.world engine.old.store.disk.now).seen) }
    ensures named { job.now.action ≡ Action.Verify → IsTrue T.readable → (damage : Damage) → IsErrOf result (Ended.Store (StoreFault.Damaged damage))
        → SaysBroken damage (T.world engine.old.store.disk.now) (T.world engine.new.store.disk.now) }
    ensures at_rest { IsTrue T.readable → LeavesAtRest (T.world engine.new.store.disk.now) result }
    ensures cause { HasJobEnd T.readable (S.faults source.old) (S.faults source.new) (T.world engine.old.store.disk.now) (T.world engine.new.store.disk.now) result }
    ensures input { IsTrue S.readable → (fault : InputFault) → IsErrOf result (Ended.Input fault) → IsInputEnd job.now.action (option_map string_bytes job.now.text) (S.left source.old) fault }
    ensures whole { IsTrue S.readable → OnOk result (LeavesInput job.now.action (S.left source.old) (S.left source.new) × IsWholeInput job.now.action (option_map string_bytes job.now.text) (S.left source.old)) }
    ensures unread { ReadsNothing job.now.action → (source.new ≡ source.old) × IfErr result IsUnreadEnd }
    ensures limits { (fault : LimitFault) → IsErrOf result (Ended.Limit fault) → IsLimitOf job.now.action fault }
    ensures reached { IsTrue S.readable → (fault : LimitFault) → IsErrOf result (Ended.Limit fault)
        → ReachesLimitBy job.now.action (asked_of job.now) fault engine.old.store.current.head.live engine.old.store.current.head.number (S.left source.old) }
    ensures lacks { IsTrue T.readable → IsErrOf result (Ended.Limit LimitFault.NoRoom)
        → LacksRoomFor job.now.action job.now.batch (T.room_of engine.new.store.disk.now) (T.world engine.new.store.disk.now).seen }
{
    transcript_is_one();
    transcript_is_some();
    let end = act(alloc, job, source, &mut *engine);
    match settle(engine) {
        Ok(()) => end,
        Err(_) => Err(Ended::Disk),
    }
}

/// Opens the store of a station with the job's cache of pages and a policy for its tree. Does the job over it and brings what the journal
/// holds then to its place.
///
/// Ends `Disk` if the last of these fails, whatever the job ended with.
pub(crate) fn run_job<S: Source, T: Station>(
    alloc: Global,
    job: &Job,
    source: &mut S,
    station: &mut T,
    policy: Box<dyn SplitPolicy>,
) -> Result<(), Ended>
    requires acts { job.now.action ≢ Action.Upgrade }
    requires few { job.now.batch ≤ 10000 }
    requires some { 1 ≤ job.now.batch }
    requires count { job.now.count ≤ 100000 }
    ensures told { IsTrue S.readable → IsTrue T.readable → (state : Contents) → HoldsState (T.world station.old) state
        → EndsJob (asked_of job.now) state (S.left source.old) (S.left source.new) (T.world station.old) (T.world station.new) result }
    ensures any_moment { IsTrue S.readable → IsTrue T.readable → (state : Contents) → HoldsState (T.world station.old) state
        → LeavesOnly (T.world station.old) (T.world station.new) (HoldsPrefix (asked_of job.now) state (S.left source.old) (T.world station.old)) }
    ensures opens_few { job.now.action ≡ Action.Run → IsTrue S.readable → IsTrue T.readable → (state : Contents) → HoldsState (T.world station.old) state
        → AreAsking (script_lines (S.left source.old)) → OnOk result (OpensFew state (S.left source.old) (T.world station.old) (T.world station.new)) }
    ensures broken_rule { job.now.action ≡ Action.Run → IsTrue S.readable → IsTrue T.readable → AreReading (script_lines (S.left source.old))
        → IfErr result (NamesBrokenRule (T.world station.old).seen) }
    ensures verified { job.now.action ≡ Action.Verify → IsTrue T.readable → OnOk result (HoldsSome (T.world station.old).seen) }
    ensures named { job.now.action ≡ Action.Verify → IsTrue T.readable → (damage : Damage) → IsErrOf result (Ended.Store (StoreFault.Damaged damage))
        → TellsBroken damage (T.world station.old) (T.world station.new) }
    ensures at_rest { IsTrue T.readable → RestsIfOpened (T.world station.new) result }
    ensures unopened { IsTrue T.readable → ¬ IsOpenable (T.world station.old).seen → LeavesAlike (T.world station.old) (T.world station.new) }
    ensures cause { HasRunEnd T.readable (S.faults source.old) (S.faults source.new) (T.world station.old) (T.world station.new) result }
    ensures left_alone { IsTrue T.readable → IfErr result (λ end. LeavesAlone end (T.world station.old) (T.world station.new)) }
    ensures input { IsTrue S.readable → (fault : InputFault) → IsErrOf result (Ended.Input fault) → IsInputEnd job.now.action (option_map string_bytes job.now.text) (S.left source.old) fault }
    ensures whole { IsTrue S.readable → OnOk result (LeavesInput job.now.action (S.left source.old) (S.left source.new) × IsWholeInput job.now.action (option_map string_bytes job.now.text) (S.left source.old)) }
    ensures unread { ReadsNothing job.now.action → (source.new ≡ source.old) × IfErr result IsUnreadEnd }
    ensures limits { (fault : LimitFault) → IsErrOf result (Ended.Limit fault) → IsLimitOf job.now.action fault }
    ensures reached { IsTrue S.readable → IsTrue T.readable → (fault : LimitFault) → IsErrOf result (Ended.Limit fault)
        → IsLimitReached fault (asked_of job.now) (S.left source.old) (T.world station.old).seen }
    ensures lacks { IsTrue T.readable → IsErrOf result (Ended.Limit LimitFault.NoRoom) → LacksRoomFor job.now.action job.now.batch (T.room_of station.new) (T.world station.new).seen }
{
    let block = match recover_superblock(&mut *station) {
        Ok(block) => block,
        Err(fault) => return Err(ended_by(fault)),
    };
    let mut engine = Engine::over(alloc, station, block, job.cache, policy);
    let end = serve(alloc, job, source, &mut engine);
    let _station = engine.into_disk();
    end
}
