//! The top call.
ghost use Rattle.std.specs.Prelude.{◌≡◌, ◌≢◌, ◌≤◌, ◌⊎◌, ℕ, List, length, map, string_bytes, IsTrue, None, Some};
ghost use Rattle.disk_model.specs.World.{LeavesOnly, Rose};
ghost use Rattle.page_journal.specs.Record.{IsReady};
ghost use Rattle.place_values.specs.State.{Contents};
ghost use Rattle.table_updates.specs.Version1.{StandsVersion1};
ghost use Rattle.irtree_engine.specs.Holding.{HoldsState, IsOpenable};
ghost use Rattle.irtree_engine.specs.Upgrades.{LacksRoomToCarry, StandsEither};
ghost use Rattle.irtree_engine.specs.Verified.{HoldsSome};
ghost use Rattle.run_outcome.specs.Asking.{AreAsking};
ghost use Rattle.run_outcome.specs.Reading.{AreReading};
ghost use Rattle.run_outcome.specs.Script.{script_lines};
ghost use Rattle.run_outcome.specs.Turn.{Transcript, Done, Input};
ghost use Rattle.irtree_top.specs.Run.{EndsBy, HoldsPrefix, IsLimitReached, IsBehindOpening, IsBroken, IsBrokenRule, IsCompleteEnd, IsInputEnd, IsLimitOf, IsSettled, IsUnreadEnd, IsWholeInput, LacksRoomFor, LeavesAlike, LeavesAlone, LeavesInput, OpensFew, ReadsNothing, SaysFront, SaysWhatWasRead, StopsAtLimit};
ghost use Rattle.irtree_top.specs.Transcript.{IsTranscript};
ghost use Rattle.irtree_top.specs.Upgrade.{AskForJob, AskForNoUpgrade, AskForUpgrade, EndsUpgrade, IsBrokenForUpgrade, IsCompleteUpgrade, IsOpenableEither, IsUpgradeEnd, IsUpgradeOpened, LeavesAloneByUpgrade, LeavesPresent, LeavesUpgraded, SaysFrontOfUpgrade};
ghost use Rattle.irtree_top.specs.Verify.{TellsBroken};
ghost use Rattle.command_words.specs.Job.{Asked, AskFor, AreAccepted};

use crate::serve::run_job;
use crate::upgrading::run_upgrade;
use crate::{Ended, InputFault, LimitFault, StoreFault};
use command_words::{Action, WordsFault, read_words};
use disk_model::{Source, Station};
use geojson_points::{outcome_is_one, outcome_is_some};
use page_face::Damage;
use split_policy::SplitPolicy;
use std::alloc::Global;

/// Runs the program: does what the words call for with the input of the source. The station keeps the places, and what is done is printed
/// on its sink.
///
/// The words are read by [`read_words`]; the store is the station's, and its name isn't looked at. `run` is a script, a line at a time.
/// `load` stores the places of a GeoJSON text, which is read whole before anything is printed. `make` stores the places of a seed,
/// queries for some of them, and reads nothing. `verify` decides whether the store is whole, and reads nothing. `upgrade` carries a store
/// of version 1 over to version 2, and reads nothing; the other four have a transcript.
///
/// The cache has as many pages as the words give. The policy splits the tree's full nodes. It is the caller's, who makes it by the name in
/// the words ([`Job`](crate::Job)'s `policy`), and it is dropped in the end, also if the words are refused. No clause depends on the cache
/// or the policy: the transcript and its states are the same whatever they are. Returns how the run ended:
///
/// - `Done` if the input was read to its end, and a script isn't too long or a text gives items. Also if a make is through, with the source
///   as it was. The whole transcript was printed, and the image holds its last state. After a check the line `whole` was printed, and the
///   image holds a state. After an upgrade the line `upgraded N` was printed,
///   with the number of places, or `version 2` if the store was of version 2; the image holds its state by version 2.
/// - `Words` if the words are refused for another cause than memory. Nothing was read, written or printed.
/// - `Input` if a script is too long, or a text gives no items, for its first offence. The whole transcript was printed: of a script the
///   replies to the lines that are whole within the bytes it may have, of a load nothing.
/// - `Limit(NoRoom)` if no page is left for an update or a batch. All that comes before its reply was printed, and the image holds the
///   state before it. The free pages of that image, and those that the disk has room for beside the pages counted, are then together no
///   more than a commit is allowed to take. Of an upgrade only if page 0 is that of a store of version 1. Then nothing was printed, the
///   store is of version 1 as before, and these pages are no more than 257 for each place.
/// - `Limit(Full)` and `Limit(Worn)` only in a load or a make, if a batch meets that limit. The whole transcript was printed. The live
///   places or the update number of page 0, with the places of the text or those to be made added, reach the limit.
/// - `Store` if the image at the start is no well-formed store. `NotAStore` if its page 0 is foreign; `Version1` if its page 0 begins with
///   the magic of version 1; `BadJournal` with the first byte of its journal that breaks a rule. `Damaged` with the rule Head at page 0
///   only if page 0 breaks it, or with another rule that is met after the opening. In a script without updates it names a page and a rule
///   that it breaks, as a query or a look at a key met it. A check that finds a page that breaks a rule names both, and has printed the
///   line `broken PAGE RULE`. A store that is refused as it is opened is left alone. With a bad journal it is
///   as it was. Else its journal is recovered, and it has the pages that it held before. An upgrade ends so if the image holds a state by
///   neither version: `Damaged` also if page 0 begins with the magic of version 1 and breaks the rule Head, and `Version1` never. It leaves
///   the store as a store that is refused as it is opened, whatever is damaged.
/// - `Source` if the source fails, after the replies to all lines that were read, and in a load with nothing printed; never in a make, a
///   check or an upgrade.
/// - `Disk`, `Sink` and `Memory` if one of them fails, after a prefix of the transcript's text, or of an upgrade's line.
///
/// A fault of the source, the disk or the sink is reported as such, whatever else was met. No other end comes after one except `Disk`, if
/// the disk failed, too.
///
/// All ends except `Store`, `Disk`, `Words` and `Memory` come only if page 0 of the recovered store is zeros, or begins with the magic and
/// keeps the rule Head; of an upgrade, also with the magic of version 1.
///
/// An update is safe before its line is printed. A crash at any moment leaves an image of the state after a prefix of the transcript's
/// updates that holds every acknowledged one. Or it leaves an image that a crash could have left before the call. After the job, what the
/// journal still holds is brought to its place; if that fails the run ends `Disk`, however the job ended. Of an upgrade a crash leaves the
/// state by version 1 or by version 2, and by version 2 if something was printed.
///
/// A script of queries, counts, comments and lines that are refused, and of nothing else, changes nothing and reads few pages. Beside the
/// journal and page 0 it reads only those in the logs by which its answers were found with few nodes of the tree opened.
///
/// Memory: a script keeps one line and one reply, a load its text and what it gives, a make one batch of places, an upgrade the pages of
/// both place maps. To these come the pages of one commit, and for a query its hits and what waits to be looked at. Each reply is printed
/// whole before the next line is acted on, in one call if the station takes it at once. Opening costs a recovery and one page read; each
/// update that changes the map one commit.
pub fn run<S: Source, T: Station>(
    alloc: Global,
    words: &[String],
    source: &mut S,
    station: &mut T,
    policy: Box<dyn SplitPolicy>,
) -> Ended
    // The words are refused: nothing was read, written or printed.
    ensures words { result ≡ Ended.Words → ¬ AreAccepted (map string_bytes words.now) }
    ensures refused { ¬ AreAccepted (map string_bytes words.now) → (result ≡ Ended.Words) ⊎ (result ≡ Ended.Memory) }
    ensures untouched { result ≡ Ended.Words → (source.new ≡ source.old) × (station.new ≡ station.old) }

    // The whole text was printed, the input was read to its end, in a make left as it was, and the image holds the last state.
    ensures done { (asked : Asked) → AskForJob (map string_bytes words.now) asked → IsTrue S.readable → IsTrue T.readable
        → (state : Contents) → HoldsState (T.world station.old) state → result ≡ Ended.Done
        → EndsBy Done asked state (S.left source.old) (T.world station.old) (T.world station.new) × LeavesInput asked.action (S.left source.old) (S.left source.new) }
    // The whole text was printed, its transcript ends so, and the image holds the last state.
    ensures input { (asked : Asked) → AskForJob (map string_bytes words.now) asked → IsTrue S.readable → IsTrue T.readable
        → (state : Contents) → HoldsState (T.world station.old) state → (fault : InputFault) → result ≡ Ended.Input fault
        → EndsBy (Input fault) asked state (S.left source.old) (T.world station.old) (T.world station.new) }
    // The same holds for a limit of the map. If no page was left, all before the refused update was printed, and the image holds that
    // state.
    ensures limit { (asked : Asked) → AskForJob (map string_bytes words.now) asked → IsTrue S.readable → IsTrue T.readable
        → (state : Contents) → HoldsState (T.world station.old) state → (fault : LimitFault) → result ≡ Ended.Limit fault
        → StopsAtLimit fault asked state (S.left source.old) (T.world station.old) (T.world station.new) }

    // However it ends, a prefix of the text was printed.
    ensures front { (asked : Asked) → AskForJob (map string_bytes words.now) asked → IsTrue S.readable → IsTrue T.readable
        → (state : Contents) → HoldsState (T.world station.old) state
        → SaysFront asked state (S.left source.old) (T.world station.old) (T.world station.new) }
    ensures source { (asked : Asked) → AskForJob (map string_bytes words.now) asked → IsTrue S.readable → IsTrue T.readable
        → (state : Contents) → HoldsState (T.world station.old) state → result ≡ Ended.Source
        → SaysWhatWasRead asked.action state (S.left source.old) (S.left source.new) (T.world station.old) (T.world station.new) }

    // A crash at any moment leaves the map after a prefix of the updates that holds every acknowledged one.
    ensures crash { (asked : Asked) → AskForJob (map string_bytes words.now) asked → IsTrue S.readable → IsTrue T.readable
        → (state : Contents) → HoldsState (T.world station.old) state
        → LeavesOnly (T.world station.old) (T.world station.new) (HoldsPrefix asked state (S.left source.old) (T.world station.old)) }

    // A script of queries and counts reads few pages. Beside the journal and page 0 it reads from the device only pages in the logs of its
    // queries. By these logs its answers were found with few nodes opened, by what the image held at the start.
    ensures opens_few { (asked : Asked) → AskFor (map string_bytes words.now) asked → asked.action ≡ Action.Run → IsTrue S.readable → IsTrue T.readable
        → (state : Contents) → HoldsState (T.world station.old) state → AreAsking (script_lines (S.left source.old)) → result ≡ Ended.Done
        → OpensFew state (S.left source.old) (T.world station.old) (T.world station.new) }

    // The input was read to its end and is taken whole, or it is refused for this cause, whatever the image holds.
    ensures whole { (asked : Asked) → AskForJob (map string_bytes words.now) asked → IsTrue S.readable → result ≡ Ended.Done
        → LeavesInput asked.action (S.left source.old) (S.left source.new) × IsWholeInput asked.action asked.text (S.left source.old) }
    ensures input_end { (asked : Asked) → AskForJob (map string_bytes words.now) asked → IsTrue S.readable → (fault : InputFault) → result ≡ Ended.Input fault
        → IsInputEnd asked.action asked.text (S.left source.old) fault }
    // The same holds for a limit: it is one that ends the action, and is reached by the numbers of page 0.
    ensures limits { (asked : Asked) → AskForJob (map string_bytes words.now) asked → (fault : LimitFault) → result ≡ Ended.Limit fault → IsLimitOf asked.action fault }
    ensures reached { (asked : Asked) → AskForJob (map string_bytes words.now) asked → IsTrue S.readable → IsTrue T.readable → (fault : LimitFault) → result ≡ Ended.Limit fault
        → IsLimitReached fault asked (S.left source.old) (T.world station.old).seen }
    // No page is left for an update only if the image has few free pages at the end, and the disk has room for few more.
    ensures lacks { (asked : Asked) → AskForJob (map string_bytes words.now) asked → IsTrue T.readable → result ≡ Ended.Limit LimitFault.NoRoom
        → LacksRoomFor asked.action asked.batch (T.room_of station.new) (T.world station.new).seen }
    // A make, a check and an upgrade read nothing, and end by no input.
    ensures unread { (asked : Asked) → AskFor (map string_bytes words.now) asked → ReadsNothing asked.action → (source.new ≡ source.old) × IsUnreadEnd result }

    // A check of a store: `whole` is printed only if the image holds a state. What is named otherwise is broken there, and was printed.
    ensures verified { (asked : Asked) → AskFor (map string_bytes words.now) asked → asked.action ≡ Action.Verify → IsTrue T.readable → result ≡ Ended.Done
        → HoldsSome (T.world station.old).seen }
    ensures named { (asked : Asked) → AskFor (map string_bytes words.now) asked → asked.action ≡ Action.Verify → IsTrue T.readable
        → (damage : Damage) → result ≡ Ended.Store (StoreFault.Damaged damage) → TellsBroken damage (T.world station.old) (T.world station.new) }

    // An upgrade of a store of version 1: the line with the number of its places was printed, and the image holds its state.
    ensures upgraded { (asked : Asked) → AskForUpgrade (map string_bytes words.now) asked → IsTrue T.readable
        → (state : Contents) → StandsVersion1 (T.world station.old).seen state → result ≡ Ended.Done
        → EndsUpgrade (Some (length state.places)) state (T.world station.old) (T.world station.new) }
    // Of a store of version 2: that was printed, and the image holds the state that it held.
    ensures present { (asked : Asked) → AskForUpgrade (map string_bytes words.now) asked → IsTrue T.readable
        → (state : Contents) → HoldsState (T.world station.old) state → result ≡ Ended.Done → EndsUpgrade None state (T.world station.old) (T.world station.new) }
    // A crash at any moment leaves the state, by version 1 or 2, and by version 2 if something was printed.
    ensures upgrading { (asked : Asked) → AskForUpgrade (map string_bytes words.now) asked → IsTrue T.readable
        → (state : Contents) → StandsVersion1 (T.world station.old).seen state
        → LeavesOnly (T.world station.old) (T.world station.new) (LeavesUpgraded state (T.world station.old)) }
    ensures still { (asked : Asked) → AskForUpgrade (map string_bytes words.now) asked → IsTrue T.readable
        → (state : Contents) → HoldsState (T.world station.old) state
        → LeavesOnly (T.world station.old) (T.world station.new) (LeavesPresent None state (T.world station.old)) }
    // However it ends, a prefix of the line was printed.
    ensures upgrade_front { (asked : Asked) → AskForUpgrade (map string_bytes words.now) asked → IsTrue T.readable
        → (state : Contents) → SaysFrontOfUpgrade state (T.world station.old) (T.world station.new) }
    // It ends by its store only if the image holds a state by neither version, and by want of room only if page 0 is of version 1.
    ensures upgrade_store { (asked : Asked) → AskForUpgrade (map string_bytes words.now) asked → (fault : StoreFault) → result ≡ Ended.Store fault
        → IsTrue T.readable → IsBrokenForUpgrade fault (T.world station.old).seen }
    ensures upgrade_opened { (asked : Asked) → AskForUpgrade (map string_bytes words.now) asked → IsTrue T.readable → IsUpgradeOpened result (T.world station.old).seen }
    // No room is left only if the image has few free pages, and the disk has room for few more, by the number of its places.
    ensures upgrade_lacks { (asked : Asked) → AskForUpgrade (map string_bytes words.now) asked → IsTrue T.readable → result ≡ Ended.Limit LimitFault.NoRoom
        → LacksRoomToCarry (T.room_of station.new) (T.world station.new).seen }
    // A store that is refused, or for which no room is left, is left alone. However the upgrade ends, an image that can't be opened holds what
    // it held before.
    ensures upgrade_left { (asked : Asked) → AskForUpgrade (map string_bytes words.now) asked → IsTrue T.readable → LeavesAloneByUpgrade result (T.world station.old) (T.world station.new) }
    ensures upgrade_unopened { (asked : Asked) → AskForUpgrade (map string_bytes words.now) asked → IsTrue T.readable → ¬ IsOpenableEither (T.world station.old).seen
        → LeavesAlike (T.world station.old) (T.world station.new) }
    // It reads no input, and ends by none.
    ensures upgrade_unread { (asked : Asked) → AskForUpgrade (map string_bytes words.now) asked → (source.new ≡ source.old) × IsUpgradeEnd result }
    ensures upgrade_rest { (asked : Asked) → AskForUpgrade (map string_bytes words.now) asked → result ≡ Ended.Done → IsTrue T.readable → IsReady 0 (T.world station.new) }
    // If no count rose and the image holds a state by one of the two, it ends well, or because it runs out of room or memory.
    ensures upgrade_complete { (asked : Asked) → AskForUpgrade (map string_bytes words.now) asked → IsTrue T.readable
        → (state : Contents) → StandsEither state (T.world station.old).seen
        → ¬ Rose (T.world station.old).faults (T.world station.new).faults
        → ¬ Rose (T.world station.old).sink_faults (T.world station.new).sink_faults → IsCompleteUpgrade result }

    // Each end has its cause, and no count falls.
    ensures store { AskForNoUpgrade (map string_bytes words.now) → (fault : StoreFault) → result ≡ Ended.Store fault → IsTrue T.readable → IsBroken fault (T.world station.old).seen }
    // A script that changes nothing names a page that breaks the rule it names, by what the image held at the start.
    ensures broken_rule { (asked : Asked) → AskFor (map string_bytes words.now) asked → asked.action ≡ Action.Run → IsTrue S.readable → IsTrue T.readable
        → AreReading (script_lines (S.left source.old)) → (damage : Damage) → result ≡ Ended.Store (StoreFault.Damaged damage) → IsBrokenRule damage (T.world station.old).seen }
    ensures opened { AskForNoUpgrade (map string_bytes words.now) → IsBehindOpening result → IsTrue T.readable → IsOpenable (T.world station.old).seen }
    ensures disk_cause { result ≡ Ended.Disk → Rose (T.world station.old).faults (T.world station.new).faults }
    ensures source_cause { result ≡ Ended.Source → Rose (S.faults source.old) (S.faults source.new) }
    ensures sink_cause { result ≡ Ended.Sink → Rose (T.world station.old).sink_faults (T.world station.new).sink_faults }
    // If a count rose, the run ends so, whatever else was met. The disk's count, which may rise last, comes before the others.
    ensures disk_told { result ≢ Ended.Disk → (T.world station.new).faults ≡ (T.world station.old).faults }
    ensures source_told { result ≢ Ended.Disk → result ≢ Ended.Source → S.faults source.new ≡ S.faults source.old }
    ensures sink_told { result ≢ Ended.Disk → result ≢ Ended.Sink → (T.world station.new).sink_faults ≡ (T.world station.old).sink_faults }
    ensures disk_later { (T.world station.old).faults ≤ (T.world station.new).faults }
    ensures source_later { S.faults source.old ≤ S.faults source.new }
    ensures sink_later { (T.world station.old).sink_faults ≤ (T.world station.new).sink_faults }

    // A store that is refused as it is opened is left alone. However the run ends, an image that can't be opened holds what it held before.
    ensures left_alone { AskForNoUpgrade (map string_bytes words.now) → IsTrue T.readable → LeavesAlone result (T.world station.old) (T.world station.new) }
    ensures unopened { AskForNoUpgrade (map string_bytes words.now) → IsTrue T.readable → ¬ IsOpenable (T.world station.old).seen → LeavesAlike (T.world station.old) (T.world station.new) }

    // After the job what the journal held is in its place.
    ensures at_rest { AskForNoUpgrade (map string_bytes words.now) → IsBehindOpening result → IsTrue T.readable → IsReady 0 (T.world station.new) }

    // If no count rose, the words are accepted and the image holds a state, it ends by its transcript, or because it runs out of room or
    // memory.
    ensures complete { (asked : Asked) → AskForJob (map string_bytes words.now) asked → IsTrue T.readable
        → (state : Contents) → HoldsState (T.world station.old) state
        → ¬ Rose (S.faults source.old) (S.faults source.new) → ¬ Rose (T.world station.old).faults (T.world station.new).faults
        → ¬ Rose (T.world station.old).sink_faults (T.world station.new).sink_faults → IsCompleteEnd asked.action result }
    // On any words and any image it may also end by the words, or because the image is no store.
    ensures settled { ¬ Rose (S.faults source.old) (S.faults source.new) → ¬ Rose (T.world station.old).faults (T.world station.new).faults
        → ¬ Rose (T.world station.old).sink_faults (T.world station.new).sink_faults → IsSettled result }
{
    transcript_is_one();
    match read_words(alloc, words) {
        Ok(job) => match job.action {
            Action::Upgrade => run_upgrade(alloc, job.cache, station),
            _ => match run_job(alloc, &job, source, station, policy) {
                Ok(()) => Ended::Done,
                Err(end) => end,
            },
        },
        Err(WordsFault::Line) => Ended::Words,
        Err(WordsFault::Unused) => Ended::Words,
        Err(WordsFault::Memory) => Ended::Memory,
    }
}

/// A command has only one transcript on an input and a state, so the clauses of [`run`] are about that one. The call does nothing: its
/// contract is the law.
pub fn transcript_is_one()
    ensures { (state : Contents) (asked : Asked) (input : List ℕ) (one other : Transcript)
        → IsTranscript state asked input one → IsTranscript state asked input other → one ≡ other }
{
    outcome_is_one();
}

/// A command that isn't an upgrade has a transcript on each input and state. The call does nothing: its contract is the law.
pub fn transcript_is_some()
    ensures { (state : Contents) (asked : Asked) (input : List ℕ) → asked.action ≢ Action.Upgrade → (whole : Transcript) × IsTranscript state asked input whole }
{
    outcome_is_some();
}
