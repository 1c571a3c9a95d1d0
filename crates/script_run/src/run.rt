// A script, from its source over an engine.
ghost use Rattle.std.specs.Prelude.{◌≡◌, ◌≤◌, ◌-◌, ◌+◌, ◌++◌, List, [], ℕ, false, length, take, OnOk, IfOk, IfErr, IsErrOf, IsTrue};
ghost use Rattle.disk_model.specs.World.{LeavesOnly};
ghost use Rattle.place_values.specs.State.{Contents};
ghost use Rattle.irtree_engine.specs.Holding.{HoldsState};
ghost use Rattle.run_outcome.specs.Asking.{AreAsking, ReadsForLines};
ghost use Rattle.run_outcome.specs.Causes.{GoesOn, HasJobEnd, LacksRoomIn};
ghost use Rattle.run_outcome.specs.Left.{LeftByLines};
ghost use Rattle.run_outcome.specs.Reading.{AreReading, KeepsImage};
ghost use Rattle.run_outcome.specs.Script.{cut, script_lines, FitsScript, IsScriptInput};
ghost use Rattle.script_run.specs.Feed.{kept, EndsNoLine};
ghost use Rattle.script_run.specs.Lines.{IsPieceEnd, RunsPiece};
ghost use Rattle.script_run.specs.Standing.{EndsScript};

use crate::script::Script;
use disk_model::{Source, Station};
use irtree_engine::Engine;
use run_outcome::{Ended, InputFault, LimitFault, PIECE_LEN};
use std::alloc::Global;

/// The greatest number of bytes of a script.
pub const INPUT_MAX: usize = 268_435_456;

// Acts on a piece of the input, of which `taken` bytes came before, and returns how many have come by now.
#[tactic(none)]
fn take<'d, T: Station>(
    script: &mut Script,
    engine: &mut Engine<'d, T>,
    piece: &[u8],
    taken: usize,
) -> Result<usize, Ended>
    requires on { engine.old.stopped ≡ false }
    requires few { taken ≤ 268435456 }
    requires short { length script.old.line.items ≤ 65537 }
    ensures same_loan { engine.new.store.disk.ghost_name ≡ engine.old.store.disk.ghost_name }
    ensures told { (front : List ℕ) → EndsNoLine front → script.old.line.items ≡ kept front → IsTrue T.readable → (state : Contents) → HoldsState (T.world engine.old.store.disk.now) state
        → RunsPiece state (cut (front ++ take (268435456 - taken) piece.now)).lines (268435456 - taken) (length piece.now) (T.world engine.old.store.disk.now) (T.world engine.new.store.disk.now) result }
    ensures kept { (front : List ℕ) → EndsNoLine front → script.old.line.items ≡ kept front → IsTrue T.readable → AreReading (cut (front ++ take (268435456 - taken) piece.now)).lines
        → KeepsImage (T.world engine.old.store.disk.now) (T.world engine.new.store.disk.now) result }
    ensures line { (front : List ℕ) → EndsNoLine front → script.old.line.items ≡ kept front
        → OnOk result (script.new.line.items ≡ kept (cut (front ++ piece.now)).rest) }
    ensures few { IfOk result (λ now. (now ≤ 268435456) × (now ≡ taken + length piece.now)) }
    ensures short { OnOk result (length script.new.line.items ≤ 65537) }
    ensures goes_on { GoesOn engine.new.stopped result }
    ensures cause { HasJobEnd T.readable 0 0 (T.world engine.old.store.disk.now) (T.world engine.new.store.disk.now) result }
    ensures ends { IfErr result (IsPieceEnd taken (length piece.now)) }
    ensures lacks { IsTrue T.readable → IsErrOf result (Ended.Limit LimitFault.NoRoom) → LacksRoomIn 1 (T.room_of engine.new.store.disk.now) (T.world engine.new.store.disk.now).seen }
{
    let room = INPUT_MAX - taken;
    if piece.len() > room {
        let (within, _) = piece.split_at(room);
        return match script.feed(engine, within) {
            Ok(()) => Err(Ended::Input(InputFault::Long)),
            Err(end) => Err(end),
        };
    }
    match script.feed(engine, piece) {
        Ok(()) => Ok(taken + piece.len()),
        Err(end) => Err(end),
    }
}

/// Runs a script to its end, from its source over an engine that isn't stopped.
///
/// Returns `Ok` if the script has at most 268,435,456 bytes and each of its lines got its reply; then the source was read to its end. A
/// place that the map has no room for and an update past the last update number are replies, and the script goes on. Errors:
///
/// - `Input(Long)` if the script has more bytes, after the replies to the lines whose LF is among the first 268,435,456.
/// - `Limit(NoRoom)` if no page is left for an update, after the replies to the lines before it. The state is the one before it. The free
///   pages, and those that the station has room for beside the pages counted, are together no more than an update is allowed to take.
/// - `Source` if the source fails, after the replies to all lines whose LF was read.
/// - `Disk`, `Sink` and `Memory` if one of them fails, after a prefix of the replies.
/// - `Store(Damaged)` if a page breaks a rule other than Head; never if the image holds a state. A script without updates names a page and
///   a rule that it breaks, as the image at the start holds it.
#[tactic(none)]
pub fn run_script<'d, S: Source, T: Station>(
    alloc: Global,
    source: &mut S,
    engine: &mut Engine<'d, T>,
) -> Result<(), Ended>
    requires on { engine.old.stopped ≡ false }
    ensures same_loan { engine.new.store.disk.ghost_name ≡ engine.old.store.disk.ghost_name }
    ensures told { IsTrue S.readable → IsTrue T.readable → (state : Contents) → HoldsState (T.world engine.old.store.disk.now) state
        → EndsScript state (S.left source.old) (S.left source.new) (T.world engine.old.store.disk.now) (T.world engine.new.store.disk.now) result }
    // A crash at any moment leaves one of the states around a line, and everything of the lines before it was printed.
    ensures any_moment { IsTrue S.readable → IsTrue T.readable → (state : Contents) → HoldsState (T.world engine.old.store.disk.now) state
        → LeavesOnly (T.world engine.old.store.disk.now) (T.world engine.new.store.disk.now) (LeftByLines state (script_lines (S.left source.old)) (T.world engine.old.store.disk.now).said) }
    // Lines that only ask read what their queries need, by what the image holds, and change nothing.
    ensures opens_few { IsTrue S.readable → IsTrue T.readable → (state : Contents) → HoldsState (T.world engine.old.store.disk.now) state → AreAsking (script_lines (S.left source.old))
        → OnOk result (ReadsForLines state (script_lines (S.left source.old)) (T.world engine.old.store.disk.now) (T.world engine.new.store.disk.now)) }
    // Lines that only read leave the image as it was, whatever it holds, and damage that ends them is its own.
    ensures kept { IsTrue S.readable → IsTrue T.readable → AreReading (script_lines (S.left source.old)) → KeepsImage (T.world engine.old.store.disk.now) (T.world engine.new.store.disk.now) result }
    // Only a disk that failed stops the engine.
    ensures goes_on { GoesOn engine.new.stopped result }
    ensures cause { HasJobEnd T.readable (S.faults source.old) (S.faults source.new) (T.world engine.old.store.disk.now) (T.world engine.new.store.disk.now) result }

    // Whatever the image holds, the input and a limit end the run only for their cause, and else the input was read to its end.
    ensures input { IsTrue S.readable → (fault : InputFault) → IsErrOf result (Ended.Input fault) → IsScriptInput (S.left source.old) fault }
    ensures whole { IsTrue S.readable → OnOk result ((S.left source.new ≡ []) × FitsScript (S.left source.old)) }
    ensures limit { (fault : LimitFault) → IsErrOf result (Ended.Limit fault) → fault ≡ LimitFault.NoRoom }
    ensures lacks { IsTrue T.readable → IsErrOf result (Ended.Limit LimitFault.NoRoom) → LacksRoomIn 1 (T.room_of engine.new.store.disk.now) (T.world engine.new.store.disk.now).seen }
{
    let mut piece = match vec![in alloc; 0; PIECE_LEN] {
        Ok(piece) => piece,
        Err(_) => return Err(Ended::Memory),
    };
    let mut script = Script::new(alloc);
    let mut taken: usize = 0;
    'pieces: loop {
        let n = match source.read(&mut piece) {
            Ok(n) => n,
            Err(_) => return Err(Ended::Source),
        };
        if n == 0 {
            return script.end(engine);
        }
        let (came, _) = piece.as_slice().split_at(n);
        taken = match take(&mut script, engine, came, taken) {
            Ok(taken) => taken,
            Err(end) => return Err(end),
        };
    }
}
