// One line of a script, acted on, and its reply.
ghost use Rattle.std.specs.Prelude.{◌≡◌, ◌∷◌, [], false, IsTrue, IfErr, IfOk, IsErrOf, OnOk, Ok};
ghost use Rattle.place_values.specs.State.{Contents};
ghost use Rattle.query_lang.specs.Line.{line_of};
ghost use Rattle.query_lang.specs.Plain.{IsSound, plain_line};
ghost use Rattle.query_lang.specs.Reply.{update_reply};
ghost use Rattle.query_lang.specs.declared.line.Line.TheVariants as lines;
ghost use Rattle.query_replies.specs.Reply.{HasReason};
ghost use Rattle.place_values.specs.Query.{IsWithinLimits};
ghost use Rattle.irtree_engine.specs.Holding.{HoldsState};
ghost use Rattle.place_values.specs.Update.{NamesText};
ghost use Rattle.run_outcome.specs.Asking.{IsAsking, ReadsForLine};
ghost use Rattle.run_outcome.specs.Causes.{GoesOn, HasEngineEnd, LacksRoomIn};
ghost use Rattle.run_outcome.specs.Reading.{IsReading, KeepsImage};
ghost use Rattle.script_run.specs.Lines.{refused_by, IsLineEnd, RepliesTo, RunsLines};

use disk_model::Station;
use irtree_engine::{Engine, EngineFault};
use place_values::{Applied, Query, Update};
use query_lang::{Line, LineFault, Reply, UpdateDone, read_line, reply_text};
use run_outcome::{Ended, LimitFault, ended_by, say_all};
use spatial_base::{Key, Memory};
use std::alloc::Global;

// The reply to an update that was accepted.
fn accepted(applied: Applied) -> Reply
    ensures reply { result ≡ update_reply (Ok applied) }
    ensures reason { HasReason result }
{
    match applied {
        Applied::New | Applied::Gone => Reply::Applied(UpdateDone::Ok),
        Applied::Replaced => Reply::Applied(UpdateDone::Replaced),
        Applied::Absent => Reply::Applied(UpdateDone::Absent),
    }
}

// The reply to an update that was refused for a limit of the map, or how the run ends.
fn refused(fault: EngineFault) -> Result<Reply, Ended>
    ensures reply { result ≡ refused_by fault }
    ensures reason { IfOk result HasReason }
{
    match fault {
        EngineFault::Full => Ok(Reply::Full),
        EngineFault::Worn => Ok(Reply::Worn),
        fault => Err(ended_by(fault)),
    }
}

// Makes an update, and returns the reply to it.
fn update<'d, T: Station>(engine: &mut Engine<'d, T>, update: &Update) -> Result<Reply, Ended>
    requires on { engine.old.stopped ≡ false }
    requires names { NamesText update.now }
    ensures same_loan { engine.new.store.disk.ghost_name ≡ engine.old.store.disk.ghost_name }
    ensures told { IsTrue T.readable → (state : Contents) → HoldsState (T.world engine.old.store.disk.now) state
        → RepliesTo state (Ok (lines.Do update.now)) (T.world engine.old.store.disk.now) (T.world engine.new.store.disk.now) result }
    ensures reason { IfOk result HasReason }
    ensures goes_on { GoesOn engine.new.stopped result }
    ensures cause { HasEngineEnd T.readable (T.world engine.old.store.disk.now) (T.world engine.new.store.disk.now) result }
    ensures ends { IfErr result IsLineEnd }
    ensures lacks { IsTrue T.readable → IsErrOf result (Ended.Limit LimitFault.NoRoom) → LacksRoomIn 1 (T.room_of engine.new.store.disk.now) (T.world engine.new.store.disk.now).seen }
{
    match engine.apply(update) {
        Ok(applied) => Ok(accepted(applied)),
        Err(fault) => refused(fault),
    }
}

// The reply to a query.
fn ask<'d, T: Station>(
    engine: &mut Engine<'d, T>,
    query: Query,
    explain: bool,
) -> Result<Reply, Ended>
    requires on { engine.old.stopped ≡ false }
    requires limits { IsWithinLimits query }
    ensures same_loan { engine.new.store.disk.ghost_name ≡ engine.old.store.disk.ghost_name }
    ensures told { IsTrue T.readable → (state : Contents) → HoldsState (T.world engine.old.store.disk.now) state
        → RepliesTo state (Ok (lines.Ask query explain)) (T.world engine.old.store.disk.now) (T.world engine.new.store.disk.now) result }
    ensures reads { IsTrue T.readable → (state : Contents) → HoldsState (T.world engine.old.store.disk.now) state
        → OnOk result (ReadsForLine state (Ok (plain_line (lines.Ask query explain))) (T.world engine.old.store.disk.now) (T.world engine.new.store.disk.now)) }
    ensures kept { IsTrue T.readable → KeepsImage (T.world engine.old.store.disk.now) (T.world engine.new.store.disk.now) result }
    ensures reason { IfOk result HasReason }
    ensures goes_on { GoesOn engine.new.stopped result }
    ensures cause { HasEngineEnd T.readable (T.world engine.old.store.disk.now) (T.world engine.new.store.disk.now) result }
    ensures ends { IfErr result IsLineEnd }
    ensures lacks { IsTrue T.readable → IsErrOf result (Ended.Limit LimitFault.NoRoom) → LacksRoomIn 1 (T.room_of engine.new.store.disk.now) (T.world engine.new.store.disk.now).seen }
{
    match engine.answer(&query) {
        Ok(answer) => Ok(Reply::Found {
            answer,
            query,
            explain,
        }),
        Err(fault) => Err(ended_by(fault)),
    }
}

// The reply that shows what is kept at a key.
fn show<'d, T: Station>(engine: &mut Engine<'d, T>, key: Key) -> Result<Reply, Ended>
    requires on { engine.old.stopped ≡ false }
    ensures same_loan { engine.new.store.disk.ghost_name ≡ engine.old.store.disk.ghost_name }
    ensures told { IsTrue T.readable → (state : Contents) → HoldsState (T.world engine.old.store.disk.now) state
        → RepliesTo state (Ok (lines.Show key)) (T.world engine.old.store.disk.now) (T.world engine.new.store.disk.now) result }
    ensures kept { IsTrue T.readable → KeepsImage (T.world engine.old.store.disk.now) (T.world engine.new.store.disk.now) result }
    ensures reason { IfOk result HasReason }
    ensures goes_on { GoesOn engine.new.stopped result }
    ensures cause { HasEngineEnd T.readable (T.world engine.old.store.disk.now) (T.world engine.new.store.disk.now) result }
    ensures ends { IfErr result IsLineEnd }
    ensures lacks { IsTrue T.readable → IsErrOf result (Ended.Limit LimitFault.NoRoom) → LacksRoomIn 1 (T.room_of engine.new.store.disk.now) (T.world engine.new.store.disk.now).seen }
{
    match engine.show(&key) {
        Ok(Some(place)) => Ok(Reply::Place {
            key,
            point: place.point,
            words: place.words,
            label: place.label,
        }),
        Ok(None) => Ok(Reply::Absent),
        Err(fault) => Err(ended_by(fault)),
    }
}

// Acts on a line, and returns the reply to it.
fn answer<'d, T: Station>(engine: &mut Engine<'d, T>, line: Line) -> Result<Reply, Ended>
    requires on { engine.old.stopped ≡ false }
    requires sound { IsSound line }
    ensures same_loan { engine.new.store.disk.ghost_name ≡ engine.old.store.disk.ghost_name }
    ensures told { IsTrue T.readable → (state : Contents) → HoldsState (T.world engine.old.store.disk.now) state
        → RepliesTo state (Ok line) (T.world engine.old.store.disk.now) (T.world engine.new.store.disk.now) result }
    ensures reads { IsTrue T.readable → (state : Contents) → HoldsState (T.world engine.old.store.disk.now) state → IsAsking (Ok (plain_line line))
        → OnOk result (ReadsForLine state (Ok (plain_line line)) (T.world engine.old.store.disk.now) (T.world engine.new.store.disk.now)) }
    ensures kept { IsTrue T.readable → IsReading (Ok (plain_line line)) → KeepsImage (T.world engine.old.store.disk.now) (T.world engine.new.store.disk.now) result }
    ensures reason { IfOk result HasReason }
    ensures goes_on { GoesOn engine.new.stopped result }
    ensures cause { HasEngineEnd T.readable (T.world engine.old.store.disk.now) (T.world engine.new.store.disk.now) result }
    ensures ends { IfErr result IsLineEnd }
    ensures lacks { IsTrue T.readable → IsErrOf result (Ended.Limit LimitFault.NoRoom) → LacksRoomIn 1 (T.room_of engine.new.store.disk.now) (T.world engine.new.store.disk.now).seen }
{
    match line {
        Line::Nothing => Ok(Reply::Nothing),
        Line::Do(change) => update(engine, &change),
        Line::Ask { query, explain } => ask(engine, query, explain),
        Line::Show(key) => show(engine, key),
        Line::Count => Ok(Reply::Count(engine.count())),
    }
}

// Acts on the line that these bytes spell, and returns the reply to it.
fn reply_to<'d, T: Station>(
    alloc: Global,
    engine: &mut Engine<'d, T>,
    line: &[u8],
) -> Result<Reply, Ended>
    requires on { engine.old.stopped ≡ false }
    ensures same_loan { engine.new.store.disk.ghost_name ≡ engine.old.store.disk.ghost_name }
    ensures told { IsTrue T.readable → (state : Contents) → HoldsState (T.world engine.old.store.disk.now) state
        → RepliesTo state (line_of line.now) (T.world engine.old.store.disk.now) (T.world engine.new.store.disk.now) result }
    ensures reads { IsTrue T.readable → (state : Contents) → HoldsState (T.world engine.old.store.disk.now) state → IsAsking (line_of line.now)
        → OnOk result (ReadsForLine state (line_of line.now) (T.world engine.old.store.disk.now) (T.world engine.new.store.disk.now)) }
    ensures kept { IsTrue T.readable → IsReading (line_of line.now) → KeepsImage (T.world engine.old.store.disk.now) (T.world engine.new.store.disk.now) result }
    ensures reason { IfOk result HasReason }
    ensures goes_on { GoesOn engine.new.stopped result }
    ensures cause { HasEngineEnd T.readable (T.world engine.old.store.disk.now) (T.world engine.new.store.disk.now) result }
    ensures ends { IfErr result IsLineEnd }
    ensures lacks { IsTrue T.readable → IsErrOf result (Ended.Limit LimitFault.NoRoom) → LacksRoomIn 1 (T.room_of engine.new.store.disk.now) (T.world engine.new.store.disk.now).seen }
{
    match read_line(alloc, line) {
        Ok(line) => answer(engine, line),
        Err(LineFault::Memory) => Err(Ended::Memory),
        Err(fault) => Ok(Reply::Bad(fault)),
    }
}

// Acts on a line and prints its reply whole.
pub(crate) fn act<'d, T: Station>(
    alloc: Global,
    engine: &mut Engine<'d, T>,
    reply: &mut Vec<u8>,
    line: &[u8],
) -> Result<(), Ended>
    requires on { engine.old.stopped ≡ false }
    ensures same_loan { engine.new.store.disk.ghost_name ≡ engine.old.store.disk.ghost_name }
    ensures told { IsTrue T.readable → (state : Contents) → HoldsState (T.world engine.old.store.disk.now) state
        → RunsLines state (line.now ∷ []) (T.world engine.old.store.disk.now) (T.world engine.new.store.disk.now) result }
    ensures kept { IsTrue T.readable → IsReading (line_of line.now) → KeepsImage (T.world engine.old.store.disk.now) (T.world engine.new.store.disk.now) result }
    ensures goes_on { GoesOn engine.new.stopped result }
    ensures cause { HasEngineEnd T.readable (T.world engine.old.store.disk.now) (T.world engine.new.store.disk.now) result }
    ensures ends { IfErr result IsLineEnd }
    ensures lacks { IsTrue T.readable → IsErrOf result (Ended.Limit LimitFault.NoRoom) → LacksRoomIn 1 (T.room_of engine.new.store.disk.now) (T.world engine.new.store.disk.now).seen }
{
    reply.clear();
    let found = match reply_to(alloc, engine, line) {
        Ok(found) => found,
        Err(end) => return Err(end),
    };
    match reply_text(alloc, &found, reply) {
        Ok(()) => {}
        Err(Memory) => return Err(Ended::Memory),
    }
    match say_all(engine, &*reply) {
        Ok(()) => Ok(()),
        Err(_) => Err(Ended::Sink),
    }
}
