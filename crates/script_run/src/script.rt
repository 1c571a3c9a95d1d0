// A script, read piece by piece.
ghost use Rattle.std.specs.Prelude.{◌≡◌, ◌≤◌, ◌<◌, ◌++◌, ◌∷◌, [], ℕ, List, false, length, take, slice_index, IsTrue, OnOk, IfNone, IfSome, IfErr, IsErrOf};
ghost use Rattle.place_values.specs.State.{Contents};
ghost use Rattle.irtree_engine.specs.Holding.{HoldsState};
ghost use Rattle.run_outcome.specs.Causes.{GoesOn, HasEngineEnd, LacksRoomIn};
ghost use Rattle.query_lang.specs.Line.{line_of};
ghost use Rattle.run_outcome.specs.Reading.{AreReading, IsReading, KeepsImage};
ghost use Rattle.run_outcome.specs.Script.{cut, last_line};
ghost use Rattle.script_run.specs.Feed.{kept, EndsNoLine};
ghost use Rattle.script_run.specs.Lines.{IsLineEnd, RunsLines};

use crate::line::act;
use disk_model::Station;
use irtree_engine::Engine;
use query_lang::LINE_MAX;
use run_outcome::{Ended, LimitFault};
use std::alloc::Global;

/// How many bytes of a line are kept: a longer line is refused whatever its other bytes are.
const LINE_KEPT: usize = LINE_MAX + 1;

/// The line that has not ended yet, and room for a reply.
#[derive(Drop)]
pub(crate) struct Script {
    alloc: Global,
    line: Vec<u8>,
    reply: Vec<u8>,
}

// Adds to a line as much as can matter.
fn extend(line: &mut Vec<u8>, part: &[u8]) -> Result<(), Ended>
    requires { length line.old.items ≤ 65537 }
    ensures ok { OnOk result (line.new.items ≡ kept (line.old.items ++ part.now)) }
    ensures short { OnOk result (length line.new.items ≤ 65537) }
    ensures err { IfErr result (λ end. end ≡ Ended.Memory) }
{
    let room = LINE_KEPT - line.len();
    match line.extend_from_slice(&part[..part.len().min(room)]) {
        Ok(()) => Ok(()),
        Err(_) => Err(Ended::Memory),
    }
}

// The length of the first line that an LF ends.
fn line_len(bytes: &[u8]) -> Option<usize>
    ensures none { IfNone result (EndsNoLine bytes.now) }
    ensures within { IfSome result (λ len. len < length bytes.now) }
    ensures ended { IfSome result (λ len. slice_index bytes.now len ≡ 10) }
    ensures line { IfSome result (λ len. EndsNoLine (take len bytes.now)) }
{
    for (at, byte) in bytes.iter().enumerate() {
        if *byte == b'\n' {
            return Some(at);
        }
    }
    None
}

// The first line that an LF ends, and the bytes after the LF.
fn first_line(bytes: &[u8]) -> Option<(&[u8], &[u8])>
    ensures none { IfNone result (EndsNoLine bytes.now) }
    ensures line { IfSome result (λ parts. EndsNoLine parts.0.now) }
    ensures whole { IfSome result (λ parts. bytes.now ≡ parts.0.now ++ 10 ∷ parts.1.now) }
    ensures shorter { IfSome result (λ parts. length parts.1.now < length bytes.now) }
{
    let len = line_len(bytes)?;
    Some((&bytes[..len], &bytes[len + 1..]))
}

impl Script {
    /// A script of which nothing was read yet.
    pub(crate) fn new(alloc: Global) -> Script
        ensures { result.line.items ≡ [] }
    {
        Script {
            alloc,
            line: Vec::new(alloc),
            reply: Vec::new(alloc),
        }
    }

    // Acts on the line that a part ends.
    fn end_line<'d, T: Station>(
        &mut self,
        engine: &mut Engine<'d, T>,
        part: &[u8],
    ) -> Result<(), Ended>
        requires on { engine.old.stopped ≡ false }
        requires short { length self.old.line.items ≤ 65537 }
        ensures same_loan { engine.new.store.disk.ghost_name ≡ engine.old.store.disk.ghost_name }
        ensures told { (front : List ℕ) → self.old.line.items ≡ kept front → IsTrue T.readable → (state : Contents) → HoldsState (T.world engine.old.store.disk.now) state
            → RunsLines state ((front ++ part.now) ∷ []) (T.world engine.old.store.disk.now) (T.world engine.new.store.disk.now) result }
        ensures kept { (front : List ℕ) → self.old.line.items ≡ kept front → IsTrue T.readable → IsReading (line_of (front ++ part.now))
            → KeepsImage (T.world engine.old.store.disk.now) (T.world engine.new.store.disk.now) result }
        ensures line { OnOk result (self.new.line.items ≡ []) }
        ensures goes_on { GoesOn engine.new.stopped result }
        ensures cause { HasEngineEnd T.readable (T.world engine.old.store.disk.now) (T.world engine.new.store.disk.now) result }
        ensures ends { IfErr result IsLineEnd }
        ensures lacks { IsTrue T.readable → IsErrOf result (Ended.Limit LimitFault.NoRoom) → LacksRoomIn 1 (T.room_of engine.new.store.disk.now) (T.world engine.new.store.disk.now).seen }
    {
        if self.line.is_empty() {
            return act(self.alloc, engine, &mut self.reply, part);
        }
        extend(&mut self.line, part)?;
        act(self.alloc, engine, &mut self.reply, &self.line)?;
        self.line.clear();
        Ok(())
    }

    /// Acts on the lines that a piece of the input ends, and keeps what it leaves of the next line.
    pub(crate) fn feed<'d, T: Station>(
        &mut self,
        engine: &mut Engine<'d, T>,
        piece: &[u8],
    ) -> Result<(), Ended>
        requires on { engine.old.stopped ≡ false }
        requires short { length self.old.line.items ≤ 65537 }
        ensures same_loan { engine.new.store.disk.ghost_name ≡ engine.old.store.disk.ghost_name }
        ensures told { (front : List ℕ) → EndsNoLine front → self.old.line.items ≡ kept front → IsTrue T.readable → (state : Contents) → HoldsState (T.world engine.old.store.disk.now) state
            → RunsLines state (cut (front ++ piece.now)).lines (T.world engine.old.store.disk.now) (T.world engine.new.store.disk.now) result }
        ensures kept { (front : List ℕ) → EndsNoLine front → self.old.line.items ≡ kept front → IsTrue T.readable → AreReading (cut (front ++ piece.now)).lines
            → KeepsImage (T.world engine.old.store.disk.now) (T.world engine.new.store.disk.now) result }
        ensures line { (front : List ℕ) → EndsNoLine front → self.old.line.items ≡ kept front
            → OnOk result (self.new.line.items ≡ kept (cut (front ++ piece.now)).rest) }
        ensures short { OnOk result (length self.new.line.items ≤ 65537) }
        ensures goes_on { GoesOn engine.new.stopped result }
        ensures cause { HasEngineEnd T.readable (T.world engine.old.store.disk.now) (T.world engine.new.store.disk.now) result }
        ensures ends { IfErr result IsLineEnd }
        ensures lacks { IsTrue T.readable → IsErrOf result (Ended.Limit LimitFault.NoRoom) → LacksRoomIn 1 (T.room_of engine.new.store.disk.now) (T.world engine.new.store.disk.now).seen }
    {
        let mut rest = piece;
        'lines: while let Some((line, next)) = first_line(rest) {
            self.end_line(engine, line)?;
            rest = next;
        }
        extend(&mut self.line, rest)
    }

    /// Acts on the bytes after the last LF, if there are any.
    pub(crate) fn end<'d, T: Station>(&mut self, engine: &mut Engine<'d, T>) -> Result<(), Ended>
        requires on { engine.old.stopped ≡ false }
        ensures same_loan { engine.new.store.disk.ghost_name ≡ engine.old.store.disk.ghost_name }
        ensures told { (front : List ℕ) → self.old.line.items ≡ kept front → IsTrue T.readable → (state : Contents) → HoldsState (T.world engine.old.store.disk.now) state
            → RunsLines state (last_line front) (T.world engine.old.store.disk.now) (T.world engine.new.store.disk.now) result }
        ensures kept { (front : List ℕ) → self.old.line.items ≡ kept front → IsTrue T.readable → AreReading (last_line front)
            → KeepsImage (T.world engine.old.store.disk.now) (T.world engine.new.store.disk.now) result }
        ensures goes_on { GoesOn engine.new.stopped result }
        ensures cause { HasEngineEnd T.readable (T.world engine.old.store.disk.now) (T.world engine.new.store.disk.now) result }
        ensures ends { IfErr result IsLineEnd }
        ensures lacks { IsTrue T.readable → IsErrOf result (Ended.Limit LimitFault.NoRoom) → LacksRoomIn 1 (T.room_of engine.new.store.disk.now) (T.world engine.new.store.disk.now).seen }
    {
        if self.line.is_empty() {
            return Ok(());
        }
        act(self.alloc, engine, &mut self.reply, &self.line)
    }
}
