//! Bytes printed whole.
ghost use Rattle.std.specs.Prelude.{◌≡◌, false, IsTrue};
ghost use Rattle.disk_model.specs.World.{HasSinkCause};
ghost use Rattle.run_outcome.specs.Said.{SaysAll};

use disk_model::{Failed, Station};
use irtree_engine::Engine;

/// Prints all of the bytes, as many a call as the station takes. After `Failed` a prefix of them was printed. What the engine holds stays.
pub fn say_all<'d, T: Station>(engine: &mut Engine<'d, T>, bytes: &[u8]) -> Result<(), Failed>
    requires on { engine.old.stopped ≡ false }
    ensures same_loan { engine.new.store.disk.ghost_name ≡ engine.old.store.disk.ghost_name }
    ensures said { IsTrue T.readable → SaysAll bytes.now (T.world engine.old.store.disk.now) (T.world engine.new.store.disk.now) result }
    ensures reads { IsTrue T.readable → (T.world engine.new.store.disk.now).reads ≡ (T.world engine.old.store.disk.now).reads }
    ensures cause { HasSinkCause (T.world engine.old.store.disk.now) (T.world engine.new.store.disk.now) result }
    ensures room { T.room_of engine.new.store.disk.now ≡ T.room_of engine.old.store.disk.now }
    ensures on { engine.new.stopped ≡ false }
    ensures head { engine.new.store.current ≡ engine.old.store.current }
{
    let mut at = 0;
    while at < bytes.len() {
        at += engine.say(&bytes[at..])?;
    }
    Ok(())
}
