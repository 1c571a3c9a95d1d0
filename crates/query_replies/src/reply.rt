//! Replies and their text.
ghost use Rattle.std.specs.Prelude.{◌≡◌, ◌++◌, OnOk, OnErr};
ghost use Rattle.query_replies.specs.Reply.{done_text, labelled_text, place_text, text_of_reply, HasReason};
ghost use Rattle.query_replies.specs.Written.{Adds};

use crate::fault::{LineFault, reason};
use crate::found::write_found;
use crate::lines::write_words;
use crate::parts::{write_bytes, write_key, write_literal, write_number, write_point};
use place_values::{Answer, Query};
use spatial_base::{Key, Memory, Point};
use std::alloc::Global;
use term_impacts::{Label, Words};

/// The result of an accepted update.
#[derive(Clone, Copy, Debug, PartialEq, Eq)]
pub enum UpdateDone {
    /// The map changed: a place was added or removed.
    Ok,
    /// A place was put at a key that had one.
    Replaced,
    /// There was no such key.
    Absent,
}

/// The reply to a line.
#[derive(Drop)]
pub enum Reply {
    /// No bytes.
    Nothing,
    /// An update was accepted.
    Applied(UpdateDone),
    /// 1,000,000 or more places are live, and the key is new.
    Full,
    /// The update number is 2^40, and the update would change the map.
    Worn,
    /// The line is refused.
    Bad(LineFault),
    /// The answer to a query.
    Found {
        /// The answer.
        answer: Answer,
        /// The query.
        query: Query,
        /// Whether each line has the place's position, and in a top query how its cost is made up.
        explain: bool,
    },
    /// The place at the key of a `show`.
    Place {
        /// Its key.
        key: Key,
        /// Its position.
        point: Point,
        /// The impacts of its words.
        words: Words,
        /// Its label.
        label: Label,
    },
    /// There is no place at the key of a `show`.
    Absent,
    /// How many places are live.
    Count(u32),
}

/// Appends the text of a reply: whole lines that end with LF.
///
/// An answer that is not of its query's kind gives no bytes. A `Bad` reply may have any reason except `Memory`.
///
/// Refuses only with `Memory`, and then `out` holds its old bytes.
pub fn reply_text(alloc: Global, reply: &Reply, out: &mut Vec<u8>) -> Result<(), Memory>
    requires { HasReason reply.now }
    ensures ok { OnOk result (out.new.items ≡ out.old.items ++ text_of_reply reply.now) }
    ensures err { OnErr result (out.new.items ≡ out.old.items) }
{
    let old_len = out.len();
    let written = write_reply(alloc, reply, &mut *out);
    if written.is_err() {
        out.truncate(old_len);
    }
    written
}

// Appends the result of an update.
fn write_done(done: UpdateDone, out: &mut Vec<u8>) -> Result<(), Memory>
    ensures { Adds result out.old.items (done_text done) out.new.items }
{
    match done {
        UpdateDone::Ok => write_bytes(b"ok\n", out),
        UpdateDone::Replaced => write_bytes(b"ok replaced\n", out),
        UpdateDone::Absent => write_bytes(b"absent\n", out),
    }
}

// Appends the number of words, the label, and a line for each word.
fn write_labelled(
    alloc: Global,
    words: &Words,
    label: &Label,
    out: &mut Vec<u8>,
) -> Result<(), Memory>
    ensures { Adds result out.old.items (labelled_text words.now label.now) out.new.items }
{
    let words = words.pairs();
    write_number(words.len() as u64, &mut *out)?;
    write_bytes(b" ", &mut *out)?;
    write_literal(alloc, label.text(), &mut *out)?;
    write_bytes(b"\n", &mut *out)?;
    write_words(alloc, words, out)
}

// Appends a place.
fn write_place(
    alloc: Global,
    key: &Key,
    point: &Point,
    words: &Words,
    label: &Label,
    out: &mut Vec<u8>,
) -> Result<(), Memory>
    ensures { Adds result out.old.items (place_text key.now point.now words.now label.now) out.new.items }
{
    write_bytes(b"place ", &mut *out)?;
    write_key(alloc, key, &mut *out)?;
    write_bytes(b" ", &mut *out)?;
    write_point(point, &mut *out)?;
    write_bytes(b" ", &mut *out)?;
    write_labelled(alloc, words, label, out)
}

// Appends the text of a reply, or part of it if memory runs out.
#[tactic(auto, unfolding(crate::specs::Reply::text_of_reply))]
fn write_reply(alloc: Global, reply: &Reply, out: &mut Vec<u8>) -> Result<(), Memory>
    requires { HasReason reply.now }
    ensures { Adds result out.old.items (text_of_reply reply.now) out.new.items }
{
    match reply {
        Reply::Nothing => Ok(()),
        Reply::Applied(done) => write_done(*done, out),
        Reply::Full => write_bytes(b"full\n", out),
        Reply::Worn => write_bytes(b"worn\n", out),
        Reply::Bad(fault) => {
            write_bytes(b"bad ", &mut *out)?;
            write_bytes(reason(*fault), &mut *out)?;
            write_bytes(b"\n", out)
        }
        Reply::Found {
            answer,
            query,
            explain,
        } => write_found(alloc, *explain, query, answer, out),
        Reply::Place {
            key,
            point,
            words,
            label,
        } => write_place(alloc, key, point, words, label, out),
        Reply::Absent => write_bytes(b"absent\n", out),
        Reply::Count(n) => {
            write_bytes(b"count ", &mut *out)?;
            write_number(u64::from(*n), &mut *out)?;
            write_bytes(b"\n", out)
        }
    }
}
