//! Writes the numbered lines of a reply, appended to bytes.
ghost use Rattle.std.specs.Prelude.{flat_map};
ghost use Rattle.query_replies.specs.Found.{hit_text, pick_text};
ghost use Rattle.query_replies.specs.Lines.{ranked_line, ranked_lines};
ghost use Rattle.query_replies.specs.Reply.{word_line};
ghost use Rattle.query_replies.specs.Written.{Adds};

use crate::found::{Column, write_hit, write_pick};
use crate::parts::{write_bytes, write_literal, write_number};
use place_values::{Hit, Pick};
use spatial_base::Memory;
use std::alloc::Global;
use term_impacts::Word;

// Appends the line of a hit.
fn write_hit_line(
    alloc: Global,
    explain: bool,
    column: Column,
    rank: u64,
    hit: &Hit,
    out: &mut Vec<u8>,
) -> Result<(), Memory>
    ensures { Adds result out.old.items (ranked_line (hit_text explain column) rank hit.now) out.new.items }
{
    write_number(rank, &mut *out)?;
    write_bytes(b" ", &mut *out)?;
    write_hit(alloc, explain, column, hit, &mut *out)?;
    write_bytes(b"\n", out)
}

/// Appends a line for each hit.
pub(crate) fn write_hits(
    alloc: Global,
    explain: bool,
    column: Column,
    hits: &[Hit],
    out: &mut Vec<u8>,
) -> Result<(), Memory>
    ensures { Adds result out.old.items (ranked_lines (hit_text explain column) 1 hits.now) out.new.items }
{
    let mut rank = 0;
    for hit in hits {
        rank += 1;
        write_hit_line(alloc, explain, column, rank, hit, &mut *out)?;
    }
    Ok(())
}

// Appends the line of a pick.
fn write_pick_line(
    alloc: Global,
    explain: bool,
    rank: u64,
    pick: &Pick,
    out: &mut Vec<u8>,
) -> Result<(), Memory>
    ensures { Adds result out.old.items (ranked_line (pick_text explain) rank pick.now) out.new.items }
{
    write_number(rank, &mut *out)?;
    write_bytes(b" ", &mut *out)?;
    write_pick(alloc, explain, pick, &mut *out)?;
    write_bytes(b"\n", out)
}

/// Appends a line for each pick.
pub(crate) fn write_picks(
    alloc: Global,
    explain: bool,
    picks: &[Pick],
    out: &mut Vec<u8>,
) -> Result<(), Memory>
    ensures { Adds result out.old.items (ranked_lines (pick_text explain) 1 picks.now) out.new.items }
{
    let mut rank = 0;
    for pick in picks {
        rank += 1;
        write_pick_line(alloc, explain, rank, pick, &mut *out)?;
    }
    Ok(())
}

// Appends the line of a word.
fn write_word(alloc: Global, word: &Word, impact: u8, out: &mut Vec<u8>) -> Result<(), Memory>
    ensures { Adds result out.old.items (word_line (word.now, impact)) out.new.items }
{
    write_literal(alloc, word.text(), &mut *out)?;
    write_bytes(b" ", &mut *out)?;
    write_number(u64::from(impact), &mut *out)?;
    write_bytes(b"\n", out)
}

/// Appends a line for each word.
pub(crate) fn write_words(
    alloc: Global,
    words: &[(Word, u8)],
    out: &mut Vec<u8>,
) -> Result<(), Memory>
    ensures { Adds result out.old.items (flat_map word_line words.now) out.new.items }
{
    for (word, impact) in words {
        write_word(alloc, word, *impact, &mut *out)?;
    }
    Ok(())
}
