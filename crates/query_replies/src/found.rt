//! Writes answers, appended to bytes.
ghost use Rattle.std.specs.Prelude.{◌≡◌, ◌*◌};
ghost use Rattle.place_values.specs.Top.{weight_sum};
ghost use Rattle.query_replies.specs.Found.{column_of, number_text, score_text, reason_text, hit_text, pick_text, hits_text, group_text, found_text};
ghost use Rattle.query_replies.specs.Written.{Adds};

use crate::lines::{write_hits, write_picks};
use crate::parts::{
    write_at, write_bytes, write_key, write_literal, write_number, write_units, write_wide,
};
use place_values::{Answer, Chosen, Hit, Pick, Query};
use spatial_base::Memory;
use std::alloc::Global;
use term_impacts::Word;

/// What comes after the key in the line of a hit.
#[derive(Clone, Copy)]
pub(crate) enum Column {
    /// Nothing.
    Key,
    /// The distance.
    Dist,
    /// The cost, with the most that the words can count.
    Cost(u128),
    /// The cost, in a query by rarity: the weights of its words are not in the query.
    CostAlone,
}

// The most that words can count: the sum of each weight times an impact of 255.
fn most_text(words: &[(Word, u8)]) -> u128
    ensures { result ≡ 255 * weight_sum words.now }
{
    let mut sum = 0;
    for (_, weight) in words {
        sum += u128::from(*weight);
    }
    255 * sum
}

// What the line of a hit of this query has, or `None` if the query does not find hits.
fn column_for(query: &Query) -> Option<Column>
    ensures { result ≡ column_of query.now }
{
    match query {
        Query::Range { .. } | Query::Nearest { .. } => Some(Column::Dist),
        Query::Inside { .. } => Some(Column::Key),
        Query::Top { words, .. } => Some(Column::Cost(most_text(words.as_slice()))),
        Query::Rare { .. } => Some(Column::CostAlone),
        Query::Group { .. } | Query::Gather { .. } => None,
    }
}

// Appends the number after the key of a hit.
fn write_column(column: Column, hit: &Hit, out: &mut Vec<u8>) -> Result<(), Memory>
    ensures { Adds result out.old.items (number_text column hit.now) out.new.items }
{
    match column {
        Column::Key => Ok(()),
        Column::Dist => {
            write_bytes(b" ", &mut *out)?;
            write_units(hit.dist, out)
        }
        Column::Cost(_) | Column::CostAlone => {
            write_bytes(b" ", &mut *out)?;
            write_number(hit.cost, out)
        }
    }
}

// Appends how the cost of a hit is made up.
fn write_score(total: u128, hit: &Hit, out: &mut Vec<u8>) -> Result<(), Memory>
    ensures { Adds result out.old.items (score_text total hit.now) out.new.items }
{
    write_bytes(b" dist ", &mut *out)?;
    write_units(hit.dist, &mut *out)?;
    write_bytes(b" text ", &mut *out)?;
    write_number(u64::from(hit.text), &mut *out)?;
    write_bytes(b" of ", &mut *out)?;
    write_wide(total, out)
}

// Appends how the cost of a hit is made up, if `explain` is set.
fn write_reason(explain: bool, column: Column, hit: &Hit, out: &mut Vec<u8>) -> Result<(), Memory>
    ensures { Adds result out.old.items (reason_text explain column hit.now) out.new.items }
{
    match column {
        Column::Cost(total) if explain => write_score(total, hit, out),
        _ => Ok(()),
    }
}

/// Appends what the line of a hit has after its rank.
pub(crate) fn write_hit(
    alloc: Global,
    explain: bool,
    column: Column,
    hit: &Hit,
    out: &mut Vec<u8>,
) -> Result<(), Memory>
    ensures { Adds result out.old.items (hit_text explain column hit.now) out.new.items }
{
    write_key(alloc, &hit.key, &mut *out)?;
    write_column(column, hit, &mut *out)?;
    write_at(explain, &hit.point, &mut *out)?;
    write_reason(explain, column, hit, out)
}

/// Appends what the line of a pick has after its rank.
pub(crate) fn write_pick(
    alloc: Global,
    explain: bool,
    pick: &Pick,
    out: &mut Vec<u8>,
) -> Result<(), Memory>
    ensures { Adds result out.old.items (pick_text explain pick.now) out.new.items }
{
    write_literal(alloc, pick.word.text(), &mut *out)?;
    write_bytes(b" ", &mut *out)?;
    write_key(alloc, &pick.key, &mut *out)?;
    write_bytes(b" ", &mut *out)?;
    write_units(pick.dist, &mut *out)?;
    write_at(explain, &pick.point, out)
}

// Appends the number of hits, and a line for each.
fn write_hits_found(
    alloc: Global,
    explain: bool,
    column: Column,
    hits: &[Hit],
    out: &mut Vec<u8>,
) -> Result<(), Memory>
    ensures { Adds result out.old.items (hits_text explain column hits.now) out.new.items }
{
    write_bytes(b"= ", &mut *out)?;
    write_number(hits.len() as u64, &mut *out)?;
    write_bytes(b"\n", &mut *out)?;
    write_hits(alloc, explain, column, hits, out)
}

// Appends the choice of a group or gather query, or that there is none.
fn write_chosen(
    alloc: Global,
    explain: bool,
    chosen: &Option<Chosen>,
    out: &mut Vec<u8>,
) -> Result<(), Memory>
    ensures { Adds result out.old.items (group_text explain chosen.now) out.new.items }
{
    let Some(chosen) = chosen else {
        return write_bytes(b"none\n", out);
    };
    let picks = chosen.picks.as_slice();
    write_bytes(b"= ", &mut *out)?;
    write_number(picks.len() as u64, &mut *out)?;
    write_bytes(b" ", &mut *out)?;
    write_units(chosen.cost, &mut *out)?;
    write_bytes(b"\n", &mut *out)?;
    write_picks(alloc, explain, picks, out)
}

/// Appends the answer to a query. If the answer is not of the query's kind, it appends nothing.
pub(crate) fn write_found(
    alloc: Global,
    explain: bool,
    query: &Query,
    answer: &Answer,
    out: &mut Vec<u8>,
) -> Result<(), Memory>
    ensures { Adds result out.old.items (found_text explain query.now answer.now) out.new.items }
{
    match answer {
        Answer::Hits(hits) => match column_for(query) {
            Some(column) => write_hits_found(alloc, explain, column, hits.as_slice(), out),
            None => Ok(()),
        },
        Answer::Group(chosen) => match query {
            Query::Group { .. } | Query::Gather { .. } => write_chosen(alloc, explain, chosen, out),
            _ => Ok(()),
        },
    }
}
