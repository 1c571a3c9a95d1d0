//! Hits as picks.
ghost use Rattle.std.specs.Prelude.{◌≡◌, ◌≤◌, map, IfOk};
ghost use Rattle.group_search.specs.Picks.{AreNear, AreMeasured};
ghost use Rattle.collective_query.specs.TreePicks.{pick_from};

use place_values::{Hit, Pick};
use spatial_base::Origin;
use std::alloc::{AllocError, Global};
use term_impacts::Word;

/// Returns the place of a hit as the pick for a word, with its distance from the point.
pub(crate) fn pick_from_hit(at: &Origin, word: &Word, hit: &Hit) -> Pick
    ensures pick { result ≡ pick_from at.now word.now hit.now }
    ensures near { result.dist ≤ 2545584412 }
{
    Pick {
        key: hit.key,
        word: *word,
        dist: at.dist(&hit.point),
        point: hit.point,
    }
}

/// Returns the places of hits as picks for a word, in the hits' order.
pub(crate) fn picks_from(
    alloc: Global,
    at: &Origin,
    word: &Word,
    hits: &[Hit],
) -> Result<Vec<Pick>, AllocError>
    ensures picks { IfOk result (λ picks. picks.items ≡ map (pick_from at.now word.now) hits.now) }
    ensures near { IfOk result (λ picks. AreNear picks.items) }
    ensures measured { IfOk result (λ picks. AreMeasured at.now picks.items) }
{
    let mut picks = Vec::new(alloc);
    for hit in hits {
        picks.push(pick_from_hit(at, word, hit))?;
    }
    Ok(picks)
}
