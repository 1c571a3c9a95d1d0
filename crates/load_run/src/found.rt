// What queries find, counted.
ghost use Rattle.std.specs.Prelude.{◌≡◌, ◌≤◌, ◌*◌, ◌^◌, length, take};
ghost use Rattle.load_run.specs.Asking.{Counts, hits_in};

use place_values::{Answer, Hit};

/// How many hits a query asks for.
pub(crate) const HITS_MAX: u16 = 10;

/// How many hits were found, and what they cost together.
#[derive(Clone, Copy, Debug)]
pub struct Found {
    pub hits: u32,
    pub cost: u128,
}

// The hits of an answer.
fn hits_of(answer: &Answer) -> &[Hit]
    ensures { result.now ≡ hits_in answer.now }
{
    match answer {
        Answer::Hits(hits) => hits.as_slice(),
        Answer::Group(_) => &[],
    }
}

// What is counted of hits.
fn count_of(hits: &[Hit]) -> Found
    requires { length hits.now ≤ 10 }
    ensures counts { Counts hits.now result }
    ensures few { result.cost ≤ 10 * 2 ^ 64 }
{
    let mut cost = 0;
    for hit in hits {
        cost += u128::from(hit.cost);
    }
    Found {
        hits: hits.len() as u32,
        cost,
    }
}

/// Counts the first ten hits of an answer.
pub(crate) fn counted(answer: &Answer) -> Found
    ensures counts { Counts (take 10 (hits_in answer.now)) result }
    ensures few { (result.hits ≤ 10) × (result.cost ≤ 10 * 2 ^ 64) }
{
    let hits = hits_of(answer);
    let len = hits.len().min(HITS_MAX as usize);
    count_of(&hits[..len])
}
