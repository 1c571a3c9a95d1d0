//! The two entries that a split by words begins with.
ghost use Rattle.std.specs.Prelude.{◌≡◌, ◌<◌};
ghost use Rattle.text_policy.specs.Words.{like_at};
ghost use Rattle.text_policy.specs.Splits.{AreBeginners, IsPartner};

/// Two entries, the one with the lesser number first, and how many words they share.
#[derive(Clone, Copy)]
pub(crate) struct Pair {
    pub(crate) first: usize,
    pub(crate) second: usize,
    pub(crate) shared: u32,
}

/// Returns how many words two entries share.
pub(crate) fn shared_by(like: &[[u32; 33]; 33], entry: usize, other: usize) -> u32
    requires entry { entry < 33 }
    requires other { other < 33 }
    ensures { result ≡ like_at like.now entry other }
{
    like[entry][other]
}

/// Returns an entry, with the entry after it that shares the fewest words with it, among equals the first.
fn partner(like: &[[u32; 33]; 33], first: usize) -> Pair
    requires { first < 32 }
    ensures first { result.first ≡ first }
    ensures shared { result.shared ≡ like_at like.now first result.second }
    ensures second { IsPartner like.now first result.second }
{
    let mut best = Pair {
        first,
        second: first + 1,
        shared: shared_by(like, first, first + 1),
    };
    for second in first + 2..33 {
        let shared = shared_by(like, first, second);
        if shared < best.shared {
            best = Pair {
                first,
                second,
                shared,
            };
        }
    }
    best
}

/// Returns the pair of entries that share the fewest words.
///
/// Among equals it is the pair with the least first entry, and then with the least second.
pub(crate) fn beginners(like: &[[u32; 33]; 33]) -> Pair
    ensures { AreBeginners like.now result.first result.second }
{
    let mut best = partner(like, 0);
    for first in 1..32 {
        let pair = partner(like, first);
        if pair.shared < best.shared {
            best = pair;
        }
    }
    best
}
