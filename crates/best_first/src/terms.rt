//! Words with their weights.
ghost use Rattle.std.specs.Prelude.{◌≡◌, ◌≤◌, length};
ghost use Rattle.std.proofs.Props.{props};
ghost use Rattle.place_values.specs.Query.{IsBlend, IsWeights};
ghost use Rattle.place_values.specs.Top.{weight_sum};

use place_values::sum_of_weights;
use term_impacts::Word;

/// Words with their weights, and how much they weigh against the distance.
#[derive(Drop)]
pub struct Terms<'q> {
    pub alpha: u16,
    pub reach: u64,
    pub weight: u32,
    pub words: &'q [(Word, u8)],
    ghost few: { length words.now ≤ 8 } by { Prim.hlevel props },
    ghost blend: { IsBlend alpha reach } by { Prim.hlevel props },
    ghost sum: { weight ≡ weight_sum words.now } by { Prim.hlevel props },
    ghost most: { weight ≤ 160 } by { Prim.hlevel props },
}

impl<'q> Terms<'q> {
    /// Makes words with their weights. The distance weighs `alpha` thousandths, and the distance `reach` as much as all the words.
    pub fn new(alpha: u16, reach: u64, words: &'q [(Word, u8)]) -> Terms<'q>
        requires blend { IsBlend alpha reach }
        requires words { IsWeights words.now }
        ensures alpha { result.alpha ≡ alpha }
        ensures reach { result.reach ≡ reach }
        ensures words { result.words.now ≡ words.now }
    {
        let weight = sum_of_weights(words);
        Terms {
            alpha,
            reach,
            weight,
            words,
        }
    }
}
