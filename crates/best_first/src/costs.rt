//! What places cost.
ghost use Rattle.std.specs.Prelude.{◌≡◌, ◌≤◌};
ghost use Rattle.best_first.specs.Asks.{cost_by};

use crate::Ask;
use place_values::cost_of;

impl<'q> Ask<'q> {
    /// Returns the cost of a place at a distance and with a relevance.
    pub fn cost(&self, dist: u64, text: u32) -> u64
        requires { dist ≤ 2545584412 }
        ensures { result ≡ cost_by self.now dist text }
    {
        match self {
            Ask::Nearest(_) => dist,
            Ask::Top(terms) => cost_of(terms.alpha, terms.reach, terms.weight, dist, text),
        }
    }
}
