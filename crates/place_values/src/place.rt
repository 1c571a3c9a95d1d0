// Places, and whether they have words.
ghost use Rattle.std.specs.Prelude.{◌≡◌};
ghost use Rattle.place_values.specs.Filter.{has_word, holds, passes};

use crate::Expr;
use spatial_base::Point;
use term_impacts::{Label, Word, Words};

/// A place: its position, the impact of each of its words, and its label.
#[derive(Drop)]
pub struct Place {
    /// The position of the place.
    pub point: Point,
    /// The impact of each of its words.
    pub words: Words,
    /// Its label: the first line of its text, of at most 63 bytes.
    pub label: Label,
}

impl Place {
    /// Returns whether the place has a word.
    pub fn has(&self, word: &Word) -> bool
        ensures { result ≡ has_word self.now word.now }
    {
        self.words.impact(word) > 0
    }

    /// Returns whether the place meets an expression. It stops at the first word that decides.
    pub fn meets(&self, filter: &Expr) -> bool
        ensures { result ≡ holds self.now filter.now }
    {
        match filter {
            Expr::Has(word) => self.has(word),
            Expr::Not(one) => !self.meets(one),
            Expr::And(one, other) => self.meets(one) && self.meets(other),
            Expr::Or(one, other) => self.meets(one) || self.meets(other),
        }
    }

    /// Returns whether the place passes a filter. Every place passes if there is none.
    pub fn passes(&self, filter: &Option<Expr>) -> bool
        ensures { result ≡ passes filter.now self.now }
    {
        match filter {
            Some(filter) => self.meets(filter),
            None => true,
        }
    }
}
