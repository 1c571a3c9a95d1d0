//! The numbers of a query's words.
ghost use Rattle.std.specs.Prelude.{◌≡◌};
ghost use Rattle.std.specs.Map.{lookup};
ghost use Rattle.std.specs.Str.{bytes_eq};
ghost use Rattle.node_filter.specs.Numbers.{number_of};

use std::marker::Model;
use term_impacts::Word;

/// The forms of a query's words that the store knows, in ascending order, each with the word's number. Contracts see the list.
#[derive(Drop)]
pub struct Ids {
    list: Vec<([u8; 33], u64)>,
}

impl Model for Ids {
    ghost use Rattle.node_filter.specs.Numbers.{Numbers};

    ghost Value = { Numbers };

    ghost view = { λ ids. ids.list.items };
}

impl Ids {
    /// Makes the numbers from a list of forms, each with its word's number.
    pub fn from_vec(list: Vec<([u8; 33], u64)>) -> Ids
        ensures { result ≡ list.items }
    {
        Ids { list }
    }

    /// Returns the number of a word, or `None` if the store doesn't know it. Compares at most one form for each word of the query.
    pub fn number(&self, word: &Word) -> Option<u64>
        ensures { result ≡ number_of self.now word.now }
    {
        number_among(self.list.as_slice(), &word.bytes())
    }
}

// The number beside a form in the list.
fn number_among(list: &[([u8; 33], u64)], form: &[u8; 33]) -> Option<u64>
    ensures { result ≡ lookup (bytes_eq form.now) list.now }
{
    match list.split_first() {
        Some((pair, others)) => {
            if *form == pair.0 {
                Some(pair.1)
            } else {
                number_among(others, form)
            }
        }
        None => None,
    }
}
