// Queries and their answers.
use crate::{Hits, Listed};
use spatial_base::{Key, Point, Rect};
use term_impacts::Word;

/// A condition on the words of a place.
#[derive(Drop)]
pub enum Expr {
    /// The place has this word.
    Has(Word),
    /// The place does not meet this condition.
    Not(Box<Expr>),
    /// The place meets both conditions.
    And(Box<Expr>, Box<Expr>),
    /// The place meets at least one of the conditions.
    Or(Box<Expr>, Box<Expr>),
}

/// Words with their weights, which contracts see as a list.
pub type Weights = Listed<(Word, u8)>;

/// Words, which contracts see as a list.
pub type Terms = Listed<Word>;

/// A question about the live places. If a filter is `None`, every place passes it.
#[derive(Drop)]
pub enum Query {
    /// The places within a distance of a point, by distance and then by key.
    Range {
        /// The point that distances are measured from.
        at: Point,
        /// How many thousandths of its size a step of longitude counts in a distance: 0 to 1000.
        scale: u16,
        /// The greatest distance that counts, in degrees times 10^7: at most 10^12.
        radius: u64,
        /// The condition on each place, with at most 64 words and 32 levels of `not` and parentheses.
        filter: Option<Expr>,
    },
    /// The places in a rectangle, including its border, by key.
    Inside {
        /// The rectangle.
        rect: Rect,
        /// The condition on each place, with at most 64 words and 32 levels of `not` and parentheses.
        filter: Option<Expr>,
    },
    /// The places nearest to a point, by distance and then by key.
    Nearest {
        /// The point that distances are measured from.
        at: Point,
        /// How many thousandths of its size a step of longitude counts in a distance: 0 to 1000.
        scale: u16,
        /// The most hits in the answer, 1 to 1000.
        k: u16,
        /// The condition on each place, with at most 64 words and 32 levels of `not` and parentheses.
        filter: Option<Expr>,
    },
    /// The places of least cost among those that have at least one of the words, by cost and then by key.
    Top {
        /// The point that distances are measured from.
        at: Point,
        /// How many thousandths of its size a step of longitude counts in a distance: 0 to 1000.
        scale: u16,
        /// The most hits in the answer, 1 to 1000.
        k: u16,
        /// How much the distance counts against the words, in thousandths: 0 to 1000.
        alpha: u16,
        /// The distance that counts as much as all the words, in degrees times 10^7: 1 to 4,024,922,359.
        reach: u64,
        /// One to 8 distinct words, with weights of 1 to 20.
        words: Weights,
    },
    /// The same with weights by rarity: a word that few live places hold counts more than one that many hold.
    ///
    /// The weight is 1 if no place holds the word. Else it is one more than the number of times, at most 19, that the number of places
    /// that hold it can double and still be no more than all live places: a word on every place has 1, one on half of them has 2.
    Rare {
        /// The point that distances are measured from.
        at: Point,
        /// How many thousandths of its size a step of longitude counts in a distance: 0 to 1000.
        scale: u16,
        /// The most hits in the answer, 1 to 1000.
        k: u16,
        /// How much the distance counts against the words, in thousandths: 0 to 1000.
        alpha: u16,
        /// The distance that counts as much as all the words, in degrees times 10^7: 1 to 4,024,922,359.
        reach: u64,
        /// One to 8 distinct words.
        words: Terms,
    },
    /// A place for each word, so that the places are near a point and near each other.
    Group {
        /// The point that distances are measured from.
        at: Point,
        /// How many thousandths of its size a step of longitude counts in a distance: 0 to 1000.
        scale: u16,
        /// One to 8 distinct words.
        words: Terms,
    },
    /// A place for each word, so that the distances from a point to the places are least in sum. A place that serves several words counts
    /// once.
    Gather {
        /// The point that distances are measured from.
        at: Point,
        /// How many thousandths of its size a step of longitude counts in a distance: 0 to 1000.
        scale: u16,
        /// One to 8 distinct words.
        words: Terms,
    },
}

/// The place chosen for a word in the answer to a group or gather query.
///
/// Picks are ordered by key first. Two picks for the same word and the same key are the same.
#[derive(Clone, Copy, Debug, PartialEq, Eq, PartialOrd, Ord)]
pub struct Pick {
    /// The place's key.
    pub key: Key,
    /// The word.
    pub word: Word,
    /// The distance to the query's point with the query's scale, in degrees times 10^7.
    pub dist: u64,
    /// The position of the place.
    pub point: Point,
}

/// Picks, which contracts see as a list.
pub type Picks = Listed<Pick>;

/// A place for each word of a group or gather query.
#[derive(Drop)]
pub struct Chosen {
    /// What the choice costs, in degrees times 10^7. For a group query it is the greatest distance to the query's point plus the greatest
    /// distance between two of the places, for a gather query the sum of the distances to its distinct places.
    pub cost: u64,
    /// The places, in the order of the query's words.
    pub picks: Picks,
}

/// The answer to a query.
#[derive(Drop)]
pub enum Answer {
    /// The hits, in order, of a range, box, nearest or top query, or one by rarity.
    Hits(Hits),
    /// The choice of a group or gather query, or `None` if some word has no place.
    Group(Option<Chosen>),
}
