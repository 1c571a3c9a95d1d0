//! What a ranked search looks for.
use crate::Terms;
use place_values::Expr;

/// What a search requires of places: to be near and to meet a filter, or to hold one of some words.
#[derive(Drop)]
pub enum Ask<'q> {
    Nearest(Option<&'q Expr>),
    Top(Terms<'q>),
}
