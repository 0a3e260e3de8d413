// The ranks of verbs.
use j_noun::Rank;

/// The ranks of a verb: of its one argument, and of its left and its right one.
#[derive(Clone, Copy, PartialEq, Eq, Debug)]
pub struct Ranks {
    pub monad: Rank,
    pub left: Rank,
    pub right: Rank,
}
