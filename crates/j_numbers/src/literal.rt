use j_noun::{Noun, RankList};

/// What a number word gives.
#[derive(Drop)]
pub enum Literal {
    Noun(Noun),
    Ranks(RankList),
}
