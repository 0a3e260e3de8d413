//! Verbs, operators, bodies and sentences, and the trees that they stand for.
#![tactic(auto)]

mod entity;
mod heights;
mod ranks;
mod rows;
mod tree;

pub use entity::{
    Body, Entity, Item, Operand, Operator, OperatorParts, Part, Parts, Prepared, Verb,
};
pub use j_leaves::{Modifier, Move, Name, Place, Primitive, Ranks, Text};
pub use j_noun::{Rank, RankList, RankPart};
pub use ranks::one_more;
pub use rows::{height_rows, modifier_rank_rows, rank_rows, sentence_rows};
pub use tree::{OperatorTree, Tree};
