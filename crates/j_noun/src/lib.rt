//! Nouns: a kind, a shape and a list of atoms.
#![tactic(auto)]

mod axes;
mod blocks;
mod noun;
mod order;
mod ranks;
mod refusal;
mod rows;
mod shape;
mod short;
mod view;

pub use j_definitions::{Fault, Kind};
pub use j_pool::{NoMemory, Pool};
pub use noun::{Atoms, Noun, boxes};
pub use ranks::{Rank, RankList, RankPart};
pub use refusal::Refusal;
pub use rows::{limit_rows, match_rows, measure_rows};
pub use shape::Shape;
pub use view::View;
