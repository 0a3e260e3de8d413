//! Number words: how they are read, and how numbers are printed.
#![tactic(auto)]

mod digits;
mod fault;
mod literal;
mod part;
mod rows;
mod words;

pub use digits::{Digits, print};
pub use fault::NumberFault;
pub use j_noun::{RankList, RankPart};
pub use literal::Literal;
pub use rows::worked_rows;
pub use words::{first_part, read_list, read_noun};
