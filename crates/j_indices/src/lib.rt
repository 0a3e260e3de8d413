//! Verbs that make indices and take by them: integers, where, copy and from.
#![tactic(auto)]

mod axes;
mod copying;
mod counting;
mod indexing;
mod numbers;
mod rows;
mod selecting;

pub use axes::{frame_of, from_box, index_fault, nouns_of};
pub use copying::copy;
pub use counting::{indices_of_ones, integers, steps_around};
pub use indexing::{from, from_list};
pub use numbers::{Numbers, Whole, index_of, numbers_of, places_of};
pub use rows::{worked_copies, worked_counting, worked_index, worked_indices};
pub use selecting::{behind, cells_at};
