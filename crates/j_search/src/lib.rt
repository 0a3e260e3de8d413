//! Search for items, nubs, and items in order.
#![tactic(auto)]

mod among;
mod cut;
mod frames;
mod grades;
mod index;
mod kept;
mod looking;
mod merged;
mod nubs;
mod numbered;
mod order;
mod packed;
mod picking;
mod rows;
mod seeking;
mod sorting;
mod sought;
mod tabled;
mod ways;

pub use cut::CutForm;
pub use grades::{grade_down, grade_up, sort_down, sort_up};
pub use index::{index_of, last_index_of, less, match_of, member};
pub use kept::{lost_places, own_places};
pub use looking::first_places;
pub use nubs::{nub, nub_sieve, self_classify};
pub use order::Direction;
pub use rows::{worked_classes, worked_grades, worked_nubs, worked_places};
