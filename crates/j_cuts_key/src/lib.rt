//! Pieces of a noun: oblique lines, items by keys, and cuts.
#![tactic(auto)]

mod frets;
mod line_places;
mod lines;
mod linking;
mod pieces;
mod rows;
mod spans;

pub use j_search::CutForm;
pub use pieces::{Pieces, cuts, cuts_by, keyed, obliques};
pub use rows::{worked_cuts, worked_keys, worked_marked_cuts, worked_obliques};
