//! Verbs on the shapes, items and axes of nouns.
#![tactic(auto)]

mod axis;
mod axis_places;
mod item_places;
mod keeping;
mod place_rows;

pub use axis_places::{drop_items, rotate, take};
pub use item_places::{
    behead, curtail, head, itemize, ravel, ravel_items, reverse, shape_of, tail, tally_of,
};
pub use place_rows::{
    place_laws, worked_drops, worked_items, worked_ravels, worked_rotations, worked_takes,
};
