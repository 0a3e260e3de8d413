//! Verbs on the shapes, items and axes of nouns.
#![tactic(auto)]

mod axis_rows;
mod reshaping;
mod transposing;

pub use axis_rows::{reshaping_laws, worked_reshapes, worked_transpositions};
pub use reshaping::reshape;
pub use transposing::{transpose, transpose_by};
