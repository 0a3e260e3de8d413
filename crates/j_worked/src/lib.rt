//! Sentences and texts worked out by hand, as theorems: what the meaning gives when it is computed.
#![tactic(auto)]

mod sentences;
mod texts;

pub use sentences::{
    insertion_rows, modifier_rows, name_rows, piece_rows, power_rows, run_rows, several_rows,
    table_rows, under_rows, worked_rows,
};
pub use texts::{report_rows, spent_rows, worked_texts};
