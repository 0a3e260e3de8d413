//! Verbs that select: those that take by indices, and with them amend and catalogue.
#![tactic(auto)]

mod amending;
mod choosing;
mod putting;
mod reaching;
mod rows;

pub use amending::amend;
pub use choosing::catalogue;
pub use j_indices::{cells_at, copy, from, from_list, indices_of_ones, integers, steps_around};
pub use rows::{worked_amendments, worked_catalogues};
