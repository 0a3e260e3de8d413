//! Pieces of a noun: prefixes, suffixes, infixes and outfixes.
#![tactic(auto)]

mod copying;
mod forms;
mod pieces;
mod rows;
mod runs;

pub use copying::{Span, items_in, items_out};
pub use pieces::{Pieces, infixes, outfixes, prefixes, suffixes};
pub use rows::{worked_infixes, worked_outfixes, worked_prefixes, worked_suffixes};
