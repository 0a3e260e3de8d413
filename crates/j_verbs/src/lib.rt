//! What the verbs that are one word do, on cells and on whole nouns, and the rule of cells.
#![tactic(auto)]

mod calls;
mod nouns;
mod pairs;
mod rows;
mod table;
mod word_forms;
mod words;

pub use calls::{Dyad, Monad, of_one, of_two};
pub use nouns::whole;
pub use pairs::{fills, pair, planned};
pub use rows::{cell_laws, worked_word_forms};
pub use table::{Valence, Valences, valences_of};
pub use words::{cell, valence};
