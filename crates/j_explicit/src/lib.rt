//! What a line says: the words of its sentence as nouns, verbs, adverbs, conjunctions, copulas and parentheses.
#![tactic(auto)]

mod fault;
mod item;
mod noun_words;
mod reading;
mod rows;
mod text;

pub use fault::LineFault;
pub use j_entity::{Entity, Item, Prepared};
pub use reading::prepare;
pub use rows::{spelling_laws, text_laws, worked_rows};
