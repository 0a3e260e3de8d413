//! What stands at the leaves of the trees of verbs: primitives, modifiers, ranks, names and the moves of bodies.
#![tactic(auto)]

mod modifier;
mod moves;
mod name;
mod primitive;
mod ranks;
mod rows;

pub use modifier::Modifier;
pub use moves::{Exit, Move, Span};
pub use name::{Name, Place, Text};
pub use primitive::Primitive;
pub use ranks::Ranks;
pub use rows::{name_laws, vocabulary_laws, worked_rows};
