//! Evaluates sentences: words, trains, names, and the verbs that modifiers make.
#![tactic(auto)]

mod amending;
mod applying;
mod boxing;
mod by_rank;
mod compositions;
mod insertion;
mod laws;
mod machine;
mod modifiers;
mod outcome;
mod pieces;
mod powers;
mod ranked;
mod run_verbs;
mod sentence;
mod several;
mod sources;
mod stack;
mod trains;

pub use j_entity::{Entity, Prepared};
pub use j_explicit::{LineFault, prepare};
pub use laws::parsing_laws;
pub use machine::Machine;
pub use outcome::{Halt, Outcome};
