//! The names of a run: what they hold in each locale and in the definitions that run.
#![tactic(auto)]

mod locales;
mod names;
mod rows;
mod target;

pub use locales::{characters, locale_boxed, locale_given, locale_text};
pub use names::Names;
pub use rows::{assignment_rows, begun_rows, level_rows, locative_rows, name_laws, simple_rows};
pub use target::Target;
