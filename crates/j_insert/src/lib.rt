//! Items from the right, the identities of verbs, and digits by a base.
#![tactic(auto)]

mod bases;
mod binaries;
mod digits;
mod identities;
mod items;
mod numbers;
mod rows;

pub use bases::base;
pub use binaries::antibase_two;
pub use digits::antibase;
pub use identities::identity;
pub use items::{FromRight, from_right};
pub use rows::{
    digit_laws, worked_antibases, worked_bases, worked_binaries, worked_identities, worked_items,
};
