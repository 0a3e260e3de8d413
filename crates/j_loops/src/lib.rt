//! The loops of verbs that are applied to each pair of atoms, for any storage of numbers.
#![tactic(auto)]

mod blocks;
mod buffers;
mod loops;
pub mod masked;
mod number;
mod op;
mod stored;

pub use buffers::fill;
pub use number::Number;
pub use op::Op;
pub use stored::Stored;
