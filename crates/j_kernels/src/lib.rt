//! The scalar verbs on whole nouns.
#![tactic(auto)]

mod alike;
mod alike_slowly;
mod bits;
mod divide;
mod divisors;
mod dyads;
mod forms;
mod frames;
mod likeness;
mod monads;
mod multiples;
mod numbers;
mod pairs;
mod powers;
mod residues;
mod rows;
mod scalar;
mod verbs;

pub use dyads::dyad;
pub use monads::monad;
pub use scalar::Scalar;
