//! The tests of what stands below the top call: steps, calls of verbs, and what is formed.
#![tactic(auto)]

#[cfg(test)]
mod formed;
#[cfg(test)]
mod names;
#[cfg(test)]
mod steps;
