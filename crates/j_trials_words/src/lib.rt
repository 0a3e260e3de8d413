//! The tests of what stands below the evaluator: words, number words and sentences of lines, nouns and their cells, verbs, names, and what is shown.
#![tactic(auto)]

#[cfg(test)]
mod cells;
#[cfg(test)]
mod leaves;
#[cfg(test)]
mod lines;
#[cfg(test)]
mod names;
#[cfg(test)]
mod nouns;
#[cfg(test)]
mod sentences;
#[cfg(test)]
mod shown;
#[cfg(test)]
mod verbs;
