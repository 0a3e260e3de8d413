//! Forms verbs and operators of entities that stand side by side: rows 3 to 6 of the parsing table.
#![tactic(auto)]

mod modifiers;
mod obverses;
mod operands;
mod rows;
mod trains;

pub use modifiers::{adverb, conjunction};
pub use obverses::obverse;
pub use operands::{adverb_fault, conjunction_fault, times_fault};
pub use rows::{
    adverb_rows, composition_rows, cut_rows, formed_laws, height_laws, missing_laws,
    operand_tables, order_rows, partial_rows, power_rows, rank_rows, train_laws, under_rows,
    worked_rows,
};
pub use trains::{bident, fork};
