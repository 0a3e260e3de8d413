//! Cells of nouns, the agreement of frames, and the assembly of results.
#![tactic(auto)]

mod atoms;
mod cells;
mod collector;
mod common;
mod gathering;
mod kinds;
mod padding;
mod plan;
mod rows;
mod sizes;
mod stored;
mod tables;
mod whole;

pub use atoms::{atom_of, atoms_of_part, box_of, empty_list, fills};
pub use cells::cell_of;
pub use collector::Collector;
pub use common::{common_shape, with_rank};
pub use gathering::{append_bytes, append_nouns, append_numbers, bits_of, gather};
pub use kinds::{has_no_atoms, is_same, joined_kind};
pub use padding::{append_result, part};
pub use plan::{Plan, plan_dyad, plan_monad};
pub use rows::{
    limit_laws, placing_laws, worked_assemblies, worked_kinds, worked_plans, worked_shapes,
};
pub use sizes::{CELL_LIMIT, extended, shape_of, size_within};
pub use stored::{Stored, append_fills, copied, filled};
pub use tables::{frame_tables, items_left, one_left, two_left, whole_left, zero_left};
pub use whole::{alone, are_whole, is_whole};
