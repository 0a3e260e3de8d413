//! Verbs on one cell that shape, take, turn and join nouns.
#![tactic(auto)]

mod laws;

pub use j_joining::{append, boxed, laminate, link, opened, raze, stitch};
pub use j_places::{
    behead, curtail, drop_items, head, itemize, ravel, ravel_items, reverse, rotate, shape_of,
    tail, take, tally_of,
};
pub use j_reshaping::{reshape, transpose, transpose_by};
pub use laws::taking_laws;
