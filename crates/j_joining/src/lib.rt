//! Verbs on one cell that join, reshape and rearrange nouns.
#![tactic(auto)]

mod groups;
mod joining;
mod joining_rows;
mod linking;
mod razing;
mod stitching;

pub use joining::{append, laminate};
pub use joining_rows::{
    joining_limits, worked_appends, worked_boxes, worked_empty_appends, worked_laminates,
    worked_razes, worked_stitches,
};
pub use linking::{boxed, link, opened};
pub use razing::raze;
pub use stitching::stitch;
