//! How values are shown: the rows of a noun, and one word for a verb, an adverb and a conjunction; and a noun as characters.
#![tactic(auto)]

mod arranged;
mod box_rows;
mod canvas;
mod columns;
mod display;
mod format_rows;
mod formatting;
mod grid;
mod leaves;
mod lines;
mod measure;
mod paint;
mod rows;
mod sizes;

pub use box_rows::{
    rows_of_box_cubes, rows_of_box_lists, rows_of_box_tables, rows_of_boxes, rows_of_contents,
    rows_of_nested_boxes,
};
pub use display::show;
pub use format_rows::rows_of_formats;
pub use formatting::format;
pub use rows::{rows_of_cubes, rows_of_lists, rows_of_tables, rows_of_words};
