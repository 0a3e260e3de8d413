//! The top call: runs the text that command words ask for, and answers a status.
#![tactic(auto)]

mod command;
mod halt;
mod lines;
mod reading;
mod report;
mod running;
mod writing;

pub use command::run_command;
