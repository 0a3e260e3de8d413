//! Runs standard input as `jrun` without words does. Its stored run goes to the deepest call and the highest verb.
#![tactic(auto)]

use j_cli::run_command;
use j_io::{RealSink, RealSource};
use std::io;
use std::process::ExitCode;

const NO_MEMORY: u8 = 1;

fn run(rt: HostRuntime) -> io::Result<u8> {
    let words = Vec::new(rt.alloc());
    let mut source = RealSource::new(rt.clone()?);
    let mut sink = RealSink::new(rt.clone()?);
    Ok(run_command(rt.alloc(), &words, &mut source, &mut sink))
}

fn main(rt: HostRuntime) -> ExitCode {
    ExitCode::from(run(rt).unwrap_or(NO_MEMORY))
}
