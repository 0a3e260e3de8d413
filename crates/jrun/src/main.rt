//! Runs the J script on standard input and writes what it shows to standard output.
#![tactic(auto)]

use j_cli::run_command;
use j_io::{RealSink, RealSource};
use std::alloc::Global;
use std::env;
use std::io::{self, ErrorKind};
use std::process::ExitCode;
use std::rt::Env;

// Where the system doesn't give the words of the command line, for another cause than memory.
const NO_WORDS: u8 = 8;

const NO_MEMORY: u8 = 1;

// The words of the command line, the program's name first.
fn command_words(rt: &(impl Env + AllocGlobal)) -> io::Result<Vec<String>> {
    env::args(rt)?.collect(rt.alloc()).map_err(io::Error::from)
}

fn run(rt: HostRuntime) -> io::Result<u8> {
    let words = command_words(&rt)?;
    let mut source = RealSource::new(rt.clone()?);
    let mut sink = RealSink::new(rt.clone()?);
    Ok(run_command(rt.alloc(), &words, &mut source, &mut sink))
}

fn main(rt: HostRuntime) -> ExitCode {
    match run(rt) {
        Ok(status) => ExitCode::from(status),
        Err(error) if error.kind() == ErrorKind::OutOfMemory => ExitCode::from(NO_MEMORY),
        Err(_) => ExitCode::from(NO_WORDS),
    }
}
