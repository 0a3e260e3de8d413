//! Callers of the top call, and the tests of the whole program over sources and sinks in memory.
#![tactic(auto)]

ghost use Rattle.std.specs.Prelude.{◌≡◌, ◌≢◌, ◌<◌, ◌++◌, List, ℕ};
ghost use Rattle.std.specs.Io.KnownBytes.{append_known};
ghost use Rattle.j_io.specs.Memory.{HasDistinctNames, held_by};
ghost use Rattle.j_cli.specs.Answer.{answer, words_of, IsAnswer};

use j_cli::run_command;
use j_io::{MemorySink, MemorySource, SureSink, SureSource};
use std::alloc::Global;

/// Runs a text over a source and a sink that never fail: no fault is answered.
pub fn run_surely(alloc: Global, words: &Vec<String>, text: Vec<u8>) -> u8
    ensures read { result ≢ 5 }
    ensures write { result ≢ 6 }
{
    let mut source = SureSource::new(text);
    let mut sink = SureSink::new();
    run_command(alloc, words, &mut source, &mut sink)
}

/// Runs over texts in memory, and adds what is written to the bytes that the sink has.
pub fn run_in_memory(
    alloc: Global,
    words: &Vec<String>,
    texts: Vec<(String, Vec<u8>)>,
    sink: &mut MemorySink,
) -> u8
    requires { HasDistinctNames texts.items }
    ensures { (written : List ℕ) × (⟦<MemorySink as j_io::Sink>⟧.bytes sink.new ≡ append_known (⟦<MemorySink as j_io::Sink>⟧.bytes sink.old) written)
        × IsAnswer (answer (words_of words.now.items) (held_by texts.items)) result written }
{
    let mut source = MemorySource::new(texts, 4096, Vec::new(alloc));
    run_command(alloc, words, &mut source, sink)
}

#[cfg(test)]
mod boxes;
#[cfg(test)]
mod chains;
#[cfg(test)]
mod faults;
#[cfg(test)]
mod limits;
#[cfg(test)]
mod locales;
#[cfg(test)]
mod modifiers;
#[cfg(test)]
mod outside;
#[cfg(test)]
mod pieces;
#[cfg(test)]
mod runs;
#[cfg(test)]
mod scripts;
#[cfg(test)]
mod sentences;
#[cfg(test)]
mod structure;
#[cfg(test)]
mod tallies;
#[cfg(test)]
mod trains;
#[cfg(test)]
mod values;
