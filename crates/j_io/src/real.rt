// A source and a sink over the system. They tell nothing of content.
ghost use Rattle.std.specs.Prelude.{◌≡◌, ◌<◌, ◌≤◌, length, None, IfOk, option_map, string_bytes};

use crate::outside::count_fault;
use crate::{Failed, Sink, Source};
use std::fs;
use std::io::{ErrorKind, Input, Read};
use std::rt::Files;

/// Standard input under the name `-`, and the system's file under any other.
///
/// A name whose file can't be opened is selected all the same, and each read of it fails.
#[derive(Drop)]
pub struct RealSource<R: Input + Files> {
    runtime: R,
    text: Text<R::Reader, R::File>,
    name: Option<String>,
    faults: u64,
}

// What is read.
#[derive(Drop)]
enum Text<I, F> {
    Closed,
    Input(I),
    File(F),
}

impl<R: Input + Files + Drop> RealSource<R> {
    pub fn new(runtime: R) -> Self
        ensures texts { ⟦<RealSource<R> as Source>⟧.texts result ≡ None }
        ensures left { ⟦<RealSource<R> as Source>⟧.left result ≡ None }
        ensures selected { ⟦<RealSource<R> as Source>⟧.selected result ≡ None }
        ensures faults { ⟦<RealSource<R> as Source>⟧.faults result ≡ 0 }
    {
        RealSource {
            runtime,
            text: Text::Closed,
            name: None,
            faults: 0,
        }
    }
}

fn open<R: Input + Files>(runtime: &R, name: &str) -> Result<Text<R::Reader, R::File>, Failed> {
    if name == "-" {
        return Ok(Text::Input(runtime.reader()));
    }
    match fs::open(runtime, name) {
        Ok(file) => Ok(Text::File(file)),
        Err(_) => Err(Failed),
    }
}

// One read, which is made again where a signal broke it off.
fn read_once<R: Read>(reader: &mut R, into: &mut [u8]) -> Result<usize, Failed>
    ensures { IfOk result (λ count. count ≤ length into.new) }
{
    for _ in 0..u64::MAX {
        match reader.read(into) {
            Ok(count) => return Ok(count),
            Err(error) if error.kind() == ErrorKind::Interrupted => {}
            Err(_) => return Err(Failed),
        }
    }
    Err(Failed)
}

impl<R: Input + Files + Drop> Source for RealSource<R> {
    ghost texts = { λ s. None };

    ghost left = { λ s. None };

    ghost selected = { λ s. option_map string_bytes s.name };

    ghost faults = { λ s. s.faults };

    fn select(&mut self, name: String) -> Result<(), Failed> {
        let opened = open(&self.runtime, name.as_str());
        self.name = Some(name);
        match opened {
            Ok(text) => {
                self.text = text;
                Ok(())
            }
            Err(_) => Err(count_fault(&mut self.faults)),
        }
    }

    fn read(&mut self, into: &mut [u8]) -> Result<usize, Failed> {
        let read = match &mut self.text {
            Text::Closed => Err(Failed),
            Text::Input(input) => read_once(input, into),
            Text::File(file) => read_once(file, into),
        };
        match read {
            Ok(count) => Ok(count),
            Err(_) => Err(count_fault(&mut self.faults)),
        }
    }
}

/// Standard output. No byte waits in a buffer.
#[derive(Drop)]
pub struct RealSink<R: Print> {
    runtime: R,
    faults: u64,
}

impl<R: Print + Drop> RealSink<R> {
    pub fn new(runtime: R) -> Self
        ensures bytes { ⟦<RealSink<R> as Sink>⟧.bytes result ≡ None }
        ensures faults { ⟦<RealSink<R> as Sink>⟧.faults result ≡ 0 }
    {
        RealSink { runtime, faults: 0 }
    }
}

// One write, which is made again where a signal broke it off.
fn write_once<R: Print>(runtime: &R, from: &[u8]) -> Result<usize, Failed>
    ensures bound { IfOk result (λ count. count ≤ length from.now) }
    ensures some { IfOk result (λ count. 0 < length from.now → 0 < count) }
{
    for _ in 0..u64::MAX {
        match runtime.write_some(from) {
            Ok(count) if 0 < count || from.is_empty() => return Ok(count),
            Err(error) if error.kind() == ErrorKind::Interrupted => {}
            _ => return Err(Failed),
        }
    }
    Err(Failed)
}

impl<R: Print + Drop> Sink for RealSink<R> {
    ghost bytes = { λ s. None };

    ghost faults = { λ s. s.faults };

    fn write(&mut self, from: &[u8]) -> Result<usize, Failed> {
        match write_once(&self.runtime, from) {
            Ok(count) => Ok(count),
            Err(_) => Err(count_fault(&mut self.faults)),
        }
    }
}
