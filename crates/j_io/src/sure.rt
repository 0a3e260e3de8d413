// A source of one text and a sink that never fail.
ghost use Rattle.std.specs.Prelude.{◌≡◌, ◌<◌, ◌≤◌, ◌^◌, ℕ, List, [], length, take, drop, Option, None, Some, option_map, string_bytes};

use crate::memory::copy_from;
use crate::{Failed, Sink, Source};

/// One text, which each name selects. It never fails.
#[derive(Drop)]
pub struct SureSource {
    text: Vec<u8>,
    at: usize,
    name: Option<String>,
}

impl SureSource {
    /// No name is selected, and nothing is left until one is.
    pub fn new(text: Vec<u8>) -> Self
        ensures texts { ⟦<SureSource as Source>⟧.texts result ≡ Some (λ _. Some text.items) }
        ensures left { ⟦<SureSource as Source>⟧.left result ≡ Some [] }
        ensures selected { ⟦<SureSource as Source>⟧.selected result ≡ None }
        ensures faults { ⟦<SureSource as Source>⟧.faults result ≡ 0 }
    {
        let at = text.len();
        SureSource {
            text,
            at,
            name: None,
        }
    }
}

impl Source for SureSource {
    ghost texts = { λ s. Some (λ _. Some s.text.items) };

    ghost left = { λ s. Some (drop s.at s.text.items) };

    ghost selected = { λ s. option_map string_bytes s.name };

    ghost faults = { λ s. 0 };

    fn select(&mut self, name: String) -> Result<(), Failed> {
        self.at = 0;
        self.name = Some(name);
        Ok(())
    }

    fn read(&mut self, into: &mut [u8]) -> Result<usize, Failed> {
        let count = copy_from(&self.text, self.at, usize::MAX, into);
        self.at += count;
        Ok(count)
    }
}

/// Takes all that is written, drops it and tells nothing of it. It never fails.
#[derive(Clone, Copy)]
pub struct SureSink;

impl SureSink {
    pub fn new() -> Self
        ensures bytes { ⟦<SureSink as Sink>⟧.bytes result ≡ None }
        ensures faults { ⟦<SureSink as Sink>⟧.faults result ≡ 0 }
    {
        SureSink
    }
}

impl Sink for SureSink {
    ghost bytes = { λ s. None };

    ghost faults = { λ s. 0 };

    fn write(&mut self, from: &[u8]) -> Result<usize, Failed> {
        Ok(from.len())
    }
}
