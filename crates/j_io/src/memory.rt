// Named texts and a list of bytes in memory, with calls that fail.
ghost use Rattle.std.specs.Prelude.{◌≡◌, ◌+◌, ◌-◌, ◌++◌, ◌<◌, ◌≤◌, ◌^◌, ◌↔◌, ℕ, List, [], min, length, take, drop, Contains, IsTrue, vec_capacity, vec_len, Option, None, Some, option_map, string_bytes};
ghost use Rattle.j_io.specs.Memory.{held_by, HasDistinctNames, selected_text};

use crate::outside::count_fault;
use crate::{Failed, Sink, Source};

// The calls of a source or of a sink, numbered from 1, and the numbers of those that fail.
#[derive(Drop)]
struct Calls {
    made: u64,
    failing: Vec<u64>,
}

impl Calls {
    // Counts the next call, and says whether it fails.
    fn next_fails(&mut self) -> bool
        ensures fails { IsTrue result ↔ Contains self.old.failing.items self.new.made }
        ensures counted { self.new
            ≡ record self.old { made = min (self.old.made + 1) (2 ^ 64 - 1) } }
    {
        self.made = self.made.saturating_add(1);
        self.failing.contains(&self.made)
    }
}

/// Texts in memory, each under its name. It tells everything.
#[derive(Drop)]
pub struct MemorySource {
    texts: Vec<(String, Vec<u8>)>,
    most: usize,
    calls: Calls,
    faults: u64,
    name: Option<String>,
    at: usize,
    ghost takes_some: { 0 < most },
}

impl MemorySource {
    /// A read takes at most `most` bytes. The calls of `select` and `read` are numbered together
    /// from 1, and those whose numbers are in `failing` fail. Selecting a name that isn't there
    /// fails too.
    pub fn new(texts: Vec<(String, Vec<u8>)>, most: usize, failing: Vec<u64>) -> Self
        requires distinct { HasDistinctNames texts.items }
        requires some { 0 < most }
        ensures texts { ⟦<MemorySource as Source>⟧.texts result ≡ Some (held_by texts.items) }
        ensures left { ⟦<MemorySource as Source>⟧.left result ≡ Some [] }
        ensures selected { ⟦<MemorySource as Source>⟧.selected result ≡ None }
        ensures faults { ⟦<MemorySource as Source>⟧.faults result ≡ 0 }
    {
        MemorySource {
            texts,
            most,
            calls: Calls { made: 0, failing },
            faults: 0,
            name: None,
            at: 0,
        }
    }
}

// The text under a name.
fn find<'a>(texts: &'a [(String, Vec<u8>)], name: &str) -> Option<&'a [u8]>
    ensures { option_map (λ text. text.now) result ≡ held_by texts.now name.now }
{
    for (key, text) in texts {
        if key.as_str() == name {
            return Some(text.as_slice());
        }
    }
    None
}

// The text of the selected name, or nothing.
fn selected_text<'a>(texts: &'a [(String, Vec<u8>)], name: &Option<String>) -> &'a [u8]
    ensures { result.now ≡ selected_text texts.now name.now }
{
    match name {
        Some(name) => match find(texts, name.as_str()) {
            Some(text) => text,
            None => &[],
        },
        None => &[],
    }
}

// Copies at most some bytes from a place on.
pub(crate) fn copy_from(text: &[u8], at: usize, most: usize, into: &mut [u8]) -> usize
    requires { 0 < most }
    ensures count { result ≡ min (min (length into.old) most) (length text.now - at) }
    ensures bound { result ≤ length into.new }
    ensures bytes { drop at text.now ≡ take result into.new ++ drop (at + result) text.now }
    ensures sum { at + result < 2 ^ 64 }
    ensures end { result ≡ 0 → 0 < length into.old → drop at text.now ≡ [] }
{
    if at >= text.len() {
        return 0;
    }
    let count = into.len().min(most).min(text.len() - at);
    into[..count].copy_from_slice(&text[at..at + count]);
    count
}

impl Source for MemorySource {
    ghost texts = { λ s. Some (held_by s.texts.items) };

    ghost left = { λ s. Some (drop s.at (selected_text s.texts.items s.name)) };

    ghost selected = { λ s. option_map string_bytes s.name };

    ghost faults = { λ s. s.faults };

    fn select(&mut self, name: String) -> Result<(), Failed> {
        let is_held = find(&self.texts, name.as_str()).is_some();
        self.at = 0;
        self.name = Some(name);
        if self.calls.next_fails() || !is_held {
            return Err(count_fault(&mut self.faults));
        }
        Ok(())
    }

    fn read(&mut self, into: &mut [u8]) -> Result<usize, Failed> {
        if self.calls.next_fails() {
            return Err(count_fault(&mut self.faults));
        }
        let text = selected_text(&self.texts, &self.name);
        let count = copy_from(text, self.at, self.most, into);
        self.at += count;
        Ok(count)
    }
}

/// Bytes in a buffer that doesn't grow, so that a write takes no memory. It tells everything.
#[derive(Drop)]
pub struct MemorySink {
    bytes: Vec<u8>,
    most: usize,
    calls: Calls,
    faults: u64,
}

impl MemorySink {
    /// The bytes begin with those in `room`, and no more are written than its capacity leaves.
    /// A write takes at most `most` bytes. The calls of `write` are numbered from 1, and those
    /// whose numbers are in `failing` fail.
    pub fn new(room: Vec<u8>, most: usize, failing: Vec<u64>) -> Self
        requires { 0 < most }
        ensures bytes { ⟦<MemorySink as Sink>⟧.bytes result ≡ Some room.items }
        ensures faults { ⟦<MemorySink as Sink>⟧.faults result ≡ 0 }
    {
        MemorySink {
            bytes: room,
            most,
            calls: Calls { made: 0, failing },
            faults: 0,
        }
    }

    pub fn bytes(&self) -> &[u8]
        ensures { ⟦<MemorySink as Sink>⟧.bytes self.now ≡ Some result.now }
    {
        &self.bytes
    }
}

// Appends at most some bytes, and no more than the capacity leaves.
fn append_to(bytes: &mut Vec<u8>, from: &[u8], most: usize) -> usize
    ensures count { let room = vec_capacity bytes.old - vec_len bytes.old in
        result ≡ min (min (length from.now) most) room }
    ensures bytes { bytes.new.items ≡ bytes.old.items ++ take result from.now }
{
    let room = bytes.capacity() - bytes.len();
    let count = from.len().min(most).min(room);
    bytes.extend_from_slice(&from[..count]).unwrap();
    count
}

impl Sink for MemorySink {
    ghost bytes = { λ s. Some s.bytes.items };

    ghost faults = { λ s. s.faults };

    fn write(&mut self, from: &[u8]) -> Result<usize, Failed> {
        if self.calls.next_fails() {
            return Err(count_fault(&mut self.faults));
        }
        let count = append_to(&mut self.bytes, from, self.most);
        if count == 0 && !from.is_empty() {
            return Err(count_fault(&mut self.faults));
        }
        Ok(count)
    }
}
