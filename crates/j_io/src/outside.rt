// A source of named texts and a sink of bytes, whatever they are.
ghost use Rattle.std.specs.Prelude.{◌≡◌, ◌+◌, ◌-◌, ◌<◌, ◌≤◌, ◌^◌, ℕ, List, min, length, take, Option, None, Some, IsSome, IfOk, OnErr, option_map, string_bytes};
ghost use Rattle.std.specs.Io.KnownBytes.{IsAtEnd};
ghost use Rattle.j_io.specs.Outside.{HasCause, text_under, Grew, GrewByPrefix, Took};

use std::fmt;

/// A call of a source or a sink failed. Why it did is not told.
#[derive(Clone, Copy, Debug, PartialEq, Eq)]
pub struct Failed;

/// Named texts, one of which is selected and then read from its start.
///
/// A source tells a meaning by `Some`. A clause on what it doesn't tell says `None ≡ None`.
pub trait Source {
    /// The text that is held under each name, where the source tells it.
    ghost texts: { Self → Option (List ℕ → Option (List ℕ)) };

    /// What is left of the selected text, where the source tells it.
    ghost left: { Self → Option (List ℕ) };

    /// The selected name.
    ghost selected: { Self → Option (List ℕ) };

    /// How often a call failed. It never falls.
    ghost faults: { Self → ℕ };

    /// Selects the text under a name, whether it answers `Ok` or not.
    /// The name `-` is standard input.
    fn select(&mut self, name: String) -> Result<(), Failed>
        requires { selected self.old ≡ None }
        ensures selected { selected self.new ≡ Some (string_bytes name) }
        ensures left { left self.new
            ≡ option_map (text_under (string_bytes name)) (texts self.old) }
        ensures texts { texts self.new ≡ texts self.old }
        ensures cause { HasCause (faults self.old) (faults self.new) result };

    /// Reads a prefix of what is left, and answers its length. A failed read takes nothing.
    fn read(&mut self, into: &mut [u8]) -> Result<usize, Failed>
        requires { IsSome (selected self.old) }
        ensures bound { IfOk result (λ count. count ≤ length into.new) }
        ensures bytes { IfOk result (λ count.
            Took (left self.old) (left self.new) (take count into.new)) }
        ensures end { IfOk result (λ count.
            count ≡ 0 → 0 < length into.old → IsAtEnd (left self.new)) }
        ensures err { OnErr result (left self.new ≡ left self.old) }
        ensures selected { selected self.new ≡ selected self.old }
        ensures texts { texts self.new ≡ texts self.old }
        ensures cause { HasCause (faults self.old) (faults self.new) result };
}

/// A place where bytes are written, each after those before it.
pub trait Sink {
    /// The bytes written, where the sink tells them.
    ghost bytes: { Self → Option (List ℕ) };

    /// How often a call failed. It never falls.
    ghost faults: { Self → ℕ };

    /// Writes a prefix, at least one byte where there is one, and answers its length.
    /// A failed write may have written a prefix too.
    fn write(&mut self, from: &[u8]) -> Result<usize, Failed>
        ensures bound { IfOk result (λ count. count ≤ length from.now) }
        ensures bytes { IfOk result (λ count.
            Grew (bytes self.old) (bytes self.new) (take count from.now)) }
        ensures some { IfOk result (λ count. 0 < length from.now → 0 < count) }
        ensures err { OnErr result (GrewByPrefix (bytes self.old) (bytes self.new) from.now) }
        ensures cause { HasCause (faults self.old) (faults self.new) result };
}

// Counts a fault. The count stays at its last value.
pub(crate) fn count_fault(faults: &mut u64) -> Failed
    ensures later { faults.old ≤ faults.new }
    ensures rose { faults.new ≡ min (faults.old + 1) (2 ^ 64 - 1) }
{
    *faults = faults.saturating_add(1);
    Failed
}
