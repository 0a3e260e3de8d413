// A list of few characters, which takes no buffer.
ghost use Rattle.std.specs.Prelude.{◌≡◌, ◌<◌, ◌≤◌, [], ◌∷◌, length, MatchOption};

use std::marker::Model;
use std::slice;

// As many characters as stand beside the tag of a noun that is no longer for them.
const FEW: usize = 7;

// The lengths that such a list can have, to be lent.
static LENGTHS: [usize; 8] = [0, 1, 2, 3, 4, 5, 6, 7];

// What is aligned keeps the characters at an aligned place of a noun, so that a noun is copied by words.
#[derive(Drop)]
pub(crate) struct ShortText {
    aligned: [usize; 0],
    count: u8,
    bytes: [u8; 7],
}

impl Model for ShortText {
    ghost use Rattle.std.specs.Prelude.{ℕ, List, take, ◌≤◌};

    ghost Value = { List ℕ };

    ghost view = { λ t. take t.count t.bytes };

    ghost invariant = { λ t. t.count ≤ 7 };
}

impl ShortText {
    /// The characters, where they are few.
    pub(crate) fn of(text: &[u8]) -> Option<ShortText>
        ensures { MatchOption result (7 < length text.now) (λ t. (t ≡ text.now) × (length text.now ≤ 7)) }
    {
        if text.len() > FEW {
            return None;
        }
        let mut bytes = [0; 7];
        bytes[..text.len()].copy_from_slice(text);
        Some(ShortText {
            aligned: [],
            count: text.len() as u8,
            bytes,
        })
    }

    pub(crate) fn bytes(&self) -> &[u8]
        ensures value { result.now ≡ self.now }
        ensures few { length self.now ≤ 7 }
    {
        &self.bytes[..usize::from(self.count)]
    }

    pub(crate) fn copy(&self) -> ShortText
        ensures { result ≡ self.now }
    {
        ShortText {
            aligned: [],
            count: self.count,
            bytes: self.bytes,
        }
    }

    /// How many they are.
    pub(crate) fn len(&self) -> usize
        ensures value { result ≡ length self.now }
        ensures few { result ≤ 7 }
    {
        usize::from(self.count)
    }

    /// The same as a shape, lent.
    pub(crate) fn axes(&self) -> &[usize]
        ensures { result.now ≡ length self.now ∷ [] }
    {
        slice::from_ref(&LENGTHS[usize::from(self.count)])
    }
}
