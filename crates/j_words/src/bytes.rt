// The bytes of words.
ghost use Rattle.std.specs.Prelude.{◌≡◌, ◌≤◌, length};
ghost use Rattle.j_definitions.specs.Bytes.{is_blank};
ghost use Rattle.j_words.specs.Bytes.{is_in, is_graphic, run};

/// The bytes that may go on a word.
#[derive(Clone, Copy)]
pub(crate) enum Set {
    Name,
    Part,
    Mark,
}

pub(crate) fn is_blank(b: u8) -> bool
    ensures { result ≡ is_blank b }
{
    b == b' ' || b == b'\t'
}

/// Whether a byte is one that can be seen.
pub(crate) fn is_graphic(b: u8) -> bool
    ensures { result ≡ is_graphic b }
{
    33 <= b && b <= 126
}

pub(crate) fn is_in(set: Set, b: u8) -> bool
    ensures { result ≡ is_in set b }
{
    match set {
        Set::Name => b.is_ascii_alphanumeric() || b == b'_',
        Set::Part => b.is_ascii_alphanumeric() || b == b'_' || b == b'.',
        Set::Mark => b == b'.' || b == b':',
    }
}

/// How many bytes at the front are of the set.
#[tactic(auto, using(crate::proofs::Places::run_ends, crate::proofs::Places::run_whole))]
pub(crate) fn run(set: Set, bytes: &[u8]) -> usize
    ensures place { result ≡ run (is_in set) bytes.now }
    ensures within { result ≤ length bytes.now }
{
    for (place, b) in bytes.iter().enumerate() {
        if !is_in(set, *b) {
            return place;
        }
    }
    bytes.len()
}
