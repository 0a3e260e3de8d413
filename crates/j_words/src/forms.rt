// The first word of bytes, by its form.
ghost use Rattle.std.specs.Prelude.{◌≡◌, ◌<◌, ◌≤◌, ◌+◌, length, IfSome, IfOk};
ghost use Rattle.j_words.specs.Forms.{text_bytes, is_comment, text_word, part, letters, graphic, first};

use crate::WordFault;
use crate::bytes::{Set, is_graphic, is_in, run};
use memchr::memchr;

/// The forms of words. A listed word has to be one of the vocabulary.
#[derive(Clone, Copy)]
pub(crate) enum Form {
    Text,
    Number,
    Name,
    Listed,
}

/// A word at the front of bytes: its form and how many bytes it takes.
#[derive(Clone, Copy)]
pub(crate) struct Found {
    pub form: Form,
    pub length: usize,
}

/// How many bytes a text takes after its opening quote.
#[tactic(auto, using(crate::proofs::Scans::further_none))]
fn text_bytes(bytes: &[u8]) -> Option<usize>
    ensures same { result ≡ text_bytes bytes.now }
    ensures within { IfSome result (λ n. n ≤ length bytes.now) }
{
    let mut place: usize = 0;
    while let Some(before) = memchr(b'\'', &bytes[place..]) {
        let after = place + before + 1;
        if after == bytes.len() || bytes[after] != b'\'' {
            return Some(after);
        }
        place = after + 1;
    }
    None
}

/// The text that the bytes begin with.
fn text_word(after_quote: &[u8]) -> Result<Option<Found>, WordFault>
    ensures same { result ≡ text_word after_quote.now }
    ensures within { IfOk result (λ o. IfSome o (λ f. (0 < f.length) × (f.length ≤ length after_quote.now + 1))) }
{
    match text_bytes(after_quote) {
        Some(n) => Ok(Some(Found {
            form: Form::Text,
            length: n + 1,
        })),
        None => Err(WordFault::OpenQuote),
    }
}

/// Whether the bytes begin a comment.
fn is_comment(bytes: &[u8]) -> bool
    ensures { result ≡ is_comment bytes.now }
{
    match bytes {
        [b'N', b'B', b'.', after @ ..] => after.is_empty() || !is_in(Set::Mark, after[0]),
        _ => false,
    }
}

/// The number part that the bytes begin with, or the word that it is with the marks after it.
fn part(bytes: &[u8]) -> Found
    ensures same { result ≡ part bytes.now }
    ensures within { result.length ≤ length bytes.now }
{
    let n = run(Set::Part, bytes);
    let after = &bytes[n..];
    if !after.is_empty() && after[0] == b':' {
        Found {
            form: Form::Listed,
            length: n + run(Set::Mark, after),
        }
    } else {
        Found {
            form: Form::Number,
            length: n,
        }
    }
}

/// The name that the bytes begin with, or the word that it is with the marks after it.
fn letters(bytes: &[u8]) -> Found
    ensures same { result ≡ letters bytes.now }
    ensures within { result.length ≤ length bytes.now }
{
    let n = run(Set::Name, bytes);
    let marks = run(Set::Mark, &bytes[n..]);
    Found {
        form: if marks == 0 { Form::Name } else { Form::Listed },
        length: n + marks,
    }
}

/// The byte before these and the marks that follow it.
fn graphic(after: &[u8]) -> Found
    ensures same { result ≡ graphic after.now }
    ensures within { (0 < result.length) × (result.length ≤ length after.now + 1) }
{
    Found {
        form: Form::Listed,
        length: 1 + run(Set::Mark, after),
    }
}

/// The word that bytes begin with, or none where it is a comment.
pub(crate) fn first(bytes: &[u8]) -> Result<Option<Found>, WordFault>
    requires { 0 < length bytes.now }
    ensures same { result ≡ first bytes.now }
    ensures within { IfOk result (λ o. IfSome o (λ f. (0 < f.length) × (f.length ≤ length bytes.now))) }
{
    let b = bytes[0];
    if b == b'\'' {
        return text_word(&bytes[1..]);
    }
    if is_comment(bytes) {
        return Ok(None);
    }
    if b.is_ascii_digit() || b == b'_' {
        return Ok(Some(part(bytes)));
    }
    if b.is_ascii_alphabetic() {
        return Ok(Some(letters(bytes)));
    }
    if is_graphic(b) {
        return Ok(Some(graphic(&bytes[1..])));
    }
    Err(WordFault::Spelling)
}
