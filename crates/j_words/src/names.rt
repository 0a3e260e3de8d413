// Names: what the `_` in them says.
ghost use Rattle.std.specs.Prelude.{◌≡◌, ◌<◌, ◌≤◌, ◌+◌, length, IfSome};
ghost use Rattle.j_words.specs.Names.{begins_low, begins_letter, has_name_bytes, double_at, last_low, ends_low, is_simple, has_locale, is_direct, is_object, name_class};
ghost use Rattle.j_words.specs.NameForms.{name_form, EndsWithin};

use crate::bytes::{Set, run};
use crate::{Class, WordFault};

/// What a name is: simple, or a locative with the place where its base ends.
#[derive(Clone, Copy, PartialEq, Eq, Debug)]
pub enum NameForm {
    Simple,
    Direct(usize),
    Object(usize),
}

fn begins_low(bytes: &[u8]) -> bool
    ensures { result ≡ begins_low bytes.now }
{
    !bytes.is_empty() && bytes[0] == b'_'
}

pub(crate) fn begins_letter(bytes: &[u8]) -> bool
    ensures { result ≡ begins_letter bytes.now }
{
    !bytes.is_empty() && bytes[0].is_ascii_alphabetic()
}

/// Whether the bytes are a letter, and then letters, digits and `_`.
pub(crate) fn has_name_bytes(name: &[u8]) -> bool
    ensures { result ≡ has_name_bytes name.now }
{
    begins_letter(name) && run(Set::Name, name) == name.len()
}

/// The place of the first `__`, or the length where there is none.
#[tactic(auto, using(crate::proofs::Scans::double_more, crate::proofs::Scans::double_found, crate::proofs::Scans::double_none, crate::proofs::Scans::low_first))]
fn double_at(name: &[u8]) -> usize
    ensures same { result ≡ double_at name.now }
    ensures within { result ≤ length name.now }
    ensures pair { result < length name.now → result + 2 ≤ length name.now }
{
    for (place, b) in name.iter().enumerate() {
        if *b == b'_' && begins_low(&name[place + 1..]) {
            return place;
        }
    }
    name.len()
}

/// The place of the last `_`.
#[tactic(auto, using(crate::proofs::Scans::low_more, crate::proofs::Scans::low_other, crate::proofs::Scans::low_end, crate::proofs::Scans::later_none))]
fn last_low(name: &[u8]) -> Option<usize>
    ensures same { result ≡ last_low name.now }
    ensures within { IfSome result (λ n. n < length name.now) }
{
    let mut last = None;
    for (place, b) in name.iter().enumerate() {
        if *b == b'_' {
            last = Some(place);
        }
    }
    last
}

#[tactic(auto, using(crate::proofs::Scans::low_none, crate::proofs::Scans::low_last))]
fn ends_low(name: &[u8]) -> bool
    ensures { result ≡ ends_low name.now }
{
    !name.is_empty() && name[name.len() - 1] == b'_'
}

pub(crate) fn is_simple(name: &[u8]) -> bool
    ensures { result ≡ is_simple name.now }
{
    double_at(name) == name.len() && !ends_low(name)
}

/// Whether a simple name, `_` and a locale make up these bytes.
fn has_locale(front: &[u8]) -> bool
    ensures { result ≡ has_locale front.now (last_low front.now) }
{
    match last_low(front) {
        Some(n) => is_simple(&front[..n]) && n + 1 < front.len(),
        None => false,
    }
}

fn is_direct(name: &[u8]) -> bool
    ensures { result ≡ is_direct name.now }
{
    ends_low(name) && has_locale(&name[..name.len() - 1])
}

fn is_object(name: &[u8]) -> bool
    ensures { result ≡ is_object name.now }
{
    let n = double_at(name);
    if n == name.len() {
        return false;
    }
    let object = &name[n + 2..];
    is_simple(&name[..n]) && begins_letter(object) && is_simple(object)
}

/// The class of a name, or its fault.
pub(crate) fn name_class(name: &[u8]) -> Result<Class, WordFault>
    ensures { result ≡ name_class name.now }
{
    if is_simple(name) || is_direct(name) || is_object(name) {
        Ok(Class::Name)
    } else {
        Err(WordFault::Spelling)
    }
}

/// What a name is, or nothing where the bytes are no name.
#[tactic(auto, using(crate::proofs::NameForms::direct_ends, crate::proofs::NameForms::object_ends))]
pub fn name_form(name: &[u8]) -> Option<NameForm>
    ensures same { result ≡ name_form name.now }
    ensures within { IfSome result (EndsWithin (length name.now)) }
{
    if !has_name_bytes(name) {
        return None;
    }
    if is_simple(name) {
        return Some(NameForm::Simple);
    }
    if is_direct(name) {
        return match last_low(&name[..name.len() - 1]) {
            Some(n) => Some(NameForm::Direct(n)),
            None => None,
        };
    }
    if is_object(name) {
        return Some(NameForm::Object(double_at(name)));
    }
    None
}
