// The numbers of nouns, in either storage.
ghost use Rattle.std.specs.Prelude.{◌≡◌, ◌<◌, length, pos, get_or, IfOk};
ghost use Rattle.j_definitions.specs.Array.{product};
ghost use Rattle.j_insert.specs.Bases.{numbers_of};
ghost use Rattle.j_insert.specs.Listed.{listed, listed_or, serving};

use j_noun::{Fault, Noun, View};

/// The numbers of a noun, as they are stored.
#[derive(Clone, Copy)]
pub enum Numbers<'a> {
    Wholes(&'a [i64]),
    Bits(&'a [u8]),
}

/// One number that serves all, or a number for each place.
#[derive(Clone, Copy)]
pub enum Serving<'a> {
    One(i64),
    Each(Numbers<'a>),
}

/// The numbers of a noun, or `Domain` where it has other atoms.
pub fn numbers_of(y: &Noun) -> Result<Numbers<'_>, Fault>
    ensures value { numbers_of y.now ≡ listed_or result }
    ensures many { IfOk result (λ ns. length (listed ns) ≡ product y.now.shape) }
{
    match y.view() {
        View::Wholes(v) => Ok(Numbers::Wholes(v)),
        View::Bits(v) => Ok(Numbers::Bits(v)),
        View::Bytes([]) => Ok(Numbers::Wholes(&[])),
        View::Boxes([]) => Ok(Numbers::Wholes(&[])),
        View::Bytes(_) => Err(Fault::Domain),
        View::Boxes(_) => Err(Fault::Domain),
    }
}

/// How many there are.
pub fn count(numbers: Numbers<'_>) -> usize
    ensures { result ≡ length (listed numbers.entry) }
{
    match numbers {
        Numbers::Wholes(v) => v.len(),
        Numbers::Bits(v) => v.len(),
    }
}

/// Number k.
pub fn number_at(numbers: Numbers<'_>, k: usize) -> i64
    requires { k < length (listed numbers) }
    ensures { result ≡ get_or (listed numbers.entry) k (pos 0) }
{
    match numbers {
        Numbers::Wholes(v) => v[k],
        Numbers::Bits(v) => i64::from(v[k]),
    }
}

/// The first number, or 0 where there is none.
pub fn first_number(numbers: Numbers<'_>) -> i64
    ensures { result ≡ get_or (listed numbers.entry) 0 (pos 0) }
{
    match numbers {
        Numbers::Wholes([z, ..]) => *z,
        Numbers::Bits([b, ..]) => i64::from(*b),
        Numbers::Wholes([]) | Numbers::Bits([]) => 0,
    }
}

/// Number k of n.
pub fn serving_at(numbers: Serving<'_>, n: usize, k: usize) -> i64
    requires place { k < n }
    requires enough { length (serving numbers n) ≡ n }
    ensures { result ≡ get_or (serving numbers.entry n) k (pos 0) }
{
    match numbers {
        Serving::One(z) => z,
        Serving::Each(each) => number_at(each, k),
    }
}
