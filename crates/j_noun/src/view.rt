ghost use Rattle.std.specs.Prelude.{◌≡◌, ◌&&◌, ◌==◌, length};
ghost use Rattle.std.specs.Cmp.Lexicographic.{pointwise};
ghost use Rattle.std.specs.Ordering.{int_eq};
ghost use Rattle.j_definitions.specs.Array.{atom_match};
ghost use Rattle.j_noun.specs.Viewed.{viewed, AreNotBoxes, match_bit};

use crate::blocks::wholes_match;
use crate::noun::Noun;

/// The atoms of a noun, as they are stored.
#[derive(Clone, Copy)]
pub enum View<'a> {
    Bits(&'a [u8]),
    Wholes(&'a [i64]),
    Bytes(&'a [u8]),
    Boxes(&'a [Noun]),
}

/// Whether the atoms are equal, of which one kind at most is boxed.
#[tactic(auto, using(crate::proofs::Matching::view_rules))]
pub(crate) fn views_match(a: View<'_>, b: View<'_>) -> bool
    requires { AreNotBoxes a b }
    ensures { result ≡ pointwise atom_match (viewed a.entry) (viewed b.entry) }
{
    match a {
        View::Wholes(x) => match b {
            View::Wholes(y) => wholes_match(x, y),
            View::Bits(y) => bits_match(x, y),
            View::Bytes(y) => none(x, y),
            View::Boxes(y) => none(x, y),
        },
        View::Bits(x) => match b {
            View::Wholes(y) => bits_match(y, x),
            View::Bits(y) => x == y,
            View::Bytes(y) => none(x, y),
            View::Boxes(y) => none(x, y),
        },
        View::Bytes(x) => match b {
            View::Wholes(y) => none(x, y),
            View::Bits(y) => none(x, y),
            View::Bytes(y) => x == y,
            View::Boxes(y) => none(x, y),
        },
        View::Boxes(x) => match b {
            View::Wholes(y) => none(x, y),
            View::Bits(y) => none(x, y),
            View::Bytes(y) => none(x, y),
            View::Boxes(_) => unreachable!(),
        },
    }
}

/// Whether the whole numbers are the bits.
#[tactic(auto, using(j_definitions::proofs::Laws::pointwise_step, j_definitions::proofs::Laws::pointwise_ended))]
fn bits_match(wholes: &[i64], bits: &[u8]) -> bool
    ensures { result ≡ pointwise match_bit wholes.now bits.now }
{
    if wholes.len() != bits.len() {
        return false;
    }
    for i in 0..wholes.len() {
        if wholes[i] != i64::from(bits[i]) {
            return false;
        }
    }
    true
}

/// Whether there are no atoms.
fn none<X, Y>(x: &[X], y: &[Y]) -> bool
    ensures { result ≡ ((length x.now == 0) && (length y.now == 0)) }
{
    x.is_empty() && y.is_empty()
}
