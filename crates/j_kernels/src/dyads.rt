// The dyads of scalar verbs on nouns.
ghost use Rattle.std.specs.Prelude.{◌≡◌, length, drop, true};
ghost use Rattle.j_definitions.specs.Array.{product};
ghost use Rattle.j_definitions.specs.Cells.{is_prefix, in_order};
ghost use Rattle.j_noun.specs.Refused.{OrWanting};
ghost use Rattle.j_kernels.specs.Scalars.{dyad_of, of_numbers, scalar_dyad, numbers_of, answers, has_dyad};

use crate::bits::BitVerb;
use crate::forms::{NumberVerb, Partial, Total};
use crate::frames::{count, repeats, shaped_like};
use crate::likeness::{Different, Same};
use crate::numbers::{number_of, on_atoms};
use crate::pairs::{ByBits, ByMatch, ByNumbers, PairVerb};
use crate::scalar::Scalar;
use crate::verbs::{
    Above, Absent, AtLeast, AtMost, Below, Difference, Divisor, Greater, Lesser, Multiple, NotAnd,
    NotOr, Power, Product, Quotient, Rest, Sum,
};
use j_definitions::Fault;
use j_loops::Stored;
use j_noun::{Noun, Pool, Refusal};

/// The frame of x is a prefix of that of y.
fn under_left<P: PairVerb>(pool: &mut Pool, x: &Noun, y: &Noun) -> Result<Noun, Refusal>
    requires { is_prefix x.now.shape y.now.shape ≡ true }
    ensures { OrWanting (numbers_of y.now.shape (in_order (answers P.meaning (record { frame = y.now.shape; left = product (drop (length x.now.shape) y.now.shape); right = 1 }) x.now.atoms y.now.atoms))) result }
{
    let n = count(y);
    let left = repeats(count(x), n);
    let results = P::fill_pairs(pool, x.view(), left, y.view(), 1, n);
    shaped_like(pool, y, results)
}

/// The frame of y is a prefix of that of x.
fn under_right<P: PairVerb>(pool: &mut Pool, x: &Noun, y: &Noun) -> Result<Noun, Refusal>
    requires { is_prefix y.now.shape x.now.shape ≡ true }
    ensures { OrWanting (numbers_of x.now.shape (in_order (answers P.meaning (record { frame = x.now.shape; left = 1; right = product (drop (length y.now.shape) x.now.shape) }) x.now.atoms y.now.atoms))) result }
{
    let n = count(x);
    let right = repeats(count(y), n);
    let results = P::fill_pairs(pool, x.view(), 1, y.view(), right, n);
    shaped_like(pool, x, results)
}

/// The dyad by the agreement of the frames.
fn agreed<P: PairVerb>(pool: &mut Pool, x: &Noun, y: &Noun) -> Result<Noun, Refusal>
    ensures { OrWanting (scalar_dyad P.meaning x.now y.now) result }
{
    if y.axes().starts_with(x.axes()) {
        return under_left::<P>(pool, x, y);
    }
    if x.axes().starts_with(y.axes()) {
        return under_right::<P>(pool, x, y);
    }
    Err(Refusal::Fault(Fault::Length))
}

/// The dyad of a verb of numbers. Two atoms need no buffer.
fn of_numbers<Z: Stored, V: NumberVerb<Z>>(
    pool: &mut Pool,
    x: &Noun,
    y: &Noun,
) -> Result<Noun, Refusal>
    ensures { OrWanting (scalar_dyad (of_numbers V.of) x.now y.now) result }
{
    if let Some(a) = number_of(x) {
        if let Some(b) = number_of(y) {
            return on_atoms::<Z, V>(a, b);
        }
    }
    agreed::<ByNumbers<Z, V>>(pool, x, y)
}

/// The dyad of a verb of numbers that is a bit for two bits.
fn of_bits<V: NumberVerb<i64>, B: BitVerb<V>>(
    pool: &mut Pool,
    x: &Noun,
    y: &Noun,
) -> Result<Noun, Refusal>
    ensures { OrWanting (scalar_dyad (of_numbers V.of) x.now y.now) result }
{
    if let Some(a) = number_of(x) {
        if let Some(b) = number_of(y) {
            return on_atoms::<i64, V>(a, b);
        }
    }
    agreed::<ByBits<V, B>>(pool, x, y)
}

/// The dyad of a scalar verb.
pub fn dyad(op: Scalar, pool: &mut Pool, x: &Noun, y: &Noun) -> Result<Noun, Refusal>
    requires { has_dyad op ≡ true }
    ensures { OrWanting (scalar_dyad (dyad_of op) x.now y.now) result }
{
    match op {
        Scalar::Plus => of_numbers::<i64, Sum>(pool, x, y),
        Scalar::Minus => of_numbers::<i64, Difference>(pool, x, y),
        Scalar::Times => of_bits::<Product, Product>(pool, x, y),
        Scalar::Divide => of_numbers::<i64, Partial<Quotient>>(pool, x, y),
        Scalar::Power => of_bits::<Partial<Power>, Power>(pool, x, y),
        Scalar::Residue => of_numbers::<i64, Total<Rest>>(pool, x, y),
        Scalar::LesserOf => of_bits::<Total<Lesser>, Lesser>(pool, x, y),
        Scalar::GreaterOf => of_bits::<Total<Greater>, Greater>(pool, x, y),
        Scalar::LessEqual => of_numbers::<u8, Total<AtMost>>(pool, x, y),
        Scalar::GreaterEqual => of_numbers::<u8, Total<AtLeast>>(pool, x, y),
        Scalar::Double => of_numbers::<u8, Partial<NotOr>>(pool, x, y),
        Scalar::Square => of_numbers::<u8, Partial<NotAnd>>(pool, x, y),
        Scalar::Or => of_bits::<Partial<Divisor>, Divisor>(pool, x, y),
        Scalar::And => of_bits::<Partial<Multiple>, Multiple>(pool, x, y),
        Scalar::Less => of_numbers::<u8, Total<Below>>(pool, x, y),
        Scalar::Greater => of_numbers::<u8, Total<Above>>(pool, x, y),
        Scalar::Equal => agreed::<ByMatch<Same>>(pool, x, y),
        Scalar::NotEqual => agreed::<ByMatch<Different>>(pool, x, y),
        Scalar::Not => of_numbers::<i64, Partial<Absent>>(pool, x, y),
        Scalar::Halve => of_numbers::<i64, Partial<Absent>>(pool, x, y),
    }
}
