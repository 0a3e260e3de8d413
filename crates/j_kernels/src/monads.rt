// The monads of scalar verbs on nouns.
ghost use Rattle.std.specs.Prelude.{◌≡◌, length, true};
ghost use Rattle.j_definitions.specs.Array.{IsNoun};
ghost use Rattle.j_definitions.specs.declared.Kind.TheVariants.{Number as NumberKind};
ghost use Rattle.j_noun.specs.Refused.{OrWanting};
ghost use Rattle.j_loops.specs.Results.{outcome};
ghost use Rattle.j_kernels.specs.Scalars.{monad_of, of_numbers, scalar_monad, numbers_of, has_monad};
ghost use Rattle.j_kernels.specs.declared.scalar.Scalar.TheVariants.{Plus};

use crate::bits::BitVerb;
use crate::forms::{NumberVerb, Partial, Total};
use crate::frames::{count, shaped_like};
use crate::numbers::{number_of, on_atoms};
use crate::pairs::{ByBits, ByNumbers, PairVerb};
use crate::scalar::Scalar;
use crate::verbs::{
    Absent, Complement, Decrement, HalfOf, Increment, Itself, Magnitude, Negative, Reciprocal,
    Sign, SquareOf, Twice,
};
use j_loops::Stored;
use j_noun::{Noun, Pool, Refusal, View};

/// The monad of a verb that reads its right atom alone.
fn on_atoms_of<P: PairVerb>(pool: &mut Pool, y: &Noun) -> Result<Noun, Refusal>
    ensures { OrWanting (numbers_of y.now.shape (outcome P.meaning 1 1 y.now.atoms y.now.atoms (length y.now.atoms))) result }
{
    let n = count(y);
    let atoms = y.view();
    let results = P::fill_pairs(pool, atoms, 1, atoms, 1, n);
    shaped_like(pool, y, results)
}

/// The same of a verb of numbers. An atom needs no buffer.
fn on_each<Z: Stored, V: NumberVerb<Z>>(pool: &mut Pool, y: &Noun) -> Result<Noun, Refusal>
    ensures { OrWanting (numbers_of y.now.shape (outcome (of_numbers V.of) 1 1 y.now.atoms y.now.atoms (length y.now.atoms))) result }
{
    if let Some(z) = number_of(y) {
        return on_atoms::<Z, V>(z, z);
    }
    on_atoms_of::<ByNumbers<Z, V>>(pool, y)
}

/// The same of a verb that is a bit for a bit.
fn on_each_bit<V: NumberVerb<i64>, B: BitVerb<V>>(
    pool: &mut Pool,
    y: &Noun,
) -> Result<Noun, Refusal>
    ensures { OrWanting (numbers_of y.now.shape (outcome (of_numbers V.of) 1 1 y.now.atoms y.now.atoms (length y.now.atoms))) result }
{
    if let Some(z) = number_of(y) {
        return on_atoms::<i64, V>(z, z);
    }
    on_atoms_of::<ByBits<V, B>>(pool, y)
}

/// Whether a noun is of numbers.
fn is_numbers(y: &Noun) -> bool
    ensures kind { result ≡ true → y.now.kind ≡ NumberKind }
    ensures noun { IsNoun y.now }
{
    match y.view() {
        View::Wholes(_) | View::Bits(_) => true,
        View::Bytes(_) | View::Boxes(_) => false,
    }
}

/// The monads that give each number itself: a noun of numbers shares its buffer.
fn on_itself(pool: &mut Pool, y: &Noun) -> Result<Noun, Refusal>
    ensures { OrWanting (scalar_monad (monad_of Plus) y.now) result }
{
    if is_numbers(y) {
        return Ok(y.duplicate()?);
    }
    on_each::<i64, Total<Itself>>(pool, y)
}

/// The monad of a scalar verb.
pub fn monad(op: Scalar, pool: &mut Pool, y: &Noun) -> Result<Noun, Refusal>
    requires { has_monad op ≡ true }
    ensures { OrWanting (scalar_monad (monad_of op) y.now) result }
{
    match op {
        Scalar::Plus => on_itself(pool, y),
        Scalar::Minus => on_each::<i64, Negative>(pool, y),
        Scalar::Times => on_each::<i64, Total<Sign>>(pool, y),
        Scalar::Divide => on_each::<i64, Partial<Reciprocal>>(pool, y),
        Scalar::Residue => on_each::<i64, Partial<Magnitude>>(pool, y),
        Scalar::LesserOf => on_itself(pool, y),
        Scalar::GreaterOf => on_itself(pool, y),
        Scalar::LessEqual => on_each::<i64, Decrement>(pool, y),
        Scalar::GreaterEqual => on_each::<i64, Increment>(pool, y),
        Scalar::Double => on_each::<i64, Twice>(pool, y),
        Scalar::Square => on_each::<i64, Partial<SquareOf>>(pool, y),
        Scalar::Not => on_each_bit::<Complement, Complement>(pool, y),
        Scalar::Halve => on_each::<i64, Partial<HalfOf>>(pool, y),
        Scalar::Power => on_each::<i64, Partial<Absent>>(pool, y),
        Scalar::Or => on_each::<i64, Partial<Absent>>(pool, y),
        Scalar::And => on_each::<i64, Partial<Absent>>(pool, y),
        Scalar::Less => on_each::<i64, Partial<Absent>>(pool, y),
        Scalar::Greater => on_each::<i64, Partial<Absent>>(pool, y),
        Scalar::Equal => on_each::<i64, Partial<Absent>>(pool, y),
        Scalar::NotEqual => on_each::<i64, Partial<Absent>>(pool, y),
    }
}
