// Verbs of numbers on what nouns hold, for each pair of storage classes.
ghost use Rattle.std.specs.Prelude.{◌≡◌, ◌<◌, ◌==◌, ◌*◌, length, cond, [], ◌∷◌, IfSome, Ok as OkValue, Err as ErrValue};
ghost use Rattle.j_definitions.specs.Array.{number, atom_array};
ghost use Rattle.j_definitions.specs.Cells.{in_order};
ghost use Rattle.j_definitions.specs.declared.Fault.TheVariants.{Domain as DomainFault};
ghost use Rattle.j_definitions.specs.declared.Kind.TheVariants.{Number as NumberKind};
ghost use Rattle.j_noun.specs.Viewed.{viewed};
ghost use Rattle.j_noun.specs.Refused.{OrWanting};
ghost use Rattle.j_loops.specs.Results.{outcome, IsFilled};
ghost use Rattle.j_kernels.specs.Scalars.{of_numbers, numbers_of};

use crate::forms::{NumberVerb, OnNumbers};
use j_definitions::Fault;
use j_loops::{Stored, fill};
use j_noun::{Atoms, Noun, Pool, Refusal, View};

/// What n pairs give that aren't of numbers.
fn not_numbers(pool: &mut Pool, n: usize) -> Result<Atoms, Refusal>
    ensures { IsFilled (cond (n == 0) (OkValue []) (ErrValue DomainFault)) result }
{
    if n == 0 {
        Ok(Atoms::Wholes(pool.ints(0)?))
    } else {
        Err(Refusal::Fault(Fault::Domain))
    }
}

/// A verb of numbers on n pairs, where `left` in a row have one atom of x and `right` one of y.
pub fn on_numbers<Z: Stored, V: NumberVerb<Z>>(
    pool: &mut Pool,
    x: View<'_>,
    left: usize,
    y: View<'_>,
    right: usize,
    n: usize,
) -> Result<Atoms, Refusal>
    requires left { length (viewed x) * left ≡ n }
    requires right { length (viewed y) * right ≡ n }
    ensures { IsFilled (outcome (of_numbers V.of) left right (viewed x.entry) (viewed y.entry) n) result }
{
    macro_rules! right {
        ($x:ty, $a:expr) => {
            match y {
                View::Wholes(b) => fill::<$x, i64, Z, OnNumbers<V>>(pool, $a, left, b, right, n),
                View::Bits(b) => fill::<$x, u8, Z, OnNumbers<V>>(pool, $a, left, b, right, n),
                View::Bytes(_) => not_numbers(pool, n),
                View::Boxes(_) => not_numbers(pool, n),
            }
        };
    }
    match x {
        View::Wholes(a) => right!(i64, a),
        View::Bits(a) => right!(u8, a),
        View::Bytes(_) => not_numbers(pool, n),
        View::Boxes(_) => not_numbers(pool, n),
    }
}

/// The number of an atom that is one.
pub fn number_of(y: &Noun) -> Option<i64>
    ensures { IfSome result (λ z. y.now ≡ atom_array NumberKind (number z)) }
{
    match y.view() {
        View::Wholes([z]) if y.axes().is_empty() => Some(*z),
        _ => None,
    }
}

/// The verb on two atoms, with no buffer.
pub fn on_atoms<Z: Stored, V: NumberVerb<Z>>(x: i64, y: i64) -> Result<Noun, Refusal>
    ensures { OrWanting (numbers_of [] (in_order (V.of x y ∷ []))) result }
{
    Ok(V::exact(x, y)?.noun())
}
