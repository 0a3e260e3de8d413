// The forms that verbs of two numbers have. A monad is one that reads its right number alone.
ghost use Rattle.std.specs.Prelude.{◌≡◌, ◌<◌, ◌^◌, ℤ, Result, Ok as OkValue};
ghost use Rattle.j_definitions.specs.Array.{Atom, number};
ghost use Rattle.j_definitions.specs.declared.Fault.{Fault as FaultValue};
ghost use Rattle.j_loops.specs.Results.{IsGiven, IsAnswer};
ghost use Rattle.j_kernels.specs.Scalars.{of_numbers};

use j_definitions::Fault;
use j_loops::{Number, Op, Stored};
use std::marker::PhantomData;

/// A verb of two numbers.
pub trait NumberVerb<Z: Stored> {
    ghost of: { ℤ → ℤ → Result Atom FaultValue };

    /// Whether a loop is to stop at a set top bit: where lanes do not help.
    const STOPS: bool;

    /// The result, where the top bit of the mask is not set.
    fn quick(x: i64, y: i64) -> (Z, u64)
        ensures { result.1 < 2 ^ 63 → IsGiven Z.atom Z.IsKept (of x y) result.0 };

    fn exact(x: i64, y: i64) -> Result<Z, Fault>
        ensures { IsAnswer Z.atom Z.IsKept (of x y) result };
}

/// A verb that has a result for any two numbers.
pub trait TotalVerb<Z: Stored> {
    ghost of: { ℤ → ℤ → Result Atom FaultValue };

    fn value(x: i64, y: i64) -> Z
        ensures { IsGiven Z.atom Z.IsKept (of x y) result };
}

/// A verb that has no result for some numbers.
pub trait PartialVerb<Z: Stored> {
    ghost of: { ℤ → ℤ → Result Atom FaultValue };

    fn value(x: i64, y: i64) -> Result<Z, Fault>
        ensures { IsAnswer Z.atom Z.IsKept (of x y) result };
}

pub struct Total<V> {
    verb: PhantomData<V>,
}

impl<Z: Stored, V: TotalVerb<Z>> NumberVerb<Z> for Total<V> {
    ghost of = { V.of };

    const STOPS: bool = false;

    fn quick(x: i64, y: i64) -> (Z, u64) {
        (V::value(x, y), 0)
    }

    fn exact(x: i64, y: i64) -> Result<Z, Fault> {
        Ok(V::value(x, y))
    }
}

pub struct Partial<V> {
    verb: PhantomData<V>,
}

impl<Z: Stored, V: PartialVerb<Z>> NumberVerb<Z> for Partial<V> {
    ghost of = { V.of };

    const STOPS: bool = true;

    fn quick(x: i64, y: i64) -> (Z, u64) {
        match V::value(x, y) {
            Ok(z) => (z, 0),
            Err(_) => (Z::zero(), 1 << 63),
        }
    }

    fn exact(x: i64, y: i64) -> Result<Z, Fault> {
        V::value(x, y)
    }
}

/// The verb, on numbers as they are stored.
pub struct OnNumbers<V> {
    verb: PhantomData<V>,
}

impl<X: Number, Y: Number, Z: Stored, V: NumberVerb<Z>> Op<X, Y, Z> for OnNumbers<V> {
    ghost left_atom = { λ x. number (X.whole x) };

    ghost right_atom = { λ y. number (Y.whole y) };

    ghost meaning = { of_numbers V.of };

    const STOPS: bool = V::STOPS;

    fn quick(x: X, y: Y) -> (Z, u64) {
        V::quick(x.whole(), y.whole())
    }

    fn exact(x: X, y: Y) -> Result<Z, Fault> {
        V::exact(x.whole(), y.whole())
    }
}
