// The verbs `=` and `~:`, which take atoms of any kind.
ghost use Rattle.std.specs.Prelude.{◌≡◌, ◌<◌, ◌*◌, Bool, not, length, Result, Ok as OkValue};
ghost use Rattle.j_definitions.specs.Array.{Atom, number, byte, boxed, atom_match};
ghost use Rattle.j_definitions.specs.Cells.{atom_at};
ghost use Rattle.j_noun.specs.Viewed.{viewed};
ghost use Rattle.j_loops.specs.Results.{outcome, IsFilled};
ghost use Rattle.j_kernels.specs.Scalars.{truth};
ghost use Rattle.j_kernels.specs.Answers.{said_of_match};

use crate::alike_slowly::fill_slowly;
use crate::likeness::Likeness;
use j_definitions::Fault;
use j_loops::{Number, Op, fill};
use j_noun::{Atoms, Pool, Refusal, View};
use std::marker::PhantomData;

/// Of numbers.
struct OfNumbers<L> {
    likeness: PhantomData<L>,
}

impl<X: Number, Y: Number, L: Likeness> Op<X, Y, u8> for OfNumbers<L> {
    ghost left_atom = { λ x. number (X.whole x) };

    ghost right_atom = { λ y. number (Y.whole y) };

    ghost meaning = { said_of_match L.said };

    const STOPS: bool = false;

    fn quick(x: X, y: Y) -> (u8, u64) {
        (u8::from(L::said(x.whole() == y.whole())), 0)
    }

    fn exact(x: X, y: Y) -> Result<u8, Fault> {
        Ok(u8::from(L::said(x.whole() == y.whole())))
    }
}

/// Of bytes.
struct OfBytes<L> {
    likeness: PhantomData<L>,
}

impl<L: Likeness> Op<u8, u8, u8> for OfBytes<L> {
    ghost left_atom = { byte };

    ghost right_atom = { byte };

    ghost meaning = { said_of_match L.said };

    const STOPS: bool = false;

    fn quick(x: u8, y: u8) -> (u8, u64) {
        (u8::from(L::said(x == y)), 0)
    }

    fn exact(x: u8, y: u8) -> Result<u8, Fault> {
        Ok(u8::from(L::said(x == y)))
    }
}

/// The verb on n pairs, where `left` in a row have one atom of x and `right` one of y.
pub fn alike<L: Likeness>(
    pool: &mut Pool,
    x: View<'_>,
    left: usize,
    y: View<'_>,
    right: usize,
    n: usize,
) -> Result<Atoms, Refusal>
    requires left { length (viewed x) * left ≡ n }
    requires right { length (viewed y) * right ≡ n }
    ensures { IsFilled (outcome (said_of_match L.said) left right (viewed x.entry) (viewed y.entry) n) result }
{
    match x {
        View::Wholes(a) => match y {
            View::Wholes(b) => fill::<i64, i64, u8, OfNumbers<L>>(pool, a, left, b, right, n),
            View::Bits(b) => fill::<i64, u8, u8, OfNumbers<L>>(pool, a, left, b, right, n),
            y => fill_slowly::<L>(pool, x, left, y, right, n),
        },
        View::Bits(a) => match y {
            View::Wholes(b) => fill::<u8, i64, u8, OfNumbers<L>>(pool, a, left, b, right, n),
            View::Bits(b) => fill::<u8, u8, u8, OfNumbers<L>>(pool, a, left, b, right, n),
            y => fill_slowly::<L>(pool, x, left, y, right, n),
        },
        View::Bytes(a) => match y {
            View::Bytes(b) => fill::<u8, u8, u8, OfBytes<L>>(pool, a, left, b, right, n),
            y => fill_slowly::<L>(pool, x, left, y, right, n),
        },
        x => fill_slowly::<L>(pool, x, left, y, right, n),
    }
}
