// What fills a buffer with the results of pairs, for nouns of any kind.
ghost use Rattle.std.specs.Prelude.{◌≡◌, ◌*◌, length, Result};
ghost use Rattle.j_definitions.specs.Array.{Atom};
ghost use Rattle.j_definitions.specs.declared.Fault.{Fault as FaultValue};
ghost use Rattle.j_noun.specs.Viewed.{viewed, ShowsBits};
ghost use Rattle.j_loops.specs.Results.{outcome, IsFilled};
ghost use Rattle.j_kernels.specs.Scalars.{of_numbers};
ghost use Rattle.j_kernels.specs.Answers.{said_of_match};

use crate::alike::alike;
use crate::bits::{BitVerb, on_bits};
use crate::forms::NumberVerb;
use crate::likeness::Likeness;
use crate::numbers::on_numbers;
use j_loops::Stored;
use j_noun::{Atoms, Pool, Refusal, View};
use std::marker::PhantomData;

/// A scalar dyad on the atoms of two nouns.
pub trait PairVerb {
    ghost meaning: { Atom → Atom → Result Atom FaultValue };

    /// The results of n pairs, where `left` in a row have one atom of x and `right` one of y.
    fn fill_pairs(
        pool: &mut Pool,
        x: View<'_>,
        left: usize,
        y: View<'_>,
        right: usize,
        n: usize,
    ) -> Result<Atoms, Refusal>
        requires left { length (viewed x) * left ≡ n }
        requires right { length (viewed y) * right ≡ n }
        requires bits_left { ShowsBits x }
        requires bits_right { ShowsBits y }
        ensures { IsFilled (outcome meaning left right (viewed x.entry) (viewed y.entry) n) result };
}

/// A verb of numbers.
pub struct ByNumbers<Z, V> {
    stored: PhantomData<Z>,
    verb: PhantomData<V>,
}

impl<Z: Stored, V: NumberVerb<Z>> PairVerb for ByNumbers<Z, V> {
    ghost meaning = { of_numbers V.of };

    fn fill_pairs(
        pool: &mut Pool,
        x: View<'_>,
        left: usize,
        y: View<'_>,
        right: usize,
        n: usize,
    ) -> Result<Atoms, Refusal> {
        on_numbers::<Z, V>(pool, x, left, y, right, n)
    }
}

/// A verb of numbers that is a bit for two bits.
pub struct ByBits<V, B> {
    verb: PhantomData<V>,
    bits: PhantomData<B>,
}

impl<V: NumberVerb<i64>, B: BitVerb<V>> PairVerb for ByBits<V, B> {
    ghost meaning = { of_numbers V.of };

    fn fill_pairs(
        pool: &mut Pool,
        x: View<'_>,
        left: usize,
        y: View<'_>,
        right: usize,
        n: usize,
    ) -> Result<Atoms, Refusal> {
        match (x, y) {
            (View::Bits(a), View::Bits(b)) => on_bits::<V, B>(pool, a, left, b, right, n),
            (x, y) => on_numbers::<i64, V>(pool, x, left, y, right, n),
        }
    }
}

/// A verb of any atoms.
pub struct ByMatch<L> {
    likeness: PhantomData<L>,
}

impl<L: Likeness> PairVerb for ByMatch<L> {
    ghost meaning = { said_of_match L.said };

    fn fill_pairs(
        pool: &mut Pool,
        x: View<'_>,
        left: usize,
        y: View<'_>,
        right: usize,
        n: usize,
    ) -> Result<Atoms, Refusal> {
        alike::<L>(pool, x, left, y, right, n)
    }
}
