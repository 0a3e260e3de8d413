// Verbs of numbers whose result for two bits is a bit.
ghost use Rattle.std.specs.Prelude.{◌≡◌, ◌<◌, ◌*◌, ◌-◌, ◌%◌, pos, length, max, min, map};
ghost use Rattle.std.specs.List.{All};
ghost use Rattle.j_definitions.specs.Array.{number};
ghost use Rattle.j_loops.specs.Results.{outcome, IsFilled, IsGiven};
ghost use Rattle.j_kernels.specs.Scalars.{of_numbers};

use crate::forms::{NumberVerb, Partial, Total};
use crate::verbs::{Complement, Divisor, Greater, Lesser, Multiple, Power, Product};
use j_definitions::Fault;
use j_loops::{Op, fill};
use j_noun::{Atoms, Pool, Refusal};
use std::cmp;
use std::marker::PhantomData;

/// What a verb of numbers does on bits, where only the last digits of two bytes are read.
pub trait BitVerb<V: NumberVerb<i64>> {
    fn bit(x: u8, y: u8) -> u8
        ensures { IsGiven (λ b. number (pos b)) (λ b. b < 2) (V.of (pos (x % 2)) (pos (y % 2))) result };
}

fn both(x: u8, y: u8) -> u8
    ensures { result ≡ min (x % 2) (y % 2) }
{
    cmp::min(x % 2, y % 2)
}

fn either(x: u8, y: u8) -> u8
    ensures { result ≡ max (x % 2) (y % 2) }
{
    cmp::max(x % 2, y % 2)
}

impl BitVerb<Product> for Product {
    fn bit(x: u8, y: u8) -> u8 {
        both(x, y)
    }
}

impl BitVerb<Total<Lesser>> for Lesser {
    fn bit(x: u8, y: u8) -> u8 {
        both(x, y)
    }
}

impl BitVerb<Total<Greater>> for Greater {
    fn bit(x: u8, y: u8) -> u8 {
        either(x, y)
    }
}

impl BitVerb<Partial<Multiple>> for Multiple {
    fn bit(x: u8, y: u8) -> u8 {
        both(x, y)
    }
}

impl BitVerb<Partial<Divisor>> for Divisor {
    fn bit(x: u8, y: u8) -> u8 {
        either(x, y)
    }
}

impl BitVerb<Partial<Power>> for Power {
    fn bit(x: u8, y: u8) -> u8 {
        either(x, 1 - y % 2)
    }
}

impl BitVerb<Complement> for Complement {
    fn bit(_x: u8, y: u8) -> u8 {
        1 - y % 2
    }
}

/// The verb on bytes, of which the last digits are read.
struct OnBits<V, B> {
    verb: PhantomData<V>,
    bits: PhantomData<B>,
}

impl<V: NumberVerb<i64>, B: BitVerb<V>> Op<u8, u8, u8> for OnBits<V, B> {
    ghost left_atom = { λ b. number (pos (b % 2)) };

    ghost right_atom = { λ b. number (pos (b % 2)) };

    ghost meaning = { of_numbers V.of };

    const STOPS: bool = false;

    fn quick(x: u8, y: u8) -> (u8, u64) {
        (B::bit(x, y), 0)
    }

    fn exact(x: u8, y: u8) -> Result<u8, Fault> {
        Ok(B::bit(x, y))
    }
}

/// The verb on n pairs of bits, where `left` in a row have one of x and `right` one of y.
pub fn on_bits<V: NumberVerb<i64>, B: BitVerb<V>>(
    pool: &mut Pool,
    x: &[u8],
    left: usize,
    y: &[u8],
    right: usize,
    n: usize,
) -> Result<Atoms, Refusal>
    requires left { length x.now * left ≡ n }
    requires right { length y.now * right ≡ n }
    requires bits_left { All (λ b. b < 2) x.now }
    requires bits_right { All (λ b. b < 2) y.now }
    ensures { IsFilled (outcome (of_numbers V.of) left right (map (λ b. number (pos b)) x.now) (map (λ b. number (pos b)) y.now) n) result }
{
    fill::<u8, u8, u8, OnBits<V, B>>(pool, x, left, y, right, n)
}
