// Digits of numbers by bases.
ghost use Rattle.std.specs.Prelude.{◌≡◌, ◌≤◌, ◌^◌, ◌≢◌, [], length, pos, IfOk};
ghost use Rattle.std.specs.Int.RustNames.{unsigned_abs};
ghost use Rattle.j_kernels.specs.Scalars.{residue, floor_quotient};
ghost use Rattle.j_noun.specs.Refused.{OrWanting, OrWantingAs};
ghost use Rattle.j_insert.specs.Digits.{left_by, digits, antibase};
ghost use Rattle.j_insert.specs.Listed.{listed};

use crate::numbers::{Numbers, count, first_number, number_at, numbers_of};
use j_noun::{Atoms, Fault, NoMemory, Noun, Pool, Refusal};

// The last digit of r by x, and what is left behind it.
#[derive(Clone, Copy)]
struct LastDigit {
    digit: i128,
    rest: i128,
}

// The greatest whole number that is at most r divided by x.
fn floor_quotient(r: i128, x: i64) -> i128
    requires zero { x ≢ pos 0 }
    requires bound { unsigned_abs r ≤ 2 ^ 63 }
    ensures value { result ≡ floor_quotient r x }
{
    let base = i128::from(x);
    if x > 0 {
        return r.div_euclid(base);
    }
    let opposite = -r;
    opposite.div_euclid(-base)
}

fn last_digit_of(r: i128, x: i64) -> LastDigit
    requires { unsigned_abs r ≤ 2 ^ 63 }
    ensures digit { result.digit ≡ residue x r }
    ensures rest { result.rest ≡ left_by x r }
    ensures bound { unsigned_abs result.rest ≤ 2 ^ 63 }
{
    if x == 0 {
        return LastDigit { digit: r, rest: 0 };
    }
    let rest = floor_quotient(r, x);
    LastDigit {
        digit: r - i128::from(x) * rest,
        rest,
    }
}

// The digits of y by bases, from the first.
#[tactic(auto, using(crate::proofs::Digiting::digit_more, crate::proofs::Digiting::range_more, crate::proofs::Digiting::digits_found, crate::proofs::Digiting::digit_beyond))]
fn digits_of(pool: &mut Pool, bases: Numbers<'_>, y: i64) -> Result<Vec<i64>, Refusal>
    ensures value { OrWantingAs (λ v. v.items) (digits (listed bases.entry) y) result }
    ensures many { IfOk result (λ v. length v.items ≡ length (listed bases.entry)) }
{
    let n = count(bases);
    let mut out = pool.ints(n)?;
    let mut rest = i128::from(y);
    for k in 0..n {
        let last = last_digit_of(rest, number_at(bases, n - 1 - k));
        let Ok(digit) = i64::try_from(last.digit) else {
            return Err(Refusal::Fault(Fault::Overflow));
        };
        let Ok(()) = out.push(digit) else {
            return Err(Refusal::NoMemory);
        };
        rest = last.rest;
    }
    out.reverse();
    Ok(out)
}

/// The digits of the number y by the bases x.
#[tactic(auto, using(crate::proofs::Digiting::antibase_said, crate::proofs::Digiting::antibase_left, crate::proofs::Digiting::antibase_right))]
pub fn antibase(pool: &mut Pool, x: &Noun, y: &Noun) -> Result<Noun, Refusal>
    ensures { OrWanting (antibase x.now y.now) result }
{
    let bases = numbers_of(x)?;
    let number = numbers_of(y)?;
    let digits = digits_of(pool, bases, first_number(number))?;
    Noun::make(pool, x.shape(), Atoms::Wholes(digits))
}
