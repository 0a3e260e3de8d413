// Numbers of digits by bases.
ghost use Rattle.std.specs.Prelude.{◌≡◌, ◌≤◌, length, pos, zip, ok_or};
ghost use Rattle.j_definitions.specs.Array.{product};
ghost use Rattle.j_noun.specs.Refused.{OrWanting};
ghost use Rattle.j_insert.specs.Bases.{step, stepped, valued, base};
ghost use Rattle.j_insert.specs.Listed.{listed, serving};

use crate::numbers::{Numbers, Serving, count, number_at, numbers_of, serving_at};
use j_noun::{Fault, Noun, Pool, Refusal};

// r times x, and y more, where both are in range.
fn step(r: i64, x: i64, y: i64) -> Option<i64>
    ensures { ok_or result Fault.Overflow ≡ step r x y }
{
    let product = r.checked_mul(x)?;
    product.checked_add(y)
}

// What 0 becomes by a step for each of n pairs.
#[tactic(auto, using(crate::proofs::Stepping::step_more, crate::proofs::Stepping::step_fails, crate::proofs::Stepping::steps_end))]
fn stepped(x: Serving<'_>, y: Serving<'_>, n: usize) -> Result<i64, Fault>
    requires left { length (serving x n) ≡ n }
    requires right { length (serving y n) ≡ n }
    ensures { result ≡ stepped (pos 0) (zip (serving x.entry n) (serving y.entry n)) }
{
    let mut r = 0;
    for k in 0..n {
        let Some(next) = step(r, serving_at(x, n, k), serving_at(y, n, k)) else {
            return Err(Fault::Overflow);
        };
        r = next;
    }
    Ok(r)
}

// What pairs of bases and digits come to, where the number of an atom serves all.
#[tactic(auto, using(crate::proofs::Stepping::valued_left, crate::proofs::Stepping::valued_right, crate::proofs::Stepping::valued_both, crate::proofs::Stepping::valued_unequal))]
fn valued(s: &[usize], t: &[usize], x: Numbers<'_>, y: Numbers<'_>) -> Result<i64, Fault>
    requires bases { length (listed x) ≡ product s.now }
    requires digits { length (listed y) ≡ product t.now }
    ensures { result ≡ valued s.now t.now (listed x.entry) (listed y.entry) }
{
    let n = count(y);
    if s.is_empty() {
        return stepped(Serving::One(number_at(x, 0)), Serving::Each(y), n);
    }
    let m = count(x);
    if t.is_empty() {
        return stepped(Serving::Each(x), Serving::One(number_at(y, 0)), m);
    }
    if m != n {
        return Err(Fault::Length);
    }
    stepped(Serving::Each(x), Serving::Each(y), n)
}

/// The number that the digits y have by the bases x.
#[tactic(auto, using(crate::proofs::Stepping::base_said, crate::proofs::Stepping::base_left, crate::proofs::Stepping::base_right))]
pub fn base(_pool: &mut Pool, x: &Noun, y: &Noun) -> Result<Noun, Refusal>
    ensures { OrWanting (base x.now y.now) result }
{
    let bases = numbers_of(x)?;
    let digits = numbers_of(y)?;
    let value = valued(x.axes(), y.axes(), bases, digits)?;
    Ok(Noun::number(value))
}
