// Items that counts copy.
ghost use Rattle.std.specs.Prelude.{◌≡◌, ℕ, ◌<◌, ◌≤◌, ◌++◌, length, map, min, sum, replicate, OnOk, IfOk, MatchOption, Ok as OkValue, Err as ErrValue};
ghost use Rattle.j_definitions.specs.Array.{product};
ghost use Rattle.j_definitions.specs.declared.Fault.TheVariants.{Length as LengthFault};
ghost use Rattle.j_noun.specs.Refused.{OrWanting};
ghost use Rattle.j_indices.specs.Numbers.{counts_of, magnitudes, and_then};
ghost use Rattle.j_indices.specs.Selecting.{serving, paired, counts_served, pairs_copied, copied_by, copy};

use crate::numbers::{Numbers, Whole, numbers_of, total_of};
use crate::selecting::cells_at;
use j_noun::{Fault, NoMemory, Noun, Pool, Refusal};
use j_rank::{CELL_LIMIT, shape_of};

// Place k, or the one place of an atom.
fn serving(axes: &[usize], k: usize) -> usize
    ensures { result ≡ serving axes.now k }
{
    if axes.is_empty() { 0 } else { k }
}

// How many pairs of a count and an item there are, or none where their numbers differ.
#[tactic(auto, using(crate::proofs::Copies::pairs_equal, crate::proofs::Copies::pairs_unequal))]
fn paired(counts: &[usize], items: &[usize]) -> Option<usize>
    ensures { MatchOption result (paired counts.now items.now ≡ ErrValue LengthFault) (λ n. paired counts.now items.now ≡ OkValue n) }
{
    match counts {
        [] => match items {
            [] => Some(1),
            [n, ..] => Some(*n),
        },
        [m, ..] => match items {
            [] => Some(*m),
            [n, ..] => if *m == *n { Some(*n) } else { None },
        },
    }
}

// The sum of the counts of all pairs, up to the greatest machine number.
fn total_served<N: Whole>(counts: &[N], axes: &[usize], pairs: usize) -> usize
    requires { (k : ℕ) → k < pairs → serving axes.now k < length counts.now }
    ensures { result ≡ min (sum (counts_served axes.now (magnitudes (map N.value counts.now)) pairs)) 18446744073709551615 }
{
    let mut total: usize = 0;
    for k in 0..pairs {
        total = total.saturating_add(counts[serving(axes, k)].magnitude());
    }
    total
}

// Appends a place so many times.
fn append_times(out: &mut Vec<usize>, place: usize, times: usize) -> Result<(), NoMemory>
    ensures { OnOk result (out.new.items ≡ out.old.items ++ replicate times place) }
{
    for _ in 0..times {
        let Ok(()) = out.push(place) else {
            return Err(NoMemory);
        };
    }
    Ok(())
}

// The place of the item of each pair, as often as its count.
fn places_copied<N: Whole>(
    pool: &mut Pool,
    counts: &[N],
    axes: &[usize],
    items: &[usize],
    pairs: usize,
    total: usize,
) -> Result<Vec<usize>, NoMemory>
    requires { (k : ℕ) → k < pairs → serving axes.now k < length counts.now }
    ensures { IfOk result (λ v. v.items ≡ map (serving items.now) (pairs_copied axes.now (magnitudes (map N.value counts.now)) pairs)) }
{
    let mut out = pool.fresh(total)?;
    for k in 0..pairs {
        let times = counts[serving(axes, k)].magnitude();
        append_times(&mut out, serving(items, k), times)?;
    }
    Ok(out)
}

// The items that counts copy.
fn copy_by<N: Whole>(
    pool: &mut Pool,
    counts: &[N],
    axes: &[usize],
    y: &Noun,
) -> Result<Noun, Refusal>
    requires rank { length axes.now ≤ 1 }
    requires many { length counts.now ≡ product axes.now }
    ensures { OrWanting (and_then (counts_of (map N.value counts.now)) (λ ns. copied_by axes.now ns y.now)) result }
{
    let Some(_) = total_of(counts) else {
        return Err(Refusal::Fault(Fault::Domain));
    };
    let Some(pairs) = paired(axes, y.axes()) else {
        return Err(Refusal::Fault(Fault::Length));
    };
    let total = total_served(counts, axes, pairs);
    if total > CELL_LIMIT {
        return Err(Refusal::Fault(Fault::Limit));
    }
    let places = places_copied(pool, counts, axes, y.axes(), pairs, total)?;
    cells_at(pool, shape_of(&[total]), 1, y, &places)
}

/// `x # y`: item k of y repeated x_k times.
pub fn copy(pool: &mut Pool, x: &Noun, y: &Noun) -> Result<Noun, Refusal>
    requires { length x.now.shape ≤ 1 }
    ensures { OrWanting (copy x.now y.now) result }
{
    match numbers_of(x) {
        None => Err(Refusal::Fault(Fault::Domain)),
        Some(Numbers::Wholes(v)) => copy_by(pool, v, x.axes(), y),
        Some(Numbers::Bits(v)) => copy_by(pool, v, x.axes(), y),
    }
}
