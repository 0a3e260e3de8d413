// Runs in order.
ghost use Rattle.std.specs.Prelude.{◌≡◌, ◌<◌, ◌*◌, length, IfOk};
ghost use Rattle.std.specs.List.{All};
ghost use Rattle.std.specs.List.Sorted.{IsPermutation, IsSorted};
ghost use Rattle.j_search.specs.Graded.{run_order, places_with, pair_cmp, IsInOrder, IsKeyed, IsKeyedBack};
ghost use Rattle.j_search.specs.Matching.{places};

use crate::numbered::Numbered;
use crate::packed::{packed_order, packed_range};
use j_noun::{NoMemory, Pool};
use j_rank::part;
use std::cmp::Reverse;

/// The order of items.
#[derive(Clone, Copy, PartialEq, Eq, Debug)]
pub enum Direction {
    Up,
    Down,
}

// The runs, each with its place.
fn keyed_up<'a, T>(
    pool: &mut Pool,
    all: &'a [T],
    count: usize,
    size: usize,
) -> Result<Vec<(&'a [T], usize)>, NoMemory>
    requires { length all.now ≡ count * size }
    ensures places { IfOk result (λ v. places_with v.items ≡ places count) }
    ensures runs { IfOk result (λ v. All (IsKeyed size all.now) v.items) }
{
    let mut keys = pool.fresh(count)?;
    for k in 0..count {
        let Ok(()) = keys.push((part(all, k, size), k)) else {
            return Err(NoMemory);
        };
    }
    Ok(keys)
}

// The runs, each with its place, where the greatest comes first.
fn keyed_down<'a, T>(
    pool: &mut Pool,
    all: &'a [T],
    count: usize,
    size: usize,
) -> Result<Vec<(Reverse<&'a [T]>, usize)>, NoMemory>
    requires { length all.now ≡ count * size }
    ensures places { IfOk result (λ v. places_with v.items ≡ places count) }
    ensures runs { IfOk result (λ v. All (IsKeyedBack size all.now) v.items) }
{
    let mut keys = pool.fresh(count)?;
    for k in 0..count {
        let Ok(()) = keys.push((Reverse(part(all, k, size)), k)) else {
            return Err(NoMemory);
        };
    }
    Ok(keys)
}

// The keys in order. No two are alike, since their places differ.
fn sorted<K: Ord + Drop>(keys: Vec<(K, usize)>) -> Vec<(K, usize)>
    ensures permutation { IsPermutation keys.items result.items }
    ensures sorted { IsSorted (pair_cmp K.cmp) result.items }
{
    let mut keys = keys;
    keys.sort_unstable();
    keys
}

// The places that stand with keys.
fn places_with<K: Drop>(pool: &mut Pool, keys: &[(K, usize)]) -> Result<Vec<usize>, NoMemory>
    ensures { IfOk result (λ v. v.items ≡ places_with keys.now) }
{
    let mut places = pool.fresh(keys.len())?;
    for key in keys {
        let Ok(()) = places.push(key.1) else {
            return Err(NoMemory);
        };
    }
    Ok(places)
}

// The places of runs in order, equal ones in theirs, by slices.
fn order_of_runs<T: Ord>(
    pool: &mut Pool,
    direction: Direction,
    all: &[T],
    count: usize,
    size: usize,
) -> Result<Vec<usize>, NoMemory>
    requires { length all.now ≡ count * size }
    ensures { IfOk result (λ v. IsInOrder T.cmp direction size count all.now v.items) }
{
    match direction {
        Direction::Up => {
            let keys = keyed_up(pool, all, count, size)?;
            let ordered = sorted(keys);
            places_with(pool, &ordered)
        }
        Direction::Down => {
            let back = keyed_down(pool, all, count, size)?;
            let turned = sorted(back);
            places_with(pool, &turned)
        }
    }
}

/// The places of runs in order, equal ones in theirs.
pub fn in_order<T: Numbered>(
    pool: &mut Pool,
    direction: Direction,
    all: &[T],
    count: usize,
    size: usize,
) -> Result<Vec<usize>, NoMemory>
    requires { length all.now ≡ count * size }
    ensures { IfOk result (λ v. IsInOrder T.cmp direction size count all.now v.items) }
{
    if size == 1 {
        if let Some(range) = packed_range(all) {
            return packed_order(pool, direction, range, all);
        }
    }
    order_of_runs(pool, direction, all, count, size)
}

/// The places of runs in order, equal ones in theirs, as they are counted.
pub fn graded<T: Numbered>(
    pool: &mut Pool,
    direction: Direction,
    all: &[T],
    count: usize,
    size: usize,
) -> Result<Vec<usize>, NoMemory>
    requires { length all.now ≡ count * size }
    ensures order { IfOk result (λ v. v.items ≡ run_order T.cmp direction size count all.now) }
    ensures within { IfOk result (λ v. All (λ k. k < count) v.items) }
{
    in_order(pool, direction, all, count, size)
}
