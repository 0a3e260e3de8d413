// Numbers of a range in order, each in one word with its place.
ghost use Rattle.std.specs.Prelude.{◌≡◌, ◌≤◌, length, map, IfOk, IfSome};
ghost use Rattle.std.specs.List.{All};
ghost use Rattle.std.specs.List.Sorted.{IsPermutation, IsSorted};
ghost use Rattle.std.specs.Ordering.{nat_cmp};
ghost use Rattle.j_search.specs.Graded.{IsInOrder};
ghost use Rattle.j_search.specs.Matching.{places};
ghost use Rattle.j_search.specs.Packed.{place_in, distance_in, IsDistance, IsPacked};
ghost use Rattle.j_search.specs.Ranged.{LiesIn};

use crate::numbered::{Numbered, Range, range_of, range_of_both};
use crate::order::Direction;
use j_noun::{NoMemory, Pool};

// A word has room for so many places, and beside them for numbers of a range of that width.
const PLACES: usize = 4194304;

const WIDTH: usize = 2199023255552;

/// The range of the items, where a word has room for each of them with its place.
pub fn packed_range<T: Numbered>(items: &[T]) -> Option<Range>
    ensures { IfSome result (λ r. (length items.now ≤ 4194304) × All (λ x. LiesIn r (T.number x)) items.now × (r.width ≤ 2199023255552)) }
{
    if items.len() > PLACES {
        return None;
    }
    range_of(items, WIDTH)
}

/// The range of the items and the cells, where a word has room for each of them with its place.
pub fn packed_range_of_both<T: Numbered>(items: &[T], cells: &[T]) -> Option<Range>
    ensures { IfSome result (λ r. (length items.now ≤ 4194304) × (length cells.now ≤ 4194304) × All (λ x. LiesIn r (T.number x)) items.now × All (λ x. LiesIn r (T.number x)) cells.now × (r.width ≤ 2199023255552)) }
{
    if items.len() > PLACES || cells.len() > PLACES {
        return None;
    }
    range_of_both(items, cells, WIDTH)
}

/// The place that a word has in its low digits.
pub fn place_in(word: u64) -> usize
    ensures { result ≡ place_in word }
{
    word as usize % PLACES
}

/// The distance that a word has in front of its place.
pub fn distance_in(word: u64) -> u64
    ensures { result ≡ distance_in word }
{
    word / PLACES as u64
}

// How far a number is from the low end of a range, or from the number behind its high end.
fn distance(direction: Direction, range: Range, number: i64) -> u64
    requires narrow { range.width ≤ 2199023255552 }
    requires there { LiesIn range number }
    ensures value { IsDistance direction range number result }
    ensures within { result ≤ 2199023255552 }
{
    let behind = (number - range.low) as u64;
    match direction {
        Direction::Up => behind,
        Direction::Down => range.width as u64 - behind,
    }
}

// The numbers, each in one word with its place.
fn packed<T: Numbered>(
    pool: &mut Pool,
    direction: Direction,
    range: Range,
    items: &[T],
) -> Result<Vec<u64>, NoMemory>
    requires few { length items.now ≤ 4194304 }
    requires narrow { range.width ≤ 2199023255552 }
    requires there { All (λ x. LiesIn range (T.number x)) items.now }
    ensures places { IfOk result (λ v. map place_in v.items ≡ places (length items.now)) }
    ensures words { IfOk result (λ v. All (IsPacked T.number direction range items.now) v.items) }
{
    let mut words = pool.fresh(items.len())?;
    for k in 0..items.len() {
        let far = distance(direction, range, items[k].number());
        let Ok(()) = words.push(far * PLACES as u64 + k as u64) else {
            return Err(NoMemory);
        };
    }
    Ok(words)
}

// The words in order.
fn sorted(words: Vec<u64>) -> Vec<u64>
    ensures permutation { IsPermutation words.items result.items }
    ensures sorted { IsSorted nat_cmp result.items }
{
    let mut words = words;
    words.sort_unstable();
    words
}

/// The words of atoms of that range, in order.
pub fn words_in_order<T: Numbered>(
    pool: &mut Pool,
    direction: Direction,
    range: Range,
    items: &[T],
) -> Result<Vec<u64>, NoMemory>
    requires few { length items.now ≤ 4194304 }
    requires narrow { range.width ≤ 2199023255552 }
    requires there { All (λ x. LiesIn range (T.number x)) items.now }
    ensures order { IfOk result (λ v. IsInOrder T.cmp direction 1 (length items.now) items.now (map place_in v.items)) }
    ensures words { IfOk result (λ v. All (IsPacked T.number direction range items.now) v.items) }
{
    let words = packed(pool, direction, range, items)?;
    Ok(sorted(words))
}

// The places of words.
fn unpacked(pool: &mut Pool, words: &[u64]) -> Result<Vec<usize>, NoMemory>
    ensures { IfOk result (λ v. v.items ≡ map place_in words.now) }
{
    let mut places = pool.fresh(words.len())?;
    for word in words {
        let Ok(()) = places.push(place_in(*word)) else {
            return Err(NoMemory);
        };
    }
    Ok(places)
}

/// The places of atoms of that range in order, equal ones in theirs.
pub fn packed_order<T: Numbered>(
    pool: &mut Pool,
    direction: Direction,
    range: Range,
    items: &[T],
) -> Result<Vec<usize>, NoMemory>
    requires few { length items.now ≤ 4194304 }
    requires narrow { range.width ≤ 2199023255552 }
    requires there { All (λ x. LiesIn range (T.number x)) items.now }
    ensures { IfOk result (λ v. IsInOrder T.cmp direction 1 (length items.now) items.now v.items) }
{
    let words = words_in_order(pool, direction, range, items)?;
    unpacked(pool, &words)
}
