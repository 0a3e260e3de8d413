// Numbers in order, each read from its word.
ghost use Rattle.std.specs.Prelude.{◌≡◌, ◌<◌, ◌≤◌, ℤ, ◌+ℤ◌, FitsSigned, length, IfOk, IfSome};
ghost use Rattle.std.specs.List.{All, flat_map};
ghost use Rattle.std.specs.Int.{w64};
ghost use Rattle.std.specs.Ordering.{int_cmp};
ghost use Rattle.j_definitions.specs.Array.{tally};
ghost use Rattle.j_search.specs.Graded.{run_order, IsSortedOf};
ghost use Rattle.j_search.specs.Packed.{IsDistance};
ghost use Rattle.j_search.specs.Ranged.{LiesIn};
ghost use Rattle.j_search.specs.Sought.{run};

use crate::numbered::Range;
use crate::order::Direction;
use crate::packed::{distance_in, packed_range, words_in_order};
use crate::picking::size_of_items;
use j_noun::{NoMemory, Noun, Pool, View};

// How far a number is behind the low end of a range.
fn behind(direction: Direction, range: Range, far: u64) -> i64
    requires narrow { range.width ≤ 2199023255552 }
    requires near { far < 4398046511104 }
    ensures { (z : ℤ) → IsDistance direction range z far → z ≡ (range.low +ℤ result) }
{
    match direction {
        Direction::Up => far as i64,
        Direction::Down => range.width as i64 - far as i64,
    }
}

// The number at a distance.
fn number_at(direction: Direction, range: Range, far: u64) -> i64
    requires narrow { range.width ≤ 2199023255552 }
    requires near { far < 4398046511104 }
    ensures { (z : ℤ) → FitsSigned w64 z → IsDistance direction range z far → result ≡ z }
{
    let from_low = behind(direction, range, far);
    match range.low.checked_add(from_low) {
        Some(number) => number,
        None => range.low,
    }
}

// Numbers of that range in order.
fn sorted_numbers(
    pool: &mut Pool,
    direction: Direction,
    range: Range,
    items: &[i64],
) -> Result<Vec<i64>, NoMemory>
    requires few { length items.now ≤ 4194304 }
    requires narrow { range.width ≤ 2199023255552 }
    requires there { All (λ x. LiesIn range x) items.now }
    ensures order { IfOk result (λ v. v.items ≡ flat_map (run 1 items.now) (run_order int_cmp direction 1 (length items.now) items.now)) }
    ensures within { IfOk result (λ v. All (λ k. k < length items.now) (run_order int_cmp direction 1 (length items.now) items.now)) }
{
    let words = words_in_order(pool, direction, range, items)?;
    let mut numbers = pool.ints(words.len())?;
    for word in &words {
        let number = number_at(direction, range, distance_in(*word));
        let Ok(()) = numbers.push(number) else {
            return Err(NoMemory);
        };
    }
    Ok(numbers)
}

/// The numbers of a list in the order of y's, where both are one list of numbers and words have room for them.
pub fn sorted_list(
    pool: &mut Pool,
    direction: Direction,
    x: &Noun,
    y: &Noun,
) -> Result<Option<Vec<i64>>, NoMemory>
    requires some { 0 < tally y.now.shape }
    requires same { tally x.now.shape ≡ tally y.now.shape }
    ensures { IfOk result (λ o. IfSome o (λ v. IsSortedOf direction x.now y.now v.items)) }
{
    let View::Wholes(a) = x.view() else {
        return Ok(None);
    };
    let View::Wholes(b) = y.view() else {
        return Ok(None);
    };
    if size_of_items(x) != 1 || size_of_items(y) != 1 || a != b {
        return Ok(None);
    }
    let Some(range) = packed_range(b) else {
        return Ok(None);
    };
    let numbers = sorted_numbers(pool, direction, range, b)?;
    Ok(Some(numbers))
}
