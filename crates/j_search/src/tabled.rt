// The places of numbers that lie in a small range, by a table of all of its numbers.
ghost use Rattle.std.specs.Prelude.{◌≡◌, ◌<◌, ◌≤◌, ◌*◌, ◌^◌, ℕ, ℤ, pos, ◌+ℤ◌, ◌<ℤ◌, cond, length, map, slice_index_or, IfOk, IfSome, MatchOption};
ghost use Rattle.std.specs.List.{All};
ghost use Rattle.std.specs.Ordering.{int_eq};
ghost use Rattle.j_search.specs.declared.seeking.Side.TheVariants.{First, Last};
ghost use Rattle.j_search.specs.Sought.{run_places};
ghost use Rattle.j_search.specs.Ranged.{LiesIn};
ghost use Rattle.j_search.specs.Tabled.{IsTable};

use crate::numbered::{Numbered, Range, range_of};
use crate::seeking::Side;
use j_noun::{NoMemory, Pool};
use j_rank::filled;

/// The range of the items, where it isn't much larger than their count.
pub fn narrow_range<T: Numbered>(items: &[T]) -> Option<Range>
    requires { length items.now ≤ 4194304 }
    ensures { IfSome result (λ r. All (λ x. LiesIn r (T.number x)) items.now × (r.width < 2 ^ 63)) }
{
    range_of(items, 4 * items.len() + 256)
}

// Where a number stands in a range.
fn spot(range: Range, number: i64) -> Option<usize>
    requires { range.width < 2 ^ 63 }
    ensures { MatchOption result ((w : ℕ) → w < range.width → number ≡ (range.low +ℤ pos w) → ⊥) (λ w. (w < range.width) × (number ≡ (range.low +ℤ pos w))) }
{
    let behind = number.checked_sub(range.low)?;
    if 0 <= behind && behind < range.width as i64 {
        Some(behind as usize)
    } else {
        None
    }
}

// Enters the place of a number.
fn enter(table: &mut Vec<i64>, range: Range, number: i64, place: usize)
    requires narrow { range.width < 2 ^ 63 }
    requires wide { length table.old.items ≡ range.width }
    requires few { place ≤ 4194304 }
    ensures wide { length table.new.items ≡ range.width }
    ensures there { (w : ℕ) → w < range.width → slice_index_or table.new.items w (pos 0) ≡ cond (int_eq number (range.low +ℤ pos w)) (pos place) (slice_index_or table.old.items w (pos 0)) }
{
    let Some(w) = spot(range, number) else {
        return;
    };
    table[w] = place as i64;
}

// The table of first places.
fn first_table<T: Numbered>(
    pool: &mut Pool,
    items: &[T],
    range: Range,
) -> Result<Vec<i64>, NoMemory>
    requires few { length items.now ≤ 4194304 }
    requires narrow { range.width < 2 ^ 63 }
    ensures { IfOk result (λ v. IsTable First range (map T.number items.now) v.items) }
{
    let count = items.len();
    let none = count as i64;
    let mut table = filled(pool, &none, range.width)?;
    for behind in 0..count {
        let j = count - 1 - behind;
        enter(&mut table, range, items[j].number(), j);
    }
    Ok(table)
}

// The table of last places.
fn last_table<T: Numbered>(pool: &mut Pool, items: &[T], range: Range) -> Result<Vec<i64>, NoMemory>
    requires few { length items.now ≤ 4194304 }
    requires narrow { range.width < 2 ^ 63 }
    ensures { IfOk result (λ v. IsTable Last range (map T.number items.now) v.items) }
{
    let none = items.len() as i64;
    let mut table = filled(pool, &none, range.width)?;
    for j in 0..items.len() {
        enter(&mut table, range, items[j].number(), j);
    }
    Ok(table)
}

// The table of places.
fn table_of<T: Numbered>(
    pool: &mut Pool,
    side: Side,
    items: &[T],
    range: Range,
) -> Result<Vec<i64>, NoMemory>
    requires few { length items.now ≤ 4194304 }
    requires narrow { range.width < 2 ^ 63 }
    ensures { IfOk result (λ v. IsTable side range (map T.number items.now) v.items) }
{
    match side {
        Side::First => first_table(pool, items, range),
        Side::Last => last_table(pool, items, range),
    }
}

// What a table has at a number, or what stands for all numbers beyond it.
fn place_in_table(table: &[i64], range: Range, number: i64, beyond: i64) -> i64
    requires narrow { range.width < 2 ^ 63 }
    requires wide { length table.now ≡ range.width }
    ensures there { (w : ℕ) → w < range.width → number ≡ (range.low +ℤ pos w) → result ≡ slice_index_or table.now w (pos 0) }
    ensures beyond { ((w : ℕ) → w < range.width → number ≡ (range.low +ℤ pos w) → ⊥) → result ≡ beyond }
{
    match spot(range, number) {
        Some(w) => table[w],
        None => beyond,
    }
}

/// The place of each cell among the items, which are atoms of that range.
pub fn find_each_by_table<T: Numbered>(
    pool: &mut Pool,
    side: Side,
    range: Range,
    items: &[T],
    cells: &[T],
) -> Result<Vec<i64>, NoMemory>
    requires few { length items.now ≤ 4194304 }
    requires narrow { range.width < 2 ^ 63 }
    requires range { All (λ x. LiesIn range (T.number x)) items.now }
    ensures { IfOk result (λ v. v.items ≡ run_places T.same side 1 (length items.now) (length cells.now) items.now cells.now) }
{
    let table = table_of(pool, side, items, range)?;
    let none = items.len() as i64;
    let mut places = pool.ints(cells.len())?;
    for cell in cells {
        let place = place_in_table(&table, range, cell.number(), none);
        let Ok(()) = places.push(place) else {
            return Err(NoMemory);
        };
    }
    Ok(places)
}
