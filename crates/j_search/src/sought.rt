// The places of cells among items, where both are gone through in order.
ghost use Rattle.std.specs.Prelude.{◌≡◌, ◌<◌, ◌≤◌, ◌*◌, ℕ, true, length, IfOk};
ghost use Rattle.std.specs.Cmp.Lexicographic.{pointwise};
ghost use Rattle.j_search.specs.declared.seeking.Side.TheVariants.{First, Last};
ghost use Rattle.j_search.specs.Graded.{IsAscending};
ghost use Rattle.j_search.specs.Searched.{comes_before, run_before, IsBoundary};
ghost use Rattle.j_search.specs.Sought.{run, place_of, run_places};

use crate::numbered::Numbered;
use crate::order::{Direction, in_order};
use crate::seeking::{Side, Sizes};
use j_noun::{NoMemory, Pool};
use j_rank::{filled, part};
use std::cmp::Ordering;

/// Whether a run of that order comes before the wanted one.
pub fn comes_before(side: Side, order: Ordering) -> bool
    ensures { result ≡ comes_before side order }
{
    match side {
        Side::First => order.is_lt(),
        Side::Last => order.is_le(),
    }
}

// How many runs come before the wanted one, of which so many are known.
fn boundary<T: Ord>(
    side: Side,
    items: &[T],
    size: usize,
    order: &[usize],
    cell: &[T],
    known: usize,
) -> usize
    requires many { length items.now ≡ length order.now * size }
    requires order { IsAscending T.cmp size (length order.now) items.now order.now }
    requires known { known ≤ length order.now }
    requires front { (s : ℕ) → s < known → run_before side T.cmp size items.now cell.now order.now s ≡ true }
    ensures { IsBoundary side T.cmp size items.now cell.now order.now result }
{
    for at in known..order.len() {
        let found = part(items, order[at], size).cmp(&cell);
        if !comes_before(side, found) {
            return at;
        }
    }
    order.len()
}

// The first item that matches a cell, or the number of items, where so many are less.
fn first_in_order<T: Ord>(
    items: &[T],
    size: usize,
    order: &[usize],
    cell: &[T],
    less: usize,
) -> usize
    requires many { length items.now ≡ length order.now * size }
    requires order { IsAscending T.cmp size (length order.now) items.now order.now }
    requires less { IsBoundary First T.cmp size items.now cell.now order.now less }
    ensures value { result ≡ place_of First (λ j. pointwise T.eq (run size items.now j) cell.now) (length order.now) }
    ensures within { result ≤ length order.now }
{
    if less == order.len() {
        return less;
    }
    let place = order[less];
    if part(items, place, size) == cell {
        return place;
    }
    order.len()
}

// The last item that matches a cell, or the number of items, where so many aren't greater.
fn last_in_order<T: Ord>(
    items: &[T],
    size: usize,
    order: &[usize],
    cell: &[T],
    up_to: usize,
) -> usize
    requires many { length items.now ≡ length order.now * size }
    requires order { IsAscending T.cmp size (length order.now) items.now order.now }
    requires up_to { IsBoundary Last T.cmp size items.now cell.now order.now up_to }
    ensures value { result ≡ place_of Last (λ j. pointwise T.eq (run size items.now j) cell.now) (length order.now) }
    ensures within { result ≤ length order.now }
{
    if up_to == 0 {
        return order.len();
    }
    let place = order[up_to - 1];
    if part(items, place, size) == cell {
        return place;
    }
    order.len()
}

// The place of a cell among the items, where so many come before the wanted one.
fn place_in_order<T: Ord>(
    side: Side,
    items: &[T],
    size: usize,
    order: &[usize],
    cell: &[T],
    before: usize,
) -> usize
    requires many { length items.now ≡ length order.now * size }
    requires order { IsAscending T.cmp size (length order.now) items.now order.now }
    requires before { IsBoundary side T.cmp size items.now cell.now order.now before }
    ensures value { result ≡ place_of side (λ j. pointwise T.eq (run size items.now j) cell.now) (length order.now) }
    ensures within { result ≤ length order.now }
{
    match side {
        Side::First => first_in_order(items, size, order, cell, before),
        Side::Last => last_in_order(items, size, order, cell, before),
    }
}

// Enters the place of each cell, where places of both are given in order.
fn enter_in_order<T: Ord>(
    places: &mut Vec<i64>,
    side: Side,
    size: usize,
    items: &[T],
    order: &[usize],
    cells: &[T],
    turns: &[usize],
)
    requires items { length items.now ≡ length order.now * size }
    requires cells { length cells.now ≡ length turns.now * size }
    requires order { IsAscending T.cmp size (length order.now) items.now order.now }
    requires turns { IsAscending T.cmp size (length turns.now) cells.now turns.now }
    requires few { length order.now ≤ 4194304 }
    requires wide { length places.old.items ≡ length turns.now }
    ensures { places.new.items ≡ run_places T.eq side size (length order.now) (length turns.now) items.now cells.now }
{
    let mut before = 0;
    for k in turns {
        let cell = part(cells, *k, size);
        before = boundary(side, items, size, order, cell, before);
        places[*k] = place_in_order(side, items, size, order, cell, before) as i64;
    }
}

/// The place of each cell among the items, by going through both in order.
pub fn find_each_in_order<T: Numbered>(
    pool: &mut Pool,
    side: Side,
    sizes: Sizes,
    items: &[T],
    cells: &[T],
) -> Result<Vec<i64>, NoMemory>
    requires items { length items.now ≡ sizes.items * sizes.size }
    requires cells { length cells.now ≡ sizes.cells * sizes.size }
    requires few { sizes.items ≤ 4194304 }
    ensures { IfOk result (λ v. v.items ≡ run_places T.eq side sizes.size sizes.items sizes.cells items.now cells.now) }
{
    let order = in_order(pool, Direction::Up, items, sizes.items, sizes.size)?;
    let turns = in_order(pool, Direction::Up, cells, sizes.cells, sizes.size)?;
    let mut places = filled(pool, &0, sizes.cells)?;
    enter_in_order(&mut places, side, sizes.size, items, &order, cells, &turns);
    Ok(places)
}
