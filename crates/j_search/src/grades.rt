// Grades, and items in the order of others.
ghost use Rattle.std.specs.Prelude.{◌≡◌, ◌<◌, ◌≤◌, false, pos, map, IfOk};
ghost use Rattle.std.specs.List.{All};
ghost use Rattle.j_definitions.specs.Array.{tally};
ghost use Rattle.j_noun.specs.Refused.{OrWanting};
ghost use Rattle.j_search.specs.declared.order.Direction.TheVariants.{Up as UpWay, Down as DownWay};
ghost use Rattle.j_search.specs.Order.{has_boxes, ordered, grade, sort};

use crate::frames::item_axes;
use crate::order::{Direction, graded};
use crate::picking::{items_at, shape_behind, size_of_items};
use crate::sorting::sorted_list;
use j_noun::{Atoms, Fault, NoMemory, Noun, Pool, Refusal, View};
use j_rank::{empty_list, shape_of};

// Whether there are boxes, which have no order.
fn has_boxes(y: &Noun) -> bool
    ensures { result ≡ has_boxes y.now }
{
    match y.view() {
        View::Boxes(v) => !v.is_empty(),
        View::Wholes(_) => false,
        View::Bits(_) => false,
        View::Bytes(_) => false,
    }
}

// The places of the items in order, equal ones in theirs.
fn order_of(pool: &mut Pool, direction: Direction, y: &Noun) -> Result<Vec<usize>, NoMemory>
    requires { has_boxes y.now ≡ false }
    ensures order { IfOk result (λ v. v.items ≡ ordered direction y.now) }
    ensures within { IfOk result (λ v. All (λ k. k < tally y.now.shape) v.items) }
    ensures few { tally y.now.shape ≤ 4194304 }
{
    let atoms = y.view();
    let count = y.tally();
    let size = size_of_items(y);
    match atoms {
        View::Wholes(v) => graded(pool, direction, v, count, size),
        View::Bits(v) => graded(pool, direction, v, count, size),
        View::Bytes(v) => graded(pool, direction, v, count, size),
        View::Boxes(_) => {
            let none: &[u8] = &[];
            graded(pool, direction, none, count, size)
        }
    }
}

// Places as numbers.
fn as_numbers(pool: &mut Pool, places: &[usize], count: usize) -> Result<Vec<i64>, NoMemory>
    requires within { All (λ k. k < count) places.now }
    requires few { count ≤ 4194304 }
    ensures { IfOk result (λ v. v.items ≡ map pos places.now) }
{
    let mut numbers = pool.ints(places.len())?;
    for place in places {
        let Ok(()) = numbers.push(*place as i64) else {
            return Err(NoMemory);
        };
    }
    Ok(numbers)
}

// The places of the items in order, as a noun.
fn grade(pool: &mut Pool, direction: Direction, y: &Noun) -> Result<Noun, Refusal>
    ensures { OrWanting (grade direction y.now) result }
{
    if has_boxes(y) {
        return Err(Refusal::Fault(Fault::Nonce));
    }
    let places = order_of(pool, direction, y)?;
    let count = y.tally();
    let numbers = as_numbers(pool, &places, count)?;
    Noun::make(pool, shape_of(&[count]), Atoms::Wholes(numbers))
}

/// `/: y`.
pub fn grade_up(pool: &mut Pool, y: &Noun) -> Result<Noun, Refusal>
    ensures { OrWanting (grade UpWay y.now) result }
{
    grade(pool, Direction::Up, y)
}

/// `\: y`.
pub fn grade_down(pool: &mut Pool, y: &Noun) -> Result<Noun, Refusal>
    ensures { OrWanting (grade DownWay y.now) result }
{
    grade(pool, Direction::Down, y)
}

// The items of x in the order of the items of y.
fn sort(pool: &mut Pool, direction: Direction, x: &Noun, y: &Noun) -> Result<Noun, Refusal>
    ensures { OrWanting (sort direction x.now y.now) result }
{
    if has_boxes(y) {
        return Err(Refusal::Fault(Fault::Nonce));
    }
    let x_count = x.tally();
    let y_count = y.tally();
    if x_count < y_count {
        return Err(Refusal::Fault(Fault::Index));
    }
    if x_count == 0 {
        return Ok(empty_list(pool)?);
    }
    if x_count == y_count {
        if let Some(numbers) = sorted_list(pool, direction, x, y)? {
            let shape = shape_behind(x_count, item_axes(x));
            return Noun::make(pool, shape, Atoms::Wholes(numbers));
        }
    }
    let places = order_of(pool, direction, y)?;
    items_at(pool, x, &places)
}

/// `x /: y`.
pub fn sort_up(pool: &mut Pool, x: &Noun, y: &Noun) -> Result<Noun, Refusal>
    ensures { OrWanting (sort UpWay x.now y.now) result }
{
    sort(pool, Direction::Up, x, y)
}

/// `x \: y`.
pub fn sort_down(pool: &mut Pool, x: &Noun, y: &Noun) -> Result<Noun, Refusal>
    ensures { OrWanting (sort DownWay x.now y.now) result }
{
    sort(pool, Direction::Down, x, y)
}
