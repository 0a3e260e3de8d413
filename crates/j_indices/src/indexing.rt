// Items and cells at indices.
ghost use Rattle.std.specs.Prelude.{◌≡◌, [], length, map};
ghost use Rattle.j_definitions.specs.Array.{product};
ghost use Rattle.j_noun.specs.Refused.{OrWanting};
ghost use Rattle.j_indices.specs.Selecting.{items_indexed};
ghost use Rattle.j_indices.specs.Indexing.{from, from_numbers, from_list};

use crate::axes::from_box;
use crate::numbers::{Numbers, Whole, numbers_of, places_of};
use crate::selecting::cells_at;
use j_noun::{Atoms, Fault, Noun, Pool, Refusal, Shape, View};

// The items at indices, in a frame.
fn items_indexed<N: Whole>(
    pool: &mut Pool,
    frame: Shape,
    indices: &[N],
    y: &Noun,
) -> Result<Noun, Refusal>
    requires { length indices.now ≡ product frame }
    ensures { OrWanting (items_indexed frame (map N.value indices.now) y.now) result }
{
    let places = places_of(pool, y.tally(), indices)?;
    cells_at(pool, frame, 1, y, &places)
}

// No items, in the shape of a frame and of what item 0 is, or else of the number 0.
fn no_items(pool: &mut Pool, frame: Shape, y: &Noun) -> Result<Noun, Refusal>
    requires { product frame ≡ 0 }
    ensures { OrWanting (from_numbers frame [] y.now) result }
{
    let count = y.tally();
    if count > 0 {
        return cells_at(pool, frame, 1, y, &[]);
    }
    let none = pool.bytes(0)?;
    Noun::make(pool, frame, Atoms::Bits(none))
}

// The items at all indices of a frame.
fn from_numbers<N: Whole>(
    pool: &mut Pool,
    frame: Shape,
    indices: &[N],
    y: &Noun,
) -> Result<Noun, Refusal>
    requires { length indices.now ≡ product frame }
    ensures { OrWanting (from_numbers frame (map N.value indices.now) y.now) result }
{
    if indices.is_empty() {
        return no_items(pool, frame, y);
    }
    items_indexed(pool, frame, indices, y)
}

/// `x { y` of all numbers x at once, which is the assembly of what each of them takes.
pub fn from_list(pool: &mut Pool, x: &Noun, y: &Noun) -> Result<Noun, Refusal>
    ensures { OrWanting (from_list x.now y.now) result }
{
    match numbers_of(x) {
        None => Err(Refusal::Fault(Fault::Domain)),
        Some(Numbers::Wholes(v)) => from_numbers(pool, x.shape(), v, y),
        Some(Numbers::Bits(v)) => from_numbers(pool, x.shape(), v, y),
    }
}

/// `x { y`, where x is an atom.
pub fn from(pool: &mut Pool, x: &Noun, y: &Noun) -> Result<Noun, Refusal>
    requires { x.now.shape ≡ [] }
    ensures { OrWanting (from x.now y.now) result }
{
    match x.view() {
        View::Wholes(v) => items_indexed(pool, Shape::new(), v, y),
        View::Bits(v) => items_indexed(pool, Shape::new(), v, y),
        View::Bytes(_) => Err(Refusal::Fault(Fault::Domain)),
        View::Boxes(v) => from_box(pool, &v[0], y),
    }
}
