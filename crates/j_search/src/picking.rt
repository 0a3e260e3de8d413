// The items at some places.
ghost use Rattle.std.specs.Prelude.{◌≡◌, ◌<◌, ◌≤◌, ◌+◌, ◌*◌, ◌∷◌, length, IfOk};
ghost use Rattle.std.specs.List.{All, flat_map};
ghost use Rattle.j_definitions.specs.Array.{tally};
ghost use Rattle.j_definitions.specs.Items.{part, item_size};
ghost use Rattle.j_definitions.specs.Limits.{limited};
ghost use Rattle.j_noun.specs.Held.{AreAtoms};
ghost use Rattle.j_noun.specs.Refused.{OrWanting};
ghost use Rattle.j_noun.specs.Viewed.{viewed, kind_viewed, ShowsBits};
ghost use Rattle.j_search.specs.Matching.{items_at};
ghost use Rattle.j_search.specs.Sought.{run};

use crate::frames::{atom_count, item_axes};
use j_noun::{Atoms, NoMemory, Noun, Pool, Refusal, Shape, View};
use j_rank::{Stored, extended, part};

// The runs at some places.
fn picked<T: Stored>(
    pool: &mut Pool,
    all: &[T],
    size: usize,
    places: &[usize],
) -> Result<Vec<T>, NoMemory>
    requires { All (λ k. (k + 1) * size ≤ length all.now) places.now }
    ensures { IfOk result (λ v. v.items ≡ flat_map (run size all.now) places.now) }
{
    let mut out = T::buffer(pool, places.len().saturating_mul(size))?;
    for k in places {
        T::append(&mut out, part(all, *k, size))?;
    }
    Ok(out)
}

// The atoms at some places.
fn pick_atoms(
    pool: &mut Pool,
    y: View<'_>,
    size: usize,
    places: &[usize],
) -> Result<Atoms, NoMemory>
    requires bits { ShowsBits y }
    requires within { All (λ k. (k + 1) * size ≤ length (viewed y)) places.now }
    ensures { IfOk result (λ a. AreAtoms a (kind_viewed y.entry) (flat_map (part size (viewed y.entry)) places.now)) }
{
    match y {
        View::Wholes(v) => Ok(Atoms::Wholes(picked(pool, v, size, places)?)),
        View::Bits(v) => Ok(Atoms::Bits(picked(pool, v, size, places)?)),
        View::Bytes(v) => Ok(Atoms::Bytes(picked(pool, v, size, places)?)),
        View::Boxes(v) => Ok(Atoms::Boxes(picked(pool, v, size, places)?)),
    }
}

/// How many atoms an item has, or 0 where there are no items.
pub fn size_of_items(y: &Noun) -> usize
    ensures { 0 < tally y.now.shape → result ≡ item_size y.now.shape }
{
    let count = y.tally();
    if count == 0 {
        return 0;
    }
    atom_count(y.view()) / count
}

/// A shape with an axis in front.
pub fn shape_behind(count: usize, axes: &[usize]) -> Shape
    requires { length axes.now ≤ 31 }
    ensures { result ≡ count ∷ axes.now }
{
    let mut shape = Shape::new();
    match shape.add(count) {
        Ok(()) => {}
        Err(_) => unreachable!(),
    }
    match extended(shape, axes) {
        Ok(shape) => shape,
        Err(_) => unreachable!(),
    }
}

/// The items of y at these places.
pub fn items_at(pool: &mut Pool, y: &Noun, places: &[usize]) -> Result<Noun, Refusal>
    requires { All (λ k. k < tally y.now.shape) places.now }
    ensures { OrWanting (limited (items_at y.now places.now)) result }
{
    let all = y.view();
    let size = size_of_items(y);
    let atoms = pick_atoms(pool, all, size, places)?;
    Noun::make(pool, shape_behind(places.len(), item_axes(y)), atoms)
}
