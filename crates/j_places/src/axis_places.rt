// Take, drop and rotate.
ghost use Rattle.std.specs.Prelude.{◌≡◌, ◌≤◌, ◌<◌, [], length, map, take, replicate, IfOk, MatchOption, pos};
ghost use Rattle.std.specs.List.{All};
ghost use Rattle.j_definitions.specs.Array.{product, fill_atom, IsNoun};
ghost use Rattle.j_definitions.specs.Limits.{limited};
ghost use Rattle.j_noun.specs.Held.{AreAtoms};
ghost use Rattle.j_noun.specs.Refused.{OrWanting, OrWantingAs};
ghost use Rattle.j_places.specs.AxisPlaces.{numbers, axes_for, axes_or_ones, kept_axes, kept_shape, kept_atoms, keep, kept_by, take_axes, drop_axes, rotate_axes};
ghost use Rattle.j_places.specs.Axes.{places_of, IsAxis, none_of};

use crate::axis::{Axis, Keeping, kept_axis};
use crate::keeping::kept_of;
use j_noun::{Atoms, Fault, NoMemory, Noun, Pool, Refusal, Shape, View};
use j_rank::{copied, extended, fills, shape_of, size_within, with_rank};

// Bits as numbers.
fn widened(pool: &mut Pool, bits: &[u8]) -> Result<Vec<i64>, NoMemory>
    ensures { IfOk result (λ v. v.items ≡ map (λ b. pos b) bits.now) }
{
    let mut numbers = pool.ints(bits.len())?;
    for b in bits {
        let Ok(()) = numbers.push(i64::from(*b)) else {
            return Err(NoMemory);
        };
    }
    Ok(numbers)
}

// No numbers, or `domain error` where there are atoms.
fn no_numbers(pool: &mut Pool, count: usize) -> Result<Vec<i64>, Refusal>
    ensures { OrWantingAs (λ v. v.items) (none_of count) result }
{
    if count > 0 {
        return Err(Refusal::Fault(Fault::Domain));
    }
    Ok(pool.ints(0)?)
}

// The numbers of a list, or `domain error` where an atom isn't a number.
fn numbers_of(pool: &mut Pool, x: &Noun) -> Result<Vec<i64>, Refusal>
    ensures { OrWantingAs (λ v. v.items) (numbers x.now) result }
{
    match x.view() {
        View::Wholes(v) => Ok(copied(pool, v)?),
        View::Bits(v) => Ok(widened(pool, v)?),
        View::Bytes(v) => no_numbers(pool, v.len()),
        View::Boxes(v) => no_numbers(pool, v.len()),
    }
}

// So many axes of 1, or none where they are too many.
fn ones(count: usize) -> Option<Shape>
    ensures { MatchOption result (32 < count) (λ s. s ≡ replicate count 1) }
{
    if count > 32 {
        return None;
    }
    Some(with_rank(count, &[]))
}

// The axes of a noun that isn't an atom, else axes of 1.
fn own_or_ones(count: usize, y: &Noun) -> Option<Shape>
    ensures { MatchOption result ((32 < count) × (y.now.shape ≡ [])) (λ s. s ≡ axes_or_ones count y.now.shape) }
{
    if y.axes().is_empty() {
        return ones(count);
    }
    Some(y.shape())
}

// The axes that a verb speaks of, or none where they are too many.
fn shape_for(way: Keeping, count: usize, y: &Noun) -> Option<Shape>
    ensures { MatchOption result ((32 < count) × (axes_for way count y.now.shape ≡ replicate count 1)) (λ s. s ≡ axes_for way count y.now.shape) }
{
    match way {
        Keeping::Taken => own_or_ones(count, y),
        Keeping::Dropped => own_or_ones(count, y),
        Keeping::Rotated => Some(y.shape()),
    }
}

// What is kept of each axis that has a number.
fn axes_of(
    pool: &mut Pool,
    way: Keeping,
    numbers: &[i64],
    lengths: &[usize],
) -> Result<Vec<Axis>, NoMemory>
    requires { All (λ n. n ≤ 4194304) lengths.now }
    ensures places { IfOk result (λ v. map places_of v.items ≡ kept_axes way numbers.now lengths.now) }
    ensures extents { IfOk result (λ v. map (λ a. a.extent) v.items ≡ take (length v.items) lengths.now) }
    ensures few { IfOk result (λ v. length v.items ≤ length lengths.now) }
    ensures are { IfOk result (λ v. All IsAxis v.items) }
{
    let count = numbers.len() - numbers.len().saturating_sub(lengths.len());
    let mut axes = pool.fresh(count)?;
    for i in 0..count {
        let Ok(()) = axes.push(kept_axis(way, numbers[i], lengths[i])) else {
            return Err(NoMemory);
        };
    }
    Ok(axes)
}

// The shape of what is kept.
fn kept_lengths(axes: &[Axis], lengths: &[usize]) -> Shape
    requires are { All IsAxis axes.now }
    requires few { length axes.now ≤ length lengths.now }
    requires rank { length lengths.now ≤ 32 }
    ensures { result ≡ kept_shape (map places_of axes.now) lengths.now }
{
    let mut shape = Shape::new();
    for axis in axes {
        let Ok(()) = shape.add(axis.places()) else {
            unreachable!();
        };
    }
    match extended(shape, &lengths[axes.len()..]) {
        Ok(shape) => shape,
        Err(_) => unreachable!(),
    }
}

// The atoms that are kept, `size` in all.
fn atoms_kept(
    pool: &mut Pool,
    axes: &[Axis],
    lengths: &[usize],
    size: usize,
    y: &Noun,
) -> Result<Atoms, NoMemory>
    requires are { All IsAxis axes.now }
    requires few { length axes.now ≤ length lengths.now }
    requires extents { map (λ a. a.extent) axes.now ≡ take (length axes.now) lengths.now }
    requires many { length y.now.atoms ≡ product lengths.now }
    requires size { size ≡ product (kept_shape (map places_of axes.now) lengths.now) }
    requires limit { size ≤ 4194304 }
    ensures { IfOk result (λ a. AreAtoms a y.now.kind (kept_atoms (fill_atom y.now.kind) (map places_of axes.now) lengths.now y.now.atoms)) }
{
    let atoms = y.view();
    let Some(count) = size_within(lengths) else {
        return Err(NoMemory);
    };
    if size == 0 || count == 0 {
        return fills(pool, y.kind(), size);
    }
    let Some(unit) = size_within(&lengths[axes.len()..]) else {
        return Err(NoMemory);
    };
    kept_of(pool, atoms, axes, unit, size)
}

// What is kept of a noun of that shape.
fn keep(pool: &mut Pool, axes: &[Axis], lengths: &[usize], y: &Noun) -> Result<Noun, Refusal>
    requires are { All IsAxis axes.now }
    requires few { length axes.now ≤ length lengths.now }
    requires rank { length lengths.now ≤ 32 }
    requires extents { map (λ a. a.extent) axes.now ≡ take (length axes.now) lengths.now }
    requires many { length y.now.atoms ≡ product lengths.now }
    ensures { OrWanting (limited (keep (map places_of axes.now) lengths.now y.now)) result }
{
    let shape = kept_lengths(axes, lengths);
    let Some(size) = size_within(shape.axes()) else {
        return Err(Refusal::Fault(Fault::Limit));
    };
    let atoms = atoms_kept(pool, axes, lengths, size, y)?;
    Noun::make(pool, shape, atoms)
}

// What a verb keeps, by a list of numbers.
fn keep_by(pool: &mut Pool, way: Keeping, x: &Noun, y: &Noun) -> Result<Noun, Refusal>
    ensures { OrWanting (kept_by way (numbers x.now) y.now) result }
{
    let _ = y.view();
    let numbers = numbers_of(pool, x)?;
    let Some(shape) = shape_for(way, numbers.len(), y) else {
        return Err(Refusal::Fault(Fault::Limit));
    };
    let lengths = shape.axes();
    if numbers.len() > 1 && numbers.len() > lengths.len() {
        return Err(Refusal::Fault(Fault::Length));
    }
    let axes = axes_of(pool, way, &numbers, lengths)?;
    keep(pool, &axes, lengths, y)
}

/// Along each axis the first items, or the last ones where the number is negative, with fills where there are fewer.
pub fn take(pool: &mut Pool, x: &Noun, y: &Noun) -> Result<Noun, Refusal>
    requires { length x.now.shape ≤ 1 }
    ensures { OrWanting (take_axes x.now y.now) result }
{
    keep_by(pool, Keeping::Taken, x, y)
}

/// Along each axis all items but the first, or but the last ones where the number is negative.
pub fn drop_items(pool: &mut Pool, x: &Noun, y: &Noun) -> Result<Noun, Refusal>
    requires { length x.now.shape ≤ 1 }
    ensures { OrWanting (drop_axes x.now y.now) result }
{
    keep_by(pool, Keeping::Dropped, x, y)
}

/// Along each axis the items moved left, round the end.
pub fn rotate(pool: &mut Pool, x: &Noun, y: &Noun) -> Result<Noun, Refusal>
    requires { length x.now.shape ≤ 1 }
    ensures { OrWanting (rotate_axes x.now y.now) result }
{
    keep_by(pool, Keeping::Rotated, x, y)
}
