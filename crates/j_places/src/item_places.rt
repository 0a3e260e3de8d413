// The shape, the atoms and the items of a noun, and verbs that keep items in other places.
ghost use Rattle.std.specs.Prelude.{◌≡◌, ◌<◌, ◌≤◌, ◌+◌, ◌*◌, ◌++◌, [], ◌∷◌, length, map, take, drop, reverse, pos, nat_eq, cond, replicate, Ok as OkValue, IfOk, IfErr, OnOk};
ghost use Rattle.std.specs.List.{flat_map, range_with_len};
ghost use Rattle.j_definitions.specs.Array.{product, tally, IsNoun};
ghost use Rattle.j_definitions.specs.Items.{item_size, part};
ghost use Rattle.j_definitions.specs.Limits.{limited};
ghost use Rattle.j_noun.specs.Held.{AreAtoms};
ghost use Rattle.j_noun.specs.Refused.{OrWanting};
ghost use Rattle.j_noun.specs.Viewed.{viewed, kind_viewed, ShowsBits};
ghost use Rattle.j_places.specs.ItemPlaces.{shape_of, tally_of, ravel, ravel_items, itemize, reversed, beheaded, curtailed, head, tail, reshaped, items_at, parts_at, item_or_fills};

use j_noun::{Atoms, Fault, NoMemory, Noun, Pool, Refusal, Shape, View};
use j_rank::{
    Stored, atoms_of_part, copied, extended, fills, part, shape_of as shape_of_axes, size_within,
};

// A run of elements.
pub(crate) fn run_of<T>(all: &[T], start: usize, count: usize) -> &[T]
    requires { start + count ≤ length all.now }
    ensures { result.now ≡ take count (drop start all.now) }
{
    &all[start..start + count]
}

/// A run of atoms.
pub(crate) fn atoms_of_run(
    pool: &mut Pool,
    y: View<'_>,
    start: usize,
    count: usize,
) -> Result<Atoms, NoMemory>
    requires bits { ShowsBits y }
    requires within { start + count ≤ length (viewed y) }
    ensures { IfOk result (λ a. AreAtoms a (kind_viewed y.entry) (take count (drop start (viewed y.entry)))) }
{
    match y {
        View::Wholes(v) => Ok(Atoms::Wholes(copied(pool, run_of(v, start, count))?)),
        View::Bits(v) => Ok(Atoms::Bits(copied(pool, run_of(v, start, count))?)),
        View::Bytes(v) => Ok(Atoms::Bytes(copied(pool, run_of(v, start, count))?)),
        View::Boxes(v) => Ok(Atoms::Boxes(copied(pool, run_of(v, start, count))?)),
    }
}

// The axes of an item.
fn item_axes(y: &Noun) -> &[usize]
    ensures value { result.now ≡ drop 1 y.now.shape }
    ensures few { length result.now ≤ 31 }
{
    match y.axes() {
        [] => &[],
        [_, own @ ..] => own,
    }
}

// The atoms in another shape, which has as many.
fn reshaped(pool: &mut Pool, y: &Noun, shape: Shape) -> Result<Noun, Refusal>
    requires { product shape ≡ length y.now.atoms }
    ensures { OrWanting (limited (reshaped shape y.now)) result }
{
    let atoms = y.view();
    let Some(size) = size_within(y.axes()) else {
        unreachable!();
    };
    let copy = atoms_of_run(pool, atoms, 0, size)?;
    Noun::make(pool, shape, copy)
}

/// The shape, a list.
pub fn shape_of(pool: &mut Pool, y: &Noun) -> Result<Noun, Refusal>
    ensures { OrWanting (shape_of y.now) result }
{
    let _ = y.view();
    let axes = y.axes();
    let mut lengths = pool.ints(axes.len())?;
    for n in axes {
        let Ok(()) = lengths.push(*n as i64) else {
            return Err(Refusal::NoMemory);
        };
    }
    Noun::make(pool, shape_of_axes(&[axes.len()]), Atoms::Wholes(lengths))
}

/// The number of items.
pub fn tally_of(_pool: &mut Pool, y: &Noun) -> Result<Noun, Refusal>
    ensures { OrWanting (tally_of y.now) result }
{
    let _ = y.view();
    Ok(Noun::number(y.tally() as i64))
}

/// The list of atoms.
pub fn ravel(pool: &mut Pool, y: &Noun) -> Result<Noun, Refusal>
    ensures { OrWanting (ravel y.now) result }
{
    let _ = y.view();
    let Some(size) = size_within(y.axes()) else {
        unreachable!();
    };
    reshaped(pool, y, shape_of_axes(&[size]))
}

/// Each item as a list, in a table.
pub fn ravel_items(pool: &mut Pool, y: &Noun) -> Result<Noun, Refusal>
    ensures { OrWanting (ravel_items y.now) result }
{
    let _ = y.view();
    let Some(size) = size_within(item_axes(y)) else {
        return Err(Refusal::Fault(Fault::Limit));
    };
    reshaped(pool, y, shape_of_axes(&[y.tally(), size]))
}

/// A leading axis of 1.
pub fn itemize(pool: &mut Pool, y: &Noun) -> Result<Noun, Refusal>
    ensures { OrWanting (itemize y.now) result }
{
    let _ = y.view();
    let shape = extended(shape_of_axes(&[1]), y.axes())?;
    reshaped(pool, y, shape)
}

// A leading axis before others.
pub(crate) fn leading(n: usize, own: &[usize]) -> Shape
    requires { length own.now ≤ 31 }
    ensures { result ≡ n ∷ own.now }
{
    match extended(shape_of_axes(&[n]), own) {
        Ok(shape) => shape,
        Err(_) => unreachable!(),
    }
}

// How many atoms an item has, where there are items.
fn atoms_an_item(y: &Noun) -> usize
    ensures value { 0 < tally y.now.shape → result ≡ item_size y.now.shape }
    ensures all { tally y.now.shape * result ≡ length y.now.atoms }
    ensures few { length y.now.atoms ≤ 4194304 }
    ensures noun { IsNoun y.now }
{
    let _ = y.view();
    match size_within(item_axes(y)) {
        Some(size) => size,
        None => 0,
    }
}

// So many items, from one on.
fn items_from(pool: &mut Pool, y: &Noun, first: usize, count: usize) -> Result<Noun, Refusal>
    requires { first + count ≤ tally y.now.shape }
    ensures { OrWanting (limited (items_at (range_with_len first count) y.now)) result }
{
    let size = atoms_an_item(y);
    let copy = atoms_of_run(pool, y.view(), first * size, count * size)?;
    Noun::make(pool, leading(count, item_axes(y)), copy)
}

/// All items but the first.
pub fn behead(pool: &mut Pool, y: &Noun) -> Result<Noun, Refusal>
    ensures { OrWanting (beheaded y.now) result }
{
    let count = y.tally();
    let left = count.saturating_sub(1);
    items_from(pool, y, count - left, left)
}

/// All items but the last.
pub fn curtail(pool: &mut Pool, y: &Noun) -> Result<Noun, Refusal>
    ensures { OrWanting (curtailed y.now) result }
{
    items_from(pool, y, 0, y.tally().saturating_sub(1))
}

// The atoms of an item, or of an item of fills where there are no items.
fn item_atoms(pool: &mut Pool, y: &Noun, k: usize, size: usize) -> Result<Atoms, NoMemory>
    requires size { size ≡ item_size y.now.shape }
    requires place { 0 < tally y.now.shape → k < tally y.now.shape }
    ensures { IfOk result (λ a. AreAtoms a y.now.kind (item_or_fills k y.now).atoms) }
{
    if y.tally() == 0 {
        return fills(pool, y.kind(), size);
    }
    atoms_of_part(pool, y.view(), k, size)
}

// An item, or an item of fills where there are no items.
fn item_at(pool: &mut Pool, y: &Noun, k: usize) -> Result<Noun, Refusal>
    requires { 0 < tally y.now.shape → k < tally y.now.shape }
    ensures { OrWanting (limited (item_or_fills k y.now)) result }
{
    let _ = y.view();
    let own = item_axes(y);
    let Some(size) = size_within(own) else {
        return Err(Refusal::Fault(Fault::Limit));
    };
    let atoms = item_atoms(pool, y, k, size)?;
    Noun::make(pool, shape_of_axes(own), atoms)
}

/// The first item, or an item of fills.
pub fn head(pool: &mut Pool, y: &Noun) -> Result<Noun, Refusal>
    ensures { OrWanting (head y.now) result }
{
    item_at(pool, y, 0)
}

/// The last item, or an item of fills.
pub fn tail(pool: &mut Pool, y: &Noun) -> Result<Noun, Refusal>
    ensures { OrWanting (tail y.now) result }
{
    item_at(pool, y, y.tally().saturating_sub(1))
}

// Appends parts of one size in reverse.
fn append_reversed<T: Stored>(
    out: &mut Vec<T>,
    all: &[T],
    count: usize,
    size: usize,
) -> Result<(), NoMemory>
    requires { count * size ≤ length all.now }
    ensures { OnOk result (out.new.items ≡ out.old.items ++ parts_at size all.now (reverse (range_with_len 0 count))) }
{
    for k in 0..count {
        T::append(out, part(all, count - 1 - k, size))?;
    }
    Ok(())
}

// Appends the elements in reverse.
fn append_backwards<T: Stored>(out: &mut Vec<T>, all: &[T], count: usize) -> Result<(), NoMemory>
    requires { count ≤ length all.now }
    ensures { OnOk result (out.new.items ≡ out.old.items ++ parts_at 1 all.now (reverse (range_with_len 0 count))) }
{
    for k in 0..count {
        T::append_one(out, &all[count - 1 - k])?;
    }
    Ok(())
}

// The parts of one size in reverse.
fn reversed<T: Stored>(
    pool: &mut Pool,
    all: &[T],
    count: usize,
    size: usize,
) -> Result<Vec<T>, NoMemory>
    requires { count * size ≤ length all.now }
    ensures { IfOk result (λ v. v.items ≡ parts_at size all.now (reverse (range_with_len 0 count))) }
{
    let mut out = T::buffer(pool, all.len())?;
    if size == 1 {
        append_backwards(&mut out, all, count)?;
    } else {
        append_reversed(&mut out, all, count, size)?;
    }
    Ok(out)
}

// Atoms in parts of one size, in reverse.
fn reversed_atoms(
    pool: &mut Pool,
    y: View<'_>,
    count: usize,
    size: usize,
) -> Result<Atoms, NoMemory>
    requires bits { ShowsBits y }
    requires within { count * size ≤ length (viewed y) }
    ensures { IfOk result (λ a. AreAtoms a (kind_viewed y.entry) (parts_at size (viewed y.entry) (reverse (range_with_len 0 count)))) }
{
    match y {
        View::Wholes(v) => Ok(Atoms::Wholes(reversed(pool, v, count, size)?)),
        View::Bits(v) => Ok(Atoms::Bits(reversed(pool, v, count, size)?)),
        View::Bytes(v) => Ok(Atoms::Bytes(reversed(pool, v, count, size)?)),
        View::Boxes(v) => Ok(Atoms::Boxes(reversed(pool, v, count, size)?)),
    }
}

/// The items in reverse.
pub fn reverse(pool: &mut Pool, y: &Noun) -> Result<Noun, Refusal>
    ensures { OrWanting (reversed y.now) result }
{
    let size = atoms_an_item(y);
    let atoms = reversed_atoms(pool, y.view(), y.tally(), size)?;
    Noun::make(pool, leading(y.tally(), item_axes(y)), atoms)
}
