// The atoms at the kept places of axes.
ghost use Rattle.std.specs.Prelude.{◌≡◌, ◌≤◌, ◌<◌, ◌*◌, ◌++◌, length, map, take, drop, replicate, IfOk, OnOk};
ghost use Rattle.std.specs.List.{All, flat_map};
ghost use Rattle.j_definitions.specs.Array.{product, fill_atom};
ghost use Rattle.j_noun.specs.Held.{AreAtoms};
ghost use Rattle.j_noun.specs.Viewed.{viewed, kind_viewed, ShowsBits};
ghost use Rattle.j_places.specs.AxisPlaces.{kept_shape, kept_atoms, at_place};
ghost use Rattle.j_places.specs.Axes.{places_of, extents, item_kept, IsAxis};

use crate::axis::Axis;
use crate::item_places::run_of;
use j_noun::{Atoms, NoMemory, Pool, View};
use j_rank::{Stored, append_fills, empty_list, part};

// Appends what is kept along one axis, whose items have that size.
fn append_runs<T: Stored>(
    out: &mut Vec<T>,
    fill: &T,
    axis: &Axis,
    size: usize,
    all: &[T],
) -> Result<(), NoMemory>
    requires is { IsAxis axis.now }
    requires many { length all.now ≡ axis.now.extent * size }
    requires few { length (places_of axis.now) * size ≤ 4194304 }
    ensures { OnOk result (out.new.items ≡ out.old.items ++ flat_map (at_place (λ k. take size (drop (k * size) all.now)) (replicate size fill.now)) (places_of axis.now)) }
{
    append_fills(out, fill, axis.before * size)?;
    T::append(out, run_of(all, axis.start * size, axis.count * size))?;
    T::append(out, run_of(all, 0, axis.wrapped * size))?;
    append_fills(out, fill, axis.after * size)
}

// Appends what is kept along axes, at whose places stand `unit` elements, `size` elements in all.
fn append_kept<T: Stored>(
    out: &mut Vec<T>,
    fill: &T,
    axes: &[Axis],
    unit: usize,
    size: usize,
    all: &[T],
) -> Result<(), NoMemory>
    requires are { All IsAxis axes.now }
    requires many { length all.now ≡ product (extents axes.now unit) }
    requires some { 0 < length all.now }
    requires size { size ≡ product (kept_shape (map places_of axes.now) (extents axes.now unit)) }
    requires result { 0 < size }
    requires few { size ≤ 4194304 }
    ensures { OnOk result (out.new.items ≡ out.old.items ++ kept_atoms fill.now (map places_of axes.now) (extents axes.now unit) all.now) }
{
    let [axis, inner @ ..] = axes else {
        return T::append(out, all);
    };
    if inner.is_empty() {
        return append_runs(out, fill, axis, unit, all);
    }
    let places = axis.places();
    for k in 0..places {
        let Some(item) = axis.place(k) else {
            append_fills(out, fill, size / places)?;
            continue;
        };
        let own = part(all, item, all.len() / axis.extent);
        append_kept(out, fill, inner, unit, size / places, own)?;
    }
    Ok(())
}

// The elements that are kept.
fn kept<T: Stored>(
    pool: &mut Pool,
    fill: &T,
    axes: &[Axis],
    unit: usize,
    size: usize,
    all: &[T],
) -> Result<Vec<T>, NoMemory>
    requires are { All IsAxis axes.now }
    requires many { length all.now ≡ product (extents axes.now unit) }
    requires some { 0 < length all.now }
    requires size { size ≡ product (kept_shape (map places_of axes.now) (extents axes.now unit)) }
    requires result { 0 < size }
    requires few { size ≤ 4194304 }
    ensures { IfOk result (λ v. v.items ≡ kept_atoms fill.now (map places_of axes.now) (extents axes.now unit) all.now) }
{
    let mut out = T::buffer(pool, size)?;
    append_kept(&mut out, fill, axes, unit, size, all)?;
    Ok(out)
}

/// The atoms that are kept along axes, at whose places stand `unit` atoms, `size` atoms in all.
pub(crate) fn kept_of(
    pool: &mut Pool,
    y: View<'_>,
    axes: &[Axis],
    unit: usize,
    size: usize,
) -> Result<Atoms, NoMemory>
    requires bits { ShowsBits y }
    requires are { All IsAxis axes.now }
    requires many { length (viewed y) ≡ product (extents axes.now unit) }
    requires some { 0 < length (viewed y) }
    requires size { size ≡ product (kept_shape (map places_of axes.now) (extents axes.now unit)) }
    requires result { 0 < size }
    requires few { size ≤ 4194304 }
    ensures { IfOk result (λ a. AreAtoms a (kind_viewed y.entry) (kept_atoms (fill_atom (kind_viewed y.entry)) (map places_of axes.now) (extents axes.now unit) (viewed y.entry))) }
{
    match y {
        View::Wholes(v) => Ok(Atoms::Wholes(kept(pool, &0, axes, unit, size, v)?)),
        View::Bits(v) => Ok(Atoms::Bits(kept(pool, &0, axes, unit, size, v)?)),
        View::Bytes(v) => Ok(Atoms::Bytes(kept(pool, &32, axes, unit, size, v)?)),
        View::Boxes(v) => {
            let fill = empty_list(pool)?;
            Ok(Atoms::Boxes(kept(pool, &fill, axes, unit, size, v)?))
        }
    }
}
