// Cells at places.
ghost use Rattle.std.specs.Prelude.{◌≡◌, ◌<◌, ◌≤◌, ◌+◌, ◌*◌, length, take, drop, IfOk};
ghost use Rattle.std.specs.List.{All};
ghost use Rattle.j_definitions.specs.Array.{product};
ghost use Rattle.j_definitions.specs.Limits.{limited};
ghost use Rattle.j_noun.specs.Held.{AreAtoms};
ghost use Rattle.j_noun.specs.Refused.{OrWanting};
ghost use Rattle.j_noun.specs.Viewed.{viewed, kind_viewed, ShowsBits};
ghost use Rattle.j_indices.specs.Selecting.{runs_at, cells_at};

use j_noun::{Atoms, Fault, NoMemory, Noun, Pool, Refusal, Shape, View};
use j_rank::{Stored, extended, fills, part, size_within};

// The runs of so many elements at places.
fn runs_at<T: Stored>(
    pool: &mut Pool,
    all: &[T],
    places: &[usize],
    size: usize,
    total: usize,
) -> Result<Vec<T>, NoMemory>
    requires { All (λ k. (k + 1) * size ≤ length all.now) places.now }
    ensures { IfOk result (λ v. v.items ≡ runs_at size all.now places.now) }
{
    let mut out = T::buffer(pool, total)?;
    for k in places {
        T::append(&mut out, part(all, *k, size))?;
    }
    Ok(out)
}

// The atoms of the runs at places.
fn atoms_at(
    pool: &mut Pool,
    y: View<'_>,
    places: &[usize],
    size: usize,
    total: usize,
) -> Result<Atoms, NoMemory>
    requires bits { ShowsBits y }
    requires within { All (λ k. (k + 1) * size ≤ length (viewed y)) places.now }
    ensures { IfOk result (λ a. AreAtoms a (kind_viewed y.entry) (runs_at size (viewed y.entry) places.now)) }
{
    match y {
        View::Wholes(v) => Ok(Atoms::Wholes(runs_at(pool, v, places, size, total)?)),
        View::Bits(v) => Ok(Atoms::Bits(runs_at(pool, v, places, size, total)?)),
        View::Bytes(v) => Ok(Atoms::Bytes(runs_at(pool, v, places, size, total)?)),
        View::Boxes(v) => Ok(Atoms::Boxes(runs_at(pool, v, places, size, total)?)),
    }
}

/// The axes behind the n leading ones.
pub fn behind(axes: &[usize], n: usize) -> &[usize]
    ensures { result.now ≡ drop n axes.now }
{
    if n < axes.len() { &axes[n..] } else { &[] }
}

// The atoms of the cells at places, of which there are so many.
fn atoms_of_cells(
    pool: &mut Pool,
    y: &Noun,
    n: usize,
    places: &[usize],
    total: usize,
) -> Result<Atoms, NoMemory>
    requires within { All (λ k. k < product (take n y.now.shape)) places.now }
    requires total { total ≡ length places.now * product (drop n y.now.shape) }
    ensures { IfOk result (λ a. AreAtoms a y.now.kind (runs_at (product (drop n y.now.shape)) y.now.atoms places.now)) }
{
    let atoms = y.view();
    if total == 0 {
        return fills(pool, y.kind(), 0);
    }
    atoms_at(pool, atoms, places, total / places.len(), total)
}

/// In a frame, the cells at places among those of the n leading axes.
pub fn cells_at(
    pool: &mut Pool,
    frame: Shape,
    n: usize,
    y: &Noun,
    places: &[usize],
) -> Result<Noun, Refusal>
    requires frame { product frame ≡ length places.now }
    requires within { All (λ k. k < product (take n y.now.shape)) places.now }
    ensures { OrWanting (limited (cells_at frame n y.now places.now)) result }
{
    let _ = y.view();
    let Ok(shape) = extended(frame, behind(y.axes(), n)) else {
        return Err(Refusal::Fault(Fault::Limit));
    };
    let Some(total) = size_within(shape.axes()) else {
        return Err(Refusal::Fault(Fault::Limit));
    };
    let atoms = atoms_of_cells(pool, y, n, places, total)?;
    Noun::make(pool, shape, atoms)
}
