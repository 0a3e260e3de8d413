// Cells along several axes at once.
ghost use Rattle.std.specs.Prelude.{◌≡◌, ℕ, ◌<◌, ◌≤◌, ◌+◌, ◌*◌, ◌++◌, List, take, drop, length, map, OnOk, IfOk, IfErr};
ghost use Rattle.std.specs.List.{All, flat_map, list_any};
ghost use Rattle.j_definitions.specs.Array.{Array, product, opened, number, atom_array};
ghost use Rattle.j_definitions.specs.Cells.{in_order};
ghost use Rattle.j_definitions.specs.Limits.{limited};
ghost use Rattle.j_noun.specs.Refused.{OrWanting, OrWantingAs};
ghost use Rattle.j_indices.specs.Numbers.{whole_numbers, indices_in, and_then};
ghost use Rattle.j_indices.specs.Indexing.{is_of, any_of_kind, index_fault, places_in, places_from, AreInside, cells_chosen, along_axes};
ghost use Rattle.j_indices.specs.Selecting.{cells_at};
ghost use Rattle.j_definitions.specs.declared.Kind.TheVariants.{Number as NumberKind};

use crate::numbers::{Numbers, Whole, numbers_of, places_of};
use crate::selecting::{behind, cells_at};
use j_noun::{Fault, Kind, NoMemory, Noun, Pool, Refusal, Shape, View, boxes};
use j_rank::{extended, fills, has_no_atoms, is_same, size_within};

// Whether a noun has an atom of a kind.
fn has_kind(y: &Noun, kind: Kind) -> bool
    ensures { result ≡ list_any (is_of kind) y.now.atoms }
{
    let _ = y.view();
    if is_same(y.kind(), kind) {
        return !has_no_atoms(y);
    }
    false
}

// Whether one of the nouns has an atom of a kind.
fn any_of_kind(nouns: &[Noun], kind: Kind) -> bool
    ensures { result ≡ any_of_kind kind nouns.now }
{
    for noun in nouns {
        if has_kind(noun, kind) {
            return true;
        }
    }
    false
}

/// What is wrong with index nouns, whatever their numbers.
pub fn index_fault(rank: usize, nouns: &[Noun], axes: &[usize]) -> Option<Fault>
    ensures { result ≡ index_fault rank nouns.now axes.now }
{
    if any_of_kind(nouns, Kind::Boxed) {
        return Some(Fault::Nonce);
    }
    if any_of_kind(nouns, Kind::Character) {
        return Some(Fault::Domain);
    }
    if rank > 1 {
        return Some(Fault::Rank);
    }
    if nouns.len() > axes.len() {
        return Some(Fault::Length);
    }
    None
}

// The places that an index noun takes along an axis.
fn places_of_noun(pool: &mut Pool, n: usize, noun: &Noun) -> Result<Vec<usize>, Refusal>
    ensures places { OrWantingAs (λ v. v.items) (and_then (whole_numbers noun.now.atoms) (indices_in n)) result }
    ensures within { IfOk result (λ v. All (λ k. k < n) v.items) }
    ensures many { IfOk result (λ v. length v.items ≡ product noun.now.shape) }
{
    match numbers_of(noun) {
        None => Err(Refusal::Fault(Fault::Domain)),
        Some(Numbers::Wholes(v)) => places_of(pool, n, v),
        Some(Numbers::Bits(v)) => places_of(pool, n, v),
    }
}

// The places that each index noun takes along the axis of its turn.
fn places_in(pool: &mut Pool, axes: &[usize], nouns: &[Noun]) -> Result<Vec<Vec<usize>>, Refusal>
    requires { length nouns.now ≤ length axes.now }
    ensures places { OrWantingAs (λ v. map (λ w. w.items) v.items) (in_order (places_in axes.now nouns.now)) result }
    ensures inside { IfOk result (λ v. AreInside axes.now (map (λ w. w.items) v.items)) }
    ensures many { IfOk result (λ v. map (λ w. length w.items) v.items ≡ map (λ (a : Array). product a.shape) nouns.now) }
{
    let mut out = pool.fresh(nouns.len())?;
    for (i, noun) in nouns.iter().enumerate() {
        let places = places_of_noun(pool, axes[i], noun)?;
        let Ok(()) = out.push(places) else {
            return Err(Refusal::NoMemory);
        };
    }
    Ok(out)
}

/// The index nouns' shapes joined.
pub fn frame_of(nouns: &[Noun]) -> Result<Shape, Fault>
    ensures ok { IfOk result (λ s. s ≡ flat_map (λ a. a.shape) nouns.now) }
    ensures err { IfErr result (λ e. (e ≡ Fault.Limit) × (32 < length (flat_map (λ (a : Array). a.shape) nouns.now))) }
{
    let mut shape = Shape::new();
    for noun in nouns {
        shape = extended(shape, noun.axes())?;
    }
    Ok(shape)
}

// Appends the place in the whole of each choice of places along axes.
fn append_places(
    out: &mut Vec<usize>,
    axes: &[usize],
    taken: &[Vec<usize>],
    size: usize,
    start: usize,
) -> Result<(), NoMemory>
    requires size { size ≡ product axes.now }
    requires some { 0 < size }
    requires few { start + size ≤ 4194304 }
    requires inside { AreInside axes.now (map (λ w. w.items) taken.now) }
    ensures { OnOk result (out.new.items ≡ out.old.items ++ places_from start axes.now (map (λ w. w.items) taken.now)) }
{
    let [first, rest @ ..] = taken else {
        let Ok(()) = out.push(start) else {
            return Err(NoMemory);
        };
        return Ok(());
    };
    let [n, inner @ ..] = axes else {
        return Err(NoMemory);
    };
    let step = size / *n;
    let places = first.as_slice();
    for k in places {
        let from = start + *k * step;
        append_places(out, inner, rest, step, from)?;
    }
    Ok(())
}

// The place in the whole of each choice of places along axes.
fn chosen_places(
    pool: &mut Pool,
    axes: &[usize],
    taken: &[Vec<usize>],
    count: usize,
) -> Result<Vec<usize>, NoMemory>
    requires some { 0 < product axes.now }
    requires few { product axes.now ≤ 4194304 }
    requires inside { AreInside axes.now (map (λ w. w.items) taken.now) }
    ensures { IfOk result (λ v. v.items ≡ places_from 0 axes.now (map (λ w. w.items) taken.now)) }
{
    let Some(size) = size_within(axes) else {
        unreachable!();
    };
    let mut places = pool.fresh(count)?;
    append_places(&mut places, axes, taken, size, 0)?;
    Ok(places)
}

// Cells of a noun without atoms, in a frame, wherever they are.
fn no_cells(pool: &mut Pool, frame: Shape, n: usize, y: &Noun) -> Result<Noun, Refusal>
    requires none { length y.now.atoms ≡ 0 }
    requires empty { product frame * product (drop n y.now.shape) ≡ 0 }
    ensures { (ks : List ℕ) → OrWanting (limited (cells_at frame n y.now ks)) result }
{
    let Ok(shape) = extended(frame, behind(y.axes(), n)) else {
        return Err(Refusal::Fault(Fault::Limit));
    };
    let none = fills(pool, y.kind(), 0)?;
    Noun::make(pool, shape, none)
}

// The n leading axes.
fn leading(axes: &[usize], n: usize) -> &[usize]
    requires { n ≤ length axes.now }
    ensures { result.now ≡ take n axes.now }
{
    &axes[..n]
}

// The cells at all choices of places along the leading axes.
fn chosen_cells(
    pool: &mut Pool,
    nouns: &[Noun],
    taken: &[Vec<usize>],
    y: &Noun,
) -> Result<Noun, Refusal>
    requires fewer { length nouns.now ≤ length y.now.shape }
    requires many { map (λ w. length w.items) taken.now ≡ map (λ (a : Array). product a.shape) nouns.now }
    requires inside { AreInside y.now.shape (map (λ w. w.items) taken.now) }
    ensures { OrWanting (limited (cells_chosen nouns.now y.now (map (λ w. w.items) taken.now))) result }
{
    let _ = y.view();
    let n = nouns.len();
    let Ok(frame) = frame_of(nouns) else {
        return Err(Refusal::Fault(Fault::Limit));
    };
    let is_empty = has_no_atoms(y);
    if is_empty {
        return no_cells(pool, frame, n, y);
    }
    let Some(count) = size_within(frame.axes()) else {
        return Err(Refusal::Fault(Fault::Limit));
    };
    let axes = leading(y.axes(), n);
    let places = chosen_places(pool, axes, taken, count)?;
    cells_at(pool, frame, n, y, &places)
}

// The cells that index nouns in a box of a rank take.
fn along_axes(pool: &mut Pool, rank: usize, nouns: &[Noun], y: &Noun) -> Result<Noun, Refusal>
    ensures { OrWanting (along_axes rank nouns.now y.now) result }
{
    if let Some(fault) = index_fault(rank, nouns, y.axes()) {
        return Err(Refusal::Fault(fault));
    }
    let taken = places_in(pool, y.axes(), nouns)?;
    chosen_cells(pool, nouns, &taken, y)
}

/// Numbers as index nouns.
pub fn nouns_of<N: Whole>(pool: &mut Pool, numbers: &[N]) -> Result<Vec<Noun>, NoMemory>
    ensures { IfOk result (λ v. v.items ≡ map (λ z. atom_array NumberKind (number z)) (map N.value numbers.now)) }
{
    let mut nouns = boxes(pool, numbers.len())?;
    for z in numbers {
        let Ok(()) = nouns.push(Noun::number(z.whole())) else {
            return Err(NoMemory);
        };
    }
    Ok(nouns)
}

// The cells that numbers in a box of a rank take.
fn along_numbers<N: Whole>(
    pool: &mut Pool,
    rank: usize,
    numbers: &[N],
    y: &Noun,
) -> Result<Noun, Refusal>
    ensures { OrWanting (along_axes rank (map (λ z. atom_array NumberKind (number z)) (map N.value numbers.now)) y.now) result }
{
    let nouns = nouns_of(pool, numbers)?;
    along_axes(pool, rank, &nouns, y)
}

/// The cells that the noun in a box takes.
pub fn from_box(pool: &mut Pool, held: &Noun, y: &Noun) -> Result<Noun, Refusal>
    ensures { OrWanting (along_axes (length held.now.shape) (map opened held.now.atoms) y.now) result }
{
    let rank = held.axes().len();
    match held.view() {
        View::Wholes(v) => along_numbers(pool, rank, v, y),
        View::Bits(v) => along_numbers(pool, rank, v, y),
        View::Bytes([]) => along_axes(pool, rank, &[], y),
        View::Bytes(_) => Err(Refusal::Fault(Fault::Domain)),
        View::Boxes(v) => along_axes(pool, rank, v, y),
    }
}
