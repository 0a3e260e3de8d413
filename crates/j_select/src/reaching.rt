// The places that `{` takes.
ghost use Rattle.std.specs.Prelude.{◌≡◌, ◌<◌, ◌≤◌, ◌++◌, [], ◌∷◌, length, drop, map, IfOk, Ok as OkValue};
ghost use Rattle.j_definitions.specs.Array.{Array, opened, byte, boxed, product};
ghost use Rattle.j_definitions.specs.Cells.{in_order};
ghost use Rattle.j_definitions.specs.Limits.{limited};
ghost use Rattle.j_noun.specs.Refused.{OrWanting, OrWantingAs};
ghost use Rattle.j_rank.specs.Assembly.{common_shape, assemble};
ghost use Rattle.j_indices.specs.Indexing.{from_at};
ghost use Rattle.j_indices.specs.Numbers.{and_then};
ghost use Rattle.j_select.specs.Amending.{all_places, outline, outline_along, outline_at, axes_of_fill, axes_taken, taken};

use j_indices::{behind, frame_of, from_box, from_list, index_fault, nouns_of};
use j_noun::{Atoms, Fault, Kind, NoMemory, Noun, Pool, Refusal, Shape, View, boxes};
use j_rank::{
    Collector, common_shape, copied, extended, fills, has_no_atoms, shape_of, size_within,
};

/// The places of a noun, from 1 on, in its shape.
pub fn all_places(pool: &mut Pool, y: &Noun) -> Result<Noun, NoMemory>
    ensures { IfOk result (λ a. a ≡ all_places y.now.shape) }
{
    let _ = y.view();
    let Some(count) = size_within(y.axes()) else {
        unreachable!();
    };
    let mut places = pool.ints(count)?;
    for k in 0..count {
        let place = k + 1;
        let Ok(()) = places.push(place as i64) else {
            return Err(NoMemory);
        };
    }
    match Noun::make(pool, y.shape(), Atoms::Wholes(places)) {
        Ok(all) => Ok(all),
        Err(Refusal::NoMemory) => Err(NoMemory),
        Err(Refusal::Fault(_)) => unreachable!(),
    }
}

// Characters as index nouns.
fn character_nouns(pool: &mut Pool, bytes: &[u8]) -> Result<Vec<Noun>, NoMemory>
    ensures { IfOk result (λ v. v.items ≡ map opened (map byte bytes.now)) }
{
    let mut nouns = boxes(pool, bytes.len())?;
    for b in bytes {
        let Ok(()) = nouns.push(Noun::character(*b)) else {
            return Err(NoMemory);
        };
    }
    Ok(nouns)
}

/// What the atoms of a noun hold, or they themselves.
pub fn index_nouns(pool: &mut Pool, held: &Noun) -> Result<Vec<Noun>, NoMemory>
    ensures { IfOk result (λ v. v.items ≡ map opened held.now.atoms) }
{
    match held.view() {
        View::Wholes(v) => nouns_of(pool, v),
        View::Bits(v) => nouns_of(pool, v),
        View::Bytes(v) => character_nouns(pool, v),
        View::Boxes(v) => copied(pool, v),
    }
}

// The axes of what index nouns take, whatever their numbers.
fn outline_along(rank: usize, nouns: &[Noun], axes: &[usize]) -> Result<Shape, Refusal>
    ensures { OrWantingAs outline (outline_along rank nouns.now axes.now) result }
{
    if let Some(fault) = index_fault(rank, nouns, axes) {
        return Err(Refusal::Fault(fault));
    }
    let Ok(frame) = frame_of(nouns) else {
        return Err(Refusal::Fault(Fault::Limit));
    };
    let Ok(shape) = extended(frame, behind(axes, nouns.len())) else {
        return Err(Refusal::Fault(Fault::Limit));
    };
    if shape.is_within() {
        Ok(shape)
    } else {
        Err(Refusal::Fault(Fault::Limit))
    }
}

// The axes of what the noun in a box takes.
fn outline_of(pool: &mut Pool, held: &Noun, axes: &[usize]) -> Result<Shape, Refusal>
    ensures { OrWantingAs outline (outline_along (length held.now.shape) (map opened held.now.atoms) axes.now) result }
{
    let nouns = index_nouns(pool, held)?;
    outline_along(held.axes().len(), &nouns, axes)
}

// A noun of a shape.
fn blank_of(pool: &mut Pool, shape: Shape) -> Result<Noun, NoMemory>
    ensures { IfOk result (λ a. a.shape ≡ shape) }
{
    let Some(size) = size_within(shape.axes()) else {
        return Err(NoMemory);
    };
    let atoms = fills(pool, Kind::Number, size)?;
    match Noun::make(pool, shape, atoms) {
        Ok(blank) => Ok(blank),
        Err(_) => Err(NoMemory),
    }
}

// Nouns of the shapes of what the nouns in boxes take.
fn outlines_of(pool: &mut Pool, held: &[Noun], axes: &[usize]) -> Result<Vec<Noun>, Refusal>
    ensures { OrWantingAs (λ v. map (λ (b : Array). outline b.shape) v.items) (in_order (map (λ (a : Array). outline_at axes.now (boxed a)) held.now)) result }
{
    let mut blanks = boxes(pool, held.len())?;
    for noun in held {
        let shape = match outline_of(pool, noun, axes) {
            Ok(shape) => shape,
            Err(e) => return Err(e),
        };
        let blank = blank_of(pool, shape)?;
        let Ok(()) = blanks.push(blank) else {
            return Err(Refusal::NoMemory);
        };
    }
    Ok(blanks)
}

// The axes that all of what the nouns in boxes take is brought to.
fn boxes_axes(pool: &mut Pool, held: &[Noun], y: &Noun) -> Result<Shape, Refusal>
    ensures { OrWanting (and_then (in_order (map (outline_at y.now.shape) (map boxed held.now))) (λ cells. OkValue (common_shape cells))) result }
{
    match outlines_of(pool, held, y.axes()) {
        Ok(blanks) => Ok(common_shape(&blanks)),
        Err(e) => Err(e),
    }
}

// The axes of what an index of fills takes.
fn axes_of_fill(kind: Kind, y: &Noun) -> &[usize]
    ensures value { result.now ≡ axes_of_fill kind y.now.shape }
    ensures few { length result.now ≤ 32 }
{
    match kind {
        Kind::Number => if y.tally() > 0 {
            behind(y.axes(), 1)
        } else {
            &[]
        },
        Kind::Character => &[],
        Kind::Boxed => y.axes(),
    }
}

// The axes of items.
fn item_shape(y: &Noun) -> Shape
    ensures { result ≡ drop 1 y.now.shape }
{
    shape_of(behind(y.axes(), 1))
}

/// The axes of `m { y` behind those of m, whether the indices are within or not.
pub fn axes_taken(pool: &mut Pool, m: &Noun, y: &Noun) -> Result<Shape, Refusal>
    ensures { OrWanting (axes_taken m.now.kind m.now.atoms y.now.shape) result }
{
    let is_bare = has_no_atoms(m);
    if is_bare {
        return Ok(shape_of(axes_of_fill(m.kind(), y)));
    }
    match m.view() {
        View::Wholes(_) => Ok(item_shape(y)),
        View::Bits(_) => Ok(item_shape(y)),
        View::Bytes(_) => Err(Refusal::Fault(Fault::Domain)),
        View::Boxes(held) => boxes_axes(pool, held, y),
    }
}

// What no index takes: no atoms, in the shape of m and what an index of fills takes.
fn nothing_taken(pool: &mut Pool, m: &Noun, y: &Noun) -> Result<Noun, Refusal>
    requires { length m.now.atoms ≡ 0 }
    ensures { OrWanting (limited (outline (m.now.shape ++ axes_of_fill m.now.kind y.now.shape))) result }
{
    let _ = m.view();
    let Ok(shape) = extended(m.shape(), axes_of_fill(m.kind(), y)) else {
        return Err(Refusal::Fault(Fault::Limit));
    };
    let none = pool.bytes(0)?;
    Noun::make(pool, shape, Atoms::Bits(none))
}

// What the nouns in boxes take, in the frame of the boxes.
fn boxes_taken(pool: &mut Pool, frame: Shape, held: &[Noun], y: &Noun) -> Result<Noun, Refusal>
    requires many { length held.now ≡ product frame }
    requires some { 0 < length held.now }
    ensures { OrWanting (and_then (in_order (map (λ b. from_at b y.now) (map boxed held.now))) (assemble frame)) result }
{
    let mut results = Collector::new(frame);
    for noun in held {
        let cell = match from_box(pool, noun, y) {
            Ok(cell) => cell,
            Err(e) => return Err(e),
        };
        results.push(pool, cell)?;
    }
    results.finish(pool)
}

/// `m { y`.
pub fn taken(pool: &mut Pool, m: &Noun, y: &Noun) -> Result<Noun, Refusal>
    ensures { OrWanting (taken m.now.kind m.now.atoms m.now.shape y.now) result }
{
    let is_bare = has_no_atoms(m);
    if is_bare {
        return nothing_taken(pool, m, y);
    }
    match m.view() {
        View::Wholes(_) => from_list(pool, m, y),
        View::Bits(_) => from_list(pool, m, y),
        View::Bytes(_) => Err(Refusal::Fault(Fault::Domain)),
        View::Boxes(held) => boxes_taken(pool, m.shape(), held, y),
    }
}
