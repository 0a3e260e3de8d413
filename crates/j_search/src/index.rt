// Places of cells among items, and items that are no cells.
ghost use Rattle.std.specs.Prelude.{◌≡◌, ◌<◌, ◌≤◌, ◌==◌, pos, cond, length, take, drop};
ghost use Rattle.std.specs.Cmp.Lexicographic.{pointwise};
ghost use Rattle.j_definitions.specs.Array.{number};
ghost use Rattle.j_noun.specs.Refused.{OrWanting};
ghost use Rattle.j_search.specs.Framed.{IsFrame};
ghost use Rattle.j_search.specs.Matching.{cells_for, frame_for, for_each_cell, index_of, last_index_of, less, member, match_of};
ghost use Rattle.j_search.specs.Sought.{item_place};

use crate::among::everywhere;
use crate::frames::{Frame, frame_for, have_one_shape, item_axes, items_frame};
use crate::kept::{found_bits, lost_places};
use crate::looking::look_up;
use crate::picking::items_at;
use crate::seeking::Side;
use j_noun::{Atoms, Fault, Noun, Pool, Refusal, Shape};
use j_rank::shape_of;

// The shape of a frame of y.
fn shape_of_frame(y: &Noun, frame: Frame) -> Shape
    requires { IsFrame y.now.shape frame }
    ensures { result ≡ take frame.axes y.now.shape }
{
    let axes = y.axes();
    shape_of(&axes[..frame.axes])
}

// The place of each cell of y among the items of x.
fn places_of_cells(pool: &mut Pool, side: Side, x: &Noun, y: &Noun) -> Result<Noun, Refusal>
    ensures { OrWanting (for_each_cell x.now y.now (λ c. number (pos (item_place side x.now c)))) result }
{
    let Some(frame) = frame_for(x, y) else {
        return Err(Refusal::Fault(Fault::Limit));
    };
    let places = look_up(pool, side, x, items_frame(x), y, frame)?;
    Noun::make(pool, shape_of_frame(y, frame), Atoms::Wholes(places))
}

/// `x i. y`.
pub fn index_of(pool: &mut Pool, x: &Noun, y: &Noun) -> Result<Noun, Refusal>
    ensures { OrWanting (index_of x.now y.now) result }
{
    places_of_cells(pool, Side::First, x, y)
}

/// `x i: y`.
pub fn last_index_of(pool: &mut Pool, x: &Noun, y: &Noun) -> Result<Noun, Refusal>
    ensures { OrWanting (last_index_of x.now y.now) result }
{
    places_of_cells(pool, Side::Last, x, y)
}

/// `x e. y`.
pub fn member(pool: &mut Pool, x: &Noun, y: &Noun) -> Result<Noun, Refusal>
    ensures { OrWanting (member x.now y.now) result }
{
    let Some(frame) = frame_for(y, x) else {
        return Err(Refusal::Fault(Fault::Limit));
    };
    let items = items_frame(y);
    let places = look_up(pool, Side::First, y, items, x, frame)?;
    let bits = found_bits(pool, &places, items.count)?;
    Noun::make(pool, shape_of_frame(x, frame), Atoms::Bits(bits))
}

// 0 where the cells of y have the shape of the items of x, of which m axes are the frame, else 1.
fn place_of_shape(x: &Noun, m: usize, y: &Noun) -> usize
    requires { m ≤ length x.now.shape }
    ensures place { result ≡ cond (pointwise ◌==◌ (drop (frame_for x.now y.now) y.now.shape) (drop m x.now.shape)) 0 1 }
    ensures within { result ≤ 1 }
{
    let axes = y.axes().len().saturating_sub(item_axes(x).len());
    if have_one_shape(y, axes, x, m) { 0 } else { 1 }
}

// The items of x that match no cell of y, where these are more than a frame may have, and so have no atoms.
fn less_empty(pool: &mut Pool, x: &Noun, y: &Noun) -> Result<Noun, Refusal>
    requires { 4194304 < cells_for x.now y.now }
    ensures { OrWanting (less x.now y.now) result }
{
    let _ = y.view();
    let items = items_frame(x);
    let place = place_of_shape(x, items.axes, y);
    let places = everywhere(pool, place, items.count)?;
    let lost = lost_places(pool, &places, 1)?;
    items_at(pool, x, &lost)
}

/// `x -. y`.
pub fn less(pool: &mut Pool, x: &Noun, y: &Noun) -> Result<Noun, Refusal>
    ensures { OrWanting (less x.now y.now) result }
{
    let items = items_frame(x);
    let Some(frame) = frame_for(x, y) else {
        return less_empty(pool, x, y);
    };
    let places = look_up(pool, Side::First, y, frame, x, items)?;
    let lost = lost_places(pool, &places, frame.count)?;
    items_at(pool, x, &lost)
}

/// `x -: y`.
pub fn match_of(_pool: &mut Pool, x: &Noun, y: &Noun) -> Result<Noun, Refusal>
    ensures { OrWanting (match_of x.now y.now) result }
{
    Ok(Noun::number(i64::from(x.matches(y))))
}
