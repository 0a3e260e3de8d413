// Items and cells of a noun, as they are looked up.
ghost use Rattle.std.specs.Prelude.{◌≡◌, ◌<◌, ◌≤◌, ◌==◌, ◌-◌, length, drop, take, MatchOption};
ghost use Rattle.std.specs.Cmp.Lexicographic.{pointwise};
ghost use Rattle.j_definitions.specs.Array.{product, tally};
ghost use Rattle.j_noun.specs.Viewed.{viewed};
ghost use Rattle.j_search.specs.Matching.{frame_for};
ghost use Rattle.j_search.specs.Framed.{IsFrame};

use j_noun::{Noun, View};
use j_rank::size_within;

/// How many axes are a frame, and how many cells it has.
#[derive(Clone, Copy)]
pub struct Frame {
    pub axes: usize,
    pub count: usize,
}

/// The axes of an item; an atom counts as a list of one item.
pub fn item_axes(y: &Noun) -> &[usize]
    ensures value { result.now ≡ drop 1 y.now.shape }
    ensures few { length result.now ≤ 31 }
{
    match y.axes() {
        [] => &[],
        [_, rest @ ..] => rest,
    }
}

/// The frame whose cells are the items.
pub fn items_frame(y: &Noun) -> Frame
    ensures frame { IsFrame y.now.shape result }
    ensures axes { result.axes ≡ frame_for y.now y.now }
    ensures count { result.count ≡ tally y.now.shape }
{
    let _ = y.view();
    match y.axes() {
        [] => Frame { axes: 0, count: 1 },
        [n, ..] => Frame { axes: 1, count: *n },
    }
}

/// The frame of y whose cells have the rank of x's items, unless it has too many cells.
pub fn frame_for(x: &Noun, y: &Noun) -> Option<Frame>
    ensures { MatchOption result (4194304 < product (take (frame_for x.now y.now) y.now.shape)) (λ f. IsFrame y.now.shape f × (f.axes ≡ frame_for x.now y.now)) }
{
    let all = y.axes();
    let axes = all.len().saturating_sub(item_axes(x).len());
    match size_within(&all[..axes]) {
        Some(count) => Some(Frame { axes, count }),
        None => None,
    }
}

/// Whether the cells of two frames have one shape.
pub fn have_one_shape(x: &Noun, m: usize, y: &Noun, n: usize) -> bool
    requires left { m ≤ length x.now.shape }
    requires right { n ≤ length y.now.shape }
    ensures { result ≡ pointwise ◌==◌ (drop m x.now.shape) (drop n y.now.shape) }
{
    let x_axes = x.axes();
    let y_axes = y.axes();
    x_axes[m..] == y_axes[n..]
}

/// The number of atoms.
pub fn atom_count(y: View<'_>) -> usize
    ensures { result ≡ length (viewed y.entry) }
{
    match y {
        View::Wholes(v) => v.len(),
        View::Bits(v) => v.len(),
        View::Bytes(v) => v.len(),
        View::Boxes(v) => v.len(),
    }
}
