// Nouns joined by their items, and as two items.
ghost use Rattle.std.specs.Prelude.{◌≡◌, ◌<◌, ◌≤◌, ◌+◌, ◌∷◌, length, drop};
ghost use Rattle.j_definitions.specs.Array.{tally};
ghost use Rattle.j_noun.specs.Refused.{OrWanting};
ghost use Rattle.j_rank.specs.Assembly.{with_rank, greater_axes};
ghost use Rattle.j_joining.specs.Joining.{append, laminate, shape_beside, one_item};
ghost use Rattle.j_joining.specs.Brought.{two_kinds, is_bare, rank_beside, left_group, right_group, both_groups, common_beside};

use crate::groups::grouped;
use j_noun::{Fault, Kind, Noun, Pool, Refusal, Shape};
use j_rank::{extended, has_no_atoms, is_same, shape_of, with_rank};
use std::cmp;

// The shapes that two nouns are brought to, and the shape of their items together.
#[derive(Drop)]
struct Joint {
    left: Shape,
    right: Shape,
    both: Shape,
}

// The axes of an item.
fn item_axes(axes: &[usize]) -> &[usize]
    ensures { result.now ≡ drop 1 axes.now }
{
    match axes {
        [] => &[],
        [_, rest @ ..] => rest,
    }
}

// The number of items.
fn tally(axes: &[usize]) -> usize
    ensures { result ≡ tally axes.now }
{
    match axes {
        [] => 1,
        [n, ..] => *n,
    }
}

// The greater length of each axis.
fn greater_axes(s: &[usize], t: &[usize]) -> Shape
    requires rank { length s.now ≡ length t.now }
    requires few { length s.now ≤ 32 }
    ensures { result ≡ greater_axes s.now t.now }
{
    let mut lengths = [0; 32];
    for k in 0..s.len() {
        lengths[k] = cmp::max(s[k], t[k]);
    }
    shape_of(&lengths[..s.len()])
}

// The shape of so many items.
fn shape_of_items(count: usize, item: &[usize]) -> Shape
    requires { length item.now < 32 }
    ensures { result ≡ count ∷ item.now }
{
    match extended(shape_of(&[count]), item) {
        Ok(shape) => shape,
        Err(_) => unreachable!(),
    }
}

// The kind of two nouns together, by whether each has no atoms.
fn two_kinds(left: Kind, bare: bool, right: Kind, less: bool) -> Option<Kind>
    ensures { result ≡ two_kinds left bare right less }
{
    if bare {
        return Some(if less { left } else { right });
    }
    if less || is_same(left, right) {
        Some(left)
    } else {
        None
    }
}

// Whether a noun is without atoms, where an atom is spread to these axes.
fn is_bare(y: &Noun, axes: &[usize]) -> bool
    ensures { result ≡ is_bare axes.now y.now.shape y.now.atoms }
{
    let _ = y.view();
    if y.axes().is_empty() {
        axes.contains(&0)
    } else {
        has_no_atoms(y)
    }
}

// The kind of two nouns beside each other, where an atom is spread to the axes named for it.
fn kind_beside(x: &Noun, left: &[usize], y: &Noun, right: &[usize]) -> Option<Kind>
    ensures { result ≡ two_kinds x.now.kind (is_bare left.now x.now.shape x.now.atoms) y.now.kind (is_bare right.now y.now.shape y.now.atoms) }
{
    two_kinds(x.kind(), is_bare(x, left), y.kind(), is_bare(y, right))
}

// The rank of two nouns beside each other.
fn rank_beside(s: &[usize], t: &[usize]) -> usize
    ensures { result ≡ rank_beside s.now t.now }
{
    cmp::max(cmp::max(s.len(), t.len()), 1)
}

// The shape of a noun beside another, brought to a rank.
fn axes_beside(axes: &[usize], other: &[usize], rank: usize) -> Shape
    requires enough { length (shape_beside (one_item other.now) axes.now) ≤ rank }
    requires few { rank ≤ 32 }
    ensures { result ≡ with_rank rank (shape_beside (one_item other.now) axes.now) }
{
    if axes.is_empty() {
        let one = shape_of_items(1, item_axes(other));
        return with_rank(rank, one.axes());
    }
    with_rank(rank, axes)
}

// The shapes that two nouns of these shapes are brought to.
fn groups_beside(s: &[usize], t: &[usize]) -> Joint
    requires left_few { length s.now ≤ 32 }
    requires right_few { length t.now ≤ 32 }
    requires left_short { tally s.now ≤ 4194304 }
    requires right_short { tally t.now ≤ 4194304 }
    ensures left { result.left ≡ left_group s.now t.now }
    ensures right { result.right ≡ right_group s.now t.now }
    ensures both { result.both ≡ both_groups s.now t.now }
{
    let rank = rank_beside(s, t);
    let left = axes_beside(s, t, rank);
    let right = axes_beside(t, s, rank);
    let item = greater_axes(item_axes(left.axes()), item_axes(right.axes()));
    let m = tally(left.axes());
    let n = tally(right.axes());
    Joint {
        left: shape_of_items(m, item.axes()),
        right: shape_of_items(n, item.axes()),
        both: shape_of_items(m + n, item.axes()),
    }
}

// The axes of a noun beside another, where an atom is repeated.
fn spread_axes<'a>(axes: &'a [usize], other: &'a [usize]) -> &'a [usize]
    ensures { result.now ≡ shape_beside other.now axes.now }
{
    if axes.is_empty() { other } else { axes }
}

// The shape that two nouns of these shapes are brought to as items.
fn common_beside(s: &[usize], t: &[usize]) -> Shape
    requires left_few { length s.now ≤ 32 }
    requires right_few { length t.now ≤ 32 }
    ensures { result ≡ common_beside s.now t.now }
{
    let rank = cmp::max(s.len(), t.len());
    let left = with_rank(rank, spread_axes(s, t));
    let right = with_rank(rank, spread_axes(t, s));
    greater_axes(left.axes(), right.axes())
}

/// The items of x, then those of y.
pub fn append(pool: &mut Pool, x: &Noun, y: &Noun) -> Result<Noun, Refusal>
    ensures { OrWanting (append x.now y.now) result }
{
    let _ = x.view();
    let _ = y.view();
    let s = x.axes();
    let t = y.axes();
    let Some(kind) = kind_beside(x, item_axes(t), y, item_axes(s)) else {
        return Err(Refusal::Fault(Fault::Domain));
    };
    let Joint { left, right, both } = groups_beside(s, t);
    grouped(pool, kind, both, x, left.axes(), y, right.axes())
}

/// Two items, x and y.
pub fn laminate(pool: &mut Pool, x: &Noun, y: &Noun) -> Result<Noun, Refusal>
    ensures { OrWanting (laminate x.now y.now) result }
{
    let _ = x.view();
    let _ = y.view();
    let s = x.axes();
    let t = y.axes();
    let Some(kind) = kind_beside(x, t, y, s) else {
        return Err(Refusal::Fault(Fault::Domain));
    };
    let common = common_beside(s, t);
    let Ok(both) = extended(shape_of(&[2]), common.axes()) else {
        return Err(Refusal::Fault(Fault::Limit));
    };
    grouped(pool, kind, both, x, common.axes(), y, common.axes())
}
