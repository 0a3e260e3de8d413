// The common shape of results.
ghost use Rattle.std.specs.Prelude.{◌≡◌, ◌≤◌, length};
ghost use Rattle.std.specs.List.{All};
ghost use Rattle.j_definitions.specs.Array.{IsNoun};
ghost use Rattle.j_rank.specs.Assembly.{with_rank, greatest_rank, greater_axes, common_shape};

use crate::sizes::{extended, shape_of};
use j_noun::{Noun, Shape};
use std::cmp;

// The greatest rank of results.
fn greatest_rank(results: &[Noun]) -> usize
    ensures value { result ≡ greatest_rank results.now }
    ensures few { result ≤ 32 }
    ensures nouns { All IsNoun results.now }
{
    let mut rank = 0;
    for r in results {
        let _ = r.view();
        rank = cmp::max(rank, r.axes().len());
    }
    rank
}

// Makes each length the greater of itself and that of the shape, whose leading axes are 1.
fn widen(lengths: &mut [usize], axes: &[usize])
    requires { length axes.now ≤ length lengths.old }
    ensures { lengths.new ≡ greater_axes lengths.old (with_rank (length lengths.old) axes.now) }
{
    let leading = lengths.len() - axes.len();
    for k in 0..lengths.len() {
        let n = if k < leading { 1 } else { axes[k - leading] };
        lengths[k] = cmp::max(lengths[k], n);
    }
}

/// The shape that all results are brought to.
pub fn common_shape(results: &[Noun]) -> Shape
    ensures value { result ≡ common_shape results.now }
    ensures rank { length result ≡ greatest_rank results.now }
    ensures few { length result ≤ 32 }
    ensures nouns { All IsNoun results.now }
{
    let rank = greatest_rank(results);
    if rank == 0 {
        return Shape::new();
    }
    let mut all = [0; 32];
    let lengths = &mut all[..rank];
    for r in results {
        widen(lengths, r.axes());
    }
    shape_of(lengths)
}

/// A shape with leading axes of length 1.
pub fn with_rank(rank: usize, axes: &[usize]) -> Shape
    requires enough { length axes.now ≤ rank }
    requires few { rank ≤ 32 }
    ensures { result ≡ with_rank rank axes.now }
{
    let ones = [1; 32];
    match extended(shape_of(&ones[..rank - axes.len()]), axes) {
        Ok(shape) => shape,
        Err(_) => unreachable!(),
    }
}
