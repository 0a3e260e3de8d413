// Elements of buffers, padded to a shape.
ghost use Rattle.std.specs.Prelude.{◌≡◌, ◌<◌, ◌≤◌, ◌+◌, ◌*◌, ◌++◌, length, take, drop, OnOk};
ghost use Rattle.j_definitions.specs.Array.{product};
ghost use Rattle.j_rank.specs.Assembly.{with_rank, padded};

use crate::common::with_rank;
use crate::stored::{Stored, append_fills};
use j_noun::NoMemory;

/// The elements of part k, where each part has that many.
pub fn part<T>(all: &[T], k: usize, size: usize) -> &[T]
    requires { (k + 1) * size ≤ length all.now }
    ensures { result.now ≡ take size (drop (k * size) all.now) }
{
    let start = k * size;
    &all[start..start + size]
}

// Appends elements of one shape, brought to another, whose product is the size.
fn append_padded<T: Stored>(
    out: &mut Vec<T>,
    fill: &T,
    from: &[usize],
    to: &[usize],
    size: usize,
    all: &[T],
) -> Result<(), NoMemory>
    requires rank { length from.now ≡ length to.now }
    requires size { size ≡ product to.now }
    requires some { 0 < size }
    requires many { length all.now ≡ product from.now }
    ensures { OnOk result (out.new.items ≡ out.old.items ++ padded fill.now from.now to.now all.now) }
{
    if from == to {
        return T::append(out, all);
    }
    let [m, from_item @ ..] = from else {
        return T::append(out, all);
    };
    let [n, to_item @ ..] = to else {
        return T::append(out, all);
    };
    let item_size = size / *n;
    for k in 0..*m {
        let item = part(all, k, all.len() / *m);
        append_padded(out, fill, from_item, to_item, item_size, item)?;
    }
    append_fills(out, fill, n.saturating_sub(*m) * item_size)
}

/// Appends the elements of a result, brought to the common shape.
pub fn append_result<T: Stored>(
    out: &mut Vec<T>,
    fill: &T,
    common: &[usize],
    size: usize,
    axes: &[usize],
    all: &[T],
) -> Result<(), NoMemory>
    requires rank { length axes.now ≤ length common.now }
    requires few { length common.now ≤ 32 }
    requires size { size ≡ product common.now }
    requires some { 0 < size }
    requires many { length all.now ≡ product axes.now }
    ensures { OnOk result (out.new.items ≡ out.old.items ++ padded fill.now (with_rank (length common.now) axes.now) common.now all.now) }
{
    if axes == common {
        return T::append(out, all);
    }
    let from = with_rank(common.len(), axes);
    append_padded(out, fill, from.axes(), common, size, all)
}
