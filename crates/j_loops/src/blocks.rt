// One pass over long lists: each block of results is made in cache and appended, so that no buffer is filled with zeros first.
ghost use Rattle.std.specs.Prelude.{◌≡◌, ◌≢◌, ℕ, ◌+◌, ◌-◌, ◌*◌, ◌/◌, ◌<◌, ◌≤◌, ◌^◌, [], length, take, drop, true, Ok as OkValue, vec_len};
ghost use lib.ListN.{get_or};
ghost use Rattle.j_loops.specs.Results.{AreResults};

use crate::loops::fill_quick;
use crate::op::Op;
use crate::stored::Stored;
use j_noun::NoMemory;
use std::cmp;

/// What `len` pairs from `start` on read of one side, and how many of them in a row share each element.
fn part<X: Copy>(x: &[X], times: usize, start: usize, len: usize) -> (&[X], usize)
    requires alone { times ≢ 1 → length x.now ≡ 1 }
    requires within { start + len ≤ length x.now * times }
    requires some { 0 < len }
    ensures many { length result.0.now * result.1 ≡ len }
    ensures same { (k : ℕ) (a : X) → k < len → get_or result.0.now (k / result.1) a ≡ get_or x.now ((start + k) / times) a }
{
    if times == 1 {
        (&x[start..start + len], 1)
    } else {
        (x, len)
    }
}

/// Fills the end of a slice from `start` on, or answers `false` where one of the results may be wrong.
fn fill_from<X: Copy, Y: Copy, Z: Stored, O: Op<X, Y, Z>>(
    x: &[X],
    left: usize,
    y: &[Y],
    right: usize,
    start: usize,
    out: &mut [Z],
) -> bool
    requires within { start ≤ length out.old }
    requires left { length x.now * left ≡ length out.old - start }
    requires right { length y.now * right ≡ length out.old - start }
    ensures front { take start out.new ≡ take start out.old }
    ensures results { result ≡ true → AreResults O.left_atom O.right_atom Z.atom Z.IsKept O.meaning left right x.now y.now (drop start out.new) (length out.new - start) }
{
    fill_quick::<X, Y, Z, O>(x, left, y, right, &mut out[start..]) < 1 << 63
}

/// Appends the results up to `end`, or answers `false` where one of them may be wrong.
fn append_block<X: Copy, Y: Copy, Z: Stored, O: Op<X, Y, Z>>(
    x: &[X],
    left: usize,
    y: &[Y],
    right: usize,
    end: usize,
    out: &mut Vec<Z>,
) -> Result<bool, NoMemory>
    requires x_alone { left ≢ 1 → length x.now ≡ 1 }
    requires y_alone { right ≢ 1 → length y.now ≡ 1 }
    requires some { vec_len out.old < end }
    requires x_within { end ≤ length x.now * left }
    requires y_within { end ≤ length y.now * right }
    requires before { AreResults O.left_atom O.right_atom Z.atom Z.IsKept O.meaning left right x.now y.now out.old.items (vec_len out.old) }
    ensures more { result ≡ OkValue true → vec_len out.new ≡ end }
    ensures results { result ≡ OkValue true → AreResults O.left_atom O.right_atom Z.atom Z.IsKept O.meaning left right x.now y.now out.new.items end }
{
    let start = out.len();
    let (a, l) = part(x, left, start, end - start);
    let (b, r) = part(y, right, start, end - start);
    let Ok(()) = out.resize(end, Z::zero()) else {
        return Err(NoMemory);
    };
    Ok(fill_from::<X, Y, Z, O>(a, l, b, r, start, out.as_mut_slice()))
}

/// Appends the results of n pairs, or answers `false` where one may be wrong: then the caller goes through them exactly.
pub fn fill_blocks<X: Copy, Y: Copy, Z: Stored, O: Op<X, Y, Z>>(
    x: &[X],
    left: usize,
    y: &[Y],
    right: usize,
    n: usize,
    out: &mut Vec<Z>,
) -> Result<bool, NoMemory>
    requires x_alone { left ≢ 1 → length x.now ≡ 1 }
    requires y_alone { right ≢ 1 → length y.now ≡ 1 }
    requires left { length x.now * left ≡ n }
    requires right { length y.now * right ≡ n }
    requires empty { out.old.items ≡ [] }
    ensures more { result ≡ OkValue true → vec_len out.new ≡ n }
    ensures results { result ≡ OkValue true → AreResults O.left_atom O.right_atom Z.atom Z.IsKept O.meaning left right x.now y.now out.new.items n }
{
    while out.len() < n {
        let end = out.len() + cmp::min(Z::lanes(), n - out.len());
        if !append_block::<X, Y, Z, O>(x, left, y, right, end, out)? {
            return Ok(false);
        }
    }
    Ok(true)
}
