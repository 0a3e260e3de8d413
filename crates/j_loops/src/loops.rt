// The loops that fill a slice with results: `left` pairs in a row have one element of x, and `right` one of y.
ghost use Rattle.std.specs.Prelude.{◌≡◌, ◌<◌, ◌^◌, ◌*◌, length};
ghost use Rattle.j_loops.specs.Results.{AreResults, IsWritten};

use crate::op::Op;
use crate::stored::Stored;
use j_definitions::Fault;

/// Lists of one length. The top bit of the mask is set where a result may be wrong.
fn fill_equal<X: Copy, Y: Copy, Z: Stored, O: Op<X, Y, Z>>(x: &[X], y: &[Y], out: &mut [Z]) -> u64
    requires left { length x.now ≡ length out.old }
    requires right { length y.now ≡ length out.old }
    ensures { result < 2 ^ 63 → AreResults O.left_atom O.right_atom Z.atom Z.IsKept O.meaning 1 1 x.now y.now out.new (length out.new) }
{
    let mut bad = 0;
    for k in 0..out.len() {
        let (z, mask) = O::quick(x[k], y[k]);
        out[k] = z;
        bad |= mask;
        if O::STOPS && mask >= 1 << 63 {
            return mask;
        }
    }
    bad
}

/// Each element of x beside `left` of y.
fn fill_left<X: Copy, Y: Copy, Z: Stored, O: Op<X, Y, Z>>(
    x: &[X],
    left: usize,
    y: &[Y],
    out: &mut [Z],
) -> u64
    requires left { length x.now * left ≡ length out.old }
    requires right { length y.now ≡ length out.old }
    ensures { result < 2 ^ 63 → AreResults O.left_atom O.right_atom Z.atom Z.IsKept O.meaning left 1 x.now y.now out.new (length out.new) }
{
    let mut bad = 0;
    let mut start = 0;
    for i in 0..x.len() {
        let a = x[i];
        let end = start + left;
        for k in start..end {
            let (z, mask) = O::quick(a, y[k]);
            out[k] = z;
            bad |= mask;
            if O::STOPS && mask >= 1 << 63 {
                return mask;
            }
        }
        start = end;
    }
    bad
}

/// Each element of y beside `right` of x.
fn fill_right<X: Copy, Y: Copy, Z: Stored, O: Op<X, Y, Z>>(
    x: &[X],
    y: &[Y],
    right: usize,
    out: &mut [Z],
) -> u64
    requires left { length x.now ≡ length out.old }
    requires right { length y.now * right ≡ length out.old }
    ensures { result < 2 ^ 63 → AreResults O.left_atom O.right_atom Z.atom Z.IsKept O.meaning 1 right x.now y.now out.new (length out.new) }
{
    let mut bad = 0;
    let mut start = 0;
    for i in 0..y.len() {
        let b = y[i];
        let end = start + right;
        for k in start..end {
            let (z, mask) = O::quick(x[k], b);
            out[k] = z;
            bad |= mask;
            if O::STOPS && mask >= 1 << 63 {
                return mask;
            }
        }
        start = end;
    }
    bad
}

/// One pair at a time, up to the first fault.
pub fn fill_exact<X: Copy, Y: Copy, Z: Stored, O: Op<X, Y, Z>>(
    x: &[X],
    left: usize,
    y: &[Y],
    right: usize,
    out: &mut [Z],
) -> Result<(), Fault>
    requires left { length x.now * left ≡ length out.old }
    requires right { length y.now * right ≡ length out.old }
    ensures { IsWritten O.left_atom O.right_atom Z.atom Z.IsKept O.meaning left right x.now y.now out.new result }
{
    for k in 0..out.len() {
        match O::exact(x[k / left], y[k / right]) {
            Ok(z) => out[k] = z,
            Err(e) => return Err(e),
        }
    }
    Ok(())
}

/// The top bit of the mask is set where a result may be wrong.
pub fn fill_quick<X: Copy, Y: Copy, Z: Stored, O: Op<X, Y, Z>>(
    x: &[X],
    left: usize,
    y: &[Y],
    right: usize,
    out: &mut [Z],
) -> u64
    requires left { length x.now * left ≡ length out.old }
    requires right { length y.now * right ≡ length out.old }
    ensures { result < 2 ^ 63 → AreResults O.left_atom O.right_atom Z.atom Z.IsKept O.meaning left right x.now y.now out.new (length out.new) }
{
    if right == 1 {
        if left == 1 {
            fill_equal::<X, Y, Z, O>(x, y, out)
        } else {
            fill_left::<X, Y, Z, O>(x, left, y, out)
        }
    } else if left == 1 {
        fill_right::<X, Y, Z, O>(x, y, right, out)
    } else {
        1 << 63
    }
}
