// Buffers of results: `left` pairs in a row have one element of x, and `right` one of y.
ghost use Rattle.std.specs.Prelude.{◌≡◌, ◌*◌, [], length, map};
ghost use Rattle.j_loops.specs.Results.{IsWritten, outcome, IsFilled};

use crate::blocks::fill_blocks;
use crate::loops::{fill_exact, fill_quick};
use crate::op::Op;
use crate::stored::Stored;
use j_definitions::Fault;
use j_noun::{Atoms, Pool, Refusal};

/// All pairs with a mask, and where a result may be wrong one at a time.
fn fill_slice<X: Copy, Y: Copy, Z: Stored, O: Op<X, Y, Z>>(
    x: &[X],
    left: usize,
    y: &[Y],
    right: usize,
    out: &mut [Z],
) -> Result<(), Fault>
    requires left { length x.now * left ≡ length out.old }
    requires right { length y.now * right ≡ length out.old }
    ensures { IsWritten O.left_atom O.right_atom Z.atom Z.IsKept O.meaning left right x.now y.now out.new result }
{
    if fill_quick::<X, Y, Z, O>(x, left, y, right, out) < 1 << 63 {
        return Ok(());
    }
    fill_exact::<X, Y, Z, O>(x, left, y, right, out)
}

/// The results of n pairs of any frames, or the first fault.
fn fill_whole<X: Copy, Y: Copy, Z: Stored, O: Op<X, Y, Z>>(
    mut out: Vec<Z>,
    x: &[X],
    left: usize,
    y: &[Y],
    right: usize,
    n: usize,
) -> Result<Atoms, Refusal>
    requires left { length x.now * left ≡ n }
    requires right { length y.now * right ≡ n }
    requires empty { out.items ≡ [] }
    ensures { IsFilled (outcome O.meaning left right (map O.left_atom x.now) (map O.right_atom y.now) n) result }
{
    let Ok(()) = out.resize(n, Z::zero()) else {
        return Err(Refusal::NoMemory);
    };
    match fill_slice::<X, Y, Z, O>(x, left, y, right, out.as_mut_slice()) {
        Ok(()) => Ok(Z::keep(out)),
        Err(e) => Err(Refusal::Fault(e)),
    }
}

/// The results of n pairs, or the first fault. A side that is one element or has no repeats is read in blocks.
pub fn fill<X: Copy, Y: Copy, Z: Stored, O: Op<X, Y, Z>>(
    pool: &mut Pool,
    x: &[X],
    left: usize,
    y: &[Y],
    right: usize,
    n: usize,
) -> Result<Atoms, Refusal>
    requires left { length x.now * left ≡ n }
    requires right { length y.now * right ≡ n }
    ensures { IsFilled (outcome O.meaning left right (map O.left_atom x.now) (map O.right_atom y.now) n) result }
{
    let mut out = Z::buffer(pool, n)?;
    if (left == 1 || x.len() == 1) && (right == 1 || y.len() == 1) {
        if fill_blocks::<X, Y, Z, O>(x, left, y, right, n, &mut out)? {
            return Ok(Z::keep(out));
        }
        out.clear();
    }
    fill_whole::<X, Y, Z, O>(out, x, left, y, right, n)
}
