// The order of items.
ghost use Rattle.std.specs.Prelude.{◌≡◌, ◌<◌, ◌≤◌, ◌+◌, ◌*◌, ◌/◌, length, take, drop};
ghost use Rattle.std.specs.Cmp.Lexicographic.{slice_cmp};

use std::cmp::Ordering;

// The atoms of item i, where each has that many.
fn run_of<T>(atoms: &[T], i: usize, size: usize) -> &[T]
    requires { (i + 1) * size ≤ length atoms.now }
    ensures { result.now ≡ take size (drop (i * size) atoms.now) }
{
    let start = i * size;
    &atoms[start..start + size]
}

/// The order of items i and j of as many items.
pub fn order_runs<T: Ord>(atoms: &[T], count: usize, i: usize, j: usize) -> Ordering
    requires first { i < count }
    requires second { j < count }
    ensures { result ≡ slice_cmp T.cmp (take (length atoms.now / count) (drop (i * (length atoms.now / count)) atoms.now)) (take (length atoms.now / count) (drop (j * (length atoms.now / count)) atoms.now)) }
{
    let size = atoms.len() / count;
    run_of(atoms, i, size).cmp(run_of(atoms, j, size))
}
