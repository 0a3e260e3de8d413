// The first and the last run that matches.
ghost use Rattle.std.specs.Prelude.{◌≡◌, ◌≤◌, ◌*◌, length, IfOk};
ghost use Rattle.std.specs.Cmp.Lexicographic.{pointwise};
ghost use Rattle.j_definitions.specs.Array.{arrays_match};
ghost use Rattle.j_search.specs.Matching.{first_of, last_of};
ghost use Rattle.j_search.specs.Sought.{run, place_of, run_places};

use j_noun::{NoMemory, Noun, Pool};
use j_rank::part;

/// Which of the items that match is meant.
#[derive(Clone, Copy, PartialEq, Eq, Debug)]
pub enum Side {
    First,
    Last,
}

/// How many items and how many cells there are, and how many elements each of them has.
#[derive(Clone, Copy)]
pub struct Sizes {
    pub items: usize,
    pub cells: usize,
    pub size: usize,
}

/// An element of a buffer that is compared with others.
pub trait Key: Drop {
    ghost use Rattle.std.specs.Prelude.{Bool};

    ghost same: { Self → Self → Bool };

    /// Whether the runs are equal.
    fn runs_match(a: &[Self], b: &[Self]) -> bool
        ensures { result ≡ pointwise same a.now b.now };
}

impl Key for i64 {
    ghost use Rattle.std.specs.Ordering.{int_eq};

    ghost same = { int_eq };

    fn runs_match(a: &[i64], b: &[i64]) -> bool {
        a == b
    }
}

impl Key for u8 {
    ghost use Rattle.std.specs.Prelude.{◌==◌};

    ghost same = { ◌==◌ };

    fn runs_match(a: &[u8], b: &[u8]) -> bool {
        a == b
    }
}

impl Key for Noun {
    ghost same = { arrays_match };

    fn runs_match(a: &[Noun], b: &[Noun]) -> bool {
        nouns_match(a, b)
    }
}

// Whether each pair of nouns matches.
fn nouns_match(a: &[Noun], b: &[Noun]) -> bool
    ensures { result ≡ pointwise arrays_match a.now b.now }
{
    if a.len() != b.len() {
        return false;
    }
    for i in 0..a.len() {
        if !a[i].matches(&b[i]) {
            return false;
        }
    }
    true
}

// The first item that matches a cell, or the number of items.
fn first_match<T: Key>(items: &[T], count: usize, size: usize, cell: &[T]) -> usize
    requires { length items.now ≡ count * size }
    ensures value { result ≡ first_of (λ j. pointwise T.same (run size items.now j) cell.now) count }
    ensures within { result ≤ count }
{
    for j in 0..count {
        if T::runs_match(part(items, j, size), cell) {
            return j;
        }
    }
    count
}

// The last item that matches a cell, or the number of items.
fn last_match<T: Key>(items: &[T], count: usize, size: usize, cell: &[T]) -> usize
    requires { length items.now ≡ count * size }
    ensures value { result ≡ last_of (λ j. pointwise T.same (run size items.now j) cell.now) count }
    ensures within { result ≤ count }
{
    for behind in 0..count {
        let j = count - 1 - behind;
        if T::runs_match(part(items, j, size), cell) {
            return j;
        }
    }
    count
}

// The place of a cell among the items.
fn find<T: Key>(side: Side, items: &[T], count: usize, size: usize, cell: &[T]) -> usize
    requires { length items.now ≡ count * size }
    ensures value { result ≡ place_of side (λ j. pointwise T.same (run size items.now j) cell.now) count }
    ensures within { result ≤ count }
{
    match side {
        Side::First => first_match(items, count, size, cell),
        Side::Last => last_match(items, count, size, cell),
    }
}

/// The place of each cell among the items.
pub fn find_each<T: Key>(
    pool: &mut Pool,
    side: Side,
    sizes: Sizes,
    items: &[T],
    cells: &[T],
) -> Result<Vec<i64>, NoMemory>
    requires items { length items.now ≡ sizes.items * sizes.size }
    requires cells { length cells.now ≡ sizes.cells * sizes.size }
    requires few { sizes.items ≤ 4194304 }
    ensures { IfOk result (λ v. v.items ≡ run_places T.same side sizes.size sizes.items sizes.cells items.now cells.now) }
{
    let mut places = pool.ints(sizes.cells)?;
    for k in 0..sizes.cells {
        let place = find(
            side,
            items,
            sizes.items,
            sizes.size,
            part(cells, k, sizes.size),
        );
        let Ok(()) = places.push(place as i64) else {
            return Err(NoMemory);
        };
    }
    Ok(places)
}
