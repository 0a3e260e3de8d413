// The places of cells among items, as both are stored.
ghost use Rattle.std.specs.Prelude.{◌≡◌, ◌<◌, ◌≤◌, ◌*◌, pos, length, map, replicate, IfOk};
ghost use Rattle.j_definitions.specs.Array.{number, byte, boxed};
ghost use Rattle.j_noun.specs.Viewed.{viewed};
ghost use Rattle.j_search.specs.Sought.{atom_places};

use crate::seeking::{Side, Sizes, find_each};
use crate::ways::find_numbers;
use j_noun::{NoMemory, Noun, Pool, View};
use j_rank::filled;

// Bits as whole numbers.
fn widened(pool: &mut Pool, bits: &[u8]) -> Result<Vec<i64>, NoMemory>
    ensures { IfOk result (λ v. map number v.items ≡ map (λ b. number (pos b)) bits.now) }
{
    let mut numbers = pool.ints(bits.len())?;
    for b in bits {
        let Ok(()) = numbers.push(i64::from(*b)) else {
            return Err(NoMemory);
        };
    }
    Ok(numbers)
}

/// One place for all cells.
pub fn everywhere(pool: &mut Pool, place: usize, cells: usize) -> Result<Vec<i64>, NoMemory>
    requires { place ≤ 4194304 }
    ensures { IfOk result (λ v. v.items ≡ replicate cells (pos place)) }
{
    let number = place as i64;
    filled(pool, &number, cells)
}

// The places among numbers.
fn among_wholes(
    pool: &mut Pool,
    side: Side,
    sizes: Sizes,
    a: &[i64],
    y: View<'_>,
) -> Result<Vec<i64>, NoMemory>
    requires items { length a.now ≡ sizes.items * sizes.size }
    requires cells { length (viewed y) ≡ sizes.cells * sizes.size }
    requires some { 0 < sizes.size }
    requires few { sizes.items ≤ 4194304 }
    ensures { IfOk result (λ v. v.items ≡ atom_places side sizes.size sizes.items sizes.cells (map number a.now) (viewed y.entry)) }
{
    match y {
        View::Wholes(b) => find_numbers(pool, side, sizes, a, b),
        View::Bits(b) => {
            let numbers = widened(pool, b)?;
            find_numbers(pool, side, sizes, a, &numbers)
        }
        View::Bytes(_) => everywhere(pool, sizes.items, sizes.cells),
        View::Boxes(_) => everywhere(pool, sizes.items, sizes.cells),
    }
}

// The places among bits.
fn among_bits(
    pool: &mut Pool,
    side: Side,
    sizes: Sizes,
    a: &[u8],
    y: View<'_>,
) -> Result<Vec<i64>, NoMemory>
    requires items { length a.now ≡ sizes.items * sizes.size }
    requires cells { length (viewed y) ≡ sizes.cells * sizes.size }
    requires some { 0 < sizes.size }
    requires few { sizes.items ≤ 4194304 }
    ensures { IfOk result (λ v. v.items ≡ atom_places side sizes.size sizes.items sizes.cells (map (λ b. number (pos b)) a.now) (viewed y.entry)) }
{
    match y {
        View::Wholes(b) => {
            let numbers = widened(pool, a)?;
            find_numbers(pool, side, sizes, &numbers, b)
        }
        View::Bits(b) => find_numbers(pool, side, sizes, a, b),
        View::Bytes(_) => everywhere(pool, sizes.items, sizes.cells),
        View::Boxes(_) => everywhere(pool, sizes.items, sizes.cells),
    }
}

// The places among characters.
fn among_bytes(
    pool: &mut Pool,
    side: Side,
    sizes: Sizes,
    a: &[u8],
    y: View<'_>,
) -> Result<Vec<i64>, NoMemory>
    requires items { length a.now ≡ sizes.items * sizes.size }
    requires cells { length (viewed y) ≡ sizes.cells * sizes.size }
    requires some { 0 < sizes.size }
    requires few { sizes.items ≤ 4194304 }
    ensures { IfOk result (λ v. v.items ≡ atom_places side sizes.size sizes.items sizes.cells (map byte a.now) (viewed y.entry)) }
{
    match y {
        View::Wholes(_) => everywhere(pool, sizes.items, sizes.cells),
        View::Bits(_) => everywhere(pool, sizes.items, sizes.cells),
        View::Bytes(b) => find_numbers(pool, side, sizes, a, b),
        View::Boxes(_) => everywhere(pool, sizes.items, sizes.cells),
    }
}

// The places among boxes.
fn among_boxes(
    pool: &mut Pool,
    side: Side,
    sizes: Sizes,
    a: &[Noun],
    y: View<'_>,
) -> Result<Vec<i64>, NoMemory>
    requires items { length a.now ≡ sizes.items * sizes.size }
    requires cells { length (viewed y) ≡ sizes.cells * sizes.size }
    requires some { 0 < sizes.size }
    requires few { sizes.items ≤ 4194304 }
    ensures { IfOk result (λ v. v.items ≡ atom_places side sizes.size sizes.items sizes.cells (map boxed a.now) (viewed y.entry)) }
{
    match y {
        View::Wholes(_) => everywhere(pool, sizes.items, sizes.cells),
        View::Bits(_) => everywhere(pool, sizes.items, sizes.cells),
        View::Bytes(_) => everywhere(pool, sizes.items, sizes.cells),
        View::Boxes(b) => find_each(pool, side, sizes, a, b),
    }
}

/// The place of each cell among the items, whose atoms are shown.
pub fn among(
    pool: &mut Pool,
    side: Side,
    sizes: Sizes,
    x: View<'_>,
    y: View<'_>,
) -> Result<Vec<i64>, NoMemory>
    requires items { length (viewed x) ≡ sizes.items * sizes.size }
    requires cells { length (viewed y) ≡ sizes.cells * sizes.size }
    requires some { 0 < sizes.size }
    requires few { sizes.items ≤ 4194304 }
    ensures { IfOk result (λ v. v.items ≡ atom_places side sizes.size sizes.items sizes.cells (viewed x.entry) (viewed y.entry)) }
{
    match x {
        View::Wholes(a) => among_wholes(pool, side, sizes, a, y),
        View::Bits(a) => among_bits(pool, side, sizes, a, y),
        View::Bytes(a) => among_bytes(pool, side, sizes, a, y),
        View::Boxes(a) => among_boxes(pool, side, sizes, a, y),
    }
}
