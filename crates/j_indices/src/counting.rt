// Numbers in order.
ghost use Rattle.std.specs.Prelude.{◌≡◌, ◌<◌, ◌≤◌, ◌+◌, ◌*◌, ◌++◌, [], ◌∷◌, pos, length, map, unsigned_abs, OnOk, IfOk, IfErr, MatchOption, Err as ErrValue};
ghost use Rattle.std.specs.List.{range_with_len};
ghost use Rattle.j_definitions.specs.Array.{product, number};
ghost use Rattle.j_definitions.specs.Cells.{atom_at};
ghost use Rattle.j_definitions.specs.declared.Fault.TheVariants.{Domain as DomainFault};
ghost use Rattle.j_definitions.specs.Limits.{limited};
ghost use Rattle.j_noun.specs.Refused.{OrWanting};
ghost use Rattle.j_indices.specs.Counting.{integers, integers_along, integers_from, shape_along, turned, steps_around, steps_at, step_of, numbered, repeated_from, indices_of_ones};
ghost use Rattle.j_indices.specs.Numbers.{number_in, counts_of, magnitudes, and_then};

use crate::numbers::{Numbers, Whole, numbers_of, total_of};
use j_noun::{Atoms, Fault, NoMemory, Noun, Pool, Refusal, Shape, View};
use j_rank::{CELL_LIMIT, append_fills, shape_of, size_within};

// The magnitudes of lengths as axes.
fn shape_of_magnitudes<N: Whole>(lengths: &[N]) -> Result<Shape, Fault>
    ensures ok { IfOk result (λ s. s ≡ shape_along (map N.value lengths.now)) }
    ensures err { IfErr result (λ e. (e ≡ Fault.Limit) × (32 < length lengths.now)) }
{
    let mut shape = Shape::new();
    for n in lengths {
        shape.add(n.magnitude())?;
    }
    Ok(shape)
}

// Place k of an axis, from its end where the length is negative.
fn turned(length: i64, k: usize) -> usize
    requires { k < unsigned_abs length }
    ensures value { result ≡ turned length k }
    ensures within { result < unsigned_abs length }
{
    if length < 0 {
        length.unsigned_abs() as usize - 1 - k
    } else {
        k
    }
}

// Appends the integers along one axis, from a number on.
fn append_axis(out: &mut Vec<i64>, length: i64, start: usize) -> Result<(), NoMemory>
    requires { start + unsigned_abs length ≤ 4194304 }
    ensures { OnOk result (out.new.items ≡ out.old.items ++ integers_from start (length ∷ [])) }
{
    for k in 0..length.unsigned_abs() as usize {
        let number = start + turned(length, k);
        let Ok(()) = out.push(number as i64) else {
            return Err(NoMemory);
        };
    }
    Ok(())
}

// Appends the integers along axes of these lengths, from a number on.
fn append_integers<N: Whole>(
    out: &mut Vec<i64>,
    lengths: &[N],
    size: usize,
    start: usize,
) -> Result<(), NoMemory>
    requires size { size ≡ product (shape_along (map N.value lengths.now)) }
    requires some { 0 < size }
    requires few { start + size ≤ 4194304 }
    ensures { OnOk result (out.new.items ≡ out.old.items ++ integers_from start (map N.value lengths.now)) }
{
    let [first, rest @ ..] = lengths else {
        let Ok(()) = out.push(start as i64) else {
            return Err(NoMemory);
        };
        return Ok(());
    };
    let length = first.whole();
    if rest.is_empty() {
        return append_axis(out, length, start);
    }
    let count = length.unsigned_abs() as usize;
    let step = size / count;
    for k in 0..count {
        append_integers(out, rest, step, start + turned(length, k) * step)?;
    }
    Ok(())
}

// All integers along axes of these lengths.
fn integers_listed<N: Whole>(
    pool: &mut Pool,
    lengths: &[N],
    size: usize,
) -> Result<Vec<i64>, NoMemory>
    requires size { size ≡ product (shape_along (map N.value lengths.now)) }
    requires few { size ≤ 4194304 }
    ensures { IfOk result (λ v. v.items ≡ integers_from 0 (map N.value lengths.now)) }
{
    let mut out = pool.ints(size)?;
    if size == 0 {
        return Ok(out);
    }
    append_integers(&mut out, lengths, size, 0)?;
    Ok(out)
}

// The integers in the shape of the magnitudes.
fn integers_of<N: Whole>(pool: &mut Pool, lengths: &[N]) -> Result<Noun, Refusal>
    ensures { OrWanting (limited (integers_along (map N.value lengths.now))) result }
{
    let Ok(shape) = shape_of_magnitudes(lengths) else {
        return Err(Refusal::Fault(Fault::Limit));
    };
    let Some(size) = size_within(shape.axes()) else {
        return Err(Refusal::Fault(Fault::Limit));
    };
    let integers = integers_listed(pool, lengths, size)?;
    Noun::make(pool, shape, Atoms::Wholes(integers))
}

/// `i. y`: 0, 1, .. in the shape of the magnitudes of y.
pub fn integers(pool: &mut Pool, y: &Noun) -> Result<Noun, Refusal>
    requires { length y.now.shape ≤ 1 }
    ensures { OrWanting (integers y.now) result }
{
    match numbers_of(y) {
        None => Err(Refusal::Fault(Fault::Domain)),
        Some(Numbers::Wholes(v)) => integers_of(pool, v),
        Some(Numbers::Bits(v)) => integers_of(pool, v),
    }
}

// The number of an atom, or none where it is no number.
fn number_of(y: &Noun) -> Option<i64>
    requires { y.now.shape ≡ [] }
    ensures { MatchOption result (number_in (atom_at y.now.atoms 0) ≡ ErrValue DomainFault) (λ z. atom_at y.now.atoms 0 ≡ number z) }
{
    match y.view() {
        View::Wholes(v) => Some(v[0]),
        View::Bits(v) => Some(i64::from(v[0])),
        View::Bytes(_) => None,
        View::Boxes(_) => None,
    }
}

// Step k from -n up, or from -n down where n is negative.
fn step_of(n: i64, k: usize) -> i64
    requires few { unsigned_abs n ≤ 4194304 }
    requires within { k ≤ 2 * unsigned_abs n }
    ensures { result ≡ step_of n k }
{
    if n < 0 { -n - k as i64 } else { k as i64 - n }
}

// All steps of n.
fn steps_listed(pool: &mut Pool, n: i64, count: usize) -> Result<Vec<i64>, NoMemory>
    requires few { unsigned_abs n ≤ 4194304 }
    requires count { count ≡ 2 * unsigned_abs n + 1 }
    ensures { IfOk result (λ v. map number v.items ≡ map (λ k. number (step_of n k)) (range_with_len 0 count)) }
{
    let mut out = pool.ints(count)?;
    for k in 0..count {
        let step = step_of(n, k);
        let Ok(()) = out.push(step) else {
            return Err(NoMemory);
        };
    }
    Ok(out)
}

// The steps of a number.
fn steps_of(pool: &mut Pool, n: i64) -> Result<Noun, Refusal>
    ensures { OrWanting (steps_at (number n)) result }
{
    let magnitude = n.unsigned_abs();
    if magnitude >= 1 << 63 {
        return Err(Refusal::Fault(Fault::Overflow));
    }
    let count = 2 * magnitude as usize + 1;
    if count > CELL_LIMIT {
        return Err(Refusal::Fault(Fault::Limit));
    }
    let steps = steps_listed(pool, n, count)?;
    Noun::make(pool, shape_of(&[count]), Atoms::Wholes(steps))
}

/// `i: y`: the numbers from -y to y.
pub fn steps_around(pool: &mut Pool, y: &Noun) -> Result<Noun, Refusal>
    requires { y.now.shape ≡ [] }
    ensures { OrWanting (steps_around y.now) result }
{
    match number_of(y) {
        None => Err(Refusal::Fault(Fault::Domain)),
        Some(n) => steps_of(pool, n),
    }
}

// Each place as often as its count says.
fn indices_listed<N: Whole>(
    pool: &mut Pool,
    counts: &[N],
    total: usize,
) -> Result<Vec<i64>, NoMemory>
    requires { length counts.now ≤ 4194304 }
    ensures { IfOk result (λ v. v.items ≡ map (λ k. pos k) (repeated_from 0 (magnitudes (map N.value counts.now)))) }
{
    let mut out = pool.ints(total)?;
    for (k, n) in counts.iter().enumerate() {
        let index = k as i64;
        append_fills(&mut out, &index, n.magnitude())?;
    }
    Ok(out)
}

// The places that counts repeat.
fn indices_of<N: Whole>(pool: &mut Pool, counts: &[N]) -> Result<Noun, Refusal>
    requires { length counts.now ≤ 4194304 }
    ensures { OrWanting (and_then (counts_of (map N.value counts.now)) (λ ns. limited (numbered (repeated_from 0 ns)))) result }
{
    let Some(total) = total_of(counts) else {
        return Err(Refusal::Fault(Fault::Domain));
    };
    if total > CELL_LIMIT {
        return Err(Refusal::Fault(Fault::Limit));
    }
    let indices = indices_listed(pool, counts, total)?;
    Noun::make(pool, shape_of(&[total]), Atoms::Wholes(indices))
}

/// `I. y`: the place k repeated y_k times.
pub fn indices_of_ones(pool: &mut Pool, y: &Noun) -> Result<Noun, Refusal>
    requires { length y.now.shape ≤ 1 }
    ensures { OrWanting (indices_of_ones y.now) result }
{
    match numbers_of(y) {
        None => Err(Refusal::Fault(Fault::Domain)),
        Some(Numbers::Wholes(v)) => indices_of(pool, v),
        Some(Numbers::Bits(v)) => indices_of(pool, v),
    }
}
