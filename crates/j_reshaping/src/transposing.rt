// The axes of a noun in another order.
ghost use Rattle.std.specs.Prelude.{◌≡◌, ◌<◌, ◌≤◌, ◌+◌, ◌++◌, [], ◌∷◌, length, map, reverse, pos, false, IfOk, IfErr, OnOk, Ok as OkValue};
ghost use Rattle.std.specs.List.{All, filter, list_any};
ghost use Rattle.std.specs.Ordering.{int_eq};
ghost use Rattle.j_definitions.specs.Array.{number, product};
ghost use Rattle.j_definitions.specs.Cells.{in_order};
ghost use Rattle.j_definitions.specs.Limits.{limited};
ghost use Rattle.j_noun.specs.Held.{AreAtoms};
ghost use Rattle.j_noun.specs.Refused.{OrWanting, OrWantingAs};
ghost use Rattle.j_reshaping.specs.Axes.{places, axis_length, axis_step, with_axes, axes_of, transpose, counted, repeats, axis_of, is_other, others, axes_last, counted_last, transpose_by};
ghost use Rattle.j_reshaping.specs.Steps.{reach, elements_at, IsOrder, atoms_at};

use j_noun::{Atoms, Fault, NoMemory, Noun, Pool, Refusal, Shape, View};
use j_rank::{Stored, fills, has_no_atoms, size_within};

// Appends the elements in equal steps from a start.
fn append_steps<T: Stored>(
    out: &mut Vec<T>,
    run: &[T],
    start: usize,
    count: usize,
    step: usize,
) -> Result<(), NoMemory>
    requires { start + reach (count ∷ []) (step ∷ []) ≤ length run.now }
    ensures { OnOk result (out.new.items ≡ out.old.items ++ elements_at run.now (places start (count ∷ []) (step ∷ []))) }
{
    if step == 1 {
        return T::append(out, &run[start..start + count]);
    }
    for i in 0..count {
        T::append_one(out, &run[start + i * step])?;
    }
    Ok(())
}

// Appends the elements from a start, along axes of these lengths, where a step along each passes so many.
fn append_along<T: Stored>(
    out: &mut Vec<T>,
    run: &[T],
    start: usize,
    lengths: &[usize],
    steps: &[usize],
) -> Result<(), NoMemory>
    requires rank { length lengths.now ≡ length steps.now }
    requires within { start + reach lengths.now steps.now ≤ length run.now }
    ensures { OnOk result (out.new.items ≡ out.old.items ++ elements_at run.now (places start lengths.now steps.now)) }
{
    let [n, inner_lengths @ ..] = lengths else {
        return T::append_one(out, &run[start]);
    };
    let [d, inner_steps @ ..] = steps else {
        return T::append_one(out, &run[start]);
    };
    if inner_lengths.is_empty() {
        return append_steps(out, run, start, *n, *d);
    }
    for i in 0..*n {
        append_along(out, run, start + i * *d, inner_lengths, inner_steps)?;
    }
    Ok(())
}

// The elements along axes, from the first one.
fn along<T: Stored>(
    pool: &mut Pool,
    run: &[T],
    lengths: &[usize],
    steps: &[usize],
) -> Result<Vec<T>, NoMemory>
    requires rank { length lengths.now ≡ length steps.now }
    requires within { reach lengths.now steps.now ≤ length run.now }
    ensures { IfOk result (λ v. v.items ≡ elements_at run.now (places 0 lengths.now steps.now)) }
{
    let mut out = T::buffer(pool, run.len())?;
    append_along(&mut out, run, 0, lengths, steps)?;
    Ok(out)
}

// The lengths of axes in an order.
fn lengths_by(order: &[usize], axes: &[usize]) -> Result<Shape, Fault>
    requires { All (λ a. a < length axes.now) order.now }
    ensures ok { IfOk result (λ s. s ≡ map (axis_length axes.now) order.now) }
    ensures err { IfErr result (λ e. (e ≡ Fault.Limit) × (32 < length order.now)) }
{
    let mut lengths = Shape::new();
    for a in order {
        lengths.add(axes[*a])?;
    }
    Ok(lengths)
}

// How many atoms one step along an axis passes.
fn step_along(axes: &[usize], a: usize) -> usize
    requires axis { a < length axes.now }
    requires some { 0 < product axes.now }
    requires few { product axes.now ≤ 4194304 }
    ensures { result ≡ axis_step axes.now a }
{
    match size_within(&axes[a + 1..]) {
        Some(step) => step,
        None => unreachable!(),
    }
}

// How many atoms one step along each axis passes, in an order.
fn steps_by(order: &[usize], axes: &[usize]) -> Result<Shape, Fault>
    requires within { All (λ a. a < length axes.now) order.now }
    requires some { 0 < product axes.now }
    requires few { product axes.now ≤ 4194304 }
    ensures ok { IfOk result (λ s. s ≡ map (axis_step axes.now) order.now) }
    ensures err { IfErr result (λ e. (e ≡ Fault.Limit) × (32 < length order.now)) }
{
    let mut steps = Shape::new();
    for a in order {
        steps.add(step_along(axes, *a))?;
    }
    Ok(steps)
}

// The atoms along axes, from the first one.
fn atoms_along(
    pool: &mut Pool,
    y: &Noun,
    lengths: &[usize],
    steps: &[usize],
) -> Result<Atoms, NoMemory>
    requires rank { length lengths.now ≡ length steps.now }
    requires within { reach lengths.now steps.now ≤ length y.now.atoms }
    ensures { IfOk result (λ a. AreAtoms a y.now.kind (atoms_at y.now.atoms (places 0 lengths.now steps.now))) }
{
    match y.view() {
        View::Wholes(v) => Ok(Atoms::Wholes(along(pool, v, lengths, steps)?)),
        View::Bits(v) => Ok(Atoms::Bits(along(pool, v, lengths, steps)?)),
        View::Bytes(v) => Ok(Atoms::Bytes(along(pool, v, lengths, steps)?)),
        View::Boxes(v) => Ok(Atoms::Boxes(along(pool, v, lengths, steps)?)),
    }
}

// A noun that has atoms, with its axes in that order.
fn atoms_ordered(pool: &mut Pool, shape: Shape, order: &[usize], y: &Noun) -> Result<Noun, Refusal>
    requires order { IsOrder (length y.now.shape) order.now }
    requires shape { shape ≡ map (axis_length y.now.shape) order.now }
    requires some { 0 < length y.now.atoms }
    ensures { OrWanting (limited (with_axes order.now y.now)) result }
{
    let _ = y.view();
    match steps_by(order, y.axes()) {
        Ok(steps) => {
            let atoms = atoms_along(pool, y, shape.axes(), steps.axes())?;
            Noun::make(pool, shape, atoms)
        }
        Err(fault) => Err(Refusal::Fault(fault)),
    }
}

// A noun that has no atoms, with its axes in that order.
fn none_ordered(pool: &mut Pool, shape: Shape, order: &[usize], y: &Noun) -> Result<Noun, Refusal>
    requires order { IsOrder (length y.now.shape) order.now }
    requires shape { shape ≡ map (axis_length y.now.shape) order.now }
    requires none { y.now.atoms ≡ [] }
    ensures { OrWanting (limited (with_axes order.now y.now)) result }
{
    let _ = y.view();
    let none = fills(pool, y.kind(), 0)?;
    Noun::make(pool, shape, none)
}

// The axes in that order.
fn ordered(pool: &mut Pool, order: &[usize], y: &Noun) -> Result<Noun, Refusal>
    requires { IsOrder (length y.now.shape) order.now }
    ensures { OrWanting (limited (with_axes order.now y.now)) result }
{
    match lengths_by(order, y.axes()) {
        Ok(shape) => {
            if has_no_atoms(y) {
                return none_ordered(pool, shape, order, y);
            }
            atoms_ordered(pool, shape, order, y)
        }
        Err(fault) => Err(Refusal::Fault(fault)),
    }
}

// The axes from the last to the first, of which there are at most 32.
fn reversed_axes(n: usize) -> Shape
    requires { n ≤ 32 }
    ensures { result ≡ reverse (axes_of n) }
{
    let mut order = Shape::new();
    for k in 0..n {
        match order.add(n - 1 - k) {
            Ok(()) => {}
            Err(_) => unreachable!(),
        }
    }
    order
}

/// `|: y`: the axes in reverse.
pub fn transpose(pool: &mut Pool, y: &Noun) -> Result<Noun, Refusal>
    ensures { OrWanting (transpose y.now) result }
{
    let order = reversed_axes(y.axes().len());
    ordered(pool, order.axes(), y)
}

// The axis that a number counts, of n, from the end where it is negative.
fn counted_number(z: i64, n: usize) -> i64
    requires { n ≤ 32 }
    ensures { OkValue result ≡ counted n (number z) }
{
    if z < 0 { z + n as i64 } else { z }
}

// Appends a number.
fn append_number(numbers: &mut Vec<i64>, z: i64) -> Result<(), NoMemory>
    ensures { OnOk result (numbers.new.items ≡ numbers.old.items ++ z ∷ []) }
{
    let is_appended = numbers.push(z).is_ok();
    if is_appended { Ok(()) } else { Err(NoMemory) }
}

// The axes that whole numbers count.
fn counted_wholes(pool: &mut Pool, wholes: &[i64], n: usize) -> Result<Vec<i64>, NoMemory>
    requires { n ≤ 32 }
    ensures { IfOk result (λ v. in_order (map (counted n) (map number wholes.now)) ≡ OkValue v.items) }
{
    let mut axes = pool.ints(wholes.len())?;
    for z in wholes {
        append_number(&mut axes, counted_number(*z, n))?;
    }
    Ok(axes)
}

// The axes that bits count.
fn counted_bits(pool: &mut Pool, bits: &[u8], n: usize) -> Result<Vec<i64>, NoMemory>
    ensures { IfOk result (λ v. in_order (map (counted n) (map (λ b. number (pos b)) bits.now)) ≡ OkValue v.items) }
{
    let mut axes = pool.ints(bits.len())?;
    for b in bits {
        append_number(&mut axes, i64::from(*b))?;
    }
    Ok(axes)
}

// The axes that a number list counts.
fn counted_axes(pool: &mut Pool, x: &Noun, n: usize) -> Result<Vec<i64>, Refusal>
    requires { n ≤ 32 }
    ensures { OrWantingAs (λ v. v.items) (in_order (map (counted n) x.now.atoms)) result }
{
    if has_no_atoms(x) {
        return Ok(pool.ints(0)?);
    }
    match x.view() {
        View::Wholes(wholes) => Ok(counted_wholes(pool, wholes, n)?),
        View::Bits(bits) => Ok(counted_bits(pool, bits, n)?),
        View::Bytes(_) => Err(Refusal::Fault(Fault::Domain)),
        View::Boxes(_) => Err(Refusal::Fault(Fault::Domain)),
    }
}

// Whether a number stands in a list.
fn stands_in(z: i64, numbers: &[i64]) -> bool
    ensures { result ≡ list_any (int_eq z) numbers.now }
{
    for other in numbers {
        if *other == z {
            return true;
        }
    }
    false
}

// Whether a number stands twice in a list.
fn has_repeat(numbers: &[i64]) -> bool
    ensures { result ≡ repeats numbers.now }
{
    for k in 0..numbers.len() {
        if stands_in(numbers[k], &numbers[k + 1..]) {
            return true;
        }
    }
    false
}

// The axis of n that was counted.
fn axis_of(z: i64, n: usize) -> Result<usize, Fault>
    ensures value { result ≡ axis_of n z }
    ensures axis { IfOk result (λ a. (z ≡ pos a) × (a < n)) }
{
    if z < 0 || z as usize >= n {
        return Err(Fault::Index);
    }
    Ok(z as usize)
}

// The axes of n that were counted.
fn axes_counted(pool: &mut Pool, numbers: &[i64], n: usize) -> Result<Vec<usize>, Refusal>
    ensures value { OrWantingAs (λ v. v.items) (in_order (map (axis_of n) numbers.now)) result }
    ensures same { IfOk result (λ v. map pos v.items ≡ numbers.now) }
    ensures within { IfOk result (λ v. All (λ a. a < n) v.items) }
{
    let mut axes: Vec<usize> = pool.fresh(numbers.len())?;
    for z in numbers {
        match axis_of(*z, n) {
            Ok(a) => append_axis(&mut axes, a)?,
            Err(fault) => return Err(Refusal::Fault(fault)),
        }
    }
    Ok(axes)
}

// Appends an axis.
fn append_axis(axes: &mut Vec<usize>, a: usize) -> Result<(), NoMemory>
    ensures { OnOk result (axes.new.items ≡ axes.old.items ++ a ∷ []) }
{
    let is_appended = axes.push(a).is_ok();
    if is_appended { Ok(()) } else { Err(NoMemory) }
}

// Appends an axis that isn't in a list.
fn append_other(order: &mut Vec<usize>, a: usize, axes: &[usize]) -> Result<(), NoMemory>
    ensures { OnOk result (order.new.items ≡ order.old.items ++ filter (is_other axes.now) (a ∷ [])) }
{
    if axes.contains(&a) {
        return Ok(());
    }
    append_axis(order, a)
}

// The axes of n last, and the others before.
fn order_of(pool: &mut Pool, axes: &[usize], n: usize) -> Result<Vec<usize>, NoMemory>
    ensures { IfOk result (λ v. v.items ≡ others n axes.now ++ axes.now) }
{
    let mut order: Vec<usize> = pool.fresh(n)?;
    for a in 0..n {
        append_other(&mut order, a, axes)?;
    }
    let is_appended = order.extend_from_slice(axes).is_ok();
    if is_appended {
        Ok(order)
    } else {
        Err(NoMemory)
    }
}

// The axes last, which stand there once.
fn with_last(pool: &mut Pool, axes: &[usize], y: &Noun) -> Result<Noun, Refusal>
    requires within { All (λ a. a < length y.now.shape) axes.now }
    requires once { repeats (map pos axes.now) ≡ false }
    ensures { OrWanting (axes_last (OkValue axes.now) y.now) result }
{
    let order = order_of(pool, axes, y.axes().len())?;
    ordered(pool, &order, y)
}

// The counted axes last.
fn with_counted(pool: &mut Pool, numbers: &[i64], y: &Noun) -> Result<Noun, Refusal>
    ensures { OrWanting (counted_last (OkValue numbers.now) y.now) result }
{
    if has_repeat(numbers) {
        return Err(Refusal::Fault(Fault::Domain));
    }
    match axes_counted(pool, numbers, y.axes().len()) {
        Ok(axes) => with_last(pool, &axes, y),
        Err(refusal) => Err(refusal),
    }
}

/// `x |: y` on a cell: the axes x last, in the order of x, and the others before.
pub fn transpose_by(pool: &mut Pool, x: &Noun, y: &Noun) -> Result<Noun, Refusal>
    requires { length x.now.shape ≤ 1 }
    ensures { OrWanting (transpose_by x.now y.now) result }
{
    match counted_axes(pool, x, y.axes().len()) {
        Ok(numbers) => with_counted(pool, &numbers, y),
        Err(refusal) => Err(refusal),
    }
}
