// The items of a noun in another shape.
ghost use Rattle.std.specs.Prelude.{◌≡◌, ◌<◌, ◌≤◌, ◌*◌, ◌/◌, ◌%◌, ◌++◌, ℕ, [], ◌∷◌, length, map, take, drop, pos, false, IfOk, IfErr, OnOk, Ok as OkValue};
ghost use Rattle.std.specs.List.{flat_map, range_with_len};
ghost use Rattle.j_definitions.specs.Array.{number, tally};
ghost use Rattle.j_definitions.specs.Cells.{in_order};
ghost use Rattle.j_definitions.specs.Items.{item_size};
ghost use Rattle.j_definitions.specs.Limits.{limited};
ghost use Rattle.j_noun.specs.Held.{AreAtoms};
ghost use Rattle.j_noun.specs.Refused.{OrWanting, OrWantingAs};
ghost use Rattle.j_reshaping.specs.Reshaping.{length_of, items_repeated, wants_items, in_shape, reshaped, reshape};

use j_noun::{Atoms, Fault, NoMemory, Noun, Pool, Refusal, Shape, View};
use j_rank::{Stored, extended, fills, has_no_atoms, size_within};

// The axis length that a number is.
fn whole_length(z: i64) -> Result<usize, Fault>
    ensures { result ≡ length_of (number z) }
{
    if z < 0 {
        Err(Fault::Domain)
    } else {
        Ok(z as usize)
    }
}

// Appends an axis length.
fn append_length(lengths: &mut Vec<usize>, n: usize) -> Result<(), NoMemory>
    ensures { OnOk result (lengths.new.items ≡ lengths.old.items ++ n ∷ []) }
{
    let is_appended = lengths.push(n).is_ok();
    if is_appended { Ok(()) } else { Err(NoMemory) }
}

// The axis lengths that whole numbers are.
fn whole_lengths(pool: &mut Pool, numbers: &[i64]) -> Result<Vec<usize>, Refusal>
    ensures { OrWantingAs (λ v. v.items) (in_order (map length_of (map number numbers.now))) result }
{
    let mut lengths: Vec<usize> = pool.fresh(numbers.len())?;
    for z in numbers {
        match whole_length(*z) {
            Ok(n) => append_length(&mut lengths, n)?,
            Err(fault) => return Err(Refusal::Fault(fault)),
        }
    }
    Ok(lengths)
}

// The axis lengths that bits are.
fn bit_lengths(pool: &mut Pool, bits: &[u8]) -> Result<Vec<usize>, Refusal>
    ensures { OrWantingAs (λ v. v.items) (in_order (map length_of (map (λ b. number (pos b)) bits.now))) result }
{
    let mut lengths: Vec<usize> = pool.fresh(bits.len())?;
    for b in bits {
        append_length(&mut lengths, usize::from(*b))?;
    }
    Ok(lengths)
}

// The axis lengths that a number list is.
fn lengths_of(pool: &mut Pool, x: &Noun) -> Result<Vec<usize>, Refusal>
    ensures { OrWantingAs (λ v. v.items) (in_order (map length_of x.now.atoms)) result }
{
    if has_no_atoms(x) {
        return Ok(pool.fresh(0)?);
    }
    match x.view() {
        View::Wholes(numbers) => whole_lengths(pool, numbers),
        View::Bits(bits) => bit_lengths(pool, bits),
        View::Bytes(_) => Err(Refusal::Fault(Fault::Domain)),
        View::Boxes(_) => Err(Refusal::Fault(Fault::Domain)),
    }
}

// The axes of an item.
fn item_axes(y: &Noun) -> &[usize]
    ensures { result.now ≡ drop 1 y.now.shape }
{
    match y.axes() {
        [] => &[],
        [_, inner @ ..] => inner,
    }
}

// So many elements of a run in order, from the first one again after the last.
fn cycled<T: Stored>(pool: &mut Pool, run: &[T], size: usize) -> Result<Vec<T>, NoMemory>
    requires { 0 < length run.now }
    ensures { IfOk result (λ v. v.items ≡ flat_map (λ k. run.now) (range_with_len 0 (size / length run.now)) ++ take (size % length run.now) run.now) }
{
    let mut out = T::buffer(pool, size)?;
    for _ in 0..size / run.len() {
        T::append(&mut out, run)?;
    }
    T::append(&mut out, &run[..size % run.len()])?;
    Ok(out)
}

// The atoms of that many repeated items, where there is an item if one is needed.
fn repeated(pool: &mut Pool, y: &Noun, size: usize) -> Result<Atoms, NoMemory>
    ensures { (n : ℕ) → size ≡ n * item_size y.now.shape → (0 < n → 0 < tally y.now.shape) → IfOk result (λ a. AreAtoms a y.now.kind (items_repeated n y.now)) }
{
    if size == 0 {
        return fills(pool, y.kind(), 0);
    }
    if has_no_atoms(y) {
        return fills(pool, y.kind(), 0);
    }
    match y.view() {
        View::Wholes(v) => Ok(Atoms::Wholes(cycled(pool, v, size)?)),
        View::Bits(v) => Ok(Atoms::Bits(cycled(pool, v, size)?)),
        View::Bytes(v) => Ok(Atoms::Bytes(cycled(pool, v, size)?)),
        View::Boxes(v) => Ok(Atoms::Boxes(cycled(pool, v, size)?)),
    }
}

// Whether items are needed, and there are none.
fn wants_items(lengths: &[usize], y: &Noun) -> bool
    ensures { result ≡ wants_items lengths.now y.now }
{
    if y.tally() != 0 {
        return false;
    }
    !lengths.contains(&0)
}

// The lengths, followed by the item's shape.
fn shape_with(lengths: &[usize], y: &Noun) -> Result<Shape, Fault>
    ensures ok { IfOk result (λ s. s ≡ lengths.now ++ drop 1 y.now.shape) }
    ensures err { IfErr result (λ e. (e ≡ Fault.Limit) × (32 < length (lengths.now ++ drop 1 y.now.shape))) }
{
    let leading = extended(Shape::new(), lengths)?;
    extended(leading, item_axes(y))
}

// The items in order to a shape.
fn fill_shape(pool: &mut Pool, shape: Shape, lengths: &[usize], y: &Noun) -> Result<Noun, Refusal>
    requires shape { shape ≡ lengths.now ++ drop 1 y.now.shape }
    requires items { wants_items lengths.now y.now ≡ false }
    ensures { OrWanting (limited (in_shape lengths.now y.now)) result }
{
    let _ = y.view();
    let Some(size) = size_within(shape.axes()) else {
        return Err(Refusal::Fault(Fault::Limit));
    };
    let atoms = repeated(pool, y, size)?;
    Noun::make(pool, shape, atoms)
}

// The items in order to the shape of these lengths, followed by the item's.
fn to_lengths(pool: &mut Pool, lengths: &[usize], y: &Noun) -> Result<Noun, Refusal>
    ensures { OrWanting (reshaped (OkValue lengths.now) y.now) result }
{
    if wants_items(lengths, y) {
        return Err(Refusal::Fault(Fault::Length));
    }
    match shape_with(lengths, y) {
        Ok(shape) => fill_shape(pool, shape, lengths, y),
        Err(fault) => Err(Refusal::Fault(fault)),
    }
}

/// `x $ y` on a cell: the items of y in order, over and over, to the shape x followed by the item's shape.
pub fn reshape(pool: &mut Pool, x: &Noun, y: &Noun) -> Result<Noun, Refusal>
    requires { length x.now.shape ≤ 1 }
    ensures { OrWanting (reshape x.now y.now) result }
{
    let lengths = lengths_of(pool, x)?;
    to_lengths(pool, &lengths, y)
}
