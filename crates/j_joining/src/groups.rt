// Two nouns side by side in one buffer, each brought to a shape.
ghost use Rattle.std.specs.Prelude.{◌≡◌, ◌<◌, ◌≤◌, ◌+◌, ◌++◌, pos, List, length, map, OnOk, IfOk, IfSome};
ghost use Rattle.std.specs.List.{All};
ghost use Rattle.j_definitions.specs.Array.{Atom, number, byte, boxed, product, fill_atom, IsNoun};
ghost use Rattle.j_definitions.specs.Limits.{limited};
ghost use Rattle.j_definitions.specs.declared.Kind.TheVariants.{Number as NumberKind, Character as CharacterKind, Boxed as BoxedKind};
ghost use Rattle.j_noun.specs.Held.{AreAtoms};
ghost use Rattle.j_noun.specs.Refused.{OrWanting};
ghost use Rattle.j_rank.specs.Joined.{Joins, AreBitsOf};
ghost use Rattle.j_joining.specs.Brought.{brought, Fits, IsGroup, group_atoms, groups};

use j_noun::{Atoms, Fault, Kind, NoMemory, Noun, Pool, Refusal, Shape, View, boxes};
use j_rank::{CELL_LIMIT, Stored, append_fills, append_result, bits_of, empty_list, size_within};

// A noun that is brought to a shape, and how many atoms it has there.
#[derive(Drop)]
pub(crate) struct Group<'a> {
    pub noun: &'a Noun,
    pub shape: &'a [usize],
    pub size: usize,
}

// Appends elements of a shape, brought to another.
fn append_brought<T: Stored>(
    out: &mut Vec<T>,
    fill: &T,
    to: &[usize],
    size: usize,
    axes: &[usize],
    all: &[T],
) -> Result<(), NoMemory>
    requires rank { length axes.now ≤ length to.now }
    requires few { length to.now ≤ 32 }
    requires size { size ≡ product to.now }
    requires some { 0 < size }
    requires many { length all.now ≡ product axes.now }
    ensures { OnOk result (out.new.items ≡ out.old.items ++ brought fill.now to.now axes.now all.now) }
{
    if axes.is_empty() {
        return append_fills(out, &all[0], size);
    }
    append_result(out, fill, to, size, axes, all)
}

// Bits as whole numbers.
fn widened(pool: &mut Pool, bits: &[u8]) -> Result<Vec<i64>, NoMemory>
    ensures { IfOk result (λ v. map number v.items ≡ map (λ b. number (pos b)) bits.now) }
{
    let mut numbers = pool.ints(bits.len())?;
    for b in bits {
        let Ok(()) = numbers.push(i64::from(*b)) else {
            return Err(NoMemory);
        };
    }
    Ok(numbers)
}

// The bytes of a noun of characters, or none.
fn bytes_of(y: &Noun) -> &[u8]
    requires { Joins CharacterKind y.now }
    ensures atoms { map byte result.now ≡ y.now.atoms }
    ensures noun { IsNoun y.now }
{
    match y.view() {
        View::Bytes(v) => v,
        View::Wholes(_) => &[],
        View::Bits(_) => &[],
        View::Boxes(_) => &[],
    }
}

// The nouns in the boxes of a noun, or none.
fn nouns_of(y: &Noun) -> &[Noun]
    requires { Joins BoxedKind y.now }
    ensures atoms { map boxed result.now ≡ y.now.atoms }
    ensures noun { IsNoun y.now }
{
    match y.view() {
        View::Boxes(v) => v,
        View::Wholes(_) => &[],
        View::Bits(_) => &[],
        View::Bytes(_) => &[],
    }
}

// Appends the numbers of a group.
pub(crate) fn append_numbers(
    pool: &mut Pool,
    out: &mut Vec<i64>,
    g: &Group<'_>,
) -> Result<(), NoMemory>
    requires group { IsGroup NumberKind g.now.noun.now g.now.shape.now }
    requires size { g.now.size ≡ product g.now.shape.now }
    ensures { OnOk result (map number out.new.items ≡ map number out.old.items ++ group_atoms NumberKind g.now.noun.now g.now.shape.now) }
{
    let axes = g.noun.axes();
    let view = g.noun.view();
    if g.size == 0 {
        return Ok(());
    }
    match view {
        View::Wholes(v) => append_brought(out, &0, g.shape, g.size, axes, v),
        View::Bits(v) => {
            let numbers = widened(pool, v)?;
            append_brought(out, &0, g.shape, g.size, axes, &numbers)
        }
        View::Bytes(_) => append_brought(out, &0, g.shape, g.size, axes, &[]),
        View::Boxes(_) => append_brought(out, &0, g.shape, g.size, axes, &[]),
    }
}

// Appends the characters of a group.
pub(crate) fn append_bytes(out: &mut Vec<u8>, g: &Group<'_>) -> Result<(), NoMemory>
    requires group { IsGroup CharacterKind g.now.noun.now g.now.shape.now }
    requires size { g.now.size ≡ product g.now.shape.now }
    ensures { OnOk result (map byte out.new.items ≡ map byte out.old.items ++ group_atoms CharacterKind g.now.noun.now g.now.shape.now) }
{
    let axes = g.noun.axes();
    let _ = g.noun.view();
    if g.size == 0 {
        return Ok(());
    }
    append_brought(out, &32, g.shape, g.size, axes, bytes_of(g.noun))
}

// Appends the boxes of a group, filled with boxes of that noun.
pub(crate) fn append_nouns(out: &mut Vec<Noun>, fill: &Noun, g: &Group<'_>) -> Result<(), NoMemory>
    requires group { IsGroup BoxedKind g.now.noun.now g.now.shape.now }
    requires size { g.now.size ≡ product g.now.shape.now }
    requires fill { boxed fill.now ≡ fill_atom BoxedKind }
    ensures { OnOk result (map boxed out.new.items ≡ map boxed out.old.items ++ group_atoms BoxedKind g.now.noun.now g.now.shape.now) }
{
    let axes = g.noun.axes();
    let _ = g.noun.view();
    if g.size == 0 {
        return Ok(());
    }
    append_brought(out, fill, g.shape, g.size, axes, nouns_of(g.noun))
}

// Appends the bits of a group.
pub(crate) fn append_bits(out: &mut Vec<u8>, g: &Group<'_>, bits: &[u8]) -> Result<(), NoMemory>
    requires group { IsGroup NumberKind g.now.noun.now g.now.shape.now }
    requires size { g.now.size ≡ product g.now.shape.now }
    requires bits { AreBitsOf g.now.noun.now.atoms bits.now }
    ensures { OnOk result ((xs : List Atom) → AreBitsOf xs out.old.items → AreBitsOf (xs ++ group_atoms NumberKind g.now.noun.now g.now.shape.now) out.new.items) }
{
    let axes = g.noun.axes();
    let _ = g.noun.view();
    if g.size == 0 {
        return Ok(());
    }
    append_brought(out, &0, g.shape, g.size, axes, bits)
}

// The numbers of two groups.
fn both_wholes(pool: &mut Pool, x: &Group<'_>, y: &Group<'_>) -> Result<Vec<i64>, NoMemory>
    requires left { IsGroup NumberKind x.now.noun.now x.now.shape.now }
    requires left_size { x.now.size ≡ product x.now.shape.now }
    requires right { IsGroup NumberKind y.now.noun.now y.now.shape.now }
    requires right_size { y.now.size ≡ product y.now.shape.now }
    ensures { IfOk result (λ v. map number v.items ≡ group_atoms NumberKind x.now.noun.now x.now.shape.now ++ group_atoms NumberKind y.now.noun.now y.now.shape.now) }
{
    let mut out = pool.ints(x.size.saturating_add(y.size))?;
    append_numbers(pool, &mut out, x)?;
    append_numbers(pool, &mut out, y)?;
    Ok(out)
}

// The numbers of two groups that are kept as bits.
fn both_bits(
    pool: &mut Pool,
    x: &Group<'_>,
    left: &[u8],
    y: &Group<'_>,
    right: &[u8],
) -> Result<Vec<u8>, NoMemory>
    requires left { IsGroup NumberKind x.now.noun.now x.now.shape.now }
    requires left_size { x.now.size ≡ product x.now.shape.now }
    requires left_bits { AreBitsOf x.now.noun.now.atoms left.now }
    requires right { IsGroup NumberKind y.now.noun.now y.now.shape.now }
    requires right_size { y.now.size ≡ product y.now.shape.now }
    requires right_bits { AreBitsOf y.now.noun.now.atoms right.now }
    ensures { IfOk result (λ v. AreBitsOf (group_atoms NumberKind x.now.noun.now x.now.shape.now ++ group_atoms NumberKind y.now.noun.now y.now.shape.now) v.items) }
{
    let mut out = pool.bytes(x.size.saturating_add(y.size))?;
    append_bits(&mut out, x, left)?;
    append_bits(&mut out, y, right)?;
    Ok(out)
}

// The numbers of two groups, as bits where both are.
fn both_numbers(pool: &mut Pool, x: &Group<'_>, y: &Group<'_>) -> Result<Atoms, NoMemory>
    requires left { IsGroup NumberKind x.now.noun.now x.now.shape.now }
    requires left_size { x.now.size ≡ product x.now.shape.now }
    requires right { IsGroup NumberKind y.now.noun.now y.now.shape.now }
    requires right_size { y.now.size ≡ product y.now.shape.now }
    ensures { IfOk result (λ a. AreAtoms a NumberKind (group_atoms NumberKind x.now.noun.now x.now.shape.now ++ group_atoms NumberKind y.now.noun.now y.now.shape.now)) }
{
    if let Some(left) = bits_of(x.noun) {
        if let Some(right) = bits_of(y.noun) {
            let bits = both_bits(pool, x, left, y, right)?;
            return Ok(Atoms::Bits(bits));
        }
    }
    let numbers = both_wholes(pool, x, y)?;
    Ok(Atoms::Wholes(numbers))
}

// The characters of two groups.
fn both_bytes(pool: &mut Pool, x: &Group<'_>, y: &Group<'_>) -> Result<Vec<u8>, NoMemory>
    requires left { IsGroup CharacterKind x.now.noun.now x.now.shape.now }
    requires left_size { x.now.size ≡ product x.now.shape.now }
    requires right { IsGroup CharacterKind y.now.noun.now y.now.shape.now }
    requires right_size { y.now.size ≡ product y.now.shape.now }
    ensures { IfOk result (λ v. map byte v.items ≡ group_atoms CharacterKind x.now.noun.now x.now.shape.now ++ group_atoms CharacterKind y.now.noun.now y.now.shape.now) }
{
    let mut out = pool.bytes(x.size.saturating_add(y.size))?;
    append_bytes(&mut out, x)?;
    append_bytes(&mut out, y)?;
    Ok(out)
}

// The boxes of two groups.
fn both_nouns(pool: &mut Pool, x: &Group<'_>, y: &Group<'_>) -> Result<Vec<Noun>, NoMemory>
    requires left { IsGroup BoxedKind x.now.noun.now x.now.shape.now }
    requires left_size { x.now.size ≡ product x.now.shape.now }
    requires right { IsGroup BoxedKind y.now.noun.now y.now.shape.now }
    requires right_size { y.now.size ≡ product y.now.shape.now }
    ensures { IfOk result (λ v. map boxed v.items ≡ group_atoms BoxedKind x.now.noun.now x.now.shape.now ++ group_atoms BoxedKind y.now.noun.now y.now.shape.now) }
{
    let fill = empty_list(pool)?;
    let mut out = boxes(pool, x.size.saturating_add(y.size))?;
    append_nouns(&mut out, &fill, x)?;
    append_nouns(&mut out, &fill, y)?;
    Ok(out)
}

// The atoms of two groups.
fn both(pool: &mut Pool, kind: Kind, x: &Group<'_>, y: &Group<'_>) -> Result<Atoms, NoMemory>
    requires left { IsGroup kind x.now.noun.now x.now.shape.now }
    requires left_size { x.now.size ≡ product x.now.shape.now }
    requires right { IsGroup kind y.now.noun.now y.now.shape.now }
    requires right_size { y.now.size ≡ product y.now.shape.now }
    ensures { IfOk result (λ a. AreAtoms a kind (group_atoms kind x.now.noun.now x.now.shape.now ++ group_atoms kind y.now.noun.now y.now.shape.now)) }
{
    match kind {
        Kind::Number => both_numbers(pool, x, y),
        Kind::Character => Ok(Atoms::Bytes(both_bytes(pool, x, y)?)),
        Kind::Boxed => Ok(Atoms::Boxes(both_nouns(pool, x, y)?)),
    }
}

/// Two nouns of a kind as one of that shape, each brought to a shape of its own, x before y.
pub(crate) fn grouped(
    pool: &mut Pool,
    kind: Kind,
    shape: Shape,
    x: &Noun,
    left: &[usize],
    y: &Noun,
    right: &[usize],
) -> Result<Noun, Refusal>
    requires left { IsGroup kind x.now left.now }
    requires right { IsGroup kind y.now right.now }
    requires sizes { product shape ≡ product left.now + product right.now }
    ensures { OrWanting (limited (groups kind shape x.now left.now y.now right.now)) result }
{
    let _ = x.view();
    let _ = y.view();
    let Some(left_size) = size_within(left) else {
        return Err(Refusal::Fault(Fault::Limit));
    };
    let Some(right_size) = size_within(right) else {
        return Err(Refusal::Fault(Fault::Limit));
    };
    if left_size + right_size > CELL_LIMIT {
        return Err(Refusal::Fault(Fault::Limit));
    }
    let before = Group {
        noun: x,
        shape: left,
        size: left_size,
    };
    let behind = Group {
        noun: y,
        shape: right,
        size: right_size,
    };
    let atoms = both(pool, kind, &before, &behind)?;
    Noun::make(pool, shape, atoms)
}
