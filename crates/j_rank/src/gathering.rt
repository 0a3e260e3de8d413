// The atoms of results in one buffer, brought to their common shape.
ghost use Rattle.std.specs.Prelude.{◌≡◌, ◌<◌, ◌≤◌, ◌++◌, ◌*◌, [], pos, length, map, OnOk, IfOk, IfSome};
ghost use Rattle.std.specs.List.{All};
ghost use Rattle.j_definitions.specs.Array.{number, byte, boxed, product, fill_atom, IsNoun};
ghost use Rattle.j_definitions.specs.declared.Kind.TheVariants.{Number as NumberKind, Character as CharacterKind, Boxed as BoxedKind};
ghost use Rattle.j_noun.specs.Held.{AreAtoms};
ghost use Rattle.j_rank.specs.Assembly.{with_rank, padded, atoms_of_all};
ghost use Rattle.j_rank.specs.Joined.{Joins, AreBitsOf};

use crate::atoms::{empty_list, fills};
use crate::padding::append_result;
use j_noun::{Atoms, Kind, NoMemory, Noun, Pool, View, boxes};

// The bytes of a result of characters, or none.
fn bytes_of(r: &Noun) -> &[u8]
    requires { Joins CharacterKind r.now }
    ensures atoms { map byte result.now ≡ r.now.atoms }
    ensures noun { IsNoun r.now }
{
    match r.view() {
        View::Bytes(v) => v,
        View::Wholes(_) => &[],
        View::Bits(_) => &[],
        View::Boxes(_) => &[],
    }
}

// The nouns in the boxes of a result, or none.
fn nouns_of(r: &Noun) -> &[Noun]
    requires { Joins BoxedKind r.now }
    ensures atoms { map boxed result.now ≡ r.now.atoms }
    ensures noun { IsNoun r.now }
{
    match r.view() {
        View::Boxes(v) => v,
        View::Wholes(_) => &[],
        View::Bits(_) => &[],
        View::Bytes(_) => &[],
    }
}

// Bits as whole numbers.
fn widened(pool: &mut Pool, bits: &[u8]) -> Result<Vec<i64>, NoMemory>
    ensures { IfOk result (λ v. map number v.items ≡ map (λ b. number (pos b)) bits.now) }
{
    let mut numbers = pool.ints(bits.len())?;
    for b in bits {
        let Ok(()) = numbers.push(i64::from(*b)) else {
            return Err(NoMemory);
        };
    }
    Ok(numbers)
}

/// Appends the numbers of a result.
pub fn append_numbers(
    pool: &mut Pool,
    out: &mut Vec<i64>,
    common: &[usize],
    size: usize,
    r: &Noun,
) -> Result<(), NoMemory>
    requires kind { Joins NumberKind r.now }
    requires rank { length r.now.shape ≤ length common.now }
    requires few { length common.now ≤ 32 }
    requires size { size ≡ product common.now }
    requires some { 0 < size }
    ensures { OnOk result (map number out.new.items ≡ map number out.old.items ++ padded (fill_atom NumberKind) (with_rank (length common.now) r.now.shape) common.now r.now.atoms) }
{
    match r.view() {
        View::Wholes(v) => append_result(out, &0, common, size, r.axes(), v),
        View::Bits(v) => {
            let numbers = widened(pool, v)?;
            append_result(out, &0, common, size, r.axes(), &numbers)
        }
        View::Bytes(_) => append_result(out, &0, common, size, r.axes(), &[]),
        View::Boxes(_) => append_result(out, &0, common, size, r.axes(), &[]),
    }
}

/// Appends the characters of a result.
pub fn append_bytes(
    out: &mut Vec<u8>,
    common: &[usize],
    size: usize,
    r: &Noun,
) -> Result<(), NoMemory>
    requires kind { Joins CharacterKind r.now }
    requires rank { length r.now.shape ≤ length common.now }
    requires few { length common.now ≤ 32 }
    requires size { size ≡ product common.now }
    requires some { 0 < size }
    ensures { OnOk result (map byte out.new.items ≡ map byte out.old.items ++ padded (fill_atom CharacterKind) (with_rank (length common.now) r.now.shape) common.now r.now.atoms) }
{
    append_result(out, &32, common, size, r.axes(), bytes_of(r))
}

/// Appends the boxes of a result, filled with boxes of that noun.
pub fn append_nouns(
    out: &mut Vec<Noun>,
    fill: &Noun,
    common: &[usize],
    size: usize,
    r: &Noun,
) -> Result<(), NoMemory>
    requires kind { Joins BoxedKind r.now }
    requires rank { length r.now.shape ≤ length common.now }
    requires few { length common.now ≤ 32 }
    requires size { size ≡ product common.now }
    requires some { 0 < size }
    ensures { OnOk result (map boxed out.new.items ≡ map boxed out.old.items ++ padded (boxed fill.now) (with_rank (length common.now) r.now.shape) common.now r.now.atoms) }
{
    append_result(out, fill, common, size, r.axes(), nouns_of(r))
}

// The numbers of all results.
fn gather_wholes(
    pool: &mut Pool,
    common: &[usize],
    size: usize,
    total: usize,
    results: &[Noun],
) -> Result<Vec<i64>, NoMemory>
    requires kinds { All (Joins NumberKind) results.now }
    requires rank { All (λ a. length a.shape ≤ length common.now) results.now }
    requires few { length common.now ≤ 32 }
    requires size { size ≡ product common.now }
    requires some { 0 < size }
    ensures { IfOk result (λ v. map number v.items ≡ atoms_of_all NumberKind common.now results.now) }
{
    let mut out = pool.ints(total)?;
    for r in results {
        append_numbers(pool, &mut out, common, size, r)?;
    }
    Ok(out)
}

/// The bits of a result that is kept as bits.
pub fn bits_of(r: &Noun) -> Option<&[u8]>
    ensures atoms { IfSome result (λ v. map (λ b. number (pos b)) v.now ≡ r.now.atoms) }
    ensures bits { IfSome result (λ v. All (λ b. b < 2) v.now) }
    ensures noun { IsNoun r.now }
{
    match r.view() {
        View::Bits(v) => Some(v),
        View::Wholes(_) => None,
        View::Bytes(_) => None,
        View::Boxes(_) => None,
    }
}

// Whether all results are kept as bits.
fn are_bits(results: &[Noun]) -> bool {
    for r in results {
        if bits_of(r).is_none() {
            return false;
        }
    }
    true
}

// The numbers of all results as bits, or none where one isn't kept as bits.
fn gather_bits(
    pool: &mut Pool,
    common: &[usize],
    size: usize,
    total: usize,
    results: &[Noun],
) -> Result<Option<Vec<u8>>, NoMemory>
    requires rank { All (λ a. length a.shape ≤ length common.now) results.now }
    requires few { length common.now ≤ 32 }
    requires size { size ≡ product common.now }
    requires some { 0 < size }
    ensures { IfOk result (λ o. IfSome o (λ v. AreBitsOf (atoms_of_all NumberKind common.now results.now) v.items)) }
{
    let mut out = pool.bytes(total)?;
    for r in results {
        let Some(bits) = bits_of(r) else {
            return Ok(None);
        };
        append_result(&mut out, &0, common, size, r.axes(), bits)?;
    }
    Ok(Some(out))
}

// The numbers of all results, as bits where all are.
fn gather_numbers(
    pool: &mut Pool,
    common: &[usize],
    size: usize,
    total: usize,
    results: &[Noun],
) -> Result<Atoms, NoMemory>
    requires kinds { All (Joins NumberKind) results.now }
    requires rank { All (λ a. length a.shape ≤ length common.now) results.now }
    requires few { length common.now ≤ 32 }
    requires size { size ≡ product common.now }
    requires some { 0 < size }
    ensures { IfOk result (λ a. AreAtoms a NumberKind (atoms_of_all NumberKind common.now results.now)) }
{
    if are_bits(results) {
        if let Some(bits) = gather_bits(pool, common, size, total, results)? {
            return Ok(Atoms::Bits(bits));
        }
    }
    let numbers = gather_wholes(pool, common, size, total, results)?;
    Ok(Atoms::Wholes(numbers))
}

// The characters of all results.
fn gather_bytes(
    pool: &mut Pool,
    common: &[usize],
    size: usize,
    total: usize,
    results: &[Noun],
) -> Result<Vec<u8>, NoMemory>
    requires kinds { All (Joins CharacterKind) results.now }
    requires rank { All (λ a. length a.shape ≤ length common.now) results.now }
    requires few { length common.now ≤ 32 }
    requires size { size ≡ product common.now }
    requires some { 0 < size }
    ensures { IfOk result (λ v. map byte v.items ≡ atoms_of_all CharacterKind common.now results.now) }
{
    let mut out = pool.bytes(total)?;
    for r in results {
        append_bytes(&mut out, common, size, r)?;
    }
    Ok(out)
}

// The boxes of all results.
fn gather_nouns(
    pool: &mut Pool,
    common: &[usize],
    size: usize,
    total: usize,
    results: &[Noun],
) -> Result<Vec<Noun>, NoMemory>
    requires kinds { All (Joins BoxedKind) results.now }
    requires rank { All (λ a. length a.shape ≤ length common.now) results.now }
    requires few { length common.now ≤ 32 }
    requires size { size ≡ product common.now }
    requires some { 0 < size }
    ensures { IfOk result (λ v. map boxed v.items ≡ atoms_of_all BoxedKind common.now results.now) }
{
    let fill = empty_list(pool)?;
    let mut out = boxes(pool, total)?;
    for r in results {
        append_nouns(&mut out, &fill, common, size, r)?;
    }
    Ok(out)
}

/// The atoms of all results, brought to the common shape: as many as the total, unless that is 0.
pub fn gather(
    pool: &mut Pool,
    kind: Kind,
    common: &[usize],
    total: usize,
    results: &[Noun],
) -> Result<Atoms, NoMemory>
    requires kinds { All (Joins kind) results.now }
    requires rank { All (λ a. length a.shape ≤ length common.now) results.now }
    requires few { length common.now ≤ 32 }
    requires total { 0 < total → total ≡ length results.now * product common.now }
    ensures none { IfOk result (λ a. total ≡ 0 → AreAtoms a kind []) }
    ensures all { IfOk result (λ a. 0 < total → AreAtoms a kind (atoms_of_all kind common.now results.now)) }
{
    if total == 0 {
        return fills(pool, kind, 0);
    }
    let size = total / results.len();
    match kind {
        Kind::Number => gather_numbers(pool, common, size, total, results),
        Kind::Character => Ok(Atoms::Bytes(gather_bytes(pool, common, size, total, results)?)),
        Kind::Boxed => Ok(Atoms::Boxes(gather_nouns(pool, common, size, total, results)?)),
    }
}
