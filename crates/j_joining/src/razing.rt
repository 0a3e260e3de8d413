// The contents of boxes, joined.
ghost use Rattle.std.specs.Prelude.{◌≡◌, ◌<◌, ◌≤◌, [], ◌∷◌, length, map, IsTrue, IfOk, IfSome, MatchOption};
ghost use Rattle.std.specs.List.{All};
ghost use Rattle.j_definitions.specs.Array.{number, byte, boxed};
ghost use Rattle.j_definitions.specs.Limits.{limited};
ghost use Rattle.j_definitions.specs.declared.Kind.TheVariants.{Number as NumberKind, Character as CharacterKind, Boxed as BoxedKind};
ghost use Rattle.j_noun.specs.Held.{AreAtoms};
ghost use Rattle.j_noun.specs.Refused.{OrWanting};
ghost use Rattle.j_rank.specs.Joined.{AreBitsOf};
ghost use Rattle.j_joining.specs.Joining.{ravelled, joined_right, all_joined, raze};
ghost use Rattle.j_joining.specs.Brought.{IsListOf, all_atoms, list_of};

use crate::groups::{Group, append_bits, append_bytes, append_nouns, append_numbers};
use crate::joining::append;
use j_noun::{Atoms, Fault, Kind, NoMemory, Noun, Pool, Refusal, View, boxes};
use j_rank::{CELL_LIMIT, atoms_of_part, bits_of, empty_list, is_same, shape_of, size_within};

// The list of all atoms.
fn ravelled(pool: &mut Pool, y: &Noun) -> Result<Noun, Refusal>
    ensures { OrWanting (limited (ravelled y.now)) result }
{
    let view = y.view();
    let Some(size) = size_within(y.axes()) else {
        return Err(Refusal::NoMemory);
    };
    let atoms = atoms_of_part(pool, view, 0, size)?;
    Noun::make(pool, shape_of(&[size]), atoms)
}

// Whether all are atoms or lists of a kind.
fn are_lists(kind: Kind, nouns: &[Noun]) -> bool
    ensures { IsTrue result → All (IsListOf kind) nouns.now }
{
    for y in nouns {
        let _ = y.view();
        if y.axes().len() > 1 || !is_same(kind, y.kind()) {
            return false;
        }
    }
    true
}

// How many atoms there are in lists together, within the limit.
fn count_within(lists: &[Noun]) -> Option<usize>
    ensures { MatchOption result (4194304 < length (all_atoms lists.now)) (λ n. n ≡ length (all_atoms lists.now)) }
{
    let mut total = 0;
    for y in lists {
        let _ = y.view();
        let Some(more) = size_within(y.axes()) else {
            return None;
        };
        if total + more > CELL_LIMIT {
            return None;
        }
        total += more;
    }
    Some(total)
}

// The numbers of lists.
fn wholes_of(pool: &mut Pool, count: usize, lists: &[Noun]) -> Result<Vec<i64>, NoMemory>
    requires { All (IsListOf NumberKind) lists.now }
    ensures { IfOk result (λ v. map number v.items ≡ all_atoms lists.now) }
{
    let mut out = pool.ints(count)?;
    for y in lists {
        let shape = [y.tally()];
        append_numbers(
            pool,
            &mut out,
            &Group {
                noun: y,
                shape: &shape,
                size: shape[0],
            },
        )?;
    }
    Ok(out)
}

// The numbers of lists as bits, or none where one isn't kept as bits.
fn bits_of_lists(pool: &mut Pool, count: usize, lists: &[Noun]) -> Result<Option<Vec<u8>>, NoMemory>
    requires { All (IsListOf NumberKind) lists.now }
    ensures { IfOk result (λ o. IfSome o (λ v. AreBitsOf (all_atoms lists.now) v.items)) }
{
    let mut out = pool.bytes(count)?;
    for y in lists {
        let Some(bits) = bits_of(y) else {
            return Ok(None);
        };
        let shape = [y.tally()];
        append_bits(
            &mut out,
            &Group {
                noun: y,
                shape: &shape,
                size: shape[0],
            },
            bits,
        )?;
    }
    Ok(Some(out))
}

// Whether the first noun is kept as bits.
fn begins_with_bits(lists: &[Noun]) -> bool {
    match lists {
        [] => false,
        [y, ..] => bits_of(y).is_some(),
    }
}

// The numbers of lists, as bits where all are.
fn numbers_of(pool: &mut Pool, count: usize, lists: &[Noun]) -> Result<Atoms, NoMemory>
    requires { All (IsListOf NumberKind) lists.now }
    ensures { IfOk result (λ a. AreAtoms a NumberKind (all_atoms lists.now)) }
{
    if begins_with_bits(lists) {
        if let Some(bits) = bits_of_lists(pool, count, lists)? {
            return Ok(Atoms::Bits(bits));
        }
    }
    let numbers = wholes_of(pool, count, lists)?;
    Ok(Atoms::Wholes(numbers))
}

// The characters of lists.
fn bytes_of(pool: &mut Pool, count: usize, lists: &[Noun]) -> Result<Vec<u8>, NoMemory>
    requires { All (IsListOf CharacterKind) lists.now }
    ensures { IfOk result (λ v. map byte v.items ≡ all_atoms lists.now) }
{
    let mut out = pool.bytes(count)?;
    for y in lists {
        let shape = [y.tally()];
        append_bytes(
            &mut out,
            &Group {
                noun: y,
                shape: &shape,
                size: shape[0],
            },
        )?;
    }
    Ok(out)
}

// The boxes of lists.
fn nouns_of(pool: &mut Pool, count: usize, lists: &[Noun]) -> Result<Vec<Noun>, NoMemory>
    requires { All (IsListOf BoxedKind) lists.now }
    ensures { IfOk result (λ v. map boxed v.items ≡ all_atoms lists.now) }
{
    let fill = empty_list(pool)?;
    let mut out = boxes(pool, count)?;
    for y in lists {
        let shape = [y.tally()];
        append_nouns(
            &mut out,
            &fill,
            &Group {
                noun: y,
                shape: &shape,
                size: shape[0],
            },
        )?;
    }
    Ok(out)
}

// The atoms of lists of a kind.
fn atoms_of(pool: &mut Pool, kind: Kind, count: usize, lists: &[Noun]) -> Result<Atoms, NoMemory>
    requires { All (IsListOf kind) lists.now }
    ensures { IfOk result (λ a. AreAtoms a kind (all_atoms lists.now)) }
{
    match kind {
        Kind::Number => numbers_of(pool, count, lists),
        Kind::Character => Ok(Atoms::Bytes(bytes_of(pool, count, lists)?)),
        Kind::Boxed => Ok(Atoms::Boxes(nouns_of(pool, count, lists)?)),
    }
}

// Lists of a kind as one list.
fn flattened(pool: &mut Pool, kind: Kind, lists: &[Noun]) -> Result<Noun, Refusal>
    requires { All (IsListOf kind) lists.now }
    ensures { OrWanting (limited (list_of kind (all_atoms lists.now))) result }
{
    let Some(count) = count_within(lists) else {
        return Err(Refusal::Fault(Fault::Limit));
    };
    let atoms = atoms_of(pool, kind, count, lists)?;
    Noun::make(pool, shape_of(&[count]), atoms)
}

// A noun, of which an atom is a list.
fn as_list(pool: &mut Pool, y: &Noun) -> Result<Noun, Refusal>
    ensures { OrWanting (all_joined (y.now ∷ [])) result }
{
    let _ = y.view();
    if y.axes().is_empty() {
        return ravelled(pool, y);
    }
    Ok(y.duplicate()?)
}

// Several nouns joined by their items, from the right.
#[tactic(auto, using(crate::proofs::Razed::last_dropped))]
fn joined_from_right(pool: &mut Pool, nouns: &[Noun]) -> Result<Noun, Refusal>
    requires { 0 < length nouns.now }
    ensures { OrWanting (joined_right nouns.now) result }
{
    let mut k = nouns.len() - 1;
    let mut all = nouns[k].duplicate()?;
    while k > 0 {
        k -= 1;
        all = match append(pool, &nouns[k], &all) {
            Ok(more) => more,
            Err(refusal) => return Err(refusal),
        };
    }
    Ok(all)
}

// Nouns joined by their items, in one pass where they are lists of a kind. One noun alone that is an atom is a list.
#[tactic(auto, using(crate::proofs::Razed::one_joined, crate::proofs::Razed::several_joined))]
fn all_joined(pool: &mut Pool, nouns: &[Noun]) -> Result<Noun, Refusal>
    ensures { OrWanting (all_joined nouns.now) result }
{
    if nouns.is_empty() {
        return Ok(empty_list(pool)?);
    }
    let kind = nouns[0].kind();
    if are_lists(kind, nouns) {
        return flattened(pool, kind, nouns);
    }
    if nouns.len() == 1 {
        return as_list(pool, &nouns[0]);
    }
    joined_from_right(pool, nouns)
}

/// The contents of boxes joined, from the right; the list of atoms of what isn't boxed.
pub fn raze(pool: &mut Pool, y: &Noun) -> Result<Noun, Refusal>
    ensures { OrWanting (raze y.now) result }
{
    match y.view() {
        View::Boxes(v) => all_joined(pool, v),
        View::Wholes(_) => ravelled(pool, y),
        View::Bits(_) => ravelled(pool, y),
        View::Bytes(_) => ravelled(pool, y),
    }
}
