// Elements put at places of a list.
ghost use Rattle.std.specs.Prelude.{◌≡◌, ◌<◌, ◌≤◌, length, map, set, pos, OnOk, IfOk};
ghost use Rattle.j_definitions.specs.Array.{number, byte, boxed};
ghost use Rattle.j_definitions.specs.declared.Kind.TheVariants.{Number as NumberKind, Character as CharacterKind, Boxed as BoxedKind};
ghost use Rattle.j_noun.specs.Held.{AreAtoms};
ghost use Rattle.j_rank.specs.Joined.{Joins};
ghost use Rattle.j_select.specs.Amending.{amended_from};
ghost use Rattle.j_select.specs.Putting.{put_in};

use j_noun::{Atoms, Kind, NoMemory, Noun, Pool, View};
use j_rank::{Stored, copied};

/// An element that can be put at a place.
pub trait Placed: Drop {
    /// Puts a copy at a place, counted from 0.
    fn put(out: &mut Vec<Self>, k: usize, element: &Self) -> Result<(), NoMemory>
        requires { k < length out.old.items }
        ensures { OnOk result (out.new.items ≡ set out.old.items k element.now) };
}

impl Placed for i64 {
    fn put(out: &mut Vec<i64>, k: usize, element: &i64) -> Result<(), NoMemory>
        requires { k < length out.old.items }
        ensures { OnOk result (out.new.items ≡ set out.old.items k element.now) }
    {
        out[k] = *element;
        Ok(())
    }
}

impl Placed for u8 {
    fn put(out: &mut Vec<u8>, k: usize, element: &u8) -> Result<(), NoMemory>
        requires { k < length out.old.items }
        ensures { OnOk result (out.new.items ≡ set out.old.items k element.now) }
    {
        out[k] = *element;
        Ok(())
    }
}

impl Placed for Noun {
    fn put(out: &mut Vec<Noun>, k: usize, element: &Noun) -> Result<(), NoMemory>
        requires { k < length out.old.items }
        ensures { OnOk result (out.new.items ≡ set out.old.items k element.now) }
    {
        let copy = element.duplicate()?;
        out[k] = copy;
        Ok(())
    }
}

// Puts a copy at a place, counted from 1; there is no place 0, and none behind the last.
fn put_in<T: Placed>(out: &mut Vec<T>, place: usize, element: &T) -> Result<(), NoMemory>
    ensures { OnOk result (out.new.items ≡ put_in out.old.items place element.now) }
{
    if place == 0 {
        return Ok(());
    }
    if place > out.len() {
        return Ok(());
    }
    T::put(out, place - 1, element)
}

// Elements with those of others, over and over, at places.
fn amended_by<T: Placed>(
    mut out: Vec<T>,
    elements: &[T],
    places: &[usize],
) -> Result<Vec<T>, NoMemory>
    ensures { IfOk result (λ v. v.items ≡ amended_from 1 elements.now places.now out.items) }
{
    if elements.is_empty() {
        return Ok(out);
    }
    for (k, place) in places.iter().enumerate() {
        put_in(&mut out, *place, &elements[k % elements.len()])?;
    }
    Ok(out)
}

// Bits as whole numbers.
fn widened(pool: &mut Pool, bits: &[u8]) -> Result<Vec<i64>, NoMemory>
    ensures { IfOk result (λ v. map number v.items ≡ map (λ b. number (pos b)) bits.now) }
{
    let mut numbers = pool.ints(bits.len())?;
    for b in bits {
        let Ok(()) = numbers.push(i64::from(*b)) else {
            return Err(NoMemory);
        };
    }
    Ok(numbers)
}

/// The numbers of a noun, or none.
pub fn wholes_of(pool: &mut Pool, y: &Noun) -> Result<Vec<i64>, NoMemory>
    requires { Joins NumberKind y.now }
    ensures { IfOk result (λ v. map number v.items ≡ y.now.atoms) }
{
    match y.view() {
        View::Wholes(v) => copied(pool, v),
        View::Bits(v) => widened(pool, v),
        View::Bytes(_) => pool.ints(0),
        View::Boxes(_) => pool.ints(0),
    }
}

/// The bytes of a noun, or none.
pub fn bytes_of(y: &Noun) -> &[u8]
    requires { Joins CharacterKind y.now }
    ensures { map byte result.now ≡ y.now.atoms }
{
    match y.view() {
        View::Bytes(v) => v,
        View::Wholes(_) => &[],
        View::Bits(_) => &[],
        View::Boxes(_) => &[],
    }
}

/// The nouns in the boxes of a noun, or none.
pub fn nouns_of(y: &Noun) -> &[Noun]
    requires { Joins BoxedKind y.now }
    ensures { map boxed result.now ≡ y.now.atoms }
{
    match y.view() {
        View::Boxes(v) => v,
        View::Wholes(_) => &[],
        View::Bits(_) => &[],
        View::Bytes(_) => &[],
    }
}

/// The atoms of y with those of x, over and over, at places.
pub fn amended_atoms(
    pool: &mut Pool,
    kind: Kind,
    x: &Noun,
    y: &Noun,
    places: &[usize],
) -> Result<Atoms, NoMemory>
    requires left { Joins kind x.now }
    requires right { Joins kind y.now }
    ensures { IfOk result (λ a. AreAtoms a kind (amended_from 1 x.now.atoms places.now y.now.atoms)) }
{
    match kind {
        Kind::Number => {
            let elements = wholes_of(pool, x)?;
            let out = wholes_of(pool, y)?;
            Ok(Atoms::Wholes(amended_by(out, &elements, places)?))
        }
        Kind::Character => {
            let out = copied(pool, bytes_of(y))?;
            Ok(Atoms::Bytes(amended_by(out, bytes_of(x), places)?))
        }
        Kind::Boxed => {
            let out = copied(pool, nouns_of(y))?;
            Ok(Atoms::Boxes(amended_by(out, nouns_of(x), places)?))
        }
    }
}
