// Atoms that are taken from a noun, and atoms of fills, as a noun is made of them.
ghost use Rattle.std.specs.Prelude.{◌≡◌, ◌≢◌, ◌<◌, ◌≤◌, ◌+◌, ◌*◌, [], ◌∷◌, length, take, drop, replicate, IfOk, IsOk};
ghost use Rattle.j_definitions.specs.Array.{boxed, atom_array, fill_atom};
ghost use Rattle.j_definitions.specs.Items.{part};
ghost use Rattle.j_definitions.specs.declared.Kind.TheVariants.{Number as NumberKind, Boxed as BoxedKind};
ghost use Rattle.j_noun.specs.Held.{AreAtoms};
ghost use Rattle.j_noun.specs.Viewed.{viewed, kind_viewed, ShowsBits};

use crate::padding::part;
use crate::sizes::shape_of;
use crate::stored::{copied, filled};
use j_noun::{Atoms, Kind, NoMemory, Noun, Pool, Shape, View, boxes};

/// The noun in a box.
pub fn box_of(pool: &mut Pool, y: &Noun) -> Result<Noun, NoMemory>
    ensures { IfOk result (λ a. a ≡ atom_array BoxedKind (boxed y.now)) }
{
    let mut held = boxes(pool, 1)?;
    let copy = y.duplicate()?;
    let Ok(()) = held.push(copy) else {
        return Err(NoMemory);
    };
    match Noun::make(pool, Shape::new(), Atoms::Boxes(held)) {
        Ok(atom) => Ok(atom),
        Err(_) => Err(NoMemory),
    }
}

/// Atom k as a noun. It takes no memory unless it is boxed.
pub fn atom_of(pool: &mut Pool, y: &Noun, k: usize) -> Result<Noun, NoMemory>
    requires { k < length y.now.atoms }
    ensures ok { IfOk result (λ a. a ≡ record { kind = y.now.kind; shape = []; atoms = take 1 (drop k y.now.atoms) }) }
    ensures atom { y.now.kind ≢ BoxedKind → IsOk result }
{
    match y.view() {
        View::Wholes(v) => Ok(Noun::number(v[k])),
        View::Bits(v) => Ok(Noun::number(i64::from(v[k]))),
        View::Bytes(v) => Ok(Noun::character(v[k])),
        View::Boxes(v) => box_of(pool, &v[k]),
    }
}

/// The atoms of part k, where each part has that many.
pub fn atoms_of_part(pool: &mut Pool, y: View<'_>, k: usize, size: usize) -> Result<Atoms, NoMemory>
    requires bits { ShowsBits y }
    requires within { (k + 1) * size ≤ length (viewed y) }
    ensures { IfOk result (λ a. AreAtoms a (kind_viewed y.entry) (part size (viewed y.entry) k)) }
{
    match y {
        View::Wholes(v) => Ok(Atoms::Wholes(copied(pool, part(v, k, size))?)),
        View::Bits(v) => Ok(Atoms::Bits(copied(pool, part(v, k, size))?)),
        View::Bytes(v) => Ok(Atoms::Bytes(copied(pool, part(v, k, size))?)),
        View::Boxes(v) => Ok(Atoms::Boxes(copied(pool, part(v, k, size))?)),
    }
}

/// The empty list of numbers, which stands in a box that fills.
pub fn empty_list(pool: &mut Pool) -> Result<Noun, NoMemory>
    ensures { IfOk result (λ a. a ≡ record { kind = NumberKind; shape = 0 ∷ []; atoms = [] }) }
{
    let none = pool.ints(0)?;
    match Noun::make(pool, shape_of(&[0]), Atoms::Wholes(none)) {
        Ok(list) => Ok(list),
        Err(_) => Err(NoMemory),
    }
}

/// That many fills of a kind.
pub fn fills(pool: &mut Pool, kind: Kind, count: usize) -> Result<Atoms, NoMemory>
    ensures { IfOk result (λ a. AreAtoms a kind (replicate count (fill_atom kind))) }
{
    match kind {
        Kind::Number => Ok(Atoms::Bits(filled(pool, &0, count)?)),
        Kind::Character => Ok(Atoms::Bytes(filled(pool, &32, count)?)),
        Kind::Boxed => {
            let list = empty_list(pool)?;
            Ok(Atoms::Boxes(filled(pool, &list, count)?))
        }
    }
}
