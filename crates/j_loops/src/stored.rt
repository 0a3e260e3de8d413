// How results are stored.
ghost use Rattle.std.specs.Prelude.{◌≡◌, ◌<◌, [], map, pos, IfOk};
ghost use Rattle.std.specs.List.{All};
ghost use Rattle.j_definitions.specs.Array.{Atom, number, atom_array};
ghost use Rattle.j_definitions.specs.declared.Kind.TheVariants.{Number as NumberKind};
ghost use Rattle.j_noun.specs.Held.{AreAtoms};

use j_noun::{Atoms, NoMemory, Noun, Pool};

/// What a buffer of results holds.
pub trait Stored: Copy {
    ghost atom: { Self → Atom };

    ghost IsKept: { Self → Type 0 };

    fn zero() -> Self;

    /// How many results a block has: few enough for the nearest cache, and enough that the call for a block costs little.
    fn lanes() -> usize
        ensures { 0 < result };

    /// An empty buffer.
    fn buffer(pool: &mut Pool, n: usize) -> Result<Vec<Self>, NoMemory>
        ensures { IfOk result (λ v. v.items ≡ []) };

    fn keep(v: Vec<Self>) -> Atoms
        requires { All IsKept v.items }
        ensures { AreAtoms result NumberKind (map atom v.items) };

    /// The noun of one result, which takes no buffer.
    fn noun(self) -> Noun
        ensures { result ≡ atom_array NumberKind (atom self) };
}

/// Whole numbers.
impl Stored for i64 {
    ghost atom = { number };

    ghost IsKept = { λ _. Unit {0} };

    fn zero() -> i64 {
        0
    }

    fn lanes() -> usize {
        128
    }

    fn buffer(pool: &mut Pool, n: usize) -> Result<Vec<i64>, NoMemory> {
        pool.ints(n)
    }

    fn keep(v: Vec<i64>) -> Atoms
        requires { All (λ _. Unit {0}) v.items }
        ensures { AreAtoms result NumberKind (map number v.items) }
    {
        Atoms::Wholes(v)
    }

    fn noun(self) -> Noun {
        Noun::number(self)
    }
}

/// Bits.
impl Stored for u8 {
    ghost atom = { λ b. number (pos b) };

    ghost IsKept = { λ b. b < 2 };

    fn zero() -> u8 {
        0
    }

    fn lanes() -> usize {
        1024
    }

    fn buffer(pool: &mut Pool, n: usize) -> Result<Vec<u8>, NoMemory> {
        pool.bytes(n)
    }

    fn keep(v: Vec<u8>) -> Atoms
        requires { All (λ b. b < 2) v.items }
        ensures { AreAtoms result NumberKind (map (λ b. number (pos b)) v.items) }
    {
        Atoms::Bits(v)
    }

    fn noun(self) -> Noun {
        Noun::number(i64::from(self))
    }
}
