// Atoms of different kinds, and boxes, one pair at a time.
ghost use Rattle.std.specs.Prelude.{◌≡◌, ◌<◌, ◌*◌, length};
ghost use Rattle.j_definitions.specs.Array.{number, byte, boxed, atom_match};
ghost use Rattle.j_definitions.specs.Cells.{atom_at};
ghost use Rattle.j_noun.specs.Viewed.{viewed};
ghost use Rattle.j_loops.specs.Results.{outcome, IsFilled};
ghost use Rattle.j_kernels.specs.Answers.{said_of_match};

use crate::likeness::Likeness;
use j_noun::{Atoms, Noun, Pool, Refusal, View};

/// Whether two atoms match.
fn atom_matches(x: View<'_>, i: usize, y: View<'_>, j: usize) -> bool
    requires left { i < length (viewed x) }
    requires right { j < length (viewed y) }
    ensures { result ≡ atom_match (atom_at (viewed x.entry) i) (atom_at (viewed y.entry) j) }
{
    match x {
        View::Wholes(a) => number_matches(a[i], y, j),
        View::Bits(a) => number_matches(i64::from(a[i]), y, j),
        View::Bytes(a) => byte_matches(a[i], y, j),
        View::Boxes(a) => box_matches(&a[i], y, j),
    }
}

#[tactic(auto, using(crate::proofs::Storage::element_rules))]
fn number_matches(x: i64, y: View<'_>, j: usize) -> bool
    requires { j < length (viewed y) }
    ensures { result ≡ atom_match (number x) (atom_at (viewed y.entry) j) }
{
    match y {
        View::Wholes(b) => x == b[j],
        View::Bits(b) => x == i64::from(b[j]),
        View::Bytes(_) => false,
        View::Boxes(_) => false,
    }
}

#[tactic(auto, using(crate::proofs::Storage::element_rules))]
fn byte_matches(x: u8, y: View<'_>, j: usize) -> bool
    requires { j < length (viewed y) }
    ensures { result ≡ atom_match (byte x) (atom_at (viewed y.entry) j) }
{
    match y {
        View::Wholes(_) => false,
        View::Bits(_) => false,
        View::Bytes(b) => x == b[j],
        View::Boxes(_) => false,
    }
}

#[tactic(auto, using(crate::proofs::Storage::element_rules))]
fn box_matches(x: &Noun, y: View<'_>, j: usize) -> bool
    requires { j < length (viewed y) }
    ensures { result ≡ atom_match (boxed x.now) (atom_at (viewed y.entry) j) }
{
    match y {
        View::Wholes(_) => false,
        View::Bits(_) => false,
        View::Bytes(_) => false,
        View::Boxes(b) => x.matches(&b[j]),
    }
}

/// The results of n pairs, where `left` in a row have one atom of x and `right` one of y.
pub fn fill_slowly<L: Likeness>(
    pool: &mut Pool,
    x: View<'_>,
    left: usize,
    y: View<'_>,
    right: usize,
    n: usize,
) -> Result<Atoms, Refusal>
    requires left { length (viewed x) * left ≡ n }
    requires right { length (viewed y) * right ≡ n }
    ensures { IsFilled (outcome (said_of_match L.said) left right (viewed x.entry) (viewed y.entry) n) result }
{
    let mut out = pool.bytes(n)?;
    for k in 0..n {
        let said = L::said(atom_matches(x, k / left, y, k / right));
        let Ok(()) = out.push(u8::from(said)) else {
            return Err(Refusal::NoMemory);
        };
    }
    Ok(Atoms::Bits(out))
}
