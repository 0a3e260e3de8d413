// Verbs that are one word, on one cell or two.
ghost use Rattle.std.specs.Prelude.{◌≡◌, [], ◌∷◌, IfOk};
ghost use Rattle.std.specs.Option.{option_copied};
ghost use Rattle.j_definitions.specs.Array.{boxed, atom_array, IsWithin};
ghost use Rattle.j_definitions.specs.declared.Kind.TheVariants.{Boxed as BoxedKind};
ghost use Rattle.j_noun.specs.Refused.{OrWanting};
ghost use Rattle.j_leaves.specs.Spelling.{constant};
ghost use Rattle.j_verbs.specs.Answered.{Gives};
ghost use Rattle.j_verbs.specs.Words.{always, atom_of, left_of, scalar_cell, two_cell, valence as valence_of, word, HasValence, IsServed};

use crate::calls::{Dyad, of_one, of_two};
use crate::table::{Valence, valences_of};
use j_kernels as kernels;
use j_kernels::Scalar;
use j_leaves::Primitive;
use j_noun::{Atoms, Fault, NoMemory, Noun, Pool, Refusal, Shape, View, boxes};

/// The valence of a word, where there is a left argument or none.
#[tactic(auto, using(crate::proofs::Served::monad_served, crate::proofs::Served::dyad_served))]
pub fn valence(p: Primitive, x: Option<&Noun>) -> Valence
    ensures value { result ≡ valence_of p (option_copied x.entry) }
    ensures served { IsServed result (option_copied x.entry) }
{
    match x {
        Some(_) => valences_of(p).dyad,
        None => valences_of(p).monad,
    }
}

// A noun in a box as an atom.
fn boxed_atom(pool: &mut Pool, kid: &Noun) -> Result<Noun, NoMemory>
    requires { IsWithin [] (boxed kid.now ∷ []) }
    ensures { IfOk result (λ n. n ≡ atom_array BoxedKind (boxed kid.now)) }
{
    let mut kids = boxes(pool, 1)?;
    let Ok(()) = kids.push(kid.duplicate()?) else {
        return Err(NoMemory);
    };
    match Noun::make(pool, Shape::new(), Atoms::Boxes(kids)) {
        Ok(atom) => Ok(atom),
        Err(Refusal::NoMemory) => Err(NoMemory),
        Err(Refusal::Fault(_)) => unreachable!(),
    }
}

// The first atom of a cell, which a cell of rank 0 is; where there is none, the number 0.
fn first_atom(pool: &mut Pool, y: &Noun) -> Result<Noun, NoMemory>
    ensures { IfOk result (λ n. (n.shape ≡ []) × (n.atoms ≡ atom_of y.now ∷ [])) }
{
    match y.view() {
        View::Wholes([n, ..]) => Ok(Noun::number(*n)),
        View::Bits([b, ..]) => Ok(Noun::number(i64::from(*b))),
        View::Bytes([b, ..]) => Ok(Noun::character(*b)),
        View::Boxes([kid, ..]) => boxed_atom(pool, kid),
        View::Wholes([]) | View::Bits([]) | View::Bytes([]) | View::Boxes([]) => {
            Ok(Noun::number(0))
        }
    }
}

// A scalar verb on one atom or two.
fn scalar(pool: &mut Pool, v: Scalar, x: Option<&Noun>, y: &Noun) -> Result<Noun, Refusal>
    requires { HasValence v (option_copied x) }
    ensures { OrWanting (scalar_cell v (option_copied x.entry) y.now) result }
{
    let right = first_atom(pool, y)?;
    match x {
        Some(x) => {
            let left = first_atom(pool, x)?;
            let result = kernels::dyad(v, pool, &left, &right);
            drop(left);
            drop(right);
            result
        }
        None => {
            let result = kernels::monad(v, pool, &right);
            drop(right);
            result
        }
    }
}

// The left argument, where there is one, else the right one.
fn left_argument(x: Option<&Noun>, y: &Noun) -> Result<Noun, NoMemory>
    ensures { IfOk result (λ a. a ≡ left_of (option_copied x.entry) y.now) }
{
    match x {
        Some(x) => x.duplicate(),
        None => y.duplicate(),
    }
}

// A verb on two nouns, of which y is both where there is no left one.
fn on_two(pool: &mut Pool, d: Dyad, x: Option<&Noun>, y: &Noun) -> Result<Noun, Refusal>
    ensures { OrWanting (two_cell d (option_copied x.entry) y.now) result }
{
    match x {
        Some(x) => of_two(pool, d, x, y),
        None => of_two(pool, d, y, y),
    }
}

// A constant verb.
fn constant(p: Primitive) -> Result<Noun, Refusal>
    ensures { OrWanting (always (constant p)) result }
{
    match p.constant() {
        Some(n) => Ok(Noun::number(n)),
        None => Err(Refusal::Fault(Fault::Nonce)),
    }
}

/// A word on one cell or two.
#[tactic(auto, using(crate::proofs::Answers::scalar_word_gives))]
pub fn cell(pool: &mut Pool, p: Primitive, x: Option<&Noun>, y: &Noun) -> Result<Noun, Refusal>
    ensures { Gives (word p (option_copied x.entry) y.now) result }
{
    match valence(p, x) {
        Valence::Scalar(v) => scalar(pool, v, x, y),
        Valence::OnOne(m) => of_one(pool, m, y),
        Valence::OnTwo(d) => on_two(pool, d, x, y),
        Valence::LeftArgument => Ok(left_argument(x, y)?),
        Valence::RightArgument => Ok(y.duplicate()?),
        Valence::Constant => constant(p),
        Valence::LeftOut => Err(Refusal::Fault(Fault::Nonce)),
        Valence::Later => Err(Refusal::Fault(Fault::Nonce)),
        Valence::Absent => Err(Refusal::Fault(Fault::Domain)),
    }
}
