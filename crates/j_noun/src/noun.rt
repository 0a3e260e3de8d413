// A noun and its storage.
ghost use Rattle.std.specs.Prelude.{◌≡◌, ◌≢◌, ◌≤◌, ◌<◌, ◌==◌, ◌+◌, ◌*◌, [], ◌∷◌, length, map, take, drop, vec_capacity, IfOk, IfErr, IfSome, IsOk, IsSome, MatchOption, pos};
ghost use Rattle.std.specs.List.{sum_by};
ghost use Rattle.std.specs.Cmp.Lexicographic.{pointwise};
ghost use Rattle.j_pool.specs.Asked.{raised};
ghost use Rattle.j_definitions.specs.Array.{number, byte, boxed, product, tally, weight, level, atom_weight, greatest_level, atom_array, IsNoun, IsWithin, arrays_match};
ghost use Rattle.j_definitions.specs.Items.{items_cmp};
ghost use Rattle.j_definitions.specs.Limits.{limited};
ghost use Rattle.j_definitions.specs.declared.Kind.TheVariants.{Number as NumberKind, Character as CharacterKind, Boxed as BoxedKind};
ghost use Rattle.j_noun.specs.Refused.{IsRefusedBeyond, OrWanting};
ghost use Rattle.j_noun.specs.Viewed.{viewed, kind_viewed, ShowsBits};
ghost use Rattle.j_noun.specs.Held.{IsInline, kind_kept, atoms_kept, array_kept, AreBits, IsMeasured};

use crate::axes::Axes;
use crate::order::order_runs;
use crate::refusal::Refusal;
use crate::shape::Shape;
use crate::short::ShortText;
use crate::view::{View, views_match};
use j_definitions::{Fault, Kind};
use j_pool::{NoMemory, Pool};
use std::cmp::Ordering;
use std::marker::Model;
use std::rc::Rc;
use std::slice;

/// A noun. An atom that isn't boxed and a list of few characters are kept inline, a box alone shares what is in it, and any other noun shares its buffer.
#[cycle(noun)]
#[derive(Drop)]
pub struct Noun {
    held: Held,
}

#[cycle(noun)]
#[derive(Drop)]
enum Held {
    Number(i64),
    Character(u8),
    Text(ShortText),
    Boxed(Rc<Content>),
    Shared(Rc<Block>),
}

// What is in a box, with the weight and the level of the box.
#[cycle(noun)]
#[derive(Drop)]
struct Content {
    noun: Noun,
    weight: usize,
    level: usize,
}

// The weight and the level are kept beside the atoms.
#[cycle(noun)]
#[derive(Drop)]
struct Block {
    shape: Axes,
    atoms: Atoms,
    weight: usize,
    level: usize,
}

/// The atoms of a noun that is to be made, in order. Bits are the numbers 0 and 1.
#[cycle(noun)]
#[derive(Drop)]
pub enum Atoms {
    Wholes(Vec<i64>),
    Bits(Vec<u8>),
    Bytes(Vec<u8>),
    Boxes(Vec<Noun>),
}

pub const WEIGHT_LIMIT: usize = 4_194_304;

pub const LEVEL_LIMIT: usize = 64;

/// An empty buffer with room for `n` nouns.
pub fn boxes(pool: &mut Pool, n: usize) -> Result<Vec<Noun>, NoMemory>
    ensures asked { pool.new ≡ raised pool.old n }
    ensures ok { IfOk result (λ v. (v.items ≡ []) × (n ≤ vec_capacity v)) }
{
    pool.fresh(n)
}

// The weight and the level of atoms, or `None` where the weight passes its limit.
#[tactic(auto, using(crate::proofs::Rules::kept_rules))]
fn measured(atoms: &Atoms) -> Option<(usize, usize)>
    ensures { MatchOption result (4194304 < sum_by atom_weight (atoms_kept atoms.now)) (λ p. IsMeasured (atoms_kept atoms.now) p.0 p.1) }
{
    match atoms {
        Atoms::Wholes(v) => within((v.len(), 0)),
        Atoms::Bits(v) => within((v.len(), 0)),
        Atoms::Bytes(v) => within((v.len(), 0)),
        Atoms::Boxes(v) => {
            if v.len() > WEIGHT_LIMIT {
                None
            } else {
                within(totals(v))
            }
        }
    }
}

// A weight and a level, where the weight is within its limit.
fn within(sizes: (usize, usize)) -> Option<(usize, usize)>
    ensures { MatchOption result (4194304 < sizes.0) (λ p. (p ≡ sizes) × (sizes.0 ≤ 4194304)) }
{
    if sizes.0 <= WEIGHT_LIMIT {
        Some(sizes)
    } else {
        None
    }
}

// The weight and the level of boxes with these nouns.
fn totals(kids: &[Noun]) -> (usize, usize)
    requires { length kids.now ≤ 4194304 }
    ensures weight { result.0 ≡ sum_by atom_weight (map boxed kids.now) }
    ensures level { result.1 ≡ greatest_level (map boxed kids.now) }
{
    let mut weight = 0;
    let mut level = 0;
    for kid in kids {
        weight += kid.weight() + 1;
        if kid.level() >= level {
            level = kid.level() + 1;
        }
    }
    (weight, level)
}

// The atom, if it isn't boxed.
fn single(atoms: &Atoms) -> Option<Noun>
    requires { length (atoms_kept atoms.now) ≡ 1 }
    ensures { MatchOption result (kind_kept atoms.now ≡ BoxedKind) (λ n. n ≡ array_kept [] atoms.now) }
{
    match atoms {
        Atoms::Wholes(v) => Some(Noun::number(v[0])),
        Atoms::Bits(v) => Some(Noun::number(i64::from(v[0]))),
        Atoms::Bytes(v) => Some(Noun::character(v[0])),
        Atoms::Boxes(_) => None,
    }
}

// The list, if it is one of few characters.
fn short_list(atoms: &Atoms) -> Option<Noun>
    ensures { IfSome result (λ n. n ≡ array_kept (length (atoms_kept atoms.now) ∷ []) atoms.now) }
{
    match atoms {
        Atoms::Bytes(v) => Noun::short_text(v),
        Atoms::Wholes(_) | Atoms::Bits(_) | Atoms::Boxes(_) => None,
    }
}

// The noun, if it takes no buffer.
fn inline(axes: &[usize], atoms: &Atoms) -> Option<Noun>
    requires { length (atoms_kept atoms.now) ≡ product axes.now }
    ensures value { IfSome result (λ n. n ≡ array_kept axes.now atoms.now) }
    ensures atom { IsInline (array_kept axes.now atoms.now) → IsSome result }
{
    match axes {
        [] => single(atoms),
        [_] => short_list(atoms),
        _ => None,
    }
}

// What is in the box, if there is one alone, or the atoms again.
fn only_box(axes: &[usize], atoms: Atoms) -> Result<Noun, Atoms>
    requires { length (atoms_kept atoms) ≡ product axes.now }
    ensures ok { IfOk result (λ n. atom_array BoxedKind (boxed n) ≡ array_kept axes.now atoms) }
    ensures err { IfErr result (λ a. a ≡ atoms) }
{
    match atoms {
        Atoms::Boxes(mut v) if axes.is_empty() => match v.pop() {
            Some(noun) => Ok(noun),
            None => unreachable!(),
        },
        other => Err(other),
    }
}

impl Model for Noun {
    ghost use Rattle.j_definitions.specs.Array.{Array, level, IsNoun};
    ghost use Rattle.j_definitions.specs.Stored.{array_code};

    ghost Value = { Array };

    ghost coded = { array_code };

    ghost use Rattle.j_noun.specs.Held.{array_held, IsSound};

    ghost view = { λ a. array_held a.held };

    ghost invariant = { λ a. IsSound a.held };

    ghost size = { level };

    ghost use Rattle.j_noun.specs.Falls.{deep_le-level};

    ghost size_decreases = { λ a h. deep_le-level a.held };
}

impl Noun {
    #[tactic(auto, using(crate::proofs::Rules::atom_rules))]
    pub fn number(n: i64) -> Noun
        ensures { result ≡ atom_array NumberKind (number n) }
    {
        Noun {
            held: Held::Number(n),
        }
    }

    #[tactic(auto, using(crate::proofs::Rules::atom_rules))]
    pub fn character(b: u8) -> Noun
        ensures { result ≡ atom_array CharacterKind (byte b) }
    {
        Noun {
            held: Held::Character(b),
        }
    }

    /// The list of these characters, where it takes no buffer: at most seven do.
    pub fn short_text(bytes: &[u8]) -> Option<Noun>
        ensures { IfSome result (λ n. n ≡ record { kind = CharacterKind; shape = length bytes.now ∷ []; atoms = map byte bytes.now }) }
    {
        match ShortText::of(bytes) {
            Some(text) => Some(Noun {
                held: Held::Text(text),
            }),
            None => None,
        }
    }

    // A box alone.
    #[tactic(auto, using(crate::proofs::Rules::box_rules))]
    fn boxed(pool: &Pool, content: Content) -> Result<Noun, NoMemory>
        requires measured { IsMeasured (boxed content.noun ∷ []) content.weight content.level }
        requires level { content.level ≤ 64 }
        ensures { IfOk result (λ n. n ≡ atom_array BoxedKind (boxed content.noun)) }
    {
        match Rc::new(pool.alloc(), content) {
            Ok(content) => Ok(Noun {
                held: Held::Boxed(content),
            }),
            Err(_) => Err(NoMemory),
        }
    }

    // The noun of a shape and a buffer.
    fn shared(
        pool: &Pool,
        shape: &Shape,
        atoms: Atoms,
        sizes: (usize, usize),
    ) -> Result<Noun, NoMemory>
        requires as_many { length (atoms_kept atoms) ≡ product shape.now }
        requires bits { AreBits atoms }
        requires not_inline { IsInline (array_kept shape.now atoms) → ⊥ }
        requires measured { IsMeasured (atoms_kept atoms) sizes.0 sizes.1 }
        requires within { IsWithin shape.now (atoms_kept atoms) }
        ensures { IfOk result (λ n. n ≡ array_kept shape.now atoms) }
    {
        let block = Block {
            shape: Axes::of(pool.alloc(), shape)?,
            atoms,
            weight: sizes.0,
            level: sizes.1,
        };
        match Rc::new(pool.alloc(), block) {
            Ok(block) => Ok(Noun {
                held: Held::Shared(block),
            }),
            Err(_) => Err(NoMemory),
        }
    }

    // The noun of a shape and its atoms, as its limits are met or passed.
    fn made(pool: &Pool, shape: Shape, atoms: Atoms) -> Result<Noun, Refusal>
        requires as_many { length (atoms_kept atoms) ≡ product shape }
        requires bits { AreBits atoms }
        ensures ok { IfOk result (λ n. (n ≡ array_kept shape atoms) × IsWithin shape (atoms_kept atoms)) }
        ensures err { IfErr result (IsRefusedBeyond (IsWithin shape (atoms_kept atoms))) }
    {
        let Some(sizes) = measured(&atoms) else {
            return Err(Refusal::Fault(Fault::Limit));
        };
        if sizes.1 > LEVEL_LIMIT || !shape.is_within() {
            return Err(Refusal::Fault(Fault::Limit));
        }
        if let Some(noun) = inline(shape.axes(), &atoms) {
            return Ok(noun);
        }
        match only_box(shape.axes(), atoms) {
            Ok(noun) => {
                let content = Content {
                    noun,
                    weight: sizes.0,
                    level: sizes.1,
                };
                Ok(Noun::boxed(pool, content)?)
            }
            Err(atoms) => Ok(Noun::shared(pool, &shape, atoms, sizes)?),
        }
    }

    /// The noun of a shape and its atoms. What was asked of the pool stays.
    pub fn make(pool: &mut Pool, shape: Shape, atoms: Atoms) -> Result<Noun, Refusal>
        requires as_many { length (atoms_kept atoms) ≡ product shape }
        requires bits { AreBits atoms }
        ensures asked { pool.new ≡ pool.old }
        ensures ok { IfOk result (λ n. (n ≡ array_kept shape atoms) × IsWithin shape (atoms_kept atoms)) }
        ensures err { IfErr result (IsRefusedBeyond (IsWithin shape (atoms_kept atoms))) }
        ensures limited { OrWanting (limited (array_kept shape atoms)) result }
    {
        Noun::made(pool, shape, atoms)
    }

    pub fn kind(&self) -> Kind
        ensures { result ≡ self.now.kind }
    {
        match &self.held {
            Held::Number(_) => Kind::Number,
            Held::Character(_) | Held::Text(_) => Kind::Character,
            Held::Shared(block) => match &block.atoms {
                Atoms::Wholes(_) | Atoms::Bits(_) => Kind::Number,
                Atoms::Bytes(_) => Kind::Character,
                Atoms::Boxes(_) => Kind::Boxed,
            },
            Held::Boxed(_) => Kind::Boxed,
        }
    }

    pub fn shape(&self) -> Shape
        ensures { result ≡ self.now.shape }
    {
        match &self.held {
            Held::Number(_) | Held::Character(_) | Held::Boxed(_) => Shape::new(),
            Held::Text(text) => Shape::of(text.axes()),
            Held::Shared(block) => Shape::of(block.shape.axes()),
        }
    }

    /// The axis lengths, lent: none for an atom.
    pub fn axes(&self) -> &[usize]
        ensures value { result.now ≡ self.now.shape }
        ensures rank { length self.now.shape ≤ 32 }
    {
        match &self.held {
            Held::Number(_) | Held::Character(_) | Held::Boxed(_) => &[],
            Held::Text(text) => text.axes(),
            Held::Shared(block) => block.shape.axes(),
        }
    }

    /// The number of items.
    pub fn tally(&self) -> usize
        ensures { result ≡ tally self.now.shape }
    {
        match self.axes() {
            [] => 1,
            [n, ..] => *n,
        }
    }

    /// The number of atoms, with the weights of the nouns in boxes.
    #[tactic(auto, using(crate::proofs::Rules::kept_rules))]
    pub fn weight(&self) -> usize
        ensures value { result ≡ weight self.now }
        ensures limit { result ≤ 4194304 }
    {
        match &self.held {
            Held::Number(_) | Held::Character(_) => 1,
            Held::Text(text) => text.len(),
            Held::Boxed(content) => content.weight,
            Held::Shared(block) => block.weight,
        }
    }

    /// The box level.
    #[tactic(auto, using(crate::proofs::Rules::kept_rules))]
    pub fn level(&self) -> usize
        ensures value { result ≡ level self.now }
        ensures limit { result ≤ 64 }
    {
        match &self.held {
            Held::Number(_) | Held::Character(_) | Held::Text(_) => 0,
            Held::Boxed(content) => content.level,
            Held::Shared(block) => block.level,
        }
    }

    /// The atoms in order, as they are stored.
    #[tactic(auto, using(crate::proofs::Rules::few_rules))]
    pub fn view(&self) -> View<'_>
        ensures atoms { viewed result ≡ self.now.atoms }
        ensures kind { kind_viewed result ≡ self.now.kind }
        ensures bits { ShowsBits result }
        ensures few { length (viewed result) ≤ 4194304 }
        ensures noun { IsNoun self.now }
    {
        match &self.held {
            Held::Number(n) => View::Wholes(slice::from_ref(n)),
            Held::Character(b) => View::Bytes(slice::from_ref(b)),
            Held::Text(text) => View::Bytes(text.bytes()),
            Held::Boxed(content) => View::Boxes(slice::from_ref(&content.noun)),
            Held::Shared(block) => match &block.atoms {
                Atoms::Wholes(v) => View::Wholes(v),
                Atoms::Bits(v) => View::Bits(v),
                Atoms::Bytes(v) => View::Bytes(v),
                Atoms::Boxes(v) => View::Boxes(v),
            },
        }
    }

    /// An equal noun, which shares the buffer.
    pub fn duplicate(&self) -> Result<Noun, NoMemory>
        ensures ok { IfOk result (λ n. n ≡ self.now) }
        ensures atom { IsInline self.now → IsOk result }
    {
        match &self.held {
            Held::Number(n) => Ok(Noun::number(*n)),
            Held::Character(b) => Ok(Noun::character(*b)),
            Held::Text(text) => Ok(Noun {
                held: Held::Text(text.copy()),
            }),
            Held::Boxed(content) => match content.clone() {
                Ok(content) => Ok(Noun {
                    held: Held::Boxed(content),
                }),
                Err(_) => Err(NoMemory),
            },
            Held::Shared(block) => match block.clone() {
                Ok(block) => Ok(Noun {
                    held: Held::Shared(block),
                }),
                Err(_) => Err(NoMemory),
            },
        }
    }

    /// The order of two items, which are compared atom by atom. Boxes aren't ordered.
    pub fn order_items(&self, i: usize, j: usize) -> Ordering
        requires first { i < tally self.now.shape }
        requires second { j < tally self.now.shape }
        requires kind { self.now.kind ≢ BoxedKind }
        ensures { result ≡ items_cmp self.now i j }
    {
        let count = self.tally();
        match self.view() {
            View::Wholes(numbers) => order_runs(numbers, count, i, j),
            View::Bits(bits) => order_runs(bits, count, i, j),
            View::Bytes(bytes) => order_runs(bytes, count, i, j),
            View::Boxes(_) => unreachable!(),
        }
    }

    // Whether the shapes are equal.
    fn has_shape_of(&self, other: &Noun) -> bool
        ensures { result ≡ pointwise ◌==◌ self.now.shape other.now.shape }
    {
        self.axes() == other.axes()
    }

    /// Whether the shapes and the atoms are equal.
    pub fn matches(&self, other: &Noun) -> bool
        ensures { result ≡ arrays_match self.now other.now }
    {
        if !self.has_shape_of(other) {
            return false;
        }
        match self.view() {
            View::Boxes(x) => match other.view() {
                View::Boxes(y) => {
                    if x.len() != y.len() {
                        return false;
                    }
                    for i in 0..x.len() {
                        if !x[i].matches(&y[i]) {
                            return false;
                        }
                    }
                    true
                }
                y => views_match(View::Boxes(x), y),
            },
            x => views_match(x, other.view()),
        }
    }
}
