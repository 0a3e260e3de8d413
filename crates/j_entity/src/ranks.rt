// The ranks of verbs.
ghost use Rattle.std.specs.Prelude.{◌≡◌, map, pos};
ghost use Rattle.j_definitions.specs.Array.{number, byte, boxed};
ghost use Rattle.j_entity.specs.Ranks as spec;
ghost use Rattle.j_entity.specs.View.{verb_of, operand_of};

use crate::entity::{Operand, Parts};
use j_leaves::{Modifier, Primitive, Ranks};
use j_noun::{Noun, Rank, RankPart, View};

const ENDLESS: Ranks = Ranks {
    monad: Rank::Infinite,
    left: Rank::Infinite,
    right: Rank::Infinite,
};

fn same(r: Rank) -> Ranks
    ensures { result ≡ spec.same r }
{
    three(r, r, r)
}

fn three(monad: Rank, left: Rank, right: Rank) -> Ranks
    ensures { result ≡ spec.three monad left right }
{
    Ranks { monad, left, right }
}

pub(crate) fn primitive_ranks(p: Primitive) -> Ranks
    ensures { result ≡ spec.primitive_ranks p }
{
    let zero = Rank::Number(0);
    let one = Rank::Number(1);
    let all = Rank::Infinite;
    match p {
        Primitive::Plus
        | Primitive::Minus
        | Primitive::Times
        | Primitive::Divide
        | Primitive::Residue
        | Primitive::LesserOf
        | Primitive::GreaterOf
        | Primitive::LessEqual
        | Primitive::GreaterEqual
        | Primitive::Double
        | Primitive::Square
        | Primitive::Greater => same(zero),
        Primitive::Power
        | Primitive::Or
        | Primitive::And
        | Primitive::Less
        | Primitive::Equal
        | Primitive::NotEqual => three(all, zero, zero),
        Primitive::Not | Primitive::Halve | Primitive::LastIndexOf => three(zero, all, all),
        Primitive::Words | Primitive::IndexOf | Primitive::Indices => three(one, all, all),
        Primitive::Shape
        | Primitive::Tally
        | Primitive::Reverse
        | Primitive::Transpose
        | Primitive::Take
        | Primitive::Drop => three(all, one, all),
        Primitive::Base => same(one),
        Primitive::Antibase => three(all, one, zero),
        Primitive::From => three(one, zero, all),
        _ => ENDLESS,
    }
}

#[tactic(auto, using(crate::proofs::Numbers::many))]
fn number_ranks(l: &[i64]) -> Ranks
    ensures { result ≡ spec.listed_ranks (spec.numbers_in (map number l.now)) }
{
    match l {
        [a] => same(Rank::Number(*a)),
        [a, b] => three(Rank::Number(*b), Rank::Number(*a), Rank::Number(*b)),
        [a, b, c] => three(Rank::Number(*a), Rank::Number(*b), Rank::Number(*c)),
        _ => ENDLESS,
    }
}

#[tactic(auto, using(crate::proofs::Numbers::many_bits))]
fn bit_ranks(l: &[u8]) -> Ranks
    ensures { result ≡ spec.listed_ranks (spec.numbers_in (map (λ b. number (pos b)) l.now)) }
{
    match l {
        [a] => same(Rank::Number(i64::from(*a))),
        [a, b] => three(
            Rank::Number(i64::from(*b)),
            Rank::Number(i64::from(*a)),
            Rank::Number(i64::from(*b)),
        ),
        [a, b, c] => three(
            Rank::Number(i64::from(*a)),
            Rank::Number(i64::from(*b)),
            Rank::Number(i64::from(*c)),
        ),
        _ => ENDLESS,
    }
}

#[tactic(auto, using(crate::proofs::Numbers::no_bytes))]
fn byte_ranks(_bytes: &[u8]) -> Ranks
    ensures { result ≡ spec.listed_ranks (spec.numbers_in (map byte _bytes.now)) }
{
    ENDLESS
}

#[tactic(auto, using(crate::proofs::Numbers::no_boxes))]
fn box_ranks(_boxes: &[Noun]) -> Ranks
    ensures { result ≡ spec.listed_ranks (spec.numbers_in (map boxed _boxes.now)) }
{
    ENDLESS
}

fn noun_ranks(n: &Noun) -> Ranks
    ensures { result ≡ spec.noun_ranks n.now }
{
    if n.axes().len() > 1 {
        return ENDLESS;
    }
    match n.view() {
        View::Wholes(numbers) => number_ranks(numbers),
        View::Bits(bits) => bit_ranks(bits),
        View::Bytes(bytes) => byte_ranks(bytes),
        View::Boxes(boxes) => box_ranks(boxes),
    }
}

fn rank_of_part(part: RankPart) -> Rank
    ensures { result ≡ spec.rank_of_part part }
{
    match part {
        RankPart::Number(n) => Rank::Number(n),
        RankPart::Infinite => Rank::Infinite,
    }
}

fn list_ranks(l: &[RankPart]) -> Ranks
    ensures { result ≡ spec.listed_ranks (map spec.rank_of_part l.now) }
{
    match l {
        [a] => same(rank_of_part(*a)),
        [a, b] => three(rank_of_part(*b), rank_of_part(*a), rank_of_part(*b)),
        [a, b, c] => three(rank_of_part(*a), rank_of_part(*b), rank_of_part(*c)),
        _ => ENDLESS,
    }
}

/// A rank and one more, where there is such a rank.
pub fn one_more(r: Rank) -> Rank
    ensures { result ≡ spec.one_more r }
{
    match r {
        Rank::Number(n) if n >= 0 && n < i64::MAX => Rank::Number(n + 1),
        _ => Rank::Infinite,
    }
}

fn derived_ranks(m: Modifier, u: Ranks, v: Ranks, said: Ranks, verbs: bool) -> Ranks
    ensures { result ≡ spec.derived_ranks m u v said verbs }
{
    match m {
        Modifier::Prefix | Modifier::Suffix => {
            three(Rank::Infinite, Rank::Number(0), Rank::Infinite)
        }
        Modifier::Cut => three(Rank::Infinite, Rank::Number(1), Rank::Infinite),
        Modifier::Passive => three(Rank::Infinite, u.right, u.left),
        Modifier::Rank => said,
        Modifier::Atop => v,
        Modifier::Bond => { if verbs { same(v.monad) } else { ENDLESS } }
        Modifier::Under => same(v.monad),
        Modifier::Product => three(Rank::Infinite, one_more(v.left), Rank::Infinite),
        Modifier::Monadic => three(u.monad, v.left, v.right),
        _ => ENDLESS,
    }
}

impl Operand {
    fn ranks(&self) -> Ranks
        ensures { result ≡ spec.operand_ranks (operand_of self.now) }
    {
        match self {
            Operand::Verb(v) => v.ranks(),
            Operand::Noun(_) | Operand::Ranks(_) => ENDLESS,
        }
    }

    /// The ranks that the right operand of `"` says.
    fn said_ranks(&self) -> Ranks
        ensures { result ≡ spec.said_ranks (operand_of self.now) }
    {
        match self {
            Operand::Verb(v) => v.ranks(),
            Operand::Noun(n) => noun_ranks(n),
            Operand::Ranks(l) => list_ranks(l.parts()),
        }
    }
}

fn are_verbs(u: &Operand, v: &Operand) -> bool
    ensures { result ≡ spec.are_verbs (operand_of u.now) (operand_of v.now) }
{
    matches!((u, v), (Operand::Verb(_), Operand::Verb(_)))
}

impl Parts {
    /// The ranks of a verb of these parts.
    pub(crate) fn ranks(&self) -> Ranks
        ensures { result ≡ spec.verb_ranks (verb_of self.now) }
    {
        match self {
            Parts::Primitive(p) => primitive_ranks(*p),
            Parts::Named(_, r) => *r,
            Parts::Derived(m, u) => derived_ranks(*m, u.ranks(), ENDLESS, ENDLESS, false),
            Parts::Derived2(m, u, v) => {
                derived_ranks(*m, u.ranks(), v.ranks(), v.said_ranks(), are_verbs(u, v))
            }
            _ => ENDLESS,
        }
    }
}
