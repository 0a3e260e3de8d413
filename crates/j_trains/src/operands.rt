// Which operands a modifier takes: the fault that they are, or none.
ghost use Rattle.std.specs.Prelude.{◌≡◌, length, map, pos};
ghost use Rattle.j_definitions.specs.Array.{number};
ghost use Rattle.j_noun.specs.Viewed.{viewed, kind_viewed};
ghost use Rattle.j_entity.specs.View.{operand_of};
ghost use Rattle.j_trains.specs.Modifiers as spec;

use crate::obverses::obverse;
use j_entity::Operand;
use j_leaves::Modifier;
use j_noun::{Fault, Noun, RankList, RankPart, View};

// One, two or three ranks.
fn rank_count_fault(count: usize) -> Option<Fault>
    ensures { result ≡ spec.rank_count_fault count }
{
    if (1..=3).contains(&count) {
        None
    } else {
        Some(Fault::Length)
    }
}

// Whether the atoms are numbers. No atoms count as each kind.
fn are_numbers(atoms: View<'_>) -> bool
    ensures { result ≡ spec.holds_numbers (kind_viewed atoms.entry) (viewed atoms.entry) }
{
    match atoms {
        View::Wholes(_) | View::Bits(_) => true,
        View::Bytes(bytes) => bytes.is_empty(),
        View::Boxes(nouns) => nouns.is_empty(),
    }
}

fn count(atoms: View<'_>) -> usize
    ensures { result ≡ length (viewed atoms.entry) }
{
    match atoms {
        View::Wholes(numbers) => numbers.len(),
        View::Bits(bytes) | View::Bytes(bytes) => bytes.len(),
        View::Boxes(nouns) => nouns.len(),
    }
}

// The n of `u"n`.
fn ranks_fault(n: &Noun) -> Option<Fault>
    ensures { result ≡ spec.ranks_fault n.now }
{
    if !are_numbers(n.view()) {
        return Some(Fault::Domain);
    }
    if n.axes().len() > 1 {
        return Some(Fault::Rank);
    }
    rank_count_fault(count(n.view()))
}

#[tactic(auto, using(crate::proofs::Signs::no_bit_negative, crate::proofs::Signs::no_byte_negative, crate::proofs::Signs::no_box_negative))]
fn begins_negative(atoms: View<'_>) -> bool
    ensures { result ≡ spec.begins_negative (viewed atoms.entry) }
{
    match atoms {
        View::Wholes([n, ..]) => *n < 0,
        View::Wholes([]) | View::Bits(_) | View::Bytes(_) | View::Boxes(_) => false,
    }
}

/// The fault of a noun as the n of `u^:n`, or none where it says how many times.
pub fn times_fault(n: &Noun) -> Option<Fault>
    ensures { result ≡ spec.times_fault n.now }
{
    if !are_numbers(n.view()) {
        return Some(Fault::Domain);
    }
    if !n.axes().is_empty() {
        return Some(Fault::Rank);
    }
    if begins_negative(n.view()) {
        Some(Fault::Nonce)
    } else {
        None
    }
}

// `u"n`, `u"v` and `m"n`.
fn rank_fault(u: &Operand, v: &Operand) -> Option<Fault>
    ensures { result ≡ spec.rank_fault (operand_of u.now) (operand_of v.now) }
{
    match (u, v) {
        (Operand::Verb(_) | Operand::Noun(_), Operand::Noun(n)) => ranks_fault(n),
        (Operand::Verb(_) | Operand::Noun(_), Operand::Ranks(l)) => rank_count_fault(
            l.parts().len(),
        ),
        (Operand::Verb(_), Operand::Verb(_)) => None,
        (Operand::Noun(_), Operand::Verb(_)) | (Operand::Ranks(_), _) => Some(Fault::Domain),
    }
}

// Two verbs.
fn verbs_fault(u: &Operand, v: &Operand) -> Option<Fault>
    ensures { result ≡ spec.verbs_fault (operand_of u.now) (operand_of v.now) }
{
    match (u, v) {
        (Operand::Verb(_), Operand::Verb(_)) => None,
        _ => Some(Fault::Domain),
    }
}

// `u&v`, `m&v` and `u&n`.
fn bond_fault(u: &Operand, v: &Operand) -> Option<Fault>
    ensures { result ≡ spec.bond_fault (operand_of u.now) (operand_of v.now) }
{
    match (u, v) {
        (Operand::Verb(_), Operand::Verb(_))
        | (Operand::Noun(_), Operand::Verb(_))
        | (Operand::Verb(_), Operand::Noun(_)) => None,
        _ => Some(Fault::Domain),
    }
}

// The n of `u^:n` where a part of it is `_`.
fn endless_fault(l: &RankList) -> Option<Fault>
    ensures { result ≡ spec.endless_fault l.now }
{
    match l.parts() {
        [RankPart::Infinite] => None,
        _ => Some(Fault::Rank),
    }
}

// `u^:n`, `u^:_` and `u^:v`.
fn power_fault(u: &Operand, v: &Operand) -> Option<Fault>
    ensures { result ≡ spec.power_fault (operand_of u.now) (operand_of v.now) }
{
    match (u, v) {
        (Operand::Verb(_), Operand::Noun(n)) => times_fault(n),
        (Operand::Verb(_), Operand::Ranks(l)) => endless_fault(l),
        (Operand::Verb(_), Operand::Verb(_)) => None,
        _ => Some(Fault::Domain),
    }
}

// `u~`, `u/`, `u\`, `u\.` and `u/.`.
fn verb_fault(u: &Operand) -> Option<Fault>
    ensures { result ≡ spec.verb_fault (operand_of u.now) }
{
    match u {
        Operand::Verb(_) => None,
        Operand::Noun(_) => Some(Fault::Nonce),
        Operand::Ranks(_) => Some(Fault::Domain),
    }
}

// `m}`, and `u}` of a verb, which isn't formed yet.
fn amend_fault(u: &Operand) -> Option<Fault>
    ensures { result ≡ spec.amend_fault (operand_of u.now) }
{
    match u {
        Operand::Noun(_) => None,
        Operand::Verb(_) => Some(Fault::Nonce),
        Operand::Ranks(_) => Some(Fault::Domain),
    }
}

// `u&.v`.
fn under_fault(u: &Operand, v: &Operand) -> Option<Fault>
    ensures { result ≡ spec.under_fault (operand_of u.now) (operand_of v.now) }
{
    match (u, v) {
        (Operand::Verb(_), Operand::Verb(v)) => match obverse(v) {
            Some(_) => None,
            None => Some(Fault::Domain),
        },
        _ => Some(Fault::Domain),
    }
}

// Which cut a number says.
fn cut_number_fault(n: i64) -> Option<Fault>
    ensures { result ≡ spec.cut_number_fault n }
{
    match n {
        1 | -1 | 2 | -2 => None,
        0 | 3 | -3 => Some(Fault::Nonce),
        _ => Some(Fault::Domain),
    }
}

// Which cut the first number says.
fn first_cut_fault(numbers: &[i64]) -> Option<Fault>
    ensures { result ≡ spec.cut_atom_fault (map (λ n. number n) numbers.now) }
{
    match numbers {
        [n, ..] => cut_number_fault(*n),
        [] => Some(Fault::Domain),
    }
}

// Which cut the first bit says.
fn first_bit_fault(bits: &[u8]) -> Option<Fault>
    ensures { result ≡ spec.cut_atom_fault (map (λ b. number (pos b)) bits.now) }
{
    match bits {
        [b, ..] => cut_number_fault(i64::from(*b)),
        [] => Some(Fault::Domain),
    }
}

// Which cut the first atom says.
#[tactic(auto, using(crate::proofs::Signs::no_byte_cut, crate::proofs::Signs::no_box_cut))]
fn cut_atom_fault(atoms: View<'_>) -> Option<Fault>
    ensures { result ≡ spec.cut_atom_fault (viewed atoms.entry) }
{
    match atoms {
        View::Wholes(numbers) => first_cut_fault(numbers),
        View::Bits(bits) => first_bit_fault(bits),
        View::Bytes(_) | View::Boxes(_) => Some(Fault::Domain),
    }
}

// The n of `u;.n`.
fn cut_noun_fault(n: &Noun) -> Option<Fault>
    ensures { result ≡ spec.cut_noun_fault n.now }
{
    if n.axes().is_empty() {
        cut_atom_fault(n.view())
    } else {
        Some(Fault::Domain)
    }
}

// `u;.n`, and `m;.n`, which isn't formed yet.
fn cut_fault(u: &Operand, v: &Operand) -> Option<Fault>
    ensures { result ≡ spec.cut_fault (operand_of u.now) (operand_of v.now) }
{
    match (u, v) {
        (Operand::Verb(_), Operand::Noun(n)) => cut_noun_fault(n),
        (Operand::Noun(_), Operand::Noun(_)) => Some(Fault::Nonce),
        _ => Some(Fault::Domain),
    }
}

/// The fault of operands of a conjunction that is a word, or none where they form a verb.
pub fn conjunction_fault(m: Modifier, u: &Operand, v: &Operand) -> Option<Fault>
    ensures { result ≡ spec.conjunction_fault m (operand_of u.now) (operand_of v.now) }
{
    match m {
        Modifier::Rank => rank_fault(u, v),
        Modifier::Atop | Modifier::At | Modifier::Appose | Modifier::Product => verbs_fault(u, v),
        Modifier::Bond => bond_fault(u, v),
        Modifier::PowerOf => power_fault(u, v),
        Modifier::Cut => cut_fault(u, v),
        Modifier::Under => under_fault(u, v),
        Modifier::Adverse
        | Modifier::Monadic
        | Modifier::Insert
        | Modifier::Prefix
        | Modifier::Suffix
        | Modifier::Oblique
        | Modifier::Passive
        | Modifier::Amend => Some(Fault::Nonce),
    }
}

/// The fault of the operand of an adverb that is a word, or none where it forms a verb.
pub fn adverb_fault(m: Modifier, u: &Operand) -> Option<Fault>
    ensures { result ≡ spec.adverb_fault m (operand_of u.now) }
{
    match m {
        Modifier::Passive
        | Modifier::Insert
        | Modifier::Prefix
        | Modifier::Suffix
        | Modifier::Oblique => verb_fault(u),
        Modifier::Amend => amend_fault(u),
        Modifier::Rank
        | Modifier::Atop
        | Modifier::At
        | Modifier::Bond
        | Modifier::Appose
        | Modifier::PowerOf
        | Modifier::Cut
        | Modifier::Under
        | Modifier::Product
        | Modifier::Adverse
        | Modifier::Monadic => Some(Fault::Nonce),
    }
}
