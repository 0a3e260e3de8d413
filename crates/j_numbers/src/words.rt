// Number words: their parts, and the noun or the ranks that they give.
ghost use Rattle.std.specs.Prelude.{◌≡◌, ◌≤◌, ◌<◌, ◌∷◌, ◌++◌, [], length, map, not, vec_len, MatchOption, IfSome, IfOk, IfErr, Ok as OkValue};
ghost use Rattle.std.specs.List.{position_or_len};
ghost use Rattle.j_definitions.specs.Array.{number};
ghost use Rattle.j_definitions.specs.Cells.{in_order};
ghost use Rattle.j_definitions.specs.Bytes.{is_blank};
ghost use Rattle.j_numbers.specs.Numbers.{parts};
ghost use Rattle.j_numbers.specs.Literals.{number_list, read, noun, IsFaultOf};
ghost use Rattle.j_numbers.specs.Readings.{values, read_after, limit_or_fault};
ghost use Rattle.j_noun.specs.declared.ranks.RankPart.TheVariants.{Number, Infinite};

use crate::fault::NumberFault;
use crate::literal::Literal;
use crate::part::read_part;
use j_noun::{Atoms, Noun, Pool, RankList, RankPart, Refusal, Shape};
use std::cmp;

const MOST_PARTS: usize = 4_194_304;

fn is_blank(b: u8) -> bool
    ensures { result ≡ is_blank b }
{
    b == b' ' || b == b'\t'
}

/// The place of the first byte that isn't blank, or the end.
#[tactic(auto, using(crate::proofs::Places::found_first, crate::proofs::Places::found_none))]
fn first_nonblank(text: &[u8]) -> usize
    ensures place { result ≡ position_or_len (λ b. not (is_blank b)) text.now }
    ensures within { result ≤ length text.now }
{
    for (place, b) in text.iter().enumerate() {
        if !is_blank(*b) {
            return place;
        }
    }
    text.len()
}

/// The place of the first blank, or the end.
#[tactic(auto, using(crate::proofs::Places::found_first, crate::proofs::Places::found_none))]
fn first_blank(text: &[u8]) -> usize
    ensures place { result ≡ position_or_len is_blank text.now }
    ensures within { result ≤ length text.now }
{
    for (place, b) in text.iter().enumerate() {
        if is_blank(*b) {
            return place;
        }
    }
    text.len()
}

/// The first part of a text and what comes after it, or nothing where the text has no part.
#[tactic(auto, using(crate::proofs::Parts::no_part))]
pub fn first_part(text: &[u8]) -> Option<(&[u8], &[u8])>
    ensures { MatchOption result (parts text.now ≡ []) (λ r. (parts text.now ≡ r.0.now ∷ parts r.1.now) × (length r.1.now < length text.now)) }
{
    let start = first_nonblank(text);
    if start == text.len() {
        return None;
    }
    let rest = &text[start..];
    Some(rest.split_at(first_blank(rest)))
}

/// The fault of a text that comes after too many parts: its own, or that there are too many.
#[tactic(auto, using(crate::proofs::Readings::fault_more, crate::proofs::Readings::fault_out, crate::proofs::Readings::fault_end))]
fn fault_beyond(text: &[u8], infinite: bool) -> NumberFault
    ensures { result ≡ limit_or_fault (in_order (values infinite text.now)) }
{
    let mut rest = text;
    while let Some((part, after)) = first_part(rest) {
        if let Err(fault) = read_part(part, infinite) {
            return fault;
        }
        rest = after;
    }
    NumberFault::Limit
}

/// Room for the numbers of a text: it has at most one part more than blanks.
fn room_for(text: &[u8]) -> usize {
    let blanks = text.iter().filter(|b| is_blank(**b)).count();
    cmp::min(blanks, MOST_PARTS - 1) + 1
}

/// The noun of numbers.
#[tactic(auto, using(crate::proofs::Readings::numbers_noun, crate::proofs::Readings::one_noun, crate::proofs::Readings::list_within, crate::proofs::Readings::refused))]
fn make_noun(pool: &mut Pool, numbers: Vec<i64>) -> Result<Noun, NumberFault>
    requires { vec_len numbers ≤ 4194304 }
    ensures ok { IfOk result (λ n. n ≡ number_list (map number numbers.items)) }
    ensures err { IfErr result (λ f. f ≡ NumberFault.NoMemory) }
{
    if numbers.len() == 1 {
        return Ok(Noun::number(numbers[0]));
    }
    let mut shape = Shape::new();
    if shape.add(numbers.len()).is_err() {
        return Err(NumberFault::Limit);
    }
    match Noun::make(pool, shape, Atoms::Wholes(numbers)) {
        Ok(noun) => Ok(noun),
        Err(Refusal::Fault(_)) => Err(NumberFault::Limit),
        Err(Refusal::NoMemory) => Err(NumberFault::NoMemory),
    }
}

/// Numbers as ranks, and an infinite one after them, with room for more.
fn start_ranks(pool: &mut Pool, numbers: &[i64], more: usize) -> Result<Vec<RankPart>, NumberFault>
    ensures ok { IfOk result (λ v. v.items ≡ map Number numbers.now ++ Infinite ∷ []) }
    ensures err { IfErr result (λ f. f ≡ NumberFault.NoMemory) }
{
    let mut ranks = pool.fresh(numbers.len().saturating_add(more).saturating_add(1))?;
    for n in numbers {
        if ranks.push(RankPart::Number(*n)).is_err() {
            return Err(NumberFault::NoMemory);
        }
    }
    if ranks.push(RankPart::Infinite).is_err() {
        return Err(NumberFault::NoMemory);
    }
    Ok(ranks)
}

/// The ranks of numbers, an infinite part and a text.
#[tactic(auto, using(crate::proofs::Readings::read_more, crate::proofs::Readings::read_fault, crate::proofs::Readings::read_beyond, crate::proofs::Readings::ranks_end, crate::proofs::Readings::any_more, crate::proofs::Readings::any_last, crate::proofs::Readings::last_long, crate::proofs::Readings::fault_given, crate::proofs::Readings::memory_given))]
fn read_ranks(pool: &mut Pool, numbers: &[i64], text: &[u8]) -> Result<Literal, NumberFault>
    requires { length numbers.now < 4194304 }
    ensures ok { IfOk result (λ l. read_after (map Number numbers.now ++ Infinite ∷ []) text.now ≡ OkValue l) }
    ensures err { IfErr result (λ f. IsFaultOf (read_after (map Number numbers.now ++ Infinite ∷ []) text.now) f) }
{
    let mut ranks = start_ranks(pool, numbers, room_for(text))?;
    let mut rest = text;
    while let Some((part, after)) = first_part(rest) {
        if ranks.len() == MOST_PARTS {
            return Err(fault_beyond(rest, true));
        }
        let rank = read_part(part, true)?;
        if ranks.push(rank).is_err() {
            return Err(NumberFault::NoMemory);
        }
        rest = after;
    }
    match RankList::make(pool, ranks) {
        Ok(list) => Ok(Literal::Ranks(list)),
        Err(_) => Err(NumberFault::NoMemory),
    }
}

/// The noun of a number word, or its ranks where a part is `_`.
#[tactic(auto, using(crate::proofs::Readings::read_none, crate::proofs::Readings::read_number, crate::proofs::Readings::read_more, crate::proofs::Readings::read_fault, crate::proofs::Readings::read_beyond, crate::proofs::Readings::numbers_end, crate::proofs::Readings::fault_given, crate::proofs::Readings::memory_given))]
pub fn read_list(pool: &mut Pool, text: &[u8]) -> Result<Literal, NumberFault>
    ensures ok { IfOk result (λ l. read text.now ≡ OkValue l) }
    ensures err { IfErr result (λ f. IsFaultOf (read text.now) f) }
{
    let mut numbers = pool.ints(room_for(text))?;
    let mut rest = text;
    while let Some((part, after)) = first_part(rest) {
        if numbers.len() == MOST_PARTS {
            return Err(fault_beyond(rest, true));
        }
        match read_part(part, true)? {
            RankPart::Number(n) => {
                if numbers.push(n).is_err() {
                    return Err(NumberFault::NoMemory);
                }
            }
            RankPart::Infinite => return read_ranks(pool, &numbers, after),
        }
        rest = after;
    }
    Ok(Literal::Noun(make_noun(pool, numbers)?))
}

/// The number of a word that has one part, where it's a number.
#[tactic(auto, using(crate::proofs::Readings::only_noun))]
fn only_number(text: &[u8]) -> Option<i64>
    ensures { IfSome result (λ n. noun text.now ≡ OkValue (number_list (number n ∷ []))) }
{
    let (part, after) = first_part(text)?;
    if first_part(after).is_some() {
        return None;
    }
    match read_part(part, false) {
        Ok(RankPart::Number(n)) => Some(n),
        _ => None,
    }
}

/// The noun of a number word in which no part may be `_`.
#[tactic(auto, using(crate::proofs::Readings::noun_none, crate::proofs::Readings::noun_number, crate::proofs::Readings::noun_fault, crate::proofs::Readings::noun_beyond, crate::proofs::Readings::noun_end, crate::proofs::Readings::all_finite, crate::proofs::Readings::fault_given, crate::proofs::Readings::memory_given))]
pub fn read_noun(pool: &mut Pool, text: &[u8]) -> Result<Noun, NumberFault>
    ensures ok { IfOk result (λ n. noun text.now ≡ OkValue n) }
    ensures err { IfErr result (λ f. IsFaultOf (noun text.now) f) }
{
    if let Some(n) = only_number(text) {
        return Ok(Noun::number(n));
    }
    let mut numbers = pool.ints(room_for(text))?;
    let mut rest = text;
    while let Some((part, after)) = first_part(rest) {
        if numbers.len() == MOST_PARTS {
            return Err(fault_beyond(rest, false));
        }
        match read_part(part, false)? {
            RankPart::Number(n) => {
                if numbers.push(n).is_err() {
                    return Err(NumberFault::NoMemory);
                }
            }
            RankPart::Infinite => return Err(NumberFault::IllFormed),
        }
        rest = after;
    }
    make_noun(pool, numbers)
}
