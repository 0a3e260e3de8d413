// The places of frets.
ghost use Rattle.std.specs.Prelude.{◌≡◌, ◌<◌, ◌≤◌, ℕ, Bool, true, false, cond, pos, unsigned_abs, map, length, take, filter, replicate, MatchOption, IfOk, IfSome, Ok as OkValue, Err as ErrValue};
ghost use Rattle.j_definitions.specs.declared.Fault.TheVariants.{Domain as DomainFault};
ghost use lib.ListN.{get_or};
ghost use Rattle.std.specs.List.{All};
ghost use Rattle.j_definitions.specs.Array.{number, product, tally};
ghost use Rattle.j_definitions.specs.Cells.{in_order};
ghost use Rattle.j_noun.specs.Refused.{OrWantingAs};
ghost use Rattle.j_cuts_key.specs.Cuts.{frets, fret_place, frets_by, marks_served, marked, mark_in};
ghost use Rattle.j_cuts_key.specs.Kept.{IsRising, IsText, byte_places};

use crate::linking::class_at;
use j_noun::{Fault, NoMemory, Noun, Pool, Refusal, View};
use j_search::{CutForm, first_places, lost_places};

// The place of the item that frets match: the first, or the last.
fn fret_place(form: CutForm, items: usize) -> usize
    ensures { result ≡ fret_place form items }
{
    match form {
        CutForm::Begin => 0,
        CutForm::BeginDrop => 0,
        CutForm::End => items.saturating_sub(1),
        CutForm::EndDrop => items.saturating_sub(1),
    }
}

// The places of a character.
fn places_of(pool: &mut Pool, text: &[u8], sought: u8) -> Result<Vec<usize>, NoMemory>
    ensures { IfOk result (λ v. v.items ≡ byte_places sought text.now) }
{
    let mut places = pool.fresh(text.len())?;
    for k in 0..text.len() {
        let here = sought == text[k];
        if here {
            let Ok(()) = places.push(k) else {
                return Err(NoMemory);
            };
        }
    }
    Ok(places)
}

// The frets of a list of characters: the characters that are the first, or the last.
fn text_frets(pool: &mut Pool, form: CutForm, text: &[u8]) -> Result<Vec<usize>, NoMemory>
    requires { 0 < length text.now }
    ensures { IfOk result (λ v. v.items ≡ byte_places (get_or text.now (fret_place form (length text.now)) 0) text.now) }
{
    places_of(pool, text, text[fret_place(form, text.len())])
}

// The characters of a list that has some.
fn text_of(y: &Noun) -> Option<&[u8]>
    ensures { IfSome result (λ text. IsText y.now text.now) }
{
    match (y.axes(), y.view()) {
        ([_], View::Bytes(text)) if !text.is_empty() => Some(text),
        _ => None,
    }
}

/// The places of the items that match the first, or the last.
pub fn frets(pool: &mut Pool, form: CutForm, y: &Noun) -> Result<Vec<usize>, NoMemory>
    ensures places { IfOk result (λ v. v.items ≡ frets form y.now) }
    ensures rising { IfOk result (λ v. IsRising 0 (tally y.now.shape) v.items) }
{
    match text_of(y) {
        Some(text) => text_frets(pool, form, text),
        None => item_frets(pool, form, y),
    }
}

// The places of the items that match the first, or the last, as the items are looked up.
fn item_frets(pool: &mut Pool, form: CutForm, y: &Noun) -> Result<Vec<usize>, NoMemory>
    ensures places { IfOk result (λ v. v.items ≡ frets form y.now) }
    ensures rising { IfOk result (λ v. IsRising 0 (tally y.now.shape) v.items) }
{
    let classes = first_places(pool, y)?;
    let items = classes.len();
    if items == 0 {
        return pool.fresh(0);
    }
    let class = class_at(&classes, fret_place(form, items));
    lost_places(pool, &classes, class)
}

// Whether a number marks a fret, unless it is neither 0 nor 1.
#[tactic(auto, using(crate::proofs::Marks::mark_none, crate::proofs::Marks::mark_one, crate::proofs::Marks::mark_other))]
fn mark_of(n: i64) -> Option<bool>
    ensures { MatchOption result (mark_in (number n) ≡ ErrValue DomainFault) (λ b. mark_in (number n) ≡ OkValue b) }
{
    if n == 0 {
        return Some(false);
    }
    if n == 1 { Some(true) } else { None }
}

// The marks of numbers.
fn marks_of_wholes(pool: &mut Pool, numbers: &[i64]) -> Result<Vec<bool>, Refusal>
    ensures { OrWantingAs (λ v. v.items) (in_order (map mark_in (map number numbers.now))) result }
{
    let mut marks = pool.fresh(numbers.len())?;
    for n in numbers {
        let Some(mark) = mark_of(*n) else {
            return Err(Refusal::Fault(Fault::Domain));
        };
        let Ok(()) = marks.push(mark) else {
            return Err(Refusal::NoMemory);
        };
    }
    Ok(marks)
}

// The marks of bits.
fn marks_of_bits(pool: &mut Pool, bits: &[u8]) -> Result<Vec<bool>, Refusal>
    ensures { OrWantingAs (λ v. v.items) (in_order (map mark_in (map (λ b. number (pos b)) bits.now))) result }
{
    let mut marks = pool.fresh(bits.len())?;
    for b in bits {
        let Some(mark) = mark_of(i64::from(*b)) else {
            return Err(Refusal::Fault(Fault::Domain));
        };
        let Ok(()) = marks.push(mark) else {
            return Err(Refusal::NoMemory);
        };
    }
    Ok(marks)
}

// The marks of x.
fn marks(pool: &mut Pool, x: &Noun) -> Result<Vec<bool>, Refusal>
    ensures marks { OrWantingAs (λ v. v.items) (in_order (map mark_in x.now.atoms)) result }
    ensures many { IfOk result (λ v. length v.items ≡ product x.now.shape) }
{
    match x.view() {
        View::Wholes(v) => marks_of_wholes(pool, v),
        View::Bits(v) => marks_of_bits(pool, v),
        View::Bytes([]) => Ok(pool.fresh(0)?),
        View::Boxes([]) => Ok(pool.fresh(0)?),
        View::Bytes(_) => Err(Refusal::Fault(Fault::Domain)),
        View::Boxes(_) => Err(Refusal::Fault(Fault::Domain)),
    }
}

// The places that are marked.
fn marked(pool: &mut Pool, marks: &[bool]) -> Result<Vec<usize>, NoMemory>
    ensures places { IfOk result (λ v. v.items ≡ marked marks.now) }
    ensures rising { IfOk result (λ v. IsRising 0 (length marks.now) v.items) }
{
    let mut places = pool.fresh(marks.len())?;
    for k in 0..marks.len() {
        if marks[k] {
            let Ok(()) = places.push(k) else {
                return Err(NoMemory);
            };
        }
    }
    Ok(places)
}

// So many marks that are one mark.
fn repeated(pool: &mut Pool, mark: bool, count: usize) -> Result<Vec<bool>, NoMemory>
    ensures { IfOk result (λ v. v.items ≡ replicate count mark) }
{
    let mut marks = pool.fresh(count)?;
    for _ in 0..count {
        let Ok(()) = marks.push(mark) else {
            return Err(NoMemory);
        };
    }
    Ok(marks)
}

// The marks of so many items: an atom serves every item, another length is refused.
fn marks_served(
    pool: &mut Pool,
    axes: &[usize],
    marks: Vec<bool>,
    items: usize,
) -> Result<Vec<bool>, Refusal>
    requires rank { length axes.now ≤ 1 }
    requires many { length marks.items ≡ product axes.now }
    ensures marks { OrWantingAs (λ v. v.items) (marks_served axes.now marks.items items) result }
    ensures many { IfOk result (λ v. length v.items ≡ items) }
{
    match axes {
        [] => Ok(repeated(pool, marks[0], items)?),
        [count, ..] => {
            if *count != items {
                return Err(Refusal::Fault(Fault::Length));
            }
            Ok(marks)
        }
    }
}

/// The places that x marks among so many items.
pub fn frets_by(pool: &mut Pool, x: &Noun, items: usize) -> Result<Vec<usize>, Refusal>
    requires { length x.now.shape ≤ 1 }
    ensures frets { OrWantingAs (λ v. v.items) (frets_by x.now items) result }
    ensures rising { IfOk result (λ v. IsRising 0 items v.items) }
{
    let own = marks(pool, x)?;
    let all = marks_served(pool, x.axes(), own, items)?;
    Ok(marked(pool, &all)?)
}
