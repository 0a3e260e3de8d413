// The words of a whole line.
ghost use Rattle.std.specs.Prelude.{false, ◌≡◌, ◌≢◌, ◌≤◌, ◌<◌, ◌∷◌, [], length, drop, Ok as OkValue, Err as ErrValue, IfOk, IfErr, IfSome, IfNone, OnOk, slice_index_or as get_or};
ghost use Rattle.j_words.specs.Lines.{words, spans, formed, joined, with_word, is_number, IsFault, Lie, IsWithin};
ghost use Rattle.std.specs.List.{All};
ghost use Rattle.j_definitions.specs.Bytes.{is_blank};
ghost use Rattle.j_words.specs.Joins.{ends_number};

use crate::bytes::is_blank;
use crate::forms::first;
use crate::vocabulary::class_of;
use crate::{Class, Word, WordFault};
use j_pool::Pool;

// The words that a line has room for at first.
const FEW_WORDS: usize = 16;

/// Whether words have to be of the vocabulary.
#[derive(Clone, Copy)]
pub(crate) enum Reading {
    Strict,
    Formal,
}

fn is_number(class: Class) -> bool
    ensures { result ≡ is_number class }
{
    match class {
        Class::Number => true,
        _ => false,
    }
}

/// Whether the last word is a number word.
#[tactic(auto, using(crate::proofs::Joins::ends_none, crate::proofs::Joins::ends_last))]
fn ends_number(found: &[Word]) -> bool
    ensures { result ≡ ends_number found.now }
{
    !found.is_empty() && is_number(found[found.len() - 1].class)
}

/// Room for a word more. A full buffer is left for one of twice its words.
fn make_room(pool: &mut Pool, found: &mut Vec<Word>) -> Result<(), WordFault>
    ensures same { found.new.items ≡ found.old.items }
    ensures err { IfErr result (λ f. f ≡ WordFault.NoMemory) }
{
    if found.len() < found.capacity() {
        return Ok(());
    }
    let mut larger = pool.fresh(found.len().saturating_mul(2).saturating_add(1))?;
    larger.extend_from_slice(found)?;
    *found = larger;
    Ok(())
}

/// Adds a word. A number word right of a number word goes on with it.
#[tactic(auto, using(crate::proofs::Joins::grown, crate::proofs::Joins::pushed))]
fn add(found: &mut Vec<Word>, word: Word) -> Result<(), WordFault>
    ensures ok { OnOk result (found.new.items ≡ joined found.old.items (word ∷ [])) }
    ensures err { IfErr result (λ f. f ≡ WordFault.NoMemory) }
{
    if is_number(word.class) && ends_number(found) {
        let last = found.len() - 1;
        found[last].to = word.to;
        return Ok(());
    }
    if found.push(word).is_err() {
        return Err(WordFault::NoMemory);
    }
    Ok(())
}

/// The word at a place that has no blank, or none where it's a comment.
#[tactic(auto, using(crate::proofs::Steps::comment, crate::proofs::Steps::faulty, crate::proofs::Steps::misclassed, crate::proofs::Steps::word_more))]
fn word_at(line: &[u8], at: usize, reading: Reading) -> Result<Option<Word>, WordFault>
    requires short { length line.now ≤ 16777216 }
    requires within { at < length line.now }
    requires seen { is_blank (get_or line.now at 0) ≡ false }
    ensures word { IfOk result (λ o. IfSome o (λ w. formed reading at 0 (drop at line.now) ≡ with_word w (formed reading w.to 0 (drop w.to line.now)))) }
    ensures within { IfOk result (λ o. IfSome o (λ w. (w.from ≡ at) × (w.from < w.to) × (w.to ≤ length line.now))) }
    ensures comment { IfOk result (λ o. IfNone o (formed reading at 0 (drop at line.now) ≡ OkValue [])) }
    ensures err { IfErr result (λ f. formed reading at 0 (drop at line.now) ≡ ErrValue f) }
{
    let (_, rest) = line.split_at(at);
    let Some(found) = first(rest)? else {
        return Ok(None);
    };
    let (bytes, _) = rest.split_at(found.length);
    let class = class_of(reading, found.form, bytes)?;
    Ok(Some(Word {
        class,
        from: at as u32,
        to: (at + found.length) as u32,
    }))
}

/// The words of a line.
#[tactic(auto, using(crate::proofs::Steps::ended, crate::proofs::Steps::blank_more, crate::proofs::Steps::onto_none, crate::proofs::Steps::onto_word, crate::proofs::Steps::onto_end, crate::proofs::Lying::lie_added, crate::proofs::Lying::lie_further))]
fn form(pool: &mut Pool, line: &[u8], reading: Reading) -> Result<Vec<Word>, WordFault>
    requires { length line.now ≤ 16777216 }
    ensures ok { IfOk result (λ v. formed reading 0 0 line.now ≡ OkValue v.items) }
    ensures err { IfErr result (λ f. IsFault (formed reading 0 0 line.now) f) }
    ensures lie { IfOk result (λ v. Lie 0 (length line.now) v.items) }
{
    let mut found = pool.fresh(line.len().min(FEW_WORDS))?;
    let mut at: usize = 0;
    'words: while at < line.len() {
        if is_blank(line[at]) {
            at += 1;
            continue;
        }
        let Some(word) = word_at(line, at, reading)? else {
            return Ok(found);
        };
        make_room(pool, &mut found)?;
        add(&mut found, word)?;
        at = word.to as usize;
    }
    Ok(found)
}

/// The words of a line, or its leftmost fault.
#[tactic(auto, using(crate::proofs::Lying::lie_few, crate::proofs::Lying::lie_within, crate::proofs::Agreeing::same_words))]
pub fn words(pool: &mut Pool, line: &[u8]) -> Result<Vec<Word>, WordFault>
    requires { length line.now ≤ 16777216 }
    ensures ok { IfOk result (λ v. words line.now ≡ OkValue v.items) }
    ensures err { IfErr result (λ f. IsFault (words line.now) f) }
    ensures formal { IfOk result (λ v. spans line.now ≡ OkValue v.items) }
    ensures lie { IfOk result (λ v. Lie 0 (length line.now) v.items) }
    ensures within { IfOk result (λ v. All (IsWithin (length line.now)) v.items) }
    ensures few { IfOk result (λ v. length v.items ≤ length line.now) }
{
    form(pool, line, Reading::Strict)
}

/// The words of a line as their forms give them. A word that isn't of the vocabulary has the class of a name.
#[tactic(auto, using(crate::proofs::Lying::lie_few, crate::proofs::Lying::lie_within))]
pub fn spans(pool: &mut Pool, line: &[u8]) -> Result<Vec<Word>, WordFault>
    requires { length line.now ≤ 16777216 }
    ensures ok { IfOk result (λ v. spans line.now ≡ OkValue v.items) }
    ensures err { IfErr result (λ f. IsFault (spans line.now) f) }
    ensures formal { IfErr result (λ f. f ≢ WordFault.Nonce) }
    ensures lie { IfOk result (λ v. Lie 0 (length line.now) v.items) }
    ensures within { IfOk result (λ v. All (IsWithin (length line.now)) v.items) }
    ensures few { IfOk result (λ v. length v.items ≤ length line.now) }
{
    form(pool, line, Reading::Formal)
}
