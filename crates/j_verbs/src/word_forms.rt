// The words of characters, by their forms alone, each as a list in a box.
ghost use Rattle.std.specs.Prelude.{◌≡◌, ◌≤◌, ◌<◌, ◌-◌, [], ◌∷◌, length, take, drop, map, IfOk};
ghost use Rattle.std.specs.List.{All};
ghost use Rattle.j_definitions.specs.Limits.{limited};
ghost use Rattle.j_noun.specs.Refused.{OrWanting};
ghost use Rattle.j_words.specs.Lines.{spans, IsWithin};
ghost use Rattle.j_verbs.specs.WordForms.{boxed_texts, characters, in_boxes, text_of, word_forms};

use j_noun::{Atoms, Fault, NoMemory, Noun, Pool, Refusal, View, boxes};
use j_rank::shape_of;
use j_words::{Word, WordFault, spans};

// Bytes as a list of characters.
#[tactic(auto, using(crate::proofs::WordForms::list_within))]
fn characters(pool: &mut Pool, bytes: &[u8]) -> Result<Noun, NoMemory>
    requires { length bytes.now ≤ 4194304 }
    ensures { IfOk result (λ n. n ≡ characters bytes.now) }
{
    let mut held = pool.bytes(bytes.len())?;
    if held.extend_from_slice(bytes).is_err() {
        return Err(NoMemory);
    }
    match Noun::make(pool, shape_of(&[bytes.len()]), Atoms::Bytes(held)) {
        Ok(list) => Ok(list),
        Err(Refusal::NoMemory) => Err(NoMemory),
        Err(Refusal::Fault(_)) => unreachable!(),
    }
}

// The text of a word of a line.
fn text_of(pool: &mut Pool, line: &[u8], word: Word) -> Result<Noun, NoMemory>
    requires few { length line.now ≤ 4194304 }
    requires within { IsWithin (length line.now) word }
    ensures { IfOk result (λ n. n ≡ text_of line.now word) }
{
    characters(pool, &line[word.from as usize..word.to as usize])
}

// The texts of words of a line, as a list of boxes.
#[tactic(auto, using(crate::proofs::WordForms::text_more, crate::proofs::WordForms::word_within))]
fn boxed_texts(pool: &mut Pool, line: &[u8], words: &[Word]) -> Result<Noun, Refusal>
    requires few { length line.now ≤ 4194304 }
    requires within { All (IsWithin (length line.now)) words.now }
    ensures { OrWanting (limited (in_boxes (map (text_of line.now) words.now))) result }
{
    let mut texts = boxes(pool, words.len())?;
    for word in words {
        let text = text_of(pool, line, *word)?;
        let Ok(()) = texts.push(text) else {
            return Err(Refusal::NoMemory);
        };
    }
    Noun::make(pool, shape_of(&[words.len()]), Atoms::Boxes(texts))
}

// The words of a line as boxed texts, or the line's fault.
fn words_of(pool: &mut Pool, line: &[u8]) -> Result<Noun, Refusal>
    requires { length line.now ≤ 4194304 }
    ensures { OrWanting (boxed_texts line.now (spans line.now)) result }
{
    match spans(pool, line) {
        Ok(words) => boxed_texts(pool, line, &words),
        Err(WordFault::OpenQuote) => Err(Refusal::Fault(Fault::OpenQuote)),
        Err(WordFault::Spelling) => Err(Refusal::Fault(Fault::Spelling)),
        Err(WordFault::Nonce) => Err(Refusal::Fault(Fault::Nonce)),
        Err(WordFault::NoMemory) => Err(Refusal::NoMemory),
    }
}

/// The boxed texts of the words of characters. A noun without atoms has no words.
#[tactic(auto, using(crate::proofs::WordForms::bytes_are, crate::proofs::WordForms::numbers_refused, crate::proofs::WordForms::bits_refused, crate::proofs::WordForms::boxes_refused))]
pub fn word_forms(pool: &mut Pool, y: &Noun) -> Result<Noun, Refusal>
    ensures { OrWanting (word_forms y.now) result }
{
    match y.view() {
        View::Bytes(line) => words_of(pool, line),
        View::Wholes([]) | View::Bits([]) | View::Boxes([]) => words_of(pool, &[]),
        View::Wholes([_, ..]) => Err(Refusal::Fault(Fault::Domain)),
        View::Bits([_, ..]) => Err(Refusal::Fault(Fault::Domain)),
        View::Boxes([_, ..]) => Err(Refusal::Fault(Fault::Domain)),
    }
}
