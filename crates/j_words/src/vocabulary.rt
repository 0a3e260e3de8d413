// The vocabulary.
ghost use Rattle.std.specs.Prelude.{◌≡◌, bytes_eq, map};
ghost use Rattle.j_words.specs.Vocabulary.{is_among, first_row, row_of, is_simple_name, is_for, look_up, let_through, class_or_name, class_of};

use crate::forms::Form;
use crate::line::Reading;
use crate::names::{has_name_bytes, is_simple, name_class};
use crate::{Class, WordFault};

/// When words are let through.
#[derive(Clone, Copy)]
pub(crate) enum Stage {
    Now,
    Later,
    LeftOut,
}

/// What the vocabulary has on a word.
#[derive(Clone, Copy)]
pub(crate) struct Entry {
    pub class: Class,
    pub stage: Stage,
}

/// Words with blanks between them, and what each of them is.
#[derive(Clone, Copy)]
pub(crate) struct Row {
    pub words: &'static [u8],
    pub class: Class,
    pub stage: Stage,
}

pub(crate) const VOCABULARY: [Row; 15] = [
    Row {
        words: b"+ - * % ^ | <. >. <: >: +: *: +. *. -. -: < > = ~: [ ] [: _9: _8: _7: _6: _5: _4: _3: _2: _1: 0: 1: 2: 3: 4: 5: 6: 7: 8: 9:",
        class: Class::Verb,
        stage: Stage::Now,
    },
    Row {
        words: b"$ , ,. ,: # |. |: {. {: }. }: { i. i: I.",
        class: Class::Verb,
        stage: Stage::Now,
    },
    Row {
        words: b"e. ~. /: \\: #. #:",
        class: Class::Verb,
        stage: Stage::Now,
    },
    Row {
        words: b"a.",
        class: Class::NounWord,
        stage: Stage::Now,
    },
    Row {
        words: b"~ /",
        class: Class::Adverb,
        stage: Stage::Now,
    },
    Row {
        words: b"\" @ @: & &: ^: . &. ;.",
        class: Class::Conjunction,
        stage: Stage::Now,
    },
    Row {
        words: b"=. =:",
        class: Class::Copula,
        stage: Stage::Now,
    },
    Row {
        words: b"(",
        class: Class::Open,
        stage: Stage::Now,
    },
    Row {
        words: b")",
        class: Class::Close,
        stage: Stage::Now,
    },
    Row {
        words: b"; ;: \":",
        class: Class::Verb,
        stage: Stage::Now,
    },
    Row {
        words: b"a:",
        class: Class::NounWord,
        stage: Stage::Now,
    },
    Row {
        words: b"} /. \\ \\.",
        class: Class::Adverb,
        stage: Stage::Now,
    },
    Row {
        words: b": ::",
        class: Class::Conjunction,
        stage: Stage::Later,
    },
    Row {
        words: b"if. do. elseif. else. end. while. whilst. for. select. case. fcase. try. catch. assert. break. continue. return.",
        class: Class::Control,
        stage: Stage::Later,
    },
    Row {
        words: b"%. %: ^. ! !. !: $. $: ? ?. A. C. D. D: E. H. L. L: M. S: T. b. d. f. j. o. p. p.. p: q: r. s: t. t: u: x: .. .: {:: &.: ` `: @. _: \".",
        class: Class::Name,
        stage: Stage::LeftOut,
    },
];

fn is_same(bytes: &[u8], word: &[u8]) -> bool
    ensures { result ≡ bytes_eq bytes.now word.now }
{
    bytes == word
}

/// Whether a text has that word between its blanks.
#[tactic(auto, using(crate::proofs::Scans::among_here, crate::proofs::Scans::among_step, crate::proofs::Scans::among_last))]
fn is_among(word: &[u8], text: &[u8]) -> bool
    ensures { result ≡ is_among word.now text.now }
{
    let mut start: usize = 0;
    for (place, b) in text.iter().enumerate() {
        if *b == b' ' {
            if is_same(&text[start..place], word) {
                return true;
            }
            start = place + 1;
        }
    }
    is_same(&text[start..], word)
}

/// What the first of these rows that has that word says.
#[tactic(auto, using(crate::proofs::Entries::row_found, crate::proofs::Entries::row_more, crate::proofs::Entries::row_none))]
fn first_row(word: &[u8], rows: &[Row]) -> Option<Entry>
    ensures { result ≡ first_row word.now (map row_of rows.now) }
{
    for row in rows {
        if is_among(word, row.words) {
            return Some(Entry {
                class: row.class,
                stage: row.stage,
            });
        }
    }
    None
}

fn is_simple_name(name: &[u8]) -> bool
    ensures { result ≡ is_simple_name name.now }
{
    has_name_bytes(name) && is_simple(name)
}

/// Whether the word is the control word with a simple name in it.
fn is_for(word: &[u8]) -> bool
    ensures { result ≡ is_for word.now }
{
    if word.len() < 5 {
        return false;
    }
    let end = word.len() - 1;
    is_same(&word[..4], b"for_") && is_same(&word[end..], b".") && is_simple_name(&word[4..end])
}

fn look_up(word: &[u8]) -> Option<Entry>
    ensures { result ≡ look_up word.now }
{
    match first_row(word, &VOCABULARY) {
        Some(entry) => Some(entry),
        None => {
            if is_for(word) {
                Some(Entry {
                    class: Class::Control,
                    stage: Stage::Later,
                })
            } else {
                None
            }
        }
    }
}

/// The class of a word that is let through, or its fault.
fn let_through(word: &[u8]) -> Result<Class, WordFault>
    ensures { result ≡ let_through (look_up word.now) }
{
    match look_up(word) {
        Some(entry) => match entry.stage {
            Stage::Now => Ok(entry.class),
            Stage::Later => Err(WordFault::Nonce),
            Stage::LeftOut => Err(WordFault::Nonce),
        },
        None => Err(WordFault::Spelling),
    }
}

/// The class of a word, whether it's let through or not.
fn class_or_name(word: &[u8]) -> Class
    ensures { result ≡ class_or_name (look_up word.now) }
{
    match look_up(word) {
        Some(entry) => entry.class,
        None => Class::Name,
    }
}

/// The class of a word of a form, or its fault.
pub(crate) fn class_of(reading: Reading, form: Form, word: &[u8]) -> Result<Class, WordFault>
    ensures { result ≡ class_of reading form word.now }
{
    match (reading, form) {
        (_, Form::Number) => Ok(Class::Number),
        (_, Form::Text) => Ok(Class::Text),
        (Reading::Strict, Form::Name) => name_class(word),
        (Reading::Formal, Form::Name) => Ok(Class::Name),
        (Reading::Strict, Form::Listed) => let_through(word),
        (Reading::Formal, Form::Listed) => Ok(class_or_name(word)),
    }
}
