//! The words of a line.
#![tactic(auto)]

ghost use Rattle.std.specs.Prelude.{◌≡◌};
ghost use Rattle.j_words.specs.declared.WordFault.TheVariants.{NoMemory as WordMemory};

mod bytes;
mod forms;
mod line;
mod names;
mod rows;
mod vocabulary;

use j_pool::NoMemory;
pub use line::{spans, words};
pub use names::{NameForm, name_form};
pub use rows::{name_laws, text_laws, vocabulary_laws, worked_rows};
use std::alloc::AllocError;

/// What a word is.
#[derive(Clone, Copy, PartialEq, Eq, Debug)]
pub enum Class {
    Number,
    Text,
    Name,
    Verb,
    Adverb,
    Conjunction,
    NounWord,
    Copula,
    Open,
    Close,
    Control,
}

/// One word of a line: its class, and where its bytes begin and end.
#[derive(Clone, Copy, PartialEq, Eq, Debug)]
pub struct Word {
    pub class: Class,
    pub from: u32,
    pub to: u32,
}

/// Why a line has no words.
#[derive(Clone, Copy, PartialEq, Eq, Debug)]
pub enum WordFault {
    OpenQuote,
    Spelling,
    Nonce,
    NoMemory,
}

impl From<NoMemory> for WordFault {
    ghost from_gives = { λ _ e. e ≡ WordMemory };

    fn from(_e: NoMemory) -> WordFault {
        WordFault::NoMemory
    }
}

impl From<AllocError> for WordFault {
    ghost from_gives = { λ _ e. e ≡ WordMemory };

    fn from(_e: AllocError) -> WordFault {
        WordFault::NoMemory
    }
}
