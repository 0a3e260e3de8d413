// What a body does, one move after another.
use crate::name::Name;

/// Some sentences of a part, one after the other: where they begin and how many they are.
#[derive(Clone, Copy, PartialEq, Eq, Debug)]
pub struct Span {
    pub first: u32,
    pub count: u32,
}

/// How a sentence leaves what it stands in.
#[derive(Clone, Copy, PartialEq, Eq, Debug)]
pub enum Exit {
    Break,
    Continue,
    Return,
}

/// One move of a body. Each number but those of `Run` and `Assert`, which are a sentence's, says how many moves are passed over.
#[derive(Drop)]
pub enum Move {
    Run(u32),
    Assert(u32),
    Leave(Exit),
    If {
        test: Span,
        other: u32,
        end: u32,
    },
    While {
        test: Span,
        end: u32,
    },
    Whilst {
        test: Span,
        end: u32,
    },
    For {
        name: Option<Name>,
        test: Span,
        end: u32,
    },
    Select {
        test: Span,
        end: u32,
    },
    Case {
        test: Span,
        falls: bool,
        other: u32,
    },
    Try {
        other: u32,
        end: u32,
    },
    End,
}
