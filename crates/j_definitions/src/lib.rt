//! What a noun is, which cells meet, and the names of the errors: the definitions that the contracts of the other crates cite.
#![tactic(auto)]

ghost use Rattle.std.specs.Prelude.{◌≡◌};
ghost use Rattle.j_definitions.specs.Faults.{fault_text};

/// What the atoms of a noun are.
#[derive(Clone, Copy, PartialEq, Eq, Debug)]
pub enum Kind {
    Number,
    Character,
    Boxed,
}

/// The kinds of errors.
#[derive(Clone, Copy, PartialEq, Eq, Debug)]
pub enum Fault {
    Domain,
    Index,
    Length,
    Rank,
    Syntax,
    Value,
    Limit,
    Nonce,
    Control,
    Stack,
    Spelling,
    OpenQuote,
    IllFormed,
    Assertion,
    Overflow,
    Quotient,
}

impl Fault {
    /// The name that a report shows.
    pub fn text(self) -> &'static str
        ensures { result.now ≡ fault_text self }
    {
        match self {
            Fault::Domain => "domain error",
            Fault::Index => "index error",
            Fault::Length => "length error",
            Fault::Rank => "rank error",
            Fault::Syntax => "syntax error",
            Fault::Value => "value error",
            Fault::Limit => "limit error",
            Fault::Nonce => "nonce error",
            Fault::Control => "control error",
            Fault::Stack => "stack error",
            Fault::Spelling => "spelling error",
            Fault::OpenQuote => "open quote",
            Fault::IllFormed => "ill-formed number",
            Fault::Assertion => "assertion failure",
            Fault::Overflow => "overflow error",
            Fault::Quotient => "quotient error",
        }
    }
}
