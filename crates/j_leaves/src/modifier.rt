// Adverbs and conjunctions that are one word.
ghost use Rattle.std.specs.Prelude.{◌≡◌, ◌↔◌, Some};
ghost use Rattle.j_leaves.specs.Spelling.{modifier_spelling, modifier_words, spelled_of, modifier_of, is_adverb};
ghost use Rattle.j_leaves.specs.declared.modifier.Modifier.{Modifier};

/// An adverb or a conjunction that is one word.
#[derive(Clone, Copy, PartialEq, Eq, Debug)]
pub enum Modifier {
    Insert,
    Prefix,
    Suffix,
    Oblique,
    Cut,
    Passive,
    Amend,
    Rank,
    Atop,
    At,
    Bond,
    Appose,
    Under,
    PowerOf,
    Product,
    Adverse,
    Monadic,
}

const MODIFIERS: [Modifier; 17] = [
    Modifier::Insert,
    Modifier::Prefix,
    Modifier::Suffix,
    Modifier::Oblique,
    Modifier::Cut,
    Modifier::Passive,
    Modifier::Amend,
    Modifier::Rank,
    Modifier::Atop,
    Modifier::At,
    Modifier::Bond,
    Modifier::Appose,
    Modifier::Under,
    Modifier::PowerOf,
    Modifier::Product,
    Modifier::Adverse,
    Modifier::Monadic,
];

impl Modifier {
    /// The word.
    pub fn spelling(self) -> &'static [u8]
        ensures { result.now ≡ modifier_spelling self }
    {
        match self {
            Modifier::Insert => b"/",
            Modifier::Prefix => b"\\",
            Modifier::Suffix => b"\\.",
            Modifier::Oblique => b"/.",
            Modifier::Cut => b";.",
            Modifier::Passive => b"~",
            Modifier::Amend => b"}",
            Modifier::Rank => b"\"",
            Modifier::Atop => b"@",
            Modifier::At => b"@:",
            Modifier::Bond => b"&",
            Modifier::Appose => b"&:",
            Modifier::Under => b"&.",
            Modifier::PowerOf => b"^:",
            Modifier::Product => b".",
            Modifier::Adverse => b"::",
            Modifier::Monadic => b":",
        }
    }

    fn first_spelled(word: &[u8]) -> Option<Modifier>
        ensures { result ≡ spelled_of modifier_spelling modifier_words word.now }
    {
        MODIFIERS.iter().copied().find(|m| m.spelling() == word)
    }

    /// The modifier whose word this is.
    pub fn spelled(word: &[u8]) -> Option<Modifier>
        ensures value { result ≡ modifier_of word.now }
        ensures inverse { (m : Modifier) → (result ≡ Some m) ↔ (modifier_spelling m ≡ word.now) }
    {
        Modifier::first_spelled(word)
    }

    /// Whether it takes a left operand alone. Every other takes one on each side.
    pub fn is_adverb(self) -> bool
        ensures { result ≡ is_adverb self }
    {
        matches!(
            self,
            Modifier::Insert
                | Modifier::Prefix
                | Modifier::Suffix
                | Modifier::Oblique
                | Modifier::Passive
                | Modifier::Amend
        )
    }
}
