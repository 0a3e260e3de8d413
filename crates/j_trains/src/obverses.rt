// Which verbs take back what others do.
ghost use Rattle.std.specs.Prelude.{◌≡◌};
ghost use Rattle.j_trains.specs.Obverses.{obverse, word_obverse};

use j_entity::{Tree, Verb};
use j_leaves::Primitive;

// The obverse of a word.
fn word_obverse(p: Primitive) -> Option<Primitive>
    ensures { result ≡ word_obverse p }
{
    match p {
        Primitive::Less => Some(Primitive::Greater),
        Primitive::Greater => Some(Primitive::Less),
        Primitive::GreaterEqual => Some(Primitive::LessEqual),
        Primitive::LessEqual => Some(Primitive::GreaterEqual),
        Primitive::Double => Some(Primitive::Halve),
        Primitive::Halve => Some(Primitive::Double),
        Primitive::Plus
        | Primitive::Minus
        | Primitive::Not
        | Primitive::Divide
        | Primitive::Reverse
        | Primitive::Transpose
        | Primitive::Left
        | Primitive::Right => Some(p),
        _ => None,
    }
}

/// The verb that takes back what a verb does with one noun, or none.
pub fn obverse(v: &Verb) -> Option<Verb>
    ensures { result ≡ obverse v.now }
{
    match v.tree() {
        Tree::Primitive(p) => Some(Verb::primitive(word_obverse(p)?)),
        Tree::Named(_, _)
        | Tree::Fork(_, _, _)
        | Tree::NounFork(_, _, _)
        | Tree::Hook(_, _)
        | Tree::Derived(_, _)
        | Tree::Derived2(_, _, _)
        | Tree::Explicit(_)
        | Tree::Explicit1(_, _)
        | Tree::Explicit2(_, _, _) => None,
    }
}
