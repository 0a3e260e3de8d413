// Which valences the verbs that are one word have.
ghost use Rattle.std.specs.Prelude.{◌≡◌};
ghost use Rattle.j_verbs.specs.Words.{both as both_of, each as each_of, valences as table};

use crate::calls::{Dyad, Monad};
use j_kernels::Scalar;
use j_leaves::Primitive;

/// What a verb that is one word does with one argument, or with two.
#[derive(Clone, Copy, PartialEq, Eq, Debug)]
pub enum Valence {
    Scalar(Scalar),
    OnOne(Monad),
    OnTwo(Dyad),
    LeftArgument,
    RightArgument,
    Constant,
    LeftOut,
    Absent,
    Later,
}

/// The two valences of a verb.
#[derive(Clone, Copy, PartialEq, Eq, Debug)]
pub struct Valences {
    pub monad: Valence,
    pub dyad: Valence,
}

fn each(monad: Valence, dyad: Valence) -> Valences
    ensures { result ≡ each_of monad dyad }
{
    Valences { monad, dyad }
}

fn both(valence: Valence) -> Valences
    ensures { result ≡ both_of valence }
{
    each(valence, valence)
}

/// The valences of a verb that is one word.
pub fn valences_of(p: Primitive) -> Valences
    ensures { result ≡ table p }
{
    match p {
        Primitive::Residue => both(Valence::Scalar(Scalar::Residue)),
        Primitive::Or => each(Valence::LeftOut, Valence::Scalar(Scalar::Or)),
        Primitive::And => each(Valence::LeftOut, Valence::Scalar(Scalar::And)),
        Primitive::Power => each(Valence::LeftOut, Valence::Scalar(Scalar::Power)),
        Primitive::Plus => both(Valence::Scalar(Scalar::Plus)),
        Primitive::Minus => both(Valence::Scalar(Scalar::Minus)),
        Primitive::Times => both(Valence::Scalar(Scalar::Times)),
        Primitive::Divide => both(Valence::Scalar(Scalar::Divide)),
        Primitive::Member => each(Valence::LeftOut, Valence::OnTwo(Dyad::Member)),
        Primitive::Shape => each(
            Valence::OnOne(Monad::ShapeOf),
            Valence::OnTwo(Dyad::Reshape),
        ),
        Primitive::Ravel => each(Valence::OnOne(Monad::Ravel), Valence::OnTwo(Dyad::Append)),
        Primitive::RavelItems => each(
            Valence::OnOne(Monad::RavelItems),
            Valence::OnTwo(Dyad::Stitch),
        ),
        Primitive::Itemize => each(
            Valence::OnOne(Monad::Itemize),
            Valence::OnTwo(Dyad::Laminate),
        ),
        Primitive::Tally => each(Valence::OnOne(Monad::TallyOf), Valence::OnTwo(Dyad::Copy)),
        Primitive::From => each(Valence::OnOne(Monad::Catalogue), Valence::OnTwo(Dyad::From)),
        Primitive::Reverse => each(Valence::OnOne(Monad::Reverse), Valence::OnTwo(Dyad::Rotate)),
        Primitive::Transpose => each(
            Valence::OnOne(Monad::Transpose),
            Valence::OnTwo(Dyad::TransposeBy),
        ),
        Primitive::Take => each(Valence::OnOne(Monad::Head), Valence::OnTwo(Dyad::Take)),
        Primitive::Drop => each(
            Valence::OnOne(Monad::Behead),
            Valence::OnTwo(Dyad::DropItems),
        ),
        Primitive::IndexOf => each(
            Valence::OnOne(Monad::Integers),
            Valence::OnTwo(Dyad::IndexOf),
        ),
        Primitive::LastIndexOf => each(
            Valence::OnOne(Monad::StepsAround),
            Valence::OnTwo(Dyad::LastIndexOf),
        ),
        Primitive::Tail => each(Valence::OnOne(Monad::Tail), Valence::Absent),
        Primitive::Curtail => each(Valence::OnOne(Monad::Curtail), Valence::Absent),
        Primitive::Indices => each(Valence::OnOne(Monad::IndicesOfOnes), Valence::LeftOut),
        Primitive::Base => each(Valence::OnOne(Monad::BaseTwo), Valence::OnTwo(Dyad::Base)),
        Primitive::Antibase => each(
            Valence::OnOne(Monad::AntibaseTwo),
            Valence::OnTwo(Dyad::Antibase),
        ),
        Primitive::GradeUp => each(Valence::OnOne(Monad::GradeUp), Valence::OnTwo(Dyad::SortUp)),
        Primitive::GradeDown => each(
            Valence::OnOne(Monad::GradeDown),
            Valence::OnTwo(Dyad::SortDown),
        ),
        Primitive::Link => each(Valence::OnOne(Monad::Raze), Valence::OnTwo(Dyad::Link)),
        Primitive::LesserOf => both(Valence::Scalar(Scalar::LesserOf)),
        Primitive::GreaterOf => both(Valence::Scalar(Scalar::GreaterOf)),
        Primitive::LessEqual => both(Valence::Scalar(Scalar::LessEqual)),
        Primitive::GreaterEqual => both(Valence::Scalar(Scalar::GreaterEqual)),
        Primitive::Double => both(Valence::Scalar(Scalar::Double)),
        Primitive::Square => both(Valence::Scalar(Scalar::Square)),
        Primitive::Not => each(Valence::Scalar(Scalar::Not), Valence::OnTwo(Dyad::Less)),
        Primitive::Halve => each(Valence::Scalar(Scalar::Halve), Valence::OnTwo(Dyad::Match)),
        Primitive::Less => each(Valence::OnOne(Monad::Boxed), Valence::Scalar(Scalar::Less)),
        Primitive::Greater => each(
            Valence::OnOne(Monad::Opened),
            Valence::Scalar(Scalar::Greater),
        ),
        Primitive::Equal => each(
            Valence::OnOne(Monad::SelfClassify),
            Valence::Scalar(Scalar::Equal),
        ),
        Primitive::NotEqual => each(
            Valence::OnOne(Monad::NubSieve),
            Valence::Scalar(Scalar::NotEqual),
        ),
        Primitive::Nub => each(Valence::OnOne(Monad::Nub), Valence::Absent),
        Primitive::Echo | Primitive::Cocurrent => each(Valence::Later, Valence::Absent),
        Primitive::Words => each(Valence::OnOne(Monad::WordForms), Valence::LeftOut),
        Primitive::Format => each(Valence::OnOne(Monad::Format), Valence::LeftOut),
        Primitive::Left => both(Valence::LeftArgument),
        Primitive::Right => both(Valence::RightArgument),
        Primitive::Cap => both(Valence::Absent),
        Primitive::MinusNine
        | Primitive::MinusEight
        | Primitive::MinusSeven
        | Primitive::MinusSix
        | Primitive::MinusFive
        | Primitive::MinusFour
        | Primitive::MinusThree
        | Primitive::MinusTwo
        | Primitive::MinusOne
        | Primitive::Zero
        | Primitive::One
        | Primitive::Two
        | Primitive::Three
        | Primitive::Four
        | Primitive::Five
        | Primitive::Six
        | Primitive::Seven
        | Primitive::Eight
        | Primitive::Nine => both(Valence::Constant),
    }
}
