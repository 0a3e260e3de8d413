/// The scalar verbs, by what their dyads are, or their monads where they have no scalar dyad.
#[derive(Clone, Copy, PartialEq, Eq, Debug)]
pub enum Scalar {
    Plus,
    Minus,
    Times,
    Divide,
    Power,
    Residue,
    LesserOf,
    GreaterOf,
    LessEqual,
    GreaterEqual,
    Double,
    Square,
    Or,
    And,
    Not,
    Halve,
    Less,
    Greater,
    Equal,
    NotEqual,
}
