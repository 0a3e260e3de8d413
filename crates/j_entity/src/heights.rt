// How high verbs and operators are.
ghost use Rattle.std.specs.Prelude.{◌≡◌, ◌≤◌};
ghost use Rattle.j_entity.specs.Heights.{verb_height, operand_height, operator_height};
ghost use Rattle.j_entity.specs.View.{verb_of, operand_of, operator_of};

use crate::entity::{Operand, OperatorParts, Parts};

impl Operand {
    fn height(&self) -> u8
        ensures value { result ≡ operand_height (operand_of self.now) }
        ensures fits { result ≤ 64 }
    {
        match self {
            Operand::Verb(v) => v.height(),
            Operand::Noun(_) | Operand::Ranks(_) => 0,
        }
    }
}

impl Parts {
    /// The height of a verb of these parts, which may be one too high.
    pub(crate) fn height(&self) -> u8
        ensures value { result ≡ verb_height (verb_of self.now) }
        ensures fits { result ≤ 65 }
    {
        match self {
            Parts::Primitive(_) | Parts::Named(_, _) | Parts::Explicit(_) => 0,
            Parts::Fork(f, g, h) => f.height().max(g.height().max(h.height())) + 1,
            Parts::NounFork(_, g, h) | Parts::Hook(g, h) => g.height().max(h.height()) + 1,
            Parts::Derived(_, u) | Parts::Explicit1(_, u) => u.height() + 1,
            Parts::Derived2(_, u, v) | Parts::Explicit2(_, u, v) => u.height().max(v.height()) + 1,
        }
    }
}

impl OperatorParts {
    /// The height of an operator of these parts, which may be one too high.
    pub(crate) fn height(&self) -> u8
        ensures value { result ≡ operator_height (operator_of self.now) }
        ensures fits { result ≤ 65 }
    {
        match self {
            OperatorParts::Primitive(_) | OperatorParts::Explicit(_) => 0,
            OperatorParts::Both(a, b) => a.height().max(b.height()) + 1,
            OperatorParts::Right(c, u) | OperatorParts::Left(u, c) => c.height().max(u.height())
                + 1,
        }
    }
}
