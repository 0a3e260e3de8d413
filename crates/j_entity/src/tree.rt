// The trees of verbs and operators, with their parts lent.
ghost use Rattle.std.specs.Prelude.{◌≡◌};
ghost use Rattle.j_entity.specs.Lent.{lent_verb, lent_operator};
ghost use Rattle.j_entity.specs.View.{verb_of, operator_of};

use crate::entity::{Body, Operand, Operator, OperatorParts, Parts, Verb};
use j_leaves::{Modifier, Name, Primitive, Ranks};
use j_noun::Noun;

/// The tree of a verb.
pub enum Tree<'a> {
    Primitive(Primitive),
    Named(&'a Name, Ranks),
    Fork(&'a Verb, &'a Verb, &'a Verb),
    NounFork(&'a Noun, &'a Verb, &'a Verb),
    Hook(&'a Verb, &'a Verb),
    Derived(Modifier, &'a Operand),
    Derived2(Modifier, &'a Operand, &'a Operand),
    Explicit(&'a Body),
    Explicit1(&'a Body, &'a Operand),
    Explicit2(&'a Body, &'a Operand, &'a Operand),
}

/// The tree of an adverb or a conjunction.
pub enum OperatorTree<'a> {
    Primitive(Modifier),
    Both(&'a Operator, &'a Operator),
    Right(&'a Operator, &'a Operand),
    Left(&'a Operand, &'a Operator),
    Explicit(&'a Body),
}

impl Parts {
    /// The tree of a verb of these parts.
    pub(crate) fn lend(&self) -> Tree<'_>
        ensures { lent_verb result ≡ verb_of self.now }
    {
        match self {
            Parts::Primitive(p) => Tree::Primitive(*p),
            Parts::Named(n, r) => Tree::Named(n, *r),
            Parts::Fork(f, g, h) => Tree::Fork(f, g, h),
            Parts::NounFork(n, g, h) => Tree::NounFork(n, g, h),
            Parts::Hook(g, h) => Tree::Hook(g, h),
            Parts::Derived(m, u) => Tree::Derived(*m, u),
            Parts::Derived2(m, u, v) => Tree::Derived2(*m, u, v),
            Parts::Explicit(b) => Tree::Explicit(b),
            Parts::Explicit1(b, u) => Tree::Explicit1(b, u),
            Parts::Explicit2(b, u, v) => Tree::Explicit2(b, u, v),
        }
    }
}

impl OperatorParts {
    /// The tree of an operator of these parts.
    pub(crate) fn lend(&self) -> OperatorTree<'_>
        ensures { lent_operator result ≡ operator_of self.now }
    {
        match self {
            OperatorParts::Primitive(m) => OperatorTree::Primitive(*m),
            OperatorParts::Both(a, b) => OperatorTree::Both(a, b),
            OperatorParts::Right(c, u) => OperatorTree::Right(c, u),
            OperatorParts::Left(u, c) => OperatorTree::Left(u, c),
            OperatorParts::Explicit(b) => OperatorTree::Explicit(b),
        }
    }
}
