// Adverbs and conjunctions with their operands.
ghost use Rattle.std.specs.Prelude.{◌≡◌, MatchResult};
ghost use Rattle.j_noun.specs.Refused.{OrWantingAs};
ghost use Rattle.j_entity.specs.View.{operand_of, entity_of};
ghost use Rattle.j_trains.specs.Form.{word_conjunction, conjunction_of, word_adverb, operand_again, adverb_of};

use crate::operands::{adverb_fault, conjunction_fault};
use crate::trains::{discard, form};
use j_entity::{Entity, Operand, Operator, OperatorTree, Parts};
use j_leaves::Modifier;
use j_noun::{Fault, Refusal};
use std::alloc::Global;

/// A conjunction that is a word, between its operands.
fn between(alloc: Global, m: Modifier, u: Operand, v: Operand) -> Result<Entity, Refusal>
    ensures { OrWantingAs entity_of (word_conjunction m (operand_of u) (operand_of v)) result }
{
    match conjunction_fault(m, &u, &v) {
        None => form(alloc, Parts::Derived2(m, u, v)),
        Some(fault) => {
            discard(u);
            discard(v);
            Err(Refusal::Fault(fault))
        }
    }
}

/// Row 4: the conjunction c between u and v.
pub fn conjunction(alloc: Global, c: &Operator, u: Operand, v: Operand) -> Result<Entity, Refusal>
    ensures { OrWantingAs entity_of (conjunction_of c.now (operand_of u) (operand_of v)) result }
{
    match c.tree() {
        OperatorTree::Primitive(m) => between(alloc, m, u, v),
        OperatorTree::Both(_, _)
        | OperatorTree::Right(_, _)
        | OperatorTree::Left(_, _)
        | OperatorTree::Explicit(_) => {
            discard(u);
            discard(v);
            Err(Refusal::Fault(Fault::Nonce))
        }
    }
}

/// A conjunction with a copy of its right operand.
fn with_right(alloc: Global, c: &Operator, u: Operand, v: &Operand) -> Result<Entity, Refusal>
    ensures { OrWantingAs entity_of (conjunction_of c.now (operand_of u) (operand_of v.now)) result }
{
    match v.duplicate() {
        Ok(v) => conjunction(alloc, c, u, v),
        Err(_) => {
            discard(u);
            Err(Refusal::NoMemory)
        }
    }
}

/// A conjunction with a copy of its left operand.
fn with_left(alloc: Global, c: &Operator, u: &Operand, v: Operand) -> Result<Entity, Refusal>
    ensures { OrWantingAs entity_of (conjunction_of c.now (operand_of u.now) (operand_of v)) result }
{
    match u.duplicate() {
        Ok(u) => conjunction(alloc, c, u, v),
        Err(_) => {
            discard(v);
            Err(Refusal::NoMemory)
        }
    }
}

/// An adverb that is a word, right of its operand.
fn right_of(alloc: Global, m: Modifier, u: Operand) -> Result<Entity, Refusal>
    ensures { OrWantingAs entity_of (word_adverb m (operand_of u)) result }
{
    match adverb_fault(m, &u) {
        None => form(alloc, Parts::Derived(m, u)),
        Some(fault) => {
            discard(u);
            Err(Refusal::Fault(fault))
        }
    }
}

/// What an adverb gave, as the operand of the next one.
fn operand(given: Entity) -> Result<Operand, Fault>
    ensures { let again = operand_again (entity_of given) in MatchResult result (λ u. again ≡ Ok (operand_of u)) (λ e. again ≡ Err e) }
{
    match given {
        Entity::Verb(v) => Ok(Operand::Verb(v)),
        Entity::Noun(n) => Ok(Operand::Noun(n)),
        other => {
            discard(other);
            Err(Fault::Domain)
        }
    }
}

/// Row 3: the adverb a right of u.
pub fn adverb(alloc: Global, a: &Operator, u: Operand) -> Result<Entity, Refusal>
    ensures { OrWantingAs entity_of (adverb_of a.now (operand_of u)) result }
{
    match a.tree() {
        OperatorTree::Primitive(m) => right_of(alloc, m, u),
        OperatorTree::Explicit(_) => {
            discard(u);
            Err(Refusal::Fault(Fault::Nonce))
        }
        OperatorTree::Both(a, b) => {
            let given = adverb(alloc, a, u)?;
            adverb(alloc, b, operand(given)?)
        }
        OperatorTree::Right(c, v) => with_right(alloc, c, u, v),
        OperatorTree::Left(v, c) => with_left(alloc, c, v, u),
    }
}
