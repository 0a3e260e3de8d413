// Forks, hooks, and operators formed of two entities.
ghost use Rattle.j_noun.specs.Refused.{OrWanting, OrWantingAs};
ghost use Rattle.j_entity.specs.View.{operand_of, operator_of, verb_of, entity_of};
ghost use Rattle.j_trains.specs.Form.{formed_verb, formed_adverb, verb_entity, fork_of, bident_of};

use j_entity::{Entity, Operand, Operator, OperatorParts, Parts, Verb};
use j_noun::{Fault, Refusal};
use std::alloc::Global;

// Lets go of a value.
pub(crate) fn discard<T: Drop>(_value: T) {}

/// The verb of these parts, or `limit error`.
fn form_verb(alloc: Global, parts: Parts) -> Result<Verb, Refusal>
    ensures { OrWanting (formed_verb (verb_of parts)) result }
{
    Verb::derive(alloc, parts)
}

/// The verb of these parts as an entity, or `limit error`.
pub(crate) fn form(alloc: Global, parts: Parts) -> Result<Entity, Refusal>
    ensures { OrWantingAs entity_of (verb_entity (formed_verb (verb_of parts))) result }
{
    Ok(Entity::Verb(form_verb(alloc, parts)?))
}

/// The adverb of these parts, or `limit error`.
fn form_adverb(alloc: Global, parts: OperatorParts) -> Result<Entity, Refusal>
    ensures { OrWantingAs entity_of (formed_adverb (operator_of parts)) result }
{
    Ok(Entity::Adverb(Operator::derive(alloc, parts)?))
}

/// Row 5: the fork `f g h`.
pub fn fork(alloc: Global, f: Operand, g: Verb, h: Verb) -> Result<Verb, Refusal>
    ensures { OrWanting (fork_of (operand_of f) g h) result }
{
    match f {
        Operand::Verb(f) => form_verb(alloc, Parts::Fork(f, g, h)),
        Operand::Noun(n) => form_verb(alloc, Parts::NounFork(n, g, h)),
        Operand::Ranks(l) => {
            discard(l);
            Err(Refusal::Fault(Fault::Domain))
        }
    }
}

/// Row 6: the hook or the adverb that two entities form.
pub fn bident(alloc: Global, a: Entity, b: Entity) -> Result<Entity, Refusal>
    ensures { OrWantingAs entity_of (bident_of (entity_of a) (entity_of b)) result }
{
    match (a, b) {
        (Entity::Verb(g), Entity::Verb(h)) => form(alloc, Parts::Hook(g, h)),
        (Entity::Adverb(a), Entity::Adverb(b)) => form_adverb(alloc, OperatorParts::Both(a, b)),
        (Entity::Conjunction(c), Entity::Noun(n)) => {
            form_adverb(alloc, OperatorParts::Right(c, Operand::Noun(n)))
        }
        (Entity::Conjunction(c), Entity::Verb(v)) => {
            form_adverb(alloc, OperatorParts::Right(c, Operand::Verb(v)))
        }
        (Entity::Noun(n), Entity::Conjunction(c)) => {
            form_adverb(alloc, OperatorParts::Left(Operand::Noun(n), c))
        }
        (Entity::Verb(v), Entity::Conjunction(c)) => {
            form_adverb(alloc, OperatorParts::Left(Operand::Verb(v), c))
        }
        (a, b) => {
            discard(a);
            discard(b);
            Err(Refusal::Fault(Fault::Syntax))
        }
    }
}
