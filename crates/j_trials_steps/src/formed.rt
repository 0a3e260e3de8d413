// Verbs and operators as they are formed and applied, and nouns as they are made.
ghost use Rattle.std.specs.Prelude.{◌≤◌, length};

use j_entity::{Item, Operand, Operator, OperatorTree, Parts, Verb};
use j_eval::{Entity, Halt, Machine, Outcome, Prepared, prepare};
use j_kernels::Scalar;
use j_leaves::{Modifier, Primitive};
use j_noun::{Atoms, Fault, Noun, Pool, Refusal, Shape};
use j_trains::{adverb, bident, conjunction, fork};
use std::alloc::Global;
use std::test::Fail;

// The sentence of a line.
fn read(alloc: Global, line: &[u8]) -> Result<Prepared, Fail>
    requires { length line.now ≤ 16777216 }
{
    let mut pool = Pool::new(alloc);
    Ok(prepare(alloc, &mut pool, line).ok().ok_or("a sentence")?)
}

#[test]
fn applied(rt: HostRuntime) -> Result<(), Fail> {
    let alloc = rt.alloc();
    let plus = Operand::Verb(Verb::primitive(Primitive::Plus));
    let minus = Verb::primitive(Primitive::Minus);
    let times = Verb::primitive(Primitive::Times);
    let verb = fork(alloc, plus, minus, times).ok().ok_or("a fork")?;
    let three = Noun::number(3);
    let mut machine = Machine::new(alloc, 0).ok().ok_or("a machine")?;
    let value = machine.apply_dyad(&verb, &Noun::number(5), &three);
    assert!(rt; value.ok().ok_or("a value")?.matches(&Noun::number(-7)));
    let value = machine.apply_monad(&verb, &three);
    assert!(rt; value.ok().ok_or("a value")?.matches(&Noun::number(2)));
    let cap = Verb::primitive(Primitive::Cap);
    let refused = machine.apply_monad(&cap, &three);
    assert!(rt; matches!(&refused, Err(Halt::Failed(Fault::Domain))));
    assert_eq!(rt; machine.steps(), 0);
    let sentence = read(alloc, b"7")?;
    assert!(rt; sentence.count() > 0);
    let outcome = machine.sentence(&sentence);
    assert!(rt; matches!(&outcome, Outcome::Spent));
    let refused = machine.apply_monad(&verb, &three);
    assert!(rt; matches!(&refused, Err(Halt::Spent)));
    let refused = machine.apply_dyad(&verb, &three, &three);
    assert!(rt; matches!(&refused, Err(Halt::Spent)));
    assert_eq!(rt; machine.steps(), 0);
    Ok(())
}

// The entity that a sentence of one word is.
fn only_entity(alloc: Global, sentence: &Prepared) -> Result<Entity, Fail> {
    match sentence.items() {
        [Item::Entity(e)] => Ok(e.duplicate().ok().ok_or("a copy")?),
        _ => Err(Fail::from("no entity")),
    }
}

// The left operand of an adverb, and its conjunction.
fn left_parts(a: &Operator) -> Option<(&Operand, &Operator)> {
    match a.tree() {
        OperatorTree::Left(u, c) => Some((u, c)),
        OperatorTree::Primitive(_)
        | OperatorTree::Both(_, _)
        | OperatorTree::Right(_, _)
        | OperatorTree::Explicit(_) => None,
    }
}

#[test]
fn formed(rt: HostRuntime) -> Result<(), Fail> {
    let alloc = rt.alloc();
    let sentence = read(alloc, b"@:")?;
    let at = only_entity(alloc, &sentence)?;
    let minus = Entity::Verb(Verb::primitive(Primitive::Minus));
    let left = match bident(alloc, minus, at).ok().ok_or("an adverb")? {
        Entity::Adverb(a) => a,
        _ => return Err(Fail::from("no adverb")),
    };
    let (u, c) = left_parts(&left).ok_or("no left operand")?;
    assert!(rt; matches!(u, Operand::Verb(_)));
    let plus = Operand::Verb(Verb::primitive(Primitive::Plus));
    let made = adverb(alloc, &left, plus).ok().ok_or("a verb")?;
    let verb = match made {
        Entity::Verb(v) => v,
        _ => return Err(Fail::from("no verb")),
    };
    let plus = Operand::Verb(Verb::primitive(Primitive::Plus));
    let joined = conjunction(alloc, c, Operand::Verb(verb), plus);
    let verb = match joined.ok().ok_or("a verb")? {
        Entity::Verb(v) => v,
        _ => return Err(Fail::from("no verb")),
    };
    assert_eq!(rt; verb.height(), 2);
    Ok(())
}

#[test]
fn towers(rt: HostRuntime) -> Result<(), Fail> {
    let alloc = rt.alloc();
    let mut verb = Verb::primitive(Primitive::Plus);
    for height in 1..=64u8 {
        let minus = Verb::primitive(Primitive::Minus);
        let times = Verb::primitive(Primitive::Times);
        let higher = fork(alloc, Operand::Verb(verb), minus, times);
        verb = higher.ok().ok_or("a fork")?;
        assert_eq!(rt; verb.height(), height);
    }
    let parts = Parts::Hook(verb, Verb::primitive(Primitive::Plus));
    let refused = Verb::derive(alloc, parts).err();
    assert!(rt; matches!(&refused, Some(Refusal::Fault(Fault::Limit))));
    Ok(())
}

#[test]
fn nouns_and_verbs(rt: HostRuntime) -> Result<(), Fail> {
    let alloc = rt.alloc();
    let mut pool = Pool::new(alloc);
    let mut shape = Shape::new();
    assert!(rt; shape.add(2).is_ok());
    let numbers = vec![in alloc; 3i64, 4]?;
    prove!(numbers.len() == 2);
    let list = Noun::make(&mut pool, shape, Atoms::Wholes(numbers))
        .ok()
        .ok_or("a list")?;
    let sum = j_kernels::dyad(Scalar::Plus, &mut pool, &list, &Noun::number(10))
        .ok()
        .ok_or("a sum")?;
    let less = j_kernels::dyad(Scalar::Minus, &mut pool, &sum, &Noun::number(10))
        .ok()
        .ok_or("a difference")?;
    assert!(rt; less.matches(&list));
    let negative = j_kernels::monad(Scalar::Minus, &mut pool, &less)
        .ok()
        .ok_or("a negative")?;
    assert!(rt; !negative.matches(&list.duplicate().ok().ok_or("a copy")?));
    assert_eq!(rt; list.tally(), 2);
    Ok(())
}

// What an adverb or a conjunction that isn't applied yet makes of its parts.
fn unformed(alloc: Global, parts: Parts) -> Result<Verb, Fail> {
    Ok(Verb::derive(alloc, parts).ok().ok_or("a verb")?)
}

#[test]
fn trees_of_no_sentence(rt: HostRuntime) -> Result<(), Fail> {
    let alloc = rt.alloc();
    let five = Noun::number(5);
    let mut machine = Machine::new(alloc, 0).ok().ok_or("a machine")?;
    let plus = Operand::Verb(Verb::primitive(Primitive::Plus));
    let at_noun = Parts::Derived2(Modifier::At, plus, Operand::Noun(Noun::number(2)));
    let verb = unformed(alloc, at_noun)?;
    let refused = machine.apply_monad(&verb, &five);
    assert!(rt; matches!(&refused, Err(Halt::Failed(Fault::Domain))));
    let alone = Parts::Derived(Modifier::At, Operand::Noun(Noun::number(2)));
    let verb = unformed(alloc, alone)?;
    let refused = machine.apply_dyad(&verb, &five, &five);
    assert!(rt; matches!(&refused, Err(Halt::Failed(Fault::Domain))));
    Ok(())
}
