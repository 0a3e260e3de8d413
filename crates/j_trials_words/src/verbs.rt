// Verbs, operators and sentences, made and copied.
use j_entity::{
    Entity, Item, Modifier, Name, Operand, Operator, OperatorParts, Parts, Prepared, Primitive,
    Rank, Verb,
};
use std::test::Fail;

#[test]
fn makes_verbs(rt: HostRuntime) -> Result<(), Fail> {
    let alloc = rt.alloc();
    let plus = Verb::primitive(Primitive::Plus);
    let parts = Parts::Hook(plus, Verb::primitive(Primitive::Minus));
    let hook = Verb::derive(alloc, parts).ok().ok_or("no hook")?;
    let copy = hook.duplicate().ok().ok_or("no copy")?;
    assert_eq!(rt; copy.height(), 1);
    assert!(rt; copy.ranks().monad == Rank::Infinite);
    let name = Name::read(alloc, b"f").ok().ok_or("no memory")?;
    let name = name.ok_or("no name")?;
    let verb = Verb::named(alloc, name, copy.ranks()).ok();
    assert_eq!(rt; verb.ok_or("no verb")?.height(), 0);
    Ok(())
}

#[test]
fn makes_operators(rt: HostRuntime) -> Result<(), Fail> {
    let alloc = rt.alloc();
    let minus = Operand::Verb(Verb::primitive(Primitive::Minus));
    let parts = OperatorParts::Left(minus, Operator::modifier(Modifier::At));
    let adverb = Operator::derive(alloc, parts).ok().ok_or("no adverb")?;
    let copy = adverb.duplicate().ok().ok_or("no copy")?;
    assert_eq!(rt; copy.height(), 1);
    Ok(())
}

#[test]
fn makes_sentences(rt: HostRuntime) -> Result<(), Fail> {
    let alloc = rt.alloc();
    let mut items = Vec::new(alloc);
    let plus = Verb::primitive(Primitive::Plus);
    items.push(Item::Entity(Entity::Verb(plus)))?;
    items.push(Item::Open)?;
    assert_eq!(rt; Prepared::make(items).count(), 2);
    Ok(())
}
