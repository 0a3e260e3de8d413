// A verb, an adverb and a conjunction are one word each, shown in as many bytes but not in one less.
use j_display::show;
use j_entity::{Entity, Modifier, Operator, OperatorParts, Parts, Primitive, Verb};
use j_noun::{Fault, Refusal};
use j_pool::Pool;
use std::alloc::Global;
use std::process::Abort;
use std::test::Fail;

fn check(rt: &impl Abort, alloc: Global, value: &Entity, rows: &[u8]) {
    assert!(rt; !rows.is_empty());
    let mut pool = Pool::new(alloc);
    let mut shown = Vec::new(alloc);
    assert!(rt; show(&mut pool, value, rows.len(), &mut shown).is_ok());
    assert_eq!(rt; shown.as_slice(), rows);
    let beyond = show(&mut pool, value, rows.len() - 1, &mut shown);
    assert!(rt; beyond == Err(Refusal::Fault(Fault::Limit)));
    assert_eq!(rt; shown.as_slice(), rows);
}

#[test]
fn shows_words(rt: HostRuntime) -> Result<(), Fail> {
    let alloc = rt.alloc();
    let plus = Verb::derive(alloc, Parts::Primitive(Primitive::Plus));
    let plus = plus.ok().ok_or("no verb")?;
    check(&rt, alloc, &Entity::Verb(plus), b"verb\n");
    let insert = Operator::derive(alloc, OperatorParts::Primitive(Modifier::Insert));
    let insert = insert.ok().ok_or("no adverb")?;
    check(&rt, alloc, &Entity::Adverb(insert), b"adverb\n");
    let at = Operator::derive(alloc, OperatorParts::Primitive(Modifier::At));
    let at = at.ok().ok_or("no conjunction")?;
    check(&rt, alloc, &Entity::Conjunction(at), b"conjunction\n");
    Ok(())
}
