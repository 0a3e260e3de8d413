// Names keep what they were given, in the definitions that run and in the locales.
use j_entity::Entity;
use j_leaves::{Name, Text};
use j_names::Names;
use j_noun::{Noun, View};
use std::alloc::Global;
use std::test::Fail;

fn name(alloc: Global, spelling: &[u8]) -> Result<Name, Fail> {
    let name = Name::read(alloc, spelling).ok().ok_or("no memory")?;
    Ok(name.ok_or("no name")?)
}

fn give(alloc: Global, names: &mut Names, spelling: &[u8], n: i64) -> Result<(), Fail> {
    let name = name(alloc, spelling)?;
    let given = names.set_local(name, Entity::Noun(Noun::number(n)));
    Ok(given.ok().ok_or("refused")?)
}

// Whether a name holds this number.
fn holds(alloc: Global, names: &Names, spelling: &[u8], n: i64) -> Result<bool, Fail> {
    let name = name(alloc, spelling)?;
    match names.get(&name).ok().ok_or("a fault")? {
        Some(Entity::Noun(y)) => Ok(matches!(y.view(), View::Wholes([m]) if *m == n)),
        _ => Ok(false),
    }
}

#[test]
fn keeps_locals(rt: HostRuntime) -> Result<(), Fail> {
    let alloc = rt.alloc();
    let mut names = Names::new(alloc).ok().ok_or("no memory")?;
    give(alloc, &mut names, b"a", 1)?;
    names.enter().ok().ok_or("no memory")?;
    give(alloc, &mut names, b"a", 3)?;
    assert!(rt; holds(alloc, &names, b"a", 3)?);
    names.leave();
    assert!(rt; holds(alloc, &names, b"a", 1)?);
    Ok(())
}

#[test]
fn keeps_locales(rt: HostRuntime) -> Result<(), Fail> {
    let alloc = rt.alloc();
    let mut names = Names::new(alloc).ok().ok_or("no memory")?;
    give(alloc, &mut names, b"a_p_", 2)?;
    assert!(rt; !holds(alloc, &names, b"a", 2)?);
    let p = Vec::from_slice(alloc, b"p").ok().ok_or("no memory")?;
    drop(names.switch_locale(Text::make(p)));
    assert!(rt; holds(alloc, &names, b"a", 2)?);
    Ok(())
}
