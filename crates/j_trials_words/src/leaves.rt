// Words, names and texts, spelled, read and copied.
use j_leaves::{Modifier, Name, Primitive, Text};
use std::alloc::Global;
use std::process::Abort;
use std::test::Fail;

#[test]
fn spells_words(rt: HostRuntime) {
    assert!(rt; Primitive::spelled(b"i.") == Some(Primitive::IndexOf));
    assert_eq!(rt; Primitive::GradeDown.spelling(), b"\\:".as_slice());
    assert!(rt; Modifier::spelled(b"\"") == Some(Modifier::Rank));
}

// Reads a name and copies it.
fn check(rt: &impl Abort, alloc: Global, spelling: &[u8], base: &[u8]) -> Result<(), Fail> {
    let name = Name::read(alloc, spelling).ok().ok_or("no memory")?;
    let name = name.ok_or("no name")?;
    assert_eq!(rt; name.base().bytes(), base);
    let copy = name.duplicate().ok().ok_or("no copy")?;
    assert!(rt; copy.matches(&name));
    Ok(())
}

#[test]
fn reads_names(rt: HostRuntime) -> Result<(), Fail> {
    let alloc = rt.alloc();
    check(&rt, alloc, b"a_b1", b"a_b1")?;
    check(&rt, alloc, b"a_b_c_", b"a_b")?;
    check(&rt, alloc, b"a__c_d", b"a")
}

#[test]
fn copies_texts(rt: HostRuntime) -> Result<(), Fail> {
    let text = Text::make(b"a b".to_vec(rt.alloc())?);
    let copy = text.duplicate().ok().ok_or("no copy")?;
    assert_eq!(rt; copy.bytes(), text.bytes());
    Ok(())
}
