// Nouns of each shape in each storage class: what they show, what they match and their rows, worked out by hand.
ghost use Rattle.std.specs.Prelude.{◌≡◌, ◌≤◌, ◌<◌, length, IfOk};
ghost use Rattle.std.specs.List.{All};
ghost use Rattle.j_definitions.specs.Array.{product};
ghost use Rattle.j_noun.specs.Held.{atoms_kept, AreBits};

use j_display::show;
use j_entity::Entity;
use j_noun::{Atoms, Fault, Noun, Pool, Refusal, Shape, View, boxes};
use std::alloc::Global;
use std::process::Abort;
use std::test::Fail;

fn shape_of(axes: &[usize]) -> Result<Shape, Fail>
    ensures { IfOk result (λ s. s ≡ axes.now) }
{
    let mut shape = Shape::new();
    for n in axes {
        shape.add(*n).ok().ok_or("too many axes")?;
    }
    Ok(shape)
}

fn noun_of(pool: &mut Pool, axes: &[usize], atoms: Atoms) -> Result<Noun, Fail>
    requires as_many { length (atoms_kept atoms) ≡ product axes.now }
    requires bits { AreBits atoms }
{
    let shape = shape_of(axes)?;
    match Noun::make(pool, shape, atoms) {
        Ok(noun) => Ok(noun),
        Err(_) => Err(Fail::from("no noun")),
    }
}

fn numbers_of(pool: &mut Pool, axes: &[usize], numbers: &[i64]) -> Result<Noun, Fail>
    requires { length numbers.now ≡ product axes.now }
{
    let atoms = Atoms::Wholes(numbers.to_vec(pool.alloc())?);
    noun_of(pool, axes, atoms)
}

// The numbers 0 and 1 as bits.
fn bits_of(alloc: Global, numbers: &[i64]) -> Result<Vec<u8>, Fail>
    ensures { IfOk result (λ v. (length v.items ≡ length numbers.now) × All (λ b. b < 2) v.items) }
{
    let mut bits = Vec::new(alloc);
    for n in numbers {
        bits.push(u8::from(*n == 1))?;
    }
    Ok(bits)
}

// Boxes that hold 0, 1 and so on.
fn boxes_of(pool: &mut Pool, count: u8) -> Result<Vec<Noun>, Fail>
    ensures { IfOk result (λ v. length v.items ≡ count) }
{
    let mut nouns = boxes(pool, usize::from(count)).ok().ok_or("no boxes")?;
    for n in 0..count {
        nouns.push(Noun::number(i64::from(n)))?;
    }
    Ok(nouns)
}

// The noun has these rows, and is shown in as many bytes but not in one less.
fn check_rows(rt: &impl Abort, alloc: Global, noun: Noun, rows: &[u8]) {
    let mut pool = Pool::new(alloc);
    let mut shown = Vec::new(alloc);
    let value = Entity::Noun(noun);
    if !rows.is_empty() {
        let beyond = show(&mut pool, &value, rows.len() - 1, &mut shown);
        assert!(rt; beyond == Err(Refusal::Fault(Fault::Limit)));
        assert!(rt; shown.is_empty());
    }
    assert!(rt; show(&mut pool, &value, rows.len(), &mut shown).is_ok());
    assert_eq!(rt; shown.as_slice(), rows);
}

// A noun of whole numbers shows them, and matches one that is made again.
fn check_numbers(
    rt: &impl Abort,
    alloc: Global,
    axes: &[usize],
    numbers: &[i64],
    rows: &[u8],
) -> Result<(), Fail>
    requires { length numbers.now ≡ product axes.now }
{
    let mut pool = Pool::new(alloc);
    let noun = numbers_of(&mut pool, axes, numbers)?;
    assert_eq!(rt; noun.axes(), axes);
    assert!(rt; matches!(noun.view(), View::Wholes(shown) if shown == numbers));
    assert!(rt; noun.matches(&numbers_of(&mut pool, axes, numbers)?));
    check_rows(rt, alloc, noun, rows);
    Ok(())
}

#[test]
fn whole_numbers(rt: HostRuntime) -> Result<(), Fail> {
    let alloc = rt.alloc();
    check_numbers(&rt, alloc, &[], &[-5], b"_5\n")?;
    check_numbers(&rt, alloc, &[0], &[], b"\n")?;
    check_numbers(&rt, alloc, &[1], &[7], b"7\n")?;
    check_numbers(&rt, alloc, &[3], &[1, -2, 30], b"1 _2 30\n")?;
    check_numbers(&rt, alloc, &[0, 3], &[], b"")?;
    check_numbers(&rt, alloc, &[3, 0], &[], b"")?;
    check_numbers(
        &rt,
        alloc,
        &[2, 3],
        &[1, -2, 30, 400, 5, -6],
        b"  1 _2 30\n400  5 _6\n",
    )?;
    check_numbers(&rt, alloc, &[2, 0, 3], &[], b"")?;
    check_numbers(
        &rt,
        alloc,
        &[1, 2, 1, 2],
        &[1, -2, 300, 4],
        b"  1 _2\n\n300  4\n",
    )
}

// A noun of bits shows them, matches the same numbers kept whole. A bit alone is kept as a number.
fn check_bits(
    rt: &impl Abort,
    alloc: Global,
    axes: &[usize],
    numbers: &[i64],
    rows: &[u8],
) -> Result<(), Fail>
    requires { length numbers.now ≡ product axes.now }
{
    let mut pool = Pool::new(alloc);
    let bits = bits_of(alloc, numbers)?;
    let noun = noun_of(&mut pool, axes, Atoms::Bits(bits))?;
    let whole = numbers_of(&mut pool, axes, numbers)?;
    assert_eq!(rt; noun.axes(), axes);
    match noun.view() {
        View::Bits(shown) => assert_eq!(rt; shown, bits_of(alloc, numbers)?.as_slice()),
        View::Wholes(shown) => assert!(rt; axes.is_empty() && shown == numbers),
        View::Bytes(_) | View::Boxes(_) => return Err(Fail::from("no numbers")),
    }
    assert!(rt; noun.matches(&whole) && whole.matches(&noun));
    check_rows(rt, alloc, noun, rows);
    Ok(())
}

#[test]
fn bits(rt: HostRuntime) -> Result<(), Fail> {
    let alloc = rt.alloc();
    check_bits(&rt, alloc, &[], &[1], b"1\n")?;
    check_bits(&rt, alloc, &[0], &[], b"\n")?;
    check_bits(&rt, alloc, &[1], &[0], b"0\n")?;
    check_bits(&rt, alloc, &[3], &[1, 0, 1], b"1 0 1\n")?;
    check_bits(&rt, alloc, &[0, 3], &[], b"")?;
    check_bits(&rt, alloc, &[3, 0], &[], b"")?;
    check_bits(&rt, alloc, &[2, 3], &[1, 0, 1, 0, 0, 1], b"1 0 1\n0 0 1\n")?;
    check_bits(&rt, alloc, &[2, 0, 3], &[], b"")?;
    check_bits(&rt, alloc, &[1, 2, 1, 2], &[1, 0, 0, 1], b"1 0\n\n0 1\n")
}

// A noun of characters shows them, and matches one that is made again, as its copy does.
fn check_characters(
    rt: &impl Abort,
    alloc: Global,
    axes: &[usize],
    bytes: &[u8],
    rows: &[u8],
) -> Result<(), Fail>
    requires { length bytes.now ≡ product axes.now }
{
    let mut pool = Pool::new(alloc);
    let noun = noun_of(&mut pool, axes, Atoms::Bytes(bytes.to_vec(alloc)?))?;
    let again = noun_of(&mut pool, axes, Atoms::Bytes(bytes.to_vec(alloc)?))?;
    assert_eq!(rt; noun.axes(), axes);
    assert!(rt; matches!(noun.view(), View::Bytes(shown) if shown == bytes));
    assert!(rt; noun.matches(&again));
    let copy = noun.duplicate().ok().ok_or("no copy")?;
    assert_eq!(rt; copy.axes(), axes);
    assert_eq!(rt; copy.weight(), bytes.len());
    assert!(rt; matches!(copy.view(), View::Bytes(shown) if shown == bytes));
    assert!(rt; copy.matches(&noun));
    check_rows(rt, alloc, noun, rows);
    Ok(())
}

#[test]
fn characters(rt: HostRuntime) -> Result<(), Fail> {
    let alloc = rt.alloc();
    check_characters(&rt, alloc, &[], b"a", b"a\n")?;
    check_characters(&rt, alloc, &[0], b"", b"\n")?;
    check_characters(&rt, alloc, &[1], b"a", b"a\n")?;
    check_characters(&rt, alloc, &[3], b"a b", b"a b\n")?;
    check_characters(&rt, alloc, &[0, 3], b"", b"")?;
    check_characters(&rt, alloc, &[3, 0], b"", b"")?;
    check_characters(&rt, alloc, &[2, 3], b"ab c  ", b"ab \nc  \n")?;
    check_characters(&rt, alloc, &[2, 0, 3], b"", b"")?;
    check_characters(&rt, alloc, &[1, 2, 1, 2], b"abcd", b"ab\n\ncd\n")
}

// A noun of boxes shows them, has level 1 where there is one, and matches characters only where there is none.
fn check_boxes(
    rt: &impl Abort,
    alloc: Global,
    axes: &[usize],
    count: u8,
    bytes: &[u8],
) -> Result<(), Fail>
    requires count { count ≡ product axes.now }
    requires bytes { length bytes.now ≡ product axes.now }
{
    let mut pool = Pool::new(alloc);
    let held = boxes_of(&mut pool, count)?;
    let noun = noun_of(&mut pool, axes, Atoms::Boxes(held))?;
    let held = boxes_of(&mut pool, count)?;
    let again = noun_of(&mut pool, axes, Atoms::Boxes(held))?;
    let text = noun_of(&mut pool, axes, Atoms::Bytes(bytes.to_vec(alloc)?))?;
    assert_eq!(rt; noun.axes(), axes);
    assert!(rt; matches!(noun.view(), View::Boxes(shown) if shown.len() == bytes.len()));
    assert_eq!(rt; noun.level(), usize::from(count > 0));
    assert!(rt; noun.matches(&again));
    assert_eq!(rt; noun.matches(&text), count == 0);
    Ok(())
}

#[test]
fn boxed(rt: HostRuntime) -> Result<(), Fail> {
    let alloc = rt.alloc();
    check_boxes(&rt, alloc, &[], 1, b"a")?;
    check_boxes(&rt, alloc, &[0], 0, b"")?;
    check_boxes(&rt, alloc, &[1], 1, b"a")?;
    check_boxes(&rt, alloc, &[3], 3, b"abc")?;
    check_boxes(&rt, alloc, &[0, 3], 0, b"")?;
    check_boxes(&rt, alloc, &[3, 0], 0, b"")?;
    check_boxes(&rt, alloc, &[2, 3], 6, b"abcdef")?;
    check_boxes(&rt, alloc, &[2, 0, 3], 0, b"")?;
    check_boxes(&rt, alloc, &[1, 2, 1, 2], 4, b"abcd")
}

#[test]
fn boxed_lists(rt: HostRuntime) -> Result<(), Fail> {
    let alloc = rt.alloc();
    let mut pool = Pool::new(alloc);
    let bits = noun_of(&mut pool, &[3], Atoms::Bits(vec![in alloc; 1, 0, 1]?))?;
    let held = vec![in alloc; bits, Noun::character(b'a')]?;
    let noun = noun_of(&mut pool, &[2], Atoms::Boxes(held))?;
    assert_eq!(rt; noun.tally(), 2);
    assert_eq!(rt; noun.weight(), 6);
    assert_eq!(rt; noun.level(), 1);
    Ok(())
}
