// Cells of two nouns and cells of fills, and results that are padded.
use j_noun::{Atoms, Noun, Pool, Rank, Shape};
use j_rank::{Collector, plan_dyad, plan_monad};
use std::test::Fail;

// A list of two numbers.
fn list(pool: &mut Pool, first: i64, second: i64) -> Result<Noun, Fail> {
    let mut shape = Shape::new();
    shape.add(2).ok().ok_or("no shape")?;
    let numbers = vec![in pool.alloc(); first, second]?;
    let noun = Noun::make(pool, shape, Atoms::Wholes(numbers));
    Ok(noun.ok().ok_or("no list")?)
}

// A text of two characters.
fn text(pool: &mut Pool, first: u8, second: u8) -> Result<Noun, Fail> {
    let mut shape = Shape::new();
    shape.add(2).ok().ok_or("no shape")?;
    let bytes = vec![in pool.alloc(); first, second]?;
    let noun = Noun::make(pool, shape, Atoms::Bytes(bytes));
    Ok(noun.ok().ok_or("no text")?)
}

#[test]
fn pairs_atoms_with_a_list(rt: HostRuntime) -> Result<(), Fail> {
    let mut pool = Pool::new(rt.alloc());
    let x = list(&mut pool, 3, 4)?;
    let y = list(&mut pool, 10, 20)?;
    let plan = plan_dyad(Rank::Number(0), Rank::Number(1), &x, &y);
    let plan = plan.ok().ok_or("no plan")?;
    assert_eq!(&rt; plan.count(), 2);
    let left = plan.left(&mut pool, &x, 1).ok().ok_or("no left cell")?;
    assert!(&rt; left.matches(&Noun::number(4)));
    let right = plan.right(&mut pool, &y, 1).ok().ok_or("no right cell")?;
    assert!(&rt; right.matches(&y));
    let fill = plan.fill_left(&mut pool, &x).ok().ok_or("no left fill")?;
    assert!(&rt; fill.matches(&Noun::number(0)));
    let fill = plan.fill_right(&mut pool, &y).ok().ok_or("no right fill")?;
    assert!(&rt; fill.matches(&list(&mut pool, 0, 0)?));
    Ok(())
}

#[test]
fn pads_a_character_beside_a_text(rt: HostRuntime) -> Result<(), Fail> {
    let mut pool = Pool::new(rt.alloc());
    let y = list(&mut pool, 6, 7)?;
    let plan = plan_monad(Rank::Number(0), &y);
    let plan = plan.ok().ok_or("no plan")?;
    assert_eq!(&rt; plan.count(), 2);
    let mut collector = Collector::new(plan.frame().copy());
    let pushed = collector.push(&mut pool, Noun::character(b'a'));
    pushed.ok().ok_or("no room")?;
    let second = text(&mut pool, b'b', b'c')?;
    let pushed = collector.push(&mut pool, second);
    pushed.ok().ok_or("no room")?;
    let table = collector.finish(&mut pool).ok().ok_or("no table")?;
    let rows = plan_monad(Rank::Number(1), &table).ok().ok_or("no rows")?;
    assert_eq!(&rt; rows.count(), 2);
    let first = rows.right(&mut pool, &table, 0).ok().ok_or("no row")?;
    assert!(&rt; first.matches(&text(&mut pool, b'a', b' ')?));
    Ok(())
}
