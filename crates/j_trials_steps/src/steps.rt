// Steps of sentences, worked out by hand.
use j_eval::{Entity, Machine, Outcome, prepare};
use j_noun::Pool;
use std::alloc::Global;
use std::process::Abort;
use std::test::Fail;

// Executes a sentence where a budget is left: whether the budget was spent, the steps counted, and whether something was shown.
fn counted(
    rt: &impl Abort,
    alloc: Global,
    sentence: &str,
    budget: u64,
) -> Result<(bool, u64, bool), Fail> {
    let line = sentence.as_bytes();
    assert!(rt; line.len() <= 16_777_216);
    let mut pool = Pool::new(alloc);
    let prepared = prepare(alloc, &mut pool, line).ok().ok_or("a sentence")?;
    assert!(rt; prepared.count() > 0);
    let mut machine = Machine::new(alloc, budget).ok().ok_or("a machine")?;
    let outcome = machine.sentence(&prepared);
    let spent = matches!(&outcome, Outcome::Spent);
    Ok((spent, machine.steps(), !machine.shown().is_empty()))
}

#[test]
fn steps(rt: HostRuntime) -> Result<(), Fail> {
    let alloc = rt.alloc();
    // A sentence, its steps (one as it begins and one for each row of the table), and whether it shows a value.
    let rows: [(&str, u64, bool); 31] = [
        ("7", 1, true),
        ("+", 1, true),
        ("@:", 1, true),
        ("- 5", 2, true),
        ("- - 5", 3, true),
        ("2 * 3 4 - 1", 3, true),
        ("+ -", 2, true),
        ("+ - *", 2, true),
        ("5 + *", 2, true),
        ("@: *", 2, true),
        ("- @: *", 2, true),
        ("- @: * 5", 3, true),
        ("(3)", 2, true),
        ("((3))", 3, true),
        ("5 (+ - *) 3", 4, true),
        ("(+ *) 3", 4, true),
        ("(5 + *) 3", 4, true),
        // a fork before `(` is read, then a hook
        ("(+ - * -) 3", 5, true),
        // rows 6 and 8 for the adverb, then 3 and 0
        ("- (@: *) 5", 5, true),
        // rows 6 and 8 for each adverb, 6 and 8 for both, then 3 and 0
        ("+ ((@: *) (- @:)) 5", 9, true),
        ("[: 3", 2, false),
        ("(1 +)", 2, false),
        ("1 2 +", 2, false),
        ("1 2 (3)", 3, false),
        ("1 2 + 1 2 3", 2, false),
        ("5 @: +", 2, false),
        ("()", 1, false),
        ("( 1", 1, false),
        ("3 =: 4", 2, false),
        ("3 =: - 4", 3, false),
        ("+ =: 4", 1, false),
    ];
    for (sentence, steps, shows) in &rows {
        assert!(rt; *steps > 0);
        let expected = (false, *steps, *shows);
        assert_eq!(rt;
            counted(&rt, alloc, *sentence, *steps)?,
            expected,
            "{sentence}"
        );
        let expected = (true, *steps - 1, false);
        assert_eq!(rt;
            counted(&rt, alloc, *sentence, *steps - 1)?,
            expected,
            "{sentence}"
        );
    }
    Ok(())
}

#[test]
fn machine_counts_steps(rt: HostRuntime) -> Result<(), Fail> {
    let alloc = rt.alloc();
    let mut machine = Machine::new(alloc, 5).ok().ok_or("a machine")?;
    let mut pool = Pool::new(alloc);
    let lines: [(&[u8], &[u8], u64); 2] = [
        (b"2 * 3 4 - 1", b"4 6\n", 3),
        (b"- 5 _6", b"_5 6\n", 5),
    ];
    for (line, shown, steps) in &lines {
        assert!(rt; line.len() <= 16_777_216);
        let sentence = prepare(alloc, &mut pool, line).ok().ok_or("a sentence")?;
        assert!(rt; sentence.count() > 0);
        let outcome = machine.sentence(&sentence);
        assert!(rt; matches!(&outcome, Outcome::Value(Entity::Noun(_))));
        assert_eq!(rt; machine.shown(), *shown);
        assert_eq!(rt; machine.steps(), *steps);
    }
    let sentence = prepare(alloc, &mut pool, b"7").ok().ok_or("a sentence")?;
    assert!(rt; sentence.count() > 0);
    for _ in 0..2 {
        let outcome = machine.sentence(&sentence);
        assert!(rt; matches!(&outcome, Outcome::Spent));
        assert_eq!(rt; machine.shown(), b"".as_slice());
        assert_eq!(rt; machine.steps(), 5);
    }
    Ok(())
}
