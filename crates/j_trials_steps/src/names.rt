// Steps of sentences with names, worked out by hand.
use j_eval::{Machine, Outcome, prepare};
use j_noun::Pool;
use std::alloc::Global;
use std::process::Abort;
use std::test::Fail;

// Executes lines one after another where a budget is given: whether the last one found it spent, the steps counted, and whether the last one shows that.
fn run(
    rt: &impl Abort,
    alloc: Global,
    lines: &str,
    budget: u64,
    shown: &str,
) -> Result<(bool, u64, bool), Fail> {
    let mut machine = Machine::new(alloc, budget).ok().ok_or("a machine")?;
    let mut pool = Pool::new(alloc);
    let mut spent = false;
    for line in lines.split('\n') {
        assert!(rt; !spent);
        assert!(rt; line.len() <= 16_777_216);
        let sentence = prepare(alloc, &mut pool, line.as_bytes())
            .ok()
            .ok_or("a sentence")?;
        assert!(rt; sentence.count() > 0);
        let outcome = machine.sentence(&sentence);
        spent = matches!(&outcome, Outcome::Spent);
    }
    Ok((spent, machine.steps(), machine.shown() == shown.as_bytes()))
}

#[test]
fn names(rt: HostRuntime) -> Result<(), Fail> {
    let alloc = rt.alloc();
    // Lines, the steps of all, and what the last one shows. A look-up is a step for each cell.
    let rows: [(&str, u64, &str); 28] = [
        ("f =: +", 2, ""),
        ("(a =: 5)", 3, "5\n"),
        ("3 + a =: 5", 3, "8\n"),
        ("a =: b =: 2", 3, ""),
        ("a =: b =: 2\na + b", 5, "4\n"),
        // the sentence, row 0 and three look-ups
        ("f =: +\nf 1 2 3", 7, "1 2 3\n"),
        // a built-in verb is a name too
        ("echo 1", 3, "1\n"),
        ("f_p_ =: 3 + ]\nf_p_ 4", 6, "7\n"),
        ("f =: -\n1 2 3 f 10", 7, "_9 _8 _7\n"),
        ("f =: ]\nf 1 2 3", 5, "1 2 3\n"),
        ("q", 1, ""),
        ("q 1", 3, ""),
        ("q 1 2 3", 3, ""),
        ("h =: k", 2, ""),
        ("f g =: 3", 4, ""),
        ("(f) =: 3", 2, ""),
        ("f =: 5\n(f) =: 3", 5, ""),
        ("a =: 1 2 +", 2, ""),
        ("f =:", 1, ""),
        ("5 =: 3", 2, ""),
        // lengths are told before the first look-up, and the first cell's fault is the last look-up
        ("f =: +\n1 2 f 1 2 3", 4, ""),
        ("f =: +\n9223372036854775807 1 f 1 2", 5, ""),
        // rows 5 and 7, and then look-ups of v, or of g and f
        ("a =: 5\nv =: a + ]\na =: 6\nv 1", 10, "6\n"),
        ("f =: +\ng =: 10 f ]\nf =: -\ng 3", 11, "7\n"),
        // a name has the ranks with which it was moved
        ("f =: ]\ng =: f @: [\nf =: +\ng 1 2 3", 11, "1 2 3\n"),
        ("f =: +\ng =: f @: [\nf =: ]\ng 1 2 3", 13, "1 2 3\n"),
        // 1,000 levels, of one look-up each, and 500 of a look-up and a verb of height 1
        ("f =: f\nf 1", 1004, ""),
        ("f =: g @: ]\ng =: f @: ]\nf 1", 508, ""),
    ];
    for (lines, steps, shown) in &rows {
        assert!(rt; *steps > 0);
        let expected = (false, *steps, true);
        assert_eq!(rt;
            run(&rt, alloc, *lines, *steps, *shown)?,
            expected,
            "{lines}"
        );
        let expected = (true, *steps - 1, true);
        assert_eq!(rt;
            run(&rt, alloc, *lines, *steps - 1, "")?,
            expected,
            "{lines}"
        );
    }
    Ok(())
}

// Each name applies the one before it twice.
#[test]
fn doubling(rt: HostRuntime) -> Result<(), Fail> {
    let alloc = rt.alloc();
    let lines = "a =: ]\nb =: a @: a\nc =: b @: b\nd =: c @: c\ne =: d @: d\ne 7";
    // two steps, four times three, then the sentence, row 0, and 1, 2, 4, 8 and 16 look-ups
    assert_eq!(rt; run(&rt, alloc, lines, 1000, "7\n")?, (false, 47, true));
    assert_eq!(rt; run(&rt, alloc, lines, 46, "")?, (true, 46, true));
    assert_eq!(rt; run(&rt, alloc, lines, 17, "")?, (true, 17, true));
    Ok(())
}

// A verb on pieces looks its name up for each piece, up to the first that fails.
#[test]
fn names_on_pieces(rt: HostRuntime) -> Result<(), Fail> {
    let alloc = rt.alloc();
    let rows: [(&str, u64, &str); 4] = [
        // two steps, then the sentence, rows 3 and 0, and two lines
        ("f =: #\nf/. 'ab'", 7, "1 1\n"),
        ("f =: #\n'aba' f/. 1 2 3", 7, "2 1\n"),
        ("f =: #\nf;.1 'aba'", 7, "2 1\n"),
        // three steps, then the sentence, rows 2, 3 and 0, and two of the three lines
        ("f =: +/\nf/. 2 2 $ 0 9223372036854775807 1 0", 9, ""),
    ];
    for (lines, steps, shown) in &rows {
        assert_eq!(rt;
            run(&rt, alloc, *lines, *steps, *shown)?,
            (false, *steps, true),
            "{lines}"
        );
    }
    Ok(())
}

// What was refused changed no name, and a call that failed left the current locale as it was.
#[test]
fn names_after_errors(rt: HostRuntime) -> Result<(), Fail> {
    let alloc = rt.alloc();
    // Lines, the steps of all, and what the last one shows.
    let rows: [(&str, u64, &str); 19] = [
        // rows 5, 8 and 0, and two look-ups
        ("(echo , echo) 1", 6, "1\n1\n"),
        ("f_p_ =: %\nf_p_ 'a'\nc =: 5\nc_base_", 8, "5\n"),
        (
            "g_q_ =: %\nf_p_ =: g_q_ @: ]\nf_p_ 'a'\nc =: 5\nc_base_",
            12,
            "5\n",
        ),
        // a list of two and a table without rows have different lengths
        (
            "f_p_ =: 1 2 + cocurrent\nf_p_ 'q'\nc =: 5\nc_base_",
            10,
            "5\n",
        ),
        ("f =: 1 2 + cocurrent\nf 'q'\nc =: 5\nc_q_", 10, "5\n"),
        ("a =: 1\n'a 1' =: 3 4\na", 5, "1\n"),
        ("a =: 1\n'a b' =: 2 3 4\na", 5, "1\n"),
        ("a =: 1\n'a b' =: +\na", 5, "1\n"),
        ("a =: 1\n'a b__o' =: 2 3\na", 5, "1\n"),
        ("a =: 1\no =: <'p q'\n'a b__o' =: 2 3\na", 8, "1\n"),
        ("a =: 1\na__o =: 5\na", 5, "1\n"),
        ("b =: 1\nb =: a__o\nb", 4, "1\n"),
        ("cocurrent 3\nc =: 5\nc_base_", 6, "5\n"),
        ("cocurrent ''\nc =: 5\nc_base_", 6, "5\n"),
        ("cocurrent 'a b'\nc =: 5\nc_base_", 6, "5\n"),
        ("cocurrent 'a_'\nc =: 5\nc_base_", 6, "5\n"),
        ("1 cocurrent 'p'\nc =: 5\nc_base_", 6, "5\n"),
        ("cocurrent <<'p'\nc =: 5\nc_base_", 8, "5\n"),
        ("cocurrent ,<'p'\nc =: 5\nc_base_", 8, "5\n"),
    ];
    for (lines, steps, shown) in &rows {
        assert_eq!(rt;
            run(&rt, alloc, *lines, *steps, *shown)?,
            (false, *steps, true),
            "{lines}"
        );
    }
    // what was shown before the budget was spent stays
    let expected = (true, 5, true);
    assert_eq!(rt; run(&rt, alloc, "(echo , echo) 1", 5, "1\n")?, expected);
    Ok(())
}
