// Names that call names: the levels of calls, and the steps of a run.
use crate::runs::check;
use std::alloc::{AllocError, Global};
use std::test::Fail;

// The names a1, a2 and so on: the first holds `first`, and each further one the one before it between two texts.
fn chain(
    alloc: Global,
    first: &str,
    before: &str,
    after: &str,
    count: u32,
) -> Result<String, AllocError> {
    let mut text = format!(in alloc; "a1 =: {first}\n")?;
    for k in 1..count {
        let line = format!(in alloc; "a{} =: {before}a{k}{after}\n", k + 1)?;
        text.push_str(&line)?;
    }
    Ok(text)
}

// A call takes a level, and one more for each of the verb's height. A name has height 0, and so has `+`.
#[test]
fn levels(rt: HostRuntime) -> Result<(), Fail> {
    let alloc = rt.alloc();
    // What stands before and after a name in the next one, how many there are, lines that show 5 each, and one with too many levels.
    let rows: [(&str, &str, u32, &[&str], &str); 5] = [
        // 999 names and `+`; two for the verb, 997 names and `+`
        (
            "",
            "",
            1000,
            &["a999 5", "2 a999 3", "(] @: a998) 5"],
            "a1000 5",
        ),
        ("", "", 1000, &["1 a999 4"], "2 a1000 3"),
        ("", "", 999, &["a999 5"], "(] @: a999) 5"),
        // one for the name, two for each of the 499 verbs, and `+`
        ("", " @: ]", 500, &["a500 5"], "(] @: a500) 5"),
        // one for the name, three for each of the 332 verbs, and `+`
        ("(", " @: ]) @: ]", 334, &["a333 5"], "a334 5"),
    ];
    for (before, after, count, fine, high) in &rows {
        let mut text = chain(alloc, "+", *before, *after, *count)?;
        let mut written = String::new(alloc);
        for line in fine.iter() {
            text.push_str(*line)?;
            text.push_str("\n")?;
            written.push_str("5\n")?;
        }
        text.push_str(*high)?;
        let report = format!(in alloc; "|stack error\n|   {high}\n")?;
        written.push_str(&report)?;
        check(&rt, alloc, &text, &written, 3)?;
    }
    Ok(())
}

// Each name applies the one before it twice, so the name a10 looks up a1 512 times.
#[test]
fn doubling(rt: HostRuntime) -> Result<(), Fail> {
    let alloc = rt.alloc();
    let mut text = String::from_str(alloc, "a1 =: ]\n")?;
    for k in 1..10u32 {
        let line = format!(in alloc; "a{} =: a{k} @: a{k}\n", k + 1)?;
        text.push_str(&line)?;
    }
    text.push_str("a10 7\n1 2 a10 _7\n")?;
    check(&rt, alloc, &text, "7\n_7\n", 0)
}

// Forty names, each applying the one before it twice, spend the steps of a run: the last would look up the first 2^39 times.
#[test]
fn forty(rt: HostRuntime) -> Result<(), Fail> {
    let alloc = rt.alloc();
    let mut text = String::from_str(alloc, "1 + 1\na1 =: ] @: ]\n")?;
    for k in 1..40u32 {
        let line = format!(in alloc; "a{} =: a{k} @: a{k}\n", k + 1)?;
        text.push_str(&line)?;
    }
    text.push_str("a40 7\n9\n")?;
    check(&rt, alloc, &text, "2\n", 4)
}
