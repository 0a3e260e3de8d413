// Limits from both sides, and a run that spends its budget.
use crate::run_surely;
use crate::runs::{repeated, run};
use std::alloc::Global;
use std::process::Abort;
use std::test::Fail;

// A text writes so many bytes, which begin so.
fn check_long(
    rt: &impl Abort,
    alloc: Global,
    text: Vec<u8>,
    begins: &[u8],
    length: usize,
    status: u8,
) -> Result<(), Fail> {
    let (sink, answered) = run(alloc, text, 67_108_864)?;
    assert_eq!(rt; answered, status);
    assert!(rt; sink.bytes().starts_with(begins));
    assert_eq!(rt; sink.bytes().len(), length);
    Ok(())
}

#[test]
fn limits(rt: HostRuntime) -> Result<(), Fail> {
    let alloc = rt.alloc();
    let blanks = repeated(alloc, b" ", 16_777_216)?;
    check_long(&rt, alloc, blanks, b"", 0, 0)?;
    let too_long = repeated(alloc, b" ", 16_777_217)?;
    check_long(&rt, alloc, too_long, b"", 0, 7)?;
    let parts = repeated(alloc, b"7 ", 4_194_304)?;
    check_long(&rt, alloc, parts, b"7 7 7", 8_388_608, 0)?;
    let too_many = repeated(alloc, b"7 ", 4_194_305)?;
    // the name of the error, and the line without its last blank
    check_long(
        &rt,
        alloc,
        too_many,
        b"|limit error\n|   7 7 7",
        8_388_627,
        3,
    )
}

// 4,194,304 numbers of 15 digits show 67,108,864 bytes, and one digit more is too much.
#[test]
fn shown_bytes(rt: HostRuntime) -> Result<(), Fail> {
    let alloc = rt.alloc();
    let mut fitting = b"1e14 + ".to_vec(alloc)?;
    fitting.extend_from_slice(&repeated(alloc, b"0 ", 4_194_304)?)?;
    check_long(&rt, alloc, fitting, b"100000000000000 1000", 67_108_864, 0)?;
    let mut too_wide = b"1e14 + 9e14 ".to_vec(alloc)?;
    too_wide.extend_from_slice(&repeated(alloc, b"0 ", 4_194_303)?)?;
    check_long(
        &rt,
        alloc,
        too_wide,
        b"|limit error\n|   1e14 + 9e14 0 0",
        8_388_635,
        3,
    )
}

// A name of rank 0 is looked up for each number of a list. 23 lines of 4,194,307 steps each leave some of the 100,000,000, and one more line spends them.
#[test]
fn budget(rt: HostRuntime) -> Result<(), Fail> {
    let alloc = rt.alloc();
    let mut text = b"1 + 1\nf =: +\na =: ".to_vec(alloc)?;
    text.extend_from_slice(&repeated(alloc, b"7 ", 4_194_304)?)?;
    text.extend_from_slice(&repeated(alloc, b"\nb =: f a", 23)?)?;
    text.extend_from_slice(b"\n1 + 2\nf a\n9\n")?;
    check_long(&rt, alloc, text, b"2\n3\n", 4, 4)
}

#[test]
fn sure_runs(rt: HostRuntime) -> Result<(), Fail> {
    let alloc = rt.alloc();
    let words = Vec::new(alloc);
    assert_eq!(rt; run_surely(alloc, &words, b"1 2 3 + 10".to_vec(alloc)?), 0);
    assert_eq!(rt; run_surely(alloc, &words, b"1 2 3 + 1 2".to_vec(alloc)?), 3);
    Ok(())
}
