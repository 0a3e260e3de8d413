// Scripts with what they show, and every byte alone, doubled and after a letter.
use crate::runs::{check, fail_rows, run, show_rows};
use std::alloc::Global;
use std::process::Abort;
use std::test::Fail;

// The first line that a byte alone, doubled or after a letter shows, where no number is shown.
fn shown_for(byte: u8) -> [&'static [u8]; 3] {
    match byte {
        b'\t' | b'\n' | b' ' => [b"", b"", b"|value error"],
        b'\'' => [b"|open quote", b"\n", b"|open quote"],
        b'_' => [
            b"|ill-formed number",
            b"|ill-formed number",
            b"|spelling error",
        ],
        b'+'
        | b'-'
        | b'*'
        | b'%'
        | b'^'
        | b'|'
        | b'<'
        | b'>'
        | b'='
        | b'['
        | b']'
        | b'$'
        | b','
        | b'#'
        | b'{'
        | b';' => { [b"verb\n", b"verb\n", b"verb\n"] }
        b'"' | b'&' | b'@' => [b"conjunction\n", b"|syntax error", b"adverb\n"],
        b'~' | b'/' => [b"adverb\n", b"adverb\n", b"verb\n"],
        b'\\' => [b"adverb\n", b"adverb\n", b"verb\n"],
        b'}' => [b"adverb\n", b"adverb\n", b"|nonce error"],
        // behind a letter it is the empty box
        b':' => [b"|nonce error", b"|nonce error", b"++\n||\n++\n"],
        // behind a letter it is the list of all characters
        b'.' => [b"conjunction\n", b"|nonce error", b"\0\x01\x02"],
        b'(' | b')' => [b"|syntax error", b"|syntax error", b"|syntax error"],
        b'a'..=b'z' | b'A'..=b'Z' => [b"|value error", b"|value error", b"|value error"],
        33..=126 => [b"|nonce error", b"|nonce error", b"|nonce error"],
        _ => [b"|spelling error", b"|spelling error", b"|spelling error"],
    }
}

// A text whose first line is a report has an error.
fn status_of(begins: &[u8]) -> u8 {
    if begins.starts_with(b"|") { 3 } else { 0 }
}

// What bytes write begins so.
fn check_begin(rt: &impl Abort, alloc: Global, text: Vec<u8>, begins: &[u8]) -> Result<(), Fail> {
    let (sink, answered) = run(alloc, text, 1000)?;
    assert_eq!(rt; answered, status_of(begins));
    assert!(rt; sink.bytes().starts_with(begins));
    assert_eq!(rt; sink.bytes().is_empty(), begins.is_empty());
    Ok(())
}

#[test]
fn every_byte(rt: HostRuntime) -> Result<(), Fail> {
    let alloc = rt.alloc();
    for byte in 0..=255u8 {
        let [alone, doubled, after_letter] = shown_for(byte);
        if byte.is_ascii_digit() {
            continue;
        }
        check_begin(&rt, alloc, vec![in alloc; byte]?, alone)?;
        check_begin(&rt, alloc, vec![in alloc; byte, byte]?, doubled)?;
        check_begin(&rt, alloc, vec![in alloc; b'a', byte]?, after_letter)?;
    }
    Ok(())
}

#[test]
fn scripts(rt: HostRuntime) -> Result<(), Fail> {
    let alloc = rt.alloc();
    // A text, what it writes and its status.
    let rows: [(&str, &str, u8); 17] = [
        (" \n\t\n\n", "", 0),
        ("1\r\n2 3\r\n", "1\n2 3\n", 0),
        ("1\r\r\n", "|spelling error\n|   1\r\n", 3),
        (
            "5\n 1e3 9999999999999999999 \t\n6\n",
            "5\n|overflow error\n|   1e3 9999999999999999999\n",
            3,
        ),
        ("1e19\n", "|overflow error\n|   1e19\n", 3),
        ("1e400\n", "|overflow error\n|   1e400\n", 3),
        ("0e400\n", "0\n", 0),
        (
            "_9223372036854775809\n",
            "|overflow error\n|   _9223372036854775809\n",
            3,
        ),
        (
            "36bzzzzzzzzzzzzzzzzzzzzzzzzzzzzzz\n",
            "|overflow error\n|   36bzzzzzzzzzzzzzzzzzzzzzzzzzzzzzz\n",
            3,
        ),
        ("1 _ 2\n", "|ill-formed number\n|   1 _ 2\n", 3),
        ("_ 1e19\n", "|ill-formed number\n|   _ 1e19\n", 3),
        ("1e19 _\n", "|overflow error\n|   1e19 _\n", 3),
        ("3x %: 4\n", "|nonce error\n|   3x %: 4\n", 3),
        ("3-4 NB. '\n", "_1\n", 0),
        (
            "1 2 + 1 2 3 \t NB. x \n4\n",
            "|length error\n|   1 2 + 1 2 3\n",
            3,
        ),
        ("000000000000000000000000000012 _0007", "12 _7\n", 0),
        (
            "4611686018427387903 3037000500 * 2 _3037000500\n",
            "|overflow error\n|   4611686018427387903 3037000500 * 2 _3037000500\n",
            3,
        ),
    ];
    for (text, written, status) in &rows {
        check(&rt, alloc, *text, *written, *status)?;
    }
    Ok(())
}

#[test]
fn scalars(rt: HostRuntime) -> Result<(), Fail> {
    let alloc = rt.alloc();
    let shown: [(&str, &str); 9] = [
        ("12 *. 18 _4 0", "36 _12 0"),
        ("2 ^ 0 1 10 62", "1 2 1024 4611686018427387904"),
        ("1 _1 0 ^ _5 _5 0", "1 _1 1"),
        ("+ 3 4", "3 4"),
        // lists of bits
        ("<. 1 2 3 > 2", "0 0 1"),
        ("-. 1 2 3 > 2", "1 1 0"),
        ("(1 2 3 > 2) ^ 3 2 1 > 2", "0 1 1"),
        ("(1 2 3 > 2) *. 3 2 1 > 0", "0 0 1"),
        ("(1 2 3 > 2) + 3 2 1 > 2", "1 0 1"),
    ];
    show_rows(&rt, alloc, &shown)?;
    let refused: [(&str, &str); 7] = [
        ("2 ^ _1 64", "quotient"),
        ("2 ^ 64 _1", "overflow"),
        ("0 ^ _1", "quotient"),
        ("_1 *. _9223372036854775808", "overflow"),
        ("^ 5", "nonce"),
        ("*. 5", "nonce"),
        ("'a' ^ 2", "domain"),
    ];
    fail_rows(&rt, alloc, &refused)
}
