// Operators, parentheses, faults and heights: sentences with what they show, worked out by hand.
use crate::runs::{fail_rows, repeated, run, show_rows};
use std::alloc::Global;
use std::test::Fail;

#[test]
fn operators_and_parentheses(rt: HostRuntime) -> Result<(), Fail> {
    let alloc = rt.alloc();
    let rows: [(&str, &str); 35] = [
        ("+ -", "verb"),
        ("+ - *", "verb"),
        ("@:", "conjunction"),
        ("(@:)", "conjunction"),
        ("@: *", "adverb"),
        ("(@: *)", "adverb"),
        ("- @:", "adverb"),
        ("5 @:", "adverb"),
        ("@: 5 6", "adverb"),
        ("((@: *) (- @:))", "adverb"),
        ("(@: *) (- @:)", "adverb"),
        // (+ @: *) @:
        ("+ (@: *) @:", "adverb"),
        ("-@:+", "verb"),
        ("2 -@:+ 3", "_5"),
        ("2 (- @: +) 3", "_5"),
        ("(- @: *) _5 0 5", "1 0 _1"),
        ("2 3 (* @: -) 5 1", "_1 1"),
        ("+ @: - 3", "_3"),
        // `@:` takes what stands left of it: (- @: *) @: +
        ("2 -@:*@:+ 3", "_1"),
        // (- + y) * (- y)
        ("(- @: + * -) 4", "16"),
        // (* y) + (- + y)
        ("(* + - @: +) 4", "_3"),
        ("- (@: *) 5", "_1"),
        ("* (- @:) 5", "_1"),
        ("* (- @:) _7", "1"),
        ("* (@: -) (- @:) 5", "1"),
        // (+ @: -) @: *, that is + - 14
        ("7 + ((@: -) (@: *)) 2", "_14"),
        // 3: @: (- @: +)
        ("+ ((- @:) (3: @:)) 4", "3"),
        ("(+)", "verb"),
        ("5 (+) 3", "8"),
        ("((3))", "3"),
        ("- ((3) + 4)", "_7"),
        ("(2 + 3) * 4", "20"),
        ("2 + 3 * 4", "14"),
        ("1 + + 2", "3"),
        ("- - - 5", "_5"),
    ];
    show_rows(&rt, alloc, &rows)
}

#[test]
fn faults_of_form(rt: HostRuntime) -> Result<(), Fail> {
    let alloc = rt.alloc();
    let rows: [(&str, &str); 31] = [
        ("1 2 +", "syntax"),
        ("(1 +)", "syntax"),
        ("(1 +) 2", "syntax"),
        ("1 2 (3)", "syntax"),
        ("+ 1 2 (3)", "syntax"),
        ("(1 2) 3", "syntax"),
        ("()", "syntax"),
        ("+ ()", "syntax"),
        ("( 1", "syntax"),
        ("1 )", "syntax"),
        ("(+ -", "syntax"),
        ("+ -)", "syntax"),
        (")(", "syntax"),
        ("(@: *) 5", "syntax"),
        ("@: @:", "syntax"),
        ("(@: *) @:", "syntax"),
        ("5 @: +", "domain"),
        ("(5 @: +) 3", "domain"),
        ("+ @: 5", "domain"),
        ("5 @: 3", "domain"),
        ("* (5 @:) 3", "domain"),
        ("* (@: 5) 3", "domain"),
        ("5 (@: *) 3", "domain"),
        ("3 =: 4", "domain"),
        ("3 4 =. 5", "domain"),
        ("(3) =: 4", "domain"),
        ("3 =: +", "domain"),
        ("3 =:", "syntax"),
        ("=: 4", "syntax"),
        ("=:", "syntax"),
        ("+ =: 4", "syntax"),
    ];
    fail_rows(&rt, alloc, &rows)
}

#[test]
fn faults_in_order(rt: HostRuntime) -> Result<(), Fail> {
    let alloc = rt.alloc();
    let rows: [(&str, &str); 34] = [
        ("[: 3", "domain"),
        ("1 [: 3", "domain"),
        ("([: -) 3", "domain"),
        ("3 ([: -) 4", "domain"),
        ("(- [:) 3", "domain"),
        ("([: [: -) 3", "domain"),
        ("(- [: +) 3", "domain"),
        ("(- + [:) 3", "domain"),
        ("(2 [: -) 3", "domain"),
        ("([: @: -) 3", "domain"),
        ("1 2 (+ - *) 1 2 3", "length"),
        ("(1 2 + *) 3 4 5", "length"),
        // the right part of a train comes first
        ("([: -) _9223372036854775808", "overflow"),
        ("([: [: -) _9223372036854775808", "overflow"),
        ("([: @: -) _9223372036854775808", "overflow"),
        ("9223372036854775807 (+ - [:) 1", "domain"),
        ("9223372036854775807 (([: [: -) - +) 1", "overflow"),
        ("((9223372036854775807 + ]) - (1 2 3 + ])) 1 2", "length"),
        ("((1 2 3 + ]) - (9223372036854775807 + ])) 1 2", "overflow"),
        // the right end of a sentence comes first, but for what `)` holds back
        ("5 @: + 1 2 + 1 2 3", "length"),
        ("(5 @: +) 1 2 + 1 2 3", "domain"),
        ("(1 +) 2 3 + 4 5 6", "syntax"),
        ("3 =: - _9223372036854775808", "overflow"),
        ("+ =: 1 2 + 1 2 3", "length"),
        ("2 + 3 =: 4", "domain"),
        ("3 =: 4 )", "domain"),
        ("3 =: (4", "syntax"),
        // a word that can't be read comes before all
        ("() abc.", "spelling"),
        ("1e19 + %: 3", "nonce"),
        ("1e19 + f", "overflow"),
        ("f + 1e19", "overflow"),
        ("() 1e19", "overflow"),
        ("3 =: f", "domain"),
        ("1 2 + 1 2 3 + %: 4", "nonce"),
    ];
    fail_rows(&rt, alloc, &rows)
}

// A hook of that height, `((+ -) -) -` and so on, between two texts. Each level changes the sign of the right argument of `+`.
fn tower(alloc: Global, before: &[u8], height: usize, after: &[u8]) -> Result<Vec<u8>, Fail> {
    let mut text = before.to_vec(alloc)?;
    text.extend_from_slice(&repeated(alloc, b"(", height)?)?;
    text.extend_from_slice(b"+")?;
    text.extend_from_slice(&repeated(alloc, b" -)", height)?)?;
    text.extend_from_slice(after)?;
    Ok(text)
}

#[test]
fn heights(rt: HostRuntime) -> Result<(), Fail> {
    let alloc = rt.alloc();
    let rows: [(&[u8], usize, &[u8], &[u8]); 16] = [
        (b"", 64, b"", b"verb\n"),
        (b"", 65, b"", b"|limit error"),
        (b"", 63, b" 3", b"0\n"),
        (b"", 64, b" 3", b"6\n"),
        (b"10", 64, b" 3", b"13\n"),
        (b"", 65, b" 3", b"|limit error"),
        (b"+ -", 63, b"", b"verb\n"),
        (b"+ -", 64, b"", b"|limit error"),
        (b"5 -", 64, b"", b"|limit error"),
        (b"- @:", 63, b" 3", b"0\n"),
        (b"- @:", 64, b" 3", b"|limit error"),
        (b"", 63, b"@:", b"adverb\n"),
        (b"", 64, b"@:", b"|limit error"),
        (b"- (@:", 62, b") 5", b"_10\n"),
        (b"- (@:", 64, b") 5", b"|limit error"),
        (b"((@: -) (@:", 63, b"))", b"|limit error"),
    ];
    for (before, height, after, begins) in &rows {
        let text = tower(alloc, *before, *height, *after)?;
        let status = if begins.starts_with(b"|") { 3 } else { 0 };
        let (sink, answered) = run(alloc, text, 1000)?;
        assert_eq!(rt; answered, status);
        assert!(rt; sink.bytes().starts_with(*begins));
    }
    Ok(())
}
