// Names that hold nothing, or not what is wanted, and what stands left of a copula.
use crate::runs::fail;
use std::test::Fail;

#[test]
fn value_errors(rt: HostRuntime) -> Result<(), Fail> {
    let alloc = rt.alloc();
    // What is run before, the line that errs, and its error.
    let rows: [(&str, &str, &str); 21] = [
        ("", "zz", "value"),
        ("", "(zz)", "value"),
        ("", "q 1", "value"),
        ("", "1 q 2", "value"),
        ("", "q 1 2 3", "value"),
        ("", "h =: k", "value"),
        ("", "a =: b =: c", "value"),
        ("", "(h =: k)", "value"),
        ("", "(h =: k) 1", "value"),
        ("", "f g =: 3", "value"),
        ("f =: +\n", "f q 1", "value"),
        ("f =: +\n", "q f 1", "value"),
        ("f =: +\ng =: f @: ]\nf =: 5\n", "g 1", "value"),
        ("f =: +\ng =: f @: ]\nf =: @:\n", "g 1", "value"),
        ("f =: +\ng =: f @: ]\nf =: @: -\n", "g 1", "value"),
        ("f =: +\ng =: f\nf =: 5\n", "g 1", "value"),
        ("h =: k @: -\n", "h 5", "value"),
        ("h =: k @: -\n", "1 2 h 5", "value"),
        ("f =: (a b)\na =: +\n", "f 1", "value"),
        ("cap =: [:\n", "(cap - q) 5", "value"),
        ("f =: -\n", "(f + q) 1", "value"),
    ];
    fail(&rt, alloc, &rows)
}

#[test]
fn errors_of_verbs(rt: HostRuntime) -> Result<(), Fail> {
    let alloc = rt.alloc();
    let rows: [(&str, &str, &str); 19] = [
        ("f =: +\n", "1 2 f 1 2 3", "length"),
        ("f =: +\n", "9223372036854775807 1 f 1 2", "overflow"),
        ("f =: 9223372036854775807 + ]\n", "f 1", "overflow"),
        ("f =: [:\n", "f 1", "domain"),
        // `[:` under a name is applied
        ("cap =: [:\n", "(cap - +) 5", "domain"),
        ("cap =: [:\n", "(q - cap) 5", "domain"),
        ("c =: @:\n", "5 c +", "domain"),
        ("f =: +\n", "f =: f @: 5", "domain"),
        // the right end comes first
        ("f =: +\n", "f 1 2 + 1 2 3", "length"),
        ("", "q 1 2 + 1 2 3", "length"),
        ("", "(1 2 + 1 2 3) q 4", "length"),
        // names that come back to themselves
        ("f =: f\n", "f 1", "stack"),
        ("f =: f\n", "2 f 1 2 3", "stack"),
        ("f =: +\nf =: f\n", "f 1 2 3", "stack"),
        ("f =: g @: ]\ng =: f @: ]\n", "f 1", "stack"),
        ("f =: f @: -\n", "f 1", "stack"),
        ("f =: - @: f\n", "2 f 1", "stack"),
        ("f =: (+ f)\n", "f 1", "stack"),
        ("f =: f @: -\n", "f _9223372036854775808", "overflow"),
    ];
    fail(&rt, alloc, &rows)
}

#[test]
fn errors_of_form(rt: HostRuntime) -> Result<(), Fail> {
    let alloc = rt.alloc();
    let rows: [(&str, &str, &str); 29] = [
        // a name that holds a noun is that noun
        ("n =: 5\n", "n 1", "syntax"),
        ("n =: 5\n", "1 n", "syntax"),
        ("n =: 5\n", "n n", "syntax"),
        ("n =: 5\n", "n m =: 3", "syntax"),
        ("c =: @:\n", "c c", "syntax"),
        ("", "f =:", "syntax"),
        ("", "f =.", "syntax"),
        ("", "=: 3", "syntax"),
        ("", "f =: ()", "syntax"),
        ("", "f =: )", "syntax"),
        ("", "f =: =: 3", "syntax"),
        ("", "a =: 1 2 +", "syntax"),
        ("", "a(", "syntax"),
        // left of a copula a name in parentheses is what it holds
        ("", "(f) =: 3", "syntax"),
        ("f =: +\n", "(f) =: 3", "syntax"),
        ("f =: @:\n", "(f) =: 3", "syntax"),
        ("f =: 5\n", "(f) =: 3", "domain"),
        ("", "5 =: 3", "domain"),
        ("", "5 =. 3", "domain"),
        ("", "5 =: q", "domain"),
        ("", "f 3 =: 4", "domain"),
        ("", "f =: 3 =: 4", "domain"),
        // words that can't be read
        ("f =: 3\n", "f + abc.", "spelling"),
        ("", "f_ =: 3", "spelling"),
        ("", "f__ 1", "spelling"),
        ("", "f__z =: 3", "value"),
        ("", "f__z 1", "value"),
        ("", "'f 1' =: 5", "domain"),
        ("", "f =: 1e19", "overflow"),
    ];
    fail(&rt, alloc, &rows)
}
