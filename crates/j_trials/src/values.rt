// Names that hold something.
use crate::runs::{check, show};
use std::test::Fail;

#[test]
fn assignments(rt: HostRuntime) -> Result<(), Fail> {
    let alloc = rt.alloc();
    let rows: [(&str, &str); 29] = [
        ("f =: - @: +\n2 f 3", "_5\n"),
        ("abc =: 4\n", ""),
        // what is assigned last isn't shown
        ("a =: 5\n", ""),
        ("a =. 5\n", ""),
        ("a =: 5\na\n", "5\n"),
        ("a =. 5\na\n", "5\n"),
        ("a=:1 2\na+10", "11 12\n"),
        // row 8 comes last, and shows
        ("(a =: 5)\n", "5\n"),
        ("(a =: 5)\na + 1\n", "5\n6\n"),
        ("3 + a =: 5\na\n", "8\n5\n"),
        ("3 + a =. 5\na\n", "8\n5\n"),
        ("b =: 3 + a =: 5\na\nb\n", "5\n8\n"),
        ("a =: b =: 2\n", ""),
        ("a =: b =: 2\na\nb\n", "2\n2\n"),
        ("a =: (b =: 2) + 1\na - b\n", "1\n"),
        ("a =: 1\na =: a + 1\na\n", "2\n"),
        ("a =: 1\na =. 2\na\n", "2\n"),
        ("a =: 1\n(a =: 2) + a\n", "3\n"),
        ("a =: 1\na + (a =: 2)\n", "4\n"),
        ("a =: 1\n10 20 - a + a =: 5\n", "0 10\n"),
        // names of names, with digits and `_` inside
        ("x1_2 =: 3\nx1 =: 4\nX1 =: 5\nx1_2\nx1\nX1\n", "3\n4\n5\n"),
        ("sum =: +\nsums =: -\n1 sum 2\n1 sums 2\n", "3\n_1\n"),
        // a verb, an adverb and a conjunction have names too
        ("f =: +\nf\n", "verb\n"),
        ("c =: @:\nc\n- c + 3\n", "conjunction\n_3\n"),
        // * - 5
        ("d =: @: -\nd\n* d 5\n", "adverb\n_1\n"),
        ("l =: - @:\nl\n* l 5\n", "adverb\n_1\n"),
        ("f =: g =: -\nf 2\n5 g 3\n", "_2\n2\n"),
        ("(f =: -) 2\n5 f 3\n", "_2\n2\n"),
        ("f =: +\na =: 3\n(f) 4\n(a)\n((f)) a\n", "4\n3\n3\n"),
    ];
    show(&rt, alloc, &rows)
}

#[test]
fn verbs_of_names(rt: HostRuntime) -> Result<(), Fail> {
    let alloc = rt.alloc();
    let rows: [(&str, &str); 22] = [
        // a noun is taken when the verb is formed, a verb when it is applied
        ("a =: 5\nv =: a + ]\na =: 6\nv 1\n", "6\n"),
        ("f =: +\ng =: 10 f ]\nf =: -\ng 3\n", "7\n"),
        ("k =: 2\nf =: k * ]\nk =: -\nf 4\n", "8\n"),
        ("h =: - @: k\nk =: +\n2 h 3\n", "_5\n"),
        ("h =: k @: -\nk =: *\nh 5\n", "_1\n"),
        ("f =: (a b c)\na =: +\nb =: -\nc =: *\n5 f 3\n", "_7\n"),
        ("f =: (a b)\na =: +\nb =: *\nf 3\n", "4\n"),
        ("f =: +\ng =: f\nf =: -\n5 g 3\n", "2\n"),
        ("f =: +\ng =: f\nh =: g\ng =: *\n5 h 3\n", "15\n"),
        // an adverb is taken when it is used
        ("d =: @: -\nv =: * d\nd =: @: +\nv 5\n", "_1\n"),
        ("c =: @:\nv =: * c -\nc =: 4\nv 5\n", "_1\n"),
        // a name keeps the ranks of the verb that it holds when the verb is formed: each atom, or the whole list
        ("f =: +\ng =: f @: ]\nf =: 5:\ng 1 2 3\n", "5 5 5\n"),
        ("f =: ]\ng =: f @: ]\nf =: 5:\ng 1 2 3\n", "5\n"),
        ("f =: +\ng =: f\nf =: 5:\ng 1 2 3\n", "5 5 5\n"),
        ("f =: +\ng =: f @: ]\nf =: ]\ng 1 2 3\n", "1 2 3\n"),
        ("g =: f @: ]\nf =: +\nf =: 5:\ng 1 2 3\n", "5\n"),
        ("f =: 5:\ng =: f @: ]\nf =: -\ng 1 2 3\n", "_1 _2 _3\n"),
        (
            "f =: +\n1 2 3 f 10\n10 f 1 2 3\n1 2 f 3 4\n",
            "11 12 13\n11 12 13\n4 6\n",
        ),
        // in an own sentence it has those of today
        ("f =: +\nf =: 5:\nf 1 2 3\n1 f 1 2\n", "5\n5\n"),
        ("f =: -\nf f f 2\n5 f f 3\n", "_2\n8\n"),
        // names without a value in trains that aren't applied
        ("1 2 + 1 2 3 + f\n(f g)\nf +\n", "verb\nverb\nverb\n"),
        (
            "f @: +\n@: f\nf @:\n5 f +\n",
            "verb\nadverb\nadverb\nverb\n",
        ),
    ];
    show(&rt, alloc, &rows)
}

#[test]
fn names_between_errors(rt: HostRuntime) -> Result<(), Fail> {
    let alloc = rt.alloc();
    let rows: [(&str, &str, u8); 4] = [
        ("2b129 _3e2\nzz\n", "17 _300\n|value error\n|   zz\n", 3),
        ("a =: 5\na\nb\na\n", "5\n|value error\n|   b\n", 3),
        ("f =: f\nf 1\n", "|stack error\n|   f 1\n", 3),
        (
            "f =: -\n f  3 NB. f\n  f q 1\t\n",
            "_3\n|value error\n|   f q 1\n",
            3,
        ),
    ];
    for (text, written, status) in &rows {
        check(&rt, alloc, *text, *written, *status)?;
    }
    Ok(())
}
