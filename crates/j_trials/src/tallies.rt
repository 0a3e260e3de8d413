// Scripts of verbs that search, sort, total and read digits.
use crate::runs::{fail, show};
use std::test::Fail;

#[test]
fn searches(rt: HostRuntime) -> Result<(), Fail> {
    let alloc = rt.alloc();
    let rows: [(&str, &str); 8] = [
        ("/: 3 1 2\n\\: 3 1 2\n", "1 2 0\n0 2 1\n"),
        ("'abc' i. 'cx'\n", "2 3\n"),
        ("1 2 1 i: 1 3\n", "2 3\n"),
        ("3 1 4 e. 1 5\n", "0 1 0\n"),
        ("~. 3 1 3 1 4\n~: 3 1 3\n", "3 1 4\n1 1 0\n"),
        ("/:~ 3 1 2\n\\:~ 'bca'\n", "1 2 3\ncba\n"),
        ("1 2 3 -. 2\n1 2 -: 1 2\n", "1 3\n1\n"),
        // no places: the cell of fills says the shape
        ("$ /:~ 0 3 $ 0\n", "0\n"),
    ];
    show(&rt, alloc, &rows)
}

#[test]
fn insertions(rt: HostRuntime) -> Result<(), Fail> {
    let alloc = rt.alloc();
    let rows: [(&str, &str); 11] = [
        ("+/ 1 2 3\n+/ 5\n+/ i. 0\n", "6\n5\n0\n"),
        ("+/ ''\n*/ 0 2 $ 0\n", "0\n1 1\n"),
        // from the right nothing overflows
        ("+/ 9223372036854775807 1 _1\n", "9223372036854775807\n"),
        ("-/ 1 2 3\n,/ i. 2 2\n", "2\n0 1 2 3\n"),
        ("+/ i. 2 3\n+/\"1 i. 2 3\n", "3 5 7\n3 12\n"),
        ("1 2 */ 1 2 3\n", "1 2 3\n2 4 6\n"),
        ("(2 2$1 2 3 4) (+/ . *) 2 2$5 6 7 8\n", "19 22\n43 50\n"),
        ("f =: =\ng =: +/@:f\nf =: <\n1 1 3 g 2 2 2\n", "2\n"),
        ("10 #. 4 2\n#. 1 0 1\n", "42\n5\n"),
        ("#: 5\n10 10 #: 42\n", "1 0 1\n4 2\n"),
        ("+/ 3 1 4 1 5 = 1\n", "2\n"),
    ];
    show(&rt, alloc, &rows)
}

#[test]
fn insertions_of_shapes(rt: HostRuntime) -> Result<(), Fail> {
    let alloc = rt.alloc();
    let rows: [(&str, &str); 9] = [
        ("-/ 5\n-/ , 5\n-/ 1 1 $ 5\n", "5\n5\n5\n"),
        ("$ +/ 2 3 $ 1\n$ +/ 0 3 $ 1\n$ +/ 3 0 $ 1\n", "3\n3\n0\n"),
        // one item is itself, of any kind
        ("+/ 'a'\n,/ , 5\n", "a\n5\n"),
        ("f =: +\nf/ 1 2 3\n", "6\n"),
        ("(+ * -)/ 5 3\n", "16\n"),
        ("{/ 0 _1 5\n", "5\n"),
        // the left rank is the verb's, the right one infinite
        ("1 2 ,/ 3 4\n", "1 2 3 4\n"),
        ("1 2 +\"1/ i. 2 2\n", "1 3\n3 5\n"),
        ("10 20 -/ 1 2 3\n", " 9  8  7\n19 18 17\n"),
    ];
    show(&rt, alloc, &rows)
}

#[test]
fn refused_insertions(rt: HostRuntime) -> Result<(), Fail> {
    let alloc = rt.alloc();
    let rows: [(&str, &str, &str); 11] = [
        ("", ">./ i. 0", "domain"),
        // an atom has one item
        ("", "{/ 1 0 5", "index"),
        ("", ",/ 0 3 $ 0", "domain"),
        ("f =: +\n", "f/ i. 0", "domain"),
        // the last two come first
        ("", "^/ 10 30 2 _1", "quotient"),
        ("", "(+ -)/ i. 0", "domain"),
        ("", "5/ 1 2", "nonce"),
        ("", "+ . * 3", "nonce"),
        ("", "1 2 3 +/@:= 1 2", "length"),
        ("", "1 2 #. 1 2 3", "length"),
        ("", "+/ _1 9223372036854775807 1", "overflow"),
    ];
    fail(&rt, alloc, &rows)
}
