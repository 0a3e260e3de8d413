// Verbs on pieces: prefixes, suffixes, runs of items, oblique lines, items by keys, and cuts.
use crate::runs::{fail, show};
use std::test::Fail;

#[test]
fn pieces(rt: HostRuntime) -> Result<(), Fail> {
    let alloc = rt.alloc();
    let rows: [(&str, &str); 17] = [
        ("+/\\ 1 2 3\n", "1 3 6\n"),
        ("+/\\. 1 2 3 4\n", "10 9 7 4\n"),
        ("2 +/\\ 1 2 3 4\n", "3 5 7\n"),
        // the last run is short
        ("_2 +/\\ 1 2 3 4 5\n", "3 7 5\n"),
        ("1 +/\\. 1 2 3\n", "5 4 3\n"),
        ("<\\ 'abc'\n", "+-+--+---+\n|a|ab|abc|\n+-+--+---+\n"),
        // shorter pieces are filled
        ("]\\ 1 2\n", "1 0\n1 2\n"),
        // no pieces: the verb is applied to no items, and 0 stands for its fault
        ("$ <./\\ i. 0\n", "0\n"),
        // more items than there are make no run
        ("$ 4 +/\\ 1 2 3\n", "0\n"),
        ("$ 0 +/\\ 1 2 3\n", "4\n"),
        ("+//. 2 2 $ 1 2 3 4\n", "1 5 4\n"),
        // the keys come in the order of the nub
        ("#/.~ 'abcab'\n'aba' +//. 1 2 3\n", "2 2 1\n4 2\n"),
        ("1 0 1 ]/. 7 8 9\n", "7 9\n8 0\n"),
        ("<;._1 ' ab c'\n", "+--+-+\n|ab|c|\n+--+-+\n"),
        ("#;._2 'ab,c,'\n#;.1 'abcab'\n", "2 1\n3 2\n"),
        // what comes after the last mark is dropped, an atom marks every item, and an atom is a list of one
        (
            "1 0 1 0 #;.2 'abcd'\n1 #;.1 'abc'\n(,1) #;.1 'a'\n",
            "1 2\n1 1 1\n1\n",
        ),
        ("$ 0 #;.1 'abc'\n", "0\n"),
    ];
    show(&rt, alloc, &rows)
}

#[test]
fn refused_pieces(rt: HostRuntime) -> Result<(), Fail> {
    let alloc = rt.alloc();
    let rows: [(&str, &str, &str); 10] = [
        ("", "+/\\ _1 9223372036854775807 1", "overflow"),
        ("", "'a' +/\\ 1 2", "domain"),
        ("", "0 <./\\ 1 2", "domain"),
        ("", "5\\ 1 2", "nonce"),
        ("", "5/. 'ab'", "nonce"),
        ("", "+;.4", "domain"),
        ("", "'ab' #/. 1 2 3", "length"),
        // the first key has two characters
        ("", "'aba' +//. 'abc'", "domain"),
        // a mark of 2 comes before the length
        ("", "1 0 2 #;.1 'ab'", "domain"),
        ("", "1 0 #;.1 (5)", "length"),
    ];
    fail(&rt, alloc, &rows)
}
