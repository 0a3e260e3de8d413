// Verbs by their cells, and the verbs that modifiers make.
use crate::runs::{fail, show};
use std::test::Fail;

#[test]
fn verbs_of_modifiers(rt: HostRuntime) -> Result<(), Fail> {
    let alloc = rt.alloc();
    show(
        &rt,
        alloc,
        &[
            ("3 4 +\"0 1 ] 10 20\n", "13 23\n14 24\n"),
            ("1 2 +\"0 _ ] 10 20\n", "11 21\n12 22\n"),
            ("1 2 +\"_ 0 ] 10 20\n", "11 12\n21 22\n"),
            ("]\"0 ''\n", "\n"),
            ("7\"0 ] 1 2\n", "7 7\n"),
            ("7\"_ ] 1 2\n", "7\n"),
            ("3:@+ 1 2\n", "3 3\n"),
            ("3:@:+ 1 2\n", "3\n"),
            ("5 -&+: 3\n", "4\n"),
            ("2 3 -&:- 1\n", "_1 _2\n"),
            ("-&2 ] 5\n", "3\n"),
            ("+~ 3\n2 -~ 5\n", "6\n3\n"),
            ("2&*^:3 ] 1\n", "8\n"),
            ("2 +^:3 ] 1\n", "7\n"),
            ("+:^:2: 5\n", "20\n"),
            ("0&*^:_ ] 5\n", "0\n"),
            ("-&.>: 3\n-&.<: 3\n", "_5\n_1\n"),
            ("2 +&.+: 3\n1 -&.- 5 7\n", "5\n_4 _6\n"),
            ("}.&.|. 1 2 3\n|.&.|: i. 2 3\n", "1 2\n2 1 0\n5 4 3\n"),
        ],
    )
}

#[test]
fn faults_of_modifiers(rt: HostRuntime) -> Result<(), Fail> {
    let alloc = rt.alloc();
    let rows: [(&str, &str, &str); 26] = [
        ("", "1 (2&*) 5", "nonce"),
        ("", "'a' -&% 2", "quotient"),
        ("", "+\"'a'", "domain"),
        ("", "+\"1 2 3 4", "length"),
        ("", "+\"''", "length"),
        ("", "5\"+ 3", "domain"),
        ("", "1 2 +\"0 ] 1 2 3", "length"),
        ("", "2&3", "domain"),
        ("", "2@+", "domain"),
        ("", "2~", "nonce"),
        ("", "+^:'a'", "domain"),
        ("", "+^:1 2", "rank"),
        ("", "+^:1 _", "rank"),
        ("", "+^:_1", "nonce"),
        ("", "+:^:] 'a'", "domain"),
        ("", "+:^:] _1", "nonce"),
        ("", "+&.* 1", "domain"),
        ("", "+&.2", "domain"),
        ("h =: -\n", "+&.h 1", "domain"),
        ("", "'a' +&.% 2", "quotient"),
        ("", ">:&.+: 3", "quotient"),
        ("", "+}", "nonce"),
        ("", "1} 4 5", "nonce"),
        ("", "+;.3", "nonce"),
        ("", "+;.4", "domain"),
        ("", "5;.4", "nonce"),
    ];
    fail(&rt, alloc, &rows)
}
