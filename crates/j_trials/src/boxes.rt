// Scripts of boxes: made, opened, joined and linked, the words of texts, and nouns as characters.
use crate::runs::{check, fail, show};
use std::test::Fail;

#[test]
fn boxes(rt: HostRuntime) -> Result<(), Fail> {
    let alloc = rt.alloc();
    let rows: [(&str, &str); 10] = [
        ("<'x'\n", "+-+\n|x|\n+-+\n"),
        ("<5\n", "+-+\n|5|\n+-+\n"),
        ("<<'ab'\n", "+----+\n|+--+|\n||ab||\n|+--+|\n+----+\n"),
        // an atom has an empty shape
        ("$ <1 2 3\n$ a:\n", "\n\n"),
        ("a:\n", "++\n||\n++\n"),
        ("(<i. 2 2) , <'x'\n", "+---+-+\n|0 1|x|\n|2 3| |\n+---+-+\n"),
        ("> <5 6\n> 5 6\n> 'ab'\n", "5 6\n5 6\nab\n"),
        // unequal contents are padded
        ("> 1 2;3\n> 'ab';'c'\n", "1 2\n3 0\nab\nc \n"),
        ("$ > 0$a:\n$ > 1;i. 2 3\n", "0 0\n2 2 3\n"),
        // 64 levels, and a match of them
        ("((<^:64) 5) -: (<^:64) 5\n", "1\n"),
    ];
    show(&rt, alloc, &rows)
}

#[test]
fn joined(rt: HostRuntime) -> Result<(), Fail> {
    let alloc = rt.alloc();
    let rows: [(&str, &str); 10] = [
        ("1;'abc'\n", "+-+---+\n|1|abc|\n+-+---+\n"),
        // what is boxed is joined as it is
        ("1;<'abc'\n", "+-+---+\n|1|abc|\n+-+---+\n"),
        ("(<1);2\n", "+---+-+\n|+-+|2|\n||1|| |\n|+-+| |\n+---+-+\n"),
        ("$ 1;0$a:\n$ 1;''\n", "1\n2\n"),
        ("; 1 2;3;4 5\n; 'ab';'c'\n", "1 2 3 4 5\nabc\n"),
        // one atom is a list, and no boxes are an empty list
        ("$ ; <5\n$ ; 0$a:\n", "1\n0\n"),
        ("; i. 2 2\n$ ; 'a'\n", "0 1 2 3\n1\n"),
        // joined from the right
        ("; 1 2;3;1 3$4 5 6\n", "1 2 0\n3 3 3\n4 5 6\n"),
        ("$ ; <i. 2 3\n", "2 3\n"),
        // an atom on the right is joined as `,` joins it
        ("; (i. 2 3);5\n", "0 1 2\n3 4 5\n5 5 5\n"),
    ];
    show(&rt, alloc, &rows)
}

#[test]
fn words(rt: HostRuntime) -> Result<(), Fail> {
    let alloc = rt.alloc();
    let rows: [(&str, &str); 10] = [
        (";: 'a bc'\n", "+-+--+\n|a|bc|\n+-+--+\n"),
        // numbers side by side are one word
        (";: '1 2 +  x1'\n", "+---+-+--+\n|1 2|+|x1|\n+---+-+--+\n"),
        (
            ";: '''a b'' , c'\n",
            "+-----+-+-+\n|'a b'|,|c|\n+-----+-+-+\n",
        ),
        // the forms alone, without the vocabulary
        (
            ";: '%: p.. 3x a__'\n",
            "+--+---+--+---+\n|%:|p..|3x|a__|\n+--+---+--+---+\n",
        ),
        ("# ;: 'a NB. b c'\n# ;: 'NB. b c'\n", "1\n0\n"),
        // a word of one byte is a list too
        ("$ > {. ;: 'a'\n$ ;: 'a'\n", "1\n1\n"),
        ("$ ;: ''\n$ ;: i. 0\n$ ;: 0$a:\n", "0\n0\n0\n"),
        // each list is a cell, and a row with fewer words is filled
        ("$ ;: 2 3 $ 'a bcde'\n", "2 2\n"),
        ("$ ;: 3 0 $ 0\n", "3 0\n"),
        ("; ;: 'ab , c'\n", "ab,c\n"),
    ];
    show(&rt, alloc, &rows)?;
    check(
        &rt,
        alloc,
        ";: 'it''s'\n9\n",
        "|open quote\n|   ;: 'it''s'\n",
        3,
    )
}

#[test]
fn choices(rt: HostRuntime) -> Result<(), Fail> {
    let alloc = rt.alloc();
    let rows: [(&str, &str); 6] = [
        (
            "{ 1 2;3 4\n",
            "+---+---+\n|1 3|1 4|\n+---+---+\n|2 3|2 4|\n+---+---+\n",
        ),
        // what isn't boxed is its own content
        ("{ 'ab'\n", "+--+\n|ab|\n+--+\n"),
        // the contents' shapes joined
        ("$ { (i. 2 3);4 5\n$ { 5\n", "2 3 2\n\n"),
        // no content leaves one choice, a content without atoms none
        ("$ > { 0$a:\n$ > { ''\n", "0\n0\n"),
        ("$ { 1;i. 0\n$ { 'a';i. 0\n", "0\n0\n"),
        ("$ {\"1 ] 2 3$5\n", "2\n"),
    ];
    show(&rt, alloc, &rows)
}

#[test]
fn boxed_indices(rt: HostRuntime) -> Result<(), Fail> {
    let alloc = rt.alloc();
    let rows: [(&str, &str); 6] = [
        // a list of numbers: one of each leading axis
        ("(<1 2) { i. 2 3\n(<1) { i. 2 3\n", "5\n3 4 5\n"),
        ("(1 1;0 _1) { i. 2 3\n", "4 2\n"),
        // a list of boxes: a noun of indices for each leading axis
        ("(<0 1;2) { i. 2 3\n", "2 5\n"),
        ("$ (<(2 2$0);1 0) { i. 2 3\n", "2 2 2\n"),
        ("(<<1 2) { 5 6 7\n", "6 7\n"),
        // no index leaves the whole
        ("(<'') { i. 2 3\n", "0 1 2\n3 4 5\n"),
    ];
    show(&rt, alloc, &rows)?;
    let rows: [(&str, &str, &str); 7] = [
        ("", "(<0 0 0) { i. 2 3", "length"),
        ("", "(<0) { 5", "length"),
        ("", "(<5 0) { i. 2 3", "index"),
        ("", "(<'a') { 1 2", "domain"),
        ("", "(<<<1) { 1 2", "nonce"),
        ("", "{ 1;'a'", "domain"),
        ("", "{ (3000$1);3000$1", "limit"),
    ];
    fail(&rt, alloc, &rows)
}

#[test]
fn formats(rt: HostRuntime) -> Result<(), Fail> {
    let alloc = rt.alloc();
    let rows: [(&str, &str); 7] = [
        ("\": 12\n$ \": 12\n$ \": _3\n", "12\n2\n2\n"),
        ("'n is ' , \": 5\n", "n is 5\n"),
        ("\": i. 2 2\n$ \": i. 2 2\n", "0 1\n2 3\n2 3\n"),
        ("$ \": 2 1 2 $ 1 2 30 4\n", "2 1 4\n"),
        ("\": 'ab'\n$ \": 'a'\n", "ab\n\n"),
        ("$ \": i. 0\n$ \": i. 0 3\n", "0\n0 0\n"),
        // one column of numbers
        ("|. \": 1 20\n", "02 1\n"),
    ];
    show(&rt, alloc, &rows)
}

#[test]
fn refusals(rt: HostRuntime) -> Result<(), Fail> {
    let alloc = rt.alloc();
    let rows: [(&str, &str, &str); 14] = [
        ("", "\": <1", "nonce"),
        ("", "\": 0$a:", "nonce"),
        ("", "2 \": 1", "nonce"),
        ("", "'a' ;: 'b'", "nonce"),
        ("", ";: 1 2", "domain"),
        ("", ";: <'a'", "domain"),
        ("", ";: 'a' , 1 { a.", "spelling"),
        ("", ";: 'a' , 10 { a.", "spelling"),
        ("", "; 'a';1", "domain"),
        // the pair on the right comes first
        ("", "; (1 2000000$0);(2 1$0);'a'", "domain"),
        ("", "> 1;'a'", "domain"),
        ("", "(<1) + 2", "domain"),
        ("", "(<^:65) 5", "limit"),
        ("b =: (<^:64) 5\n", "b;1", "limit"),
    ];
    fail(&rt, alloc, &rows)
}
