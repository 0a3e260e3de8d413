// Scripts of verbs that shape, join and select.
use crate::runs::{fail, show};
use std::test::Fail;

#[test]
fn shapes(rt: HostRuntime) -> Result<(), Fail> {
    let alloc = rt.alloc();
    let rows: [(&str, &str); 22] = [
        // twice in reverse is as it was, what is taken and what is left are all, and a shape stands before the items' axes
        ("y =: i. 2 3\ny -: |. |. y\n", "1\n"),
        ("y =: i. 3 2\ny -: (2 {. y) , 2 }. y\n", "1\n"),
        ("y =: i. 2 3\n($ 4 $ y) -: 4 , }. $ y\n", "1\n"),
        ("i. 2 3\n", "0 1 2\n3 4 5\n"),
        ("i. 2 1 2\n", "0 1\n\n2 3\n"),
        ("i. _3\n", "2 1 0\n"),
        ("i: 2\ni: _2\n", "_2 _1 0 1 2\n2 1 0 _1 _2\n"),
        ("$ i. 4194304\n", "4194304\n"),
        ("i.\"0 ] 1 2 3\n", "0 0 0\n0 1 0\n0 1 2\n"),
        // the cell of fills says the shape
        ("$ 3&{.\"1 i. 0 5\n", "0 3\n"),
        ("2 3 $ 1 2\n", "1 2 1\n2 1 2\n"),
        ("$ , i. 2 3\n", "6\n"),
        ("# 'abc'\n# 5\n", "3\n1\n"),
        ("1 2 , 3\n(i. 2 2) , 9\n", "1 2 3\n0 1\n2 3\n9 9\n"),
        ("1 2 ,: 3 4 5\n", "1 2 0\n3 4 5\n"),
        ("1 2 ,. 3 4\n", "1 3\n2 4\n"),
        ("|. 1 2 3\n1 |. 'abcd'\n", "3 2 1\nbcda\n"),
        ("|: i. 2 3\n", "0 3\n1 4\n2 5\n"),
        ("{. 4 5\n{: 4 5\n}. 4 5 6\n}: 4 5 6\n", "4\n5\n5 6\n4 5\n"),
        ("5 {. 1 2\n_3 {. 'ab'\n2 }. 1 2 3\n", "1 2 0 0 0\n ab\n3\n"),
        ("I. 0 1 0 2\n", "1 3 3\n"),
        ("1 0 2 # 'abc'\n", "acc\n"),
    ];
    show(&rt, alloc, &rows)
}

#[test]
fn selections(rt: HostRuntime) -> Result<(), Fail> {
    let alloc = rt.alloc();
    let rows: [(&str, &str); 5] = [
        ("9 (1}) 5 6 7\n", "5 9 7\n"),
        ("_1 { 1 2\n", "2\n"),
        ("2 0 { 'abc'\n", "ca\n"),
        ("1 { i. 2 2\n", "2 3\n"),
        ("$ a.\n97 98 { a.\n", "256\nab\n"),
    ];
    show(&rt, alloc, &rows)
}

#[test]
fn refusals(rt: HostRuntime) -> Result<(), Fail> {
    let alloc = rt.alloc();
    let rows: [(&str, &str, &str); 12] = [
        ("", "i. 4194305", "limit"),
        ("", "$ (33$1) $ 5", "limit"),
        ("", "4194304 2 $ 0", "limit"),
        ("", "5 { 1 2", "index"),
        ("", "_1 $ 5", "domain"),
        ("", "2 $ 0 $ 0", "length"),
        ("", "1 2 # 1 2 3", "length"),
        ("", "'a' # 5", "domain"),
        ("", "0 0 |: i. 2 2", "domain"),
        ("", "2 |: i. 2 2", "index"),
        ("", "1 2 3 {. i. 2 2", "length"),
        ("", "1 , 'a'", "domain"),
    ];
    fail(&rt, alloc, &rows)
}
