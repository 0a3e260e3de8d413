// Locales, several names at once, and the verbs that the locale `z` holds from the start.
use crate::runs::{check, fail, show};
use std::test::Fail;

#[test]
fn locales(rt: HostRuntime) -> Result<(), Fail> {
    let alloc = rt.alloc();
    let rows: [(&str, &str); 36] = [
        // a name in the current locale, in `z`, and in both
        ("a_z_ =: 1\na\na_p_\n", "1\n1\n"),
        ("a =: 2\na_z_ =: 1\na\na_z_\na_base_\n", "2\n1\n2\n"),
        ("a =: 2\na_p_ =: 3\na , a_p_ , a_base_\n", "2 3 2\n"),
        (
            "a_p_ =: 3\na_z_ =: 4\ncocurrent 'p'\na\ncocurrent 'q'\na\n",
            "3\n4\n",
        ),
        ("cocurrent 'z'\na =: 1\ncocurrent 'p'\na\n", "1\n"),
        (
            "a_p_ =: 1\na_pp_ =: 2\na_P_ =: 3\na_p_ , a_pp_ , a_P_\n",
            "1 2 3\n",
        ),
        ("a_b_p_ =: 1\ncocurrent 'p'\na_b\n", "1\n"),
        // either copula puts a locative in its locale
        ("a_p_ =. 3\na_p_\na_z_ =. 4\na\n", "3\n4\n"),
        ("o =: <'p'\na__o =: 3\nb__o =. 4\na_p_ , b_p_\n", "3 4\n"),
        ("o =: <'p1'\n(a__o =: 2)\na_p1_ + a__o\n", "2\n4\n"),
        ("o_z_ =: <,'p'\na__o =: 4\na_p_\n", "4\n"),
        // an object is looked up each time
        (
            "a_p_ =: 1\na_q_ =: 2\no =: <'p'\na__o\no =: <'q'\na__o\n",
            "1\n2\n",
        ),
        (
            "f_p_ =: 1 + ]\nf_q_ =: 2 + ]\no =: <'p'\ng =: f__o @: ]\ng 10\no =: <'q'\ng 10\n",
            "11\n12\n",
        ),
        // the locale of a verb that is called
        ("f_p_ =: -\nf_p_ 1 2\n5 f_p_ 3\n", "_1 _2\n2\n"),
        ("f_p_ =: g @: ]\ng_p_ =: -\ng =: +:\nf_p_ 3\n", "_3\n"),
        ("f_z_ =: +\ng_p_ =: f\n2 g_p_ 3\n", "5\n"),
        // 2 * - 3 in q, and then 5 + _6 in p
        (
            "k_p_ =: 5:\nk_q_ =: 7:\nh_q_ =: -\ng_q_ =: 2 * h\nf_p_ =: k + g_q_\nf_p_ 3\n",
            "_1\n",
        ),
        // an adverb isn't called
        ("g_p_ =: -\ng =: ]\nd_p_ =: @: g\n* d_p_ 5\n", "1\n"),
        // the cell of fills fails in p, and what is then assigned is in the locale from before
        ("f_p_ =: %\nc =: 5 [ f_p_ ''\nc_base_\n", "5\n"),
        // a change of the locale lasts until the call by a locative ends
        ("f_p_ =: cocurrent\nf_p_ 'q'\na =: 3\na_base_\n", "3\n"),
        ("cocurrent_p_ 'q'\na =: 3\na_base_\n", "3\n"),
        (
            "k_q_ =: 8:\nk_p_ =: 9:\nf_p_ =: k @: cocurrent\nf_p_ 'q'\na =: 3\na_base_\n",
            "8\n3\n",
        ),
        (
            "k_q_ =: 8:\nf =: k @: cocurrent\nf 'q'\na =: 1\na_q_\n",
            "8\n1\n",
        ),
        ("cocurrent ,'p'\na =: 1\ncocurrent <'base'\na_p_\n", "1\n"),
        ("$ cocurrent 'p1'\n$ echo 7\n", "0 0\n7\n0 0\n"),
        // the right part of a fork comes first, and cells come in order
        ("(echo@:- , echo) 3\n", "3\n_3\n"),
        ("2 (echo@:- , echo@:+) 3\n", "5\n_1\n"),
        ("(3 [ echo) 4\n", "4\n3\n"),
        ("# echo\"0 ] 1 2 3\n# echo\"0 i. 0\n", "1\n2\n3\n3\n0\n0\n"),
        ("echo 2 2 $ 'abcd'\necho ''\necho\n", "ab\ncd\n\nverb\n"),
        // scripts have names of their own for these verbs
        ("echo =: -\necho 4\necho_z_ 4\n", "_4\n4\n"),
        ("echo_p_ =: 7:\necho 4\necho_p_ 4\n", "4\n7\n"),
        ("echo_z_ =: -\necho 4\n", "_4\n"),
        ("echo =: 5\necho + 1\n", "6\n"),
        ("say =: echo\nsay 3\necho =: -\nsay 3\n", "3\n_3\n"),
        (
            "cocurrent =: -\ncocurrent 4\ncocurrent_z_ 'p'\na =: 1\na_base_\n",
            "_4\n1\n",
        ),
    ];
    show(&rt, alloc, &rows)?;
    let text = "1 2 + echo 3 4 5\n";
    let written = "3 4 5\n|length error\n|   1 2 + echo 3 4 5\n";
    check(&rt, alloc, text, written, 3)
}

#[test]
fn several_names(rt: HostRuntime) -> Result<(), Fail> {
    let alloc = rt.alloc();
    let rows: [(&str, &str); 19] = [
        ("'a b' =: 3 4\na - b\n", "_1\n"),
        ("'a\tb' =. 3 4\na - b\n", "_1\n"),
        // an atom goes to all, and a box atom is opened
        ("'a b c' =: 7\na , b , c\n", "7 7 7\n"),
        ("'a b' =: <'xy'\na\nb\n", "xy\nxy\n"),
        ("'a b' =: 1;'xy'\na\nb\n", "1\nxy\n"),
        ("'a b' =: 'xy'\na\nb\n", "x\ny\n"),
        ("'a b' =: 2 2 $ 1 2 3 4\na\nb\n", "1 2\n3 4\n"),
        ("'a b' =: 2 1 $ 1;'x'\n$ a\n", "1\n"),
        ("'a b' =: (<<'xy') , <3\na\nb\n", "+--+\n|xy|\n+--+\n3\n"),
        // one name takes the whole value
        ("'a' =: 1 2\na\n(,'b') =: 3 4\nb\n", "1 2\n3 4\n"),
        ("'  a ' =: <5\na\n'f' =: -\n5 f 3\n", "+-+\n|5|\n+-+\n2\n"),
        ("'a a' =: 1 2\na\n", "2\n"),
        ("(t =: 'a b') =: 1 2\nb\nt\n", "2\na b\n"),
        ("t =: 'a b'\n(t) =: 1 2\na , b\n", "1 2\n"),
        ("('a b' =: 3 4)\n1 + 'a b' =: 3 4\n", "3 4\n4 5\n"),
        ("'a_p_ b' =: 1 2\na_p_ , b\n", "1 2\n"),
        ("o =: <'p'\n'a__o b__o' =: 3\na_p_ , b_p_\n", "3 3\n"),
        // each is put where its check found
        ("o =: <'p'\n'o a__o' =: 'q';4\no\na_p_\n", "q\n4\n"),
        ("cocurrent 'p'\n'a b' =: 3 4\na_p_ , b_p_\n", "3 4\n"),
    ];
    show(&rt, alloc, &rows)
}

#[test]
fn refused_names(rt: HostRuntime) -> Result<(), Fail> {
    let alloc = rt.alloc();
    let rows: [(&str, &str, &str); 45] = [
        ("a =: 2\n", "a_z_", "value"),
        ("a =: 2\n", "a_p_", "value"),
        ("a_p_ =: 2\n", "a", "value"),
        ("cocurrent 'p'\na =: 1\ncocurrent 'base'\n", "a", "value"),
        ("f =: +\ng_p_ =: f\n", "2 g_p_ 3", "value"),
        ("g =: f_p_ @: ]\nf_p_ =: 5\n", "g 1", "value"),
        // an object is a box of a locale's name
        ("", "a__o", "value"),
        ("", "a__o =: 3", "value"),
        ("o =: 'p'\n", "a__o 1", "domain"),
        ("o =: 'p'\n", "a__o =: 1", "domain"),
        ("o =: -\n", "a__o", "domain"),
        ("o =: <'p q'\n", "a__o", "domain"),
        ("o =: <''\n", "a__o", "domain"),
        ("o =: <5\n", "a__o", "domain"),
        ("o =: <<'p'\n", "a__o", "domain"),
        ("o =: ,<'p'\n", "a__o", "domain"),
        ("o =: 'p';'q'\n", "a__o", "domain"),
        ("o =: <1 1 $ 'p'\n", "a__o", "domain"),
        // it is looked up when the name is moved, and left of a copula when the name is assigned
        ("", "a__o 1 2 + 1 2 3", "value"),
        ("", "a__o + 1 2 + 1 2 3", "length"),
        ("", "a__o =: 1 2 + 1 2 3", "length"),
        ("", "cocurrent 3", "domain"),
        ("", "cocurrent ''", "domain"),
        ("", "cocurrent 'a b'", "domain"),
        ("", "cocurrent 'a_'", "domain"),
        ("", "cocurrent ,<'p'", "domain"),
        ("", "1 cocurrent 'p'", "domain"),
        ("", "3 echo 4", "domain"),
        ("", "echo~ 3", "domain"),
        // the names, then the noun, then the count, then the target of each name
        ("", "'a 1' =: 3 4 5", "domain"),
        ("", "'a b_' =: 1 2", "domain"),
        ("", "'a +' =: 1 2", "domain"),
        ("", "' ' =: 1", "domain"),
        ("", "(1 3 $ 'a b') =: 1 2", "domain"),
        ("", "(<'a') =: 1", "domain"),
        ("", "'a b' =: +", "domain"),
        ("", "'a b' =: /", "domain"),
        ("", "'a b' =: q", "domain"),
        ("", "'a b' =: 1 2 3", "length"),
        ("", "'a b c' =: 1 2", "length"),
        ("", "'a b' =: ,5", "length"),
        ("", "'a 1' =: 1 2 + 1 2 3", "length"),
        ("", "'a b__o' =: 1 2 3", "length"),
        ("", "'a b__o' =: 1 2", "value"),
        ("q =: 5\n", "'b__q a__o' =: 1 2", "domain"),
    ];
    fail(&rt, alloc, &rows)
}
