// Lines with their spans and classes, worked out by hand.
use j_numbers::{Digits, Literal, NumberFault, RankPart, print, read_list, read_noun};
use j_pool::Pool;
use j_words::{Class, Word, WordFault, spans, words};
use std::alloc::{AllocError, Global};
use std::process::Abort;
use std::test::Fail;

fn letter(class: Class) -> u8 {
    match class {
        Class::Number => b'N',
        Class::Text => b'T',
        Class::Name => b'M',
        Class::Verb => b'V',
        Class::Adverb => b'A',
        Class::Conjunction => b'J',
        Class::NounWord => b'U',
        Class::Copula => b'C',
        Class::Open => b'O',
        Class::Close => b'L',
        Class::Control => b'K',
    }
}

fn append_number(n: u32, text: &mut Vec<u8>) -> Result<(), AllocError> {
    let mut digits = Digits::new();
    print(i64::from(n), &mut digits);
    text.extend_from_slice(digits.text())
}

// The words as the rows above write them.
fn rendered(alloc: Global, answer: Result<Vec<Word>, WordFault>) -> Result<Vec<u8>, AllocError> {
    let mut text = Vec::new(alloc);
    match answer {
        Ok(words) => {
            for word in &words {
                text.push(letter(word.class))?;
                append_number(word.from, &mut text)?;
                text.push(b'-')?;
                append_number(word.to, &mut text)?;
                text.push(b' ')?;
            }
        }
        Err(WordFault::OpenQuote) => text.extend_from_slice(b"open quote")?,
        Err(WordFault::Spelling) => text.extend_from_slice(b"spelling")?,
        Err(WordFault::Nonce) => text.extend_from_slice(b"nonce")?,
        Err(WordFault::NoMemory) => text.extend_from_slice(b"no memory")?,
    }
    Ok(text)
}

// A line has these spans by the forms alone, and these words. A span is the letter of its class and where it begins and ends.
fn check(rt: &impl Abort, alloc: Global, row: (&[u8], &[u8], &[u8])) -> Result<(), Fail> {
    let (line, by_form, by_word) = row;
    assert!(rt; line.len() <= 16_777_216);
    let mut pool = Pool::new(alloc);
    let found = rendered(alloc, spans(&mut pool, line))?;
    assert_eq!(rt; found.as_slice(), by_form, "the spans of a line");
    let found = rendered(alloc, words(&mut pool, line))?;
    assert_eq!(rt; found.as_slice(), by_word, "the words of a line");
    Ok(())
}

#[test]
fn numbers_and_verbs(rt: HostRuntime) -> Result<(), Fail> {
    let alloc = rt.alloc();
    let rows: [(&[u8], &[u8], &[u8]); 23] = [
        (b"", b"", b""),
        (b" \t ", b"", b""),
        (b"1", b"N0-1 ", b"N0-1 "),
        (b"1 2 + 3", b"N0-3 V4-5 N6-7 ", b"N0-3 V4-5 N6-7 "),
        (b" 1 2  _3\t4 ", b"N1-10 ", b"N1-10 "),
        (b"1 _ 2", b"N0-5 ", b"N0-5 "),
        (b"_", b"N0-1 ", b"N0-1 "),
        (b"3x 1.5 1e3 16b1f", b"N0-16 ", b"N0-16 "),
        (b"-5", b"V0-1 N1-2 ", b"V0-1 N1-2 "),
        (b"+-*", b"V0-1 V1-2 V2-3 ", b"V0-1 V1-2 V2-3 "),
        (b"(1)", b"O0-1 N1-2 L2-3 ", b"O0-1 N1-2 L2-3 "),
        (b"[:[]", b"V0-2 V2-3 V3-4 ", b"V0-2 V2-3 V3-4 "),
        (b"3:", b"V0-2 ", b"V0-2 "),
        (b"_9: 0: 9:", b"V0-3 V4-6 V7-9 ", b"V0-3 V4-6 V7-9 "),
        (b"1 2: 3", b"N0-1 V2-4 N5-6 ", b"N0-1 V2-4 N5-6 "),
        (b"1:2", b"V0-2 N2-3 ", b"V0-2 N2-3 "),
        (b"_0:", b"M0-3 ", b"spelling"),
        (b"_10:", b"M0-4 ", b"spelling"),
        (b"12:", b"M0-3 ", b"spelling"),
        (b"__1:", b"M0-4 ", b"spelling"),
        (b"1::", b"M0-3 ", b"spelling"),
        (b"1.:", b"M0-3 ", b"spelling"),
        (b"_:", b"M0-2 ", b"nonce"),
    ];
    for row in &rows {
        check(&rt, alloc, *row)?;
    }
    Ok(())
}

#[test]
fn names(rt: HostRuntime) -> Result<(), Fail> {
    let alloc = rt.alloc();
    let rows: [(&[u8], &[u8], &[u8]); 17] = [
        (b"x1_2 =. 3", b"M0-4 C5-7 N8-9 ", b"M0-4 C5-7 N8-9 "),
        (b"a=:1", b"M0-1 C1-3 N3-4 ", b"M0-1 C1-3 N3-4 "),
        (b"=:=.", b"C0-2 C2-4 ", b"C0-2 C2-4 "),
        (
            b"f =: - @: +",
            b"M0-1 C2-4 V5-6 J7-9 V10-11 ",
            b"M0-1 C2-4 V5-6 J7-9 V10-11 ",
        ),
        (b"x y", b"M0-1 M2-3 ", b"M0-1 M2-3 "),
        (b"a_b", b"M0-3 ", b"M0-3 "),
        (b"a_", b"M0-2 ", b"spelling"),
        (b"a__", b"M0-3 ", b"spelling"),
        (b"a_b_", b"M0-4 ", b"M0-4 "),
        (b"a_1_", b"M0-4 ", b"M0-4 "),
        (b"a_b_c_", b"M0-6 ", b"M0-6 "),
        (b"a__b", b"M0-4 ", b"M0-4 "),
        (b"a_b__c_d", b"M0-8 ", b"M0-8 "),
        (b"a__b_c_", b"M0-7 ", b"spelling"),
        (b"a__b__c", b"M0-7 ", b"spelling"),
        (b"a___b", b"M0-5 ", b"spelling"),
        (b"a__1", b"M0-4 ", b"spelling"),
    ];
    for row in &rows {
        check(&rt, alloc, *row)?;
    }
    Ok(())
}

#[test]
fn comments_and_texts(rt: HostRuntime) -> Result<(), Fail> {
    let alloc = rt.alloc();
    let rows: [(&[u8], &[u8], &[u8]); 21] = [
        (b"NB. x 'y", b"", b""),
        (b"NB.x", b"", b""),
        (b"NB.", b"", b""),
        (b"1 NB. 'abc", b"N0-1 ", b"N0-1 "),
        (b"+NB. 2", b"V0-1 ", b"V0-1 "),
        (b"NB.:", b"M0-4 ", b"spelling"),
        (b"NB..", b"M0-4 ", b"spelling"),
        (b"NB 1", b"M0-2 N3-4 ", b"M0-2 N3-4 "),
        (b"aNB. 1", b"M0-4 N5-6 ", b"spelling"),
        (b"'it''s'", b"T0-7 ", b"T0-7 "),
        (b"''", b"T0-2 ", b"T0-2 "),
        (b"''''", b"T0-4 ", b"T0-4 "),
        (b"'abc'''", b"T0-7 ", b"T0-7 "),
        (b"'a''b' 1", b"T0-6 N7-8 ", b"T0-6 N7-8 "),
        (b"'NB. 1'", b"T0-7 ", b"T0-7 "),
        (b"'\x80'", b"T0-3 ", b"T0-3 "),
        (b"1 2'x'", b"N0-3 T3-6 ", b"N0-3 T3-6 "),
        (b"'abc", b"open quote", b"open quote"),
        (b"'", b"open quote", b"open quote"),
        (b"'''", b"open quote", b"open quote"),
        (b"1 'abc''", b"open quote", b"open quote"),
    ];
    for row in &rows {
        check(&rt, alloc, *row)?;
    }
    Ok(())
}

#[test]
fn vocabulary(rt: HostRuntime) -> Result<(), Fail> {
    let alloc = rt.alloc();
    let rows: [(&[u8], &[u8], &[u8]); 23] = [
        (b"abc.", b"M0-4 ", b"spelling"),
        (b"a.b", b"U0-2 M2-3 ", b"U0-2 M2-3 "),
        (b"a: a.", b"U0-2 U3-5 ", b"U0-2 U3-5 "),
        (b"i.1", b"V0-2 N2-3 ", b"V0-2 N2-3 "),
        (b"i: I.", b"V0-2 V3-5 ", b"V0-2 V3-5 "),
        (b"e. ~. ~:", b"V0-2 V3-5 V6-8 ", b"V0-2 V3-5 V6-8 "),
        (b"+~", b"V0-1 A1-2 ", b"V0-1 A1-2 "),
        (b"+/1 2", b"V0-1 A1-2 N2-5 ", b"V0-1 A1-2 N2-5 "),
        (b"/. /:", b"A0-2 V3-5 ", b"A0-2 V3-5 "),
        (b"\\ \\. \\:", b"A0-1 A2-4 V5-7 ", b"A0-1 A2-4 V5-7 "),
        (b"} }. }:", b"A0-1 V2-4 V5-7 ", b"A0-1 V2-4 V5-7 "),
        (b"{ {. {:", b"V0-1 V2-4 V5-7 ", b"V0-1 V2-4 V5-7 "),
        (b"{::", b"M0-3 ", b"nonce"),
        (b"{:.", b"M0-3 ", b"spelling"),
        (b"\" \": \".", b"J0-1 V2-4 M5-7 ", b"nonce"),
        (b"&.", b"J0-2 ", b"J0-2 "),
        (
            b"\" @ & &: ^:",
            b"J0-1 J2-3 J4-5 J6-8 J9-11 ",
            b"J0-1 J2-3 J4-5 J6-8 J9-11 ",
        ),
        (b"@. &.: ` `:", b"M0-2 M3-6 M7-8 M9-11 ", b"nonce"),
        (b"; ;: ;.", b"V0-1 V2-4 J5-7 ", b"V0-1 V2-4 J5-7 "),
        (b", ,. ,:", b"V0-1 V2-4 V5-7 ", b"V0-1 V2-4 V5-7 "),
        (
            b"$ # #. #:",
            b"V0-1 V2-3 V4-6 V7-9 ",
            b"V0-1 V2-3 V4-6 V7-9 ",
        ),
        (b"| |. |:", b"V0-1 V2-4 V5-7 ", b"V0-1 V2-4 V5-7 "),
        (
            b"< <. <: > >. >:",
            b"V0-1 V2-4 V5-7 V8-9 V10-12 V13-15 ",
            b"V0-1 V2-4 V5-7 V8-9 V10-12 V13-15 ",
        ),
    ];
    for row in &rows {
        check(&rt, alloc, *row)?;
    }
    Ok(())
}

#[test]
fn left_out_and_faulty(rt: HostRuntime) -> Result<(), Fail> {
    let alloc = rt.alloc();
    let rows: [(&[u8], &[u8], &[u8]); 21] = [
        (
            b"% ^ = +. +: *. *: -. -:",
            b"V0-1 V2-3 V4-5 V6-8 V9-11 V12-14 V15-17 V18-20 V21-23 ",
            b"V0-1 V2-3 V4-5 V6-8 V9-11 V12-14 V15-17 V18-20 V21-23 ",
        ),
        (b"+.:", b"M0-3 ", b"spelling"),
        (b": ::", b"J0-1 J2-4 ", b"nonce"),
        (b".", b"J0-1 ", b"J0-1 "),
        (b".. .:", b"M0-2 M3-5 ", b"nonce"),
        (b":. 1", b"M0-2 N3-4 ", b"spelling"),
        (b"%: 4", b"M0-2 N3-4 ", b"nonce"),
        (b"!: p.. t.", b"M0-2 M3-6 M7-9 ", b"nonce"),
        (
            b"if. 1 do. 2 end.",
            b"K0-3 N4-5 K6-9 N10-11 K12-16 ",
            b"nonce",
        ),
        (b"for_a. return.", b"K0-6 K7-14 ", b"nonce"),
        (b"for_a_.", b"M0-7 ", b"spelling"),
        (b"for_.", b"M0-5 ", b"spelling"),
        (b"for_1.", b"M0-6 ", b"spelling"),
        (b"throw.", b"M0-6 ", b"spelling"),
        (b"\x00", b"spelling", b"spelling"),
        (b"1\r", b"spelling", b"spelling"),
        (b"1 \x7f", b"spelling", b"spelling"),
        (b"\x80 'abc", b"spelling", b"spelling"),
        (b"'abc \x80", b"open quote", b"open quote"),
        (b"%: 'abc", b"open quote", b"nonce"),
        (b"abc. %: \xff", b"spelling", b"spelling"),
    ];
    for row in &rows {
        check(&rt, alloc, *row)?;
    }
    Ok(())
}

#[test]
fn number_words(rt: HostRuntime) -> Result<(), Fail> {
    let alloc = rt.alloc();
    let mut pool = Pool::new(alloc);
    let literal = read_list(&mut pool, b"1 _ 2e1").ok().ok_or("ranks")?;
    let expected = [
        RankPart::Number(1),
        RankPart::Infinite,
        RankPart::Number(20),
    ];
    match &literal {
        Literal::Ranks(ranks) => assert_eq!(rt; ranks.parts(), expected.as_slice()),
        Literal::Noun(_) => return Err(Fail::from("a noun")),
    }
    let literal = read_list(&mut pool, b"16b1f 7").ok().ok_or("a noun")?;
    assert!(rt; matches!(&literal, Literal::Noun(noun) if noun.tally() == 2));
    assert!(rt; matches!(read_list(&mut pool, b"_ 1e19"), Err(NumberFault::Overflow)));
    assert!(rt; matches!(read_noun(&mut pool, b"_ 1e19"), Err(NumberFault::IllFormed)));
    assert_eq!(rt;
        read_noun(&mut pool, b"16b1f").ok().ok_or("a noun")?.tally(),
        1
    );
    Ok(())
}
