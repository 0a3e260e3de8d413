// Lines have as many words in their sentences.
ghost use Rattle.std.specs.Prelude.{◌≤◌, length};

use j_explicit::prepare;
use j_noun::Pool;
use std::alloc::Global;
use std::test::Fail;

// Reads a line that has no fault.
fn count(alloc: Global, pool: &mut Pool, line: &[u8]) -> Result<usize, Fail>
    requires { length line.now ≤ 16777216 }
{
    let sentence = prepare(alloc, pool, line).ok().ok_or("no sentence")?;
    Ok(sentence.count())
}

#[test]
fn reads_lines(rt: HostRuntime) -> Result<(), Fail> {
    let alloc = rt.alloc();
    let mut pool = Pool::new(alloc);
    assert_eq!(rt; count(alloc, &mut pool, b"5 (+ - *) 3 4")?, 7);
    assert_eq!(rt; count(alloc, &mut pool, b"_3: =. @:")?, 3);
    assert_eq!(rt; count(alloc, &mut pool, b"NB. nothing")?, 0);
    assert_eq!(rt; count(alloc, &mut pool, b"'it''s' - 'a' - ''")?, 5);
    assert_eq!(rt;
        count(
            alloc,
            &mut pool,
            b"++++++++++++++++++++++++++++++++++++++++"
        )?,
        40
    );
    assert_eq!(rt; count(alloc, &mut pool, b"sum =: + 1 2")?, 4);
    assert_eq!(rt; count(alloc, &mut pool, b"f_z_ a__o 1")?, 3);
    Ok(())
}
