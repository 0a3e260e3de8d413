ghost use Rattle.std.specs.Prelude.{◌≡◌, ◌<◌, IsSome};

use crate::{
    Failed, MemorySink, MemorySource, RealSink, RealSource, Sink, Source, SureSink, SureSource,
};
use std::alloc::Global;
use std::process::Abort;
use std::test::Fail;
use std::{env, fs, process};

// Writes what is left of the selected text, and stops at the first call that fails.
fn copy<S: Source, K: Sink>(source: &mut S, sink: &mut K) -> Result<(), Failed>
    requires { IsSome (S.selected source.old) }
{
    let mut piece = [0u8; 4];
    'reads: for _ in 0..20 {
        let count = source.read(&mut piece)?;
        let mut rest = &piece[..count];
        'writes: for _ in 0..count {
            if rest.is_empty() {
                break 'writes;
            }
            let written = sink.write(rest)?;
            rest = &rest[written..];
        }
    }
    Ok(())
}

#[derive(Clone, Copy)]
struct Case<'a> {
    about: &'a str,
    name: &'a str,
    most_read: usize,
    most_written: usize,
    source_fails: &'a [u64],
    sink_fails: &'a [u64],
    room: usize,
    selected: Result<(), Failed>,
    copied: Result<(), Failed>,
    written: &'a [u8],
}

fn run_case(rt: &impl Abort, alloc: Global, case: &Case) -> Result<(), Fail> {
    let mut texts = Vec::new(alloc);
    texts.push((String::from_str(alloc, "-")?, b"ab\ncd".to_vec(alloc)?))?;
    assert!(rt; 0 < case.most_read && 0 < case.most_written);
    let mut source = MemorySource::new(texts, case.most_read, case.source_fails.to_vec(alloc)?);
    let room = Vec::with_capacity(alloc, case.room)?;
    let mut sink = MemorySink::new(room, case.most_written, case.sink_fails.to_vec(alloc)?);
    let selected = source.select(String::from_str(alloc, case.name)?);
    assert_eq!(rt; selected, case.selected, "select: {}", case.about);
    let copied = copy(&mut source, &mut sink);
    assert_eq!(rt; copied, case.copied, "copy: {}", case.about);
    assert_eq!(rt; sink.bytes(), case.written, "written: {}", case.about);
    Ok(())
}

#[test]
fn copies_in_memory(rt: HostRuntime) -> Result<(), Fail> {
    let plain = Case {
        about: "large reads and writes",
        name: "-",
        most_read: 100,
        most_written: 100,
        source_fails: &[],
        sink_fails: &[],
        room: 100,
        selected: Ok(()),
        copied: Ok(()),
        written: b"ab\ncd",
    };
    let cases = [
        Case {
            about: "one byte per read and write",
            most_read: 1,
            most_written: 1,
            ..plain
        },
        Case {
            about: "select fails",
            source_fails: &[1],
            selected: Err(Failed),
            ..plain
        },
        Case {
            about: "no such name",
            name: "x",
            selected: Err(Failed),
            written: b"",
            ..plain
        },
        Case {
            about: "the second read fails",
            source_fails: &[3],
            copied: Err(Failed),
            written: b"ab\nc",
            ..plain
        },
        Case {
            about: "the third write fails",
            most_written: 1,
            sink_fails: &[3],
            copied: Err(Failed),
            written: b"ab",
            ..plain
        },
        Case {
            about: "no room",
            room: 2,
            copied: Err(Failed),
            written: b"ab",
            ..plain
        },
        plain,
    ];
    for case in &cases {
        run_case(&rt, rt.alloc(), case)?;
    }
    Ok(())
}

#[test]
fn copies_surely(rt: HostRuntime) -> Result<(), Fail> {
    let alloc = rt.alloc();
    let mut source = SureSource::new(b"ab\ncd".to_vec(alloc)?);
    source.select(String::from_str(alloc, "any")?)?;
    let mut room = Vec::with_capacity(alloc, 10)?;
    room.extend_from_slice(b"> ")?;
    let mut sink = MemorySink::new(room, 4, Vec::new(alloc));
    assert_eq!(rt; copy(&mut source, &mut sink), Ok(()));
    assert_eq!(rt; sink.bytes(), b"> ab\ncd".as_slice());
    assert_eq!(rt; SureSink::new().write(b"ab"), Ok(2));
    Ok(())
}

#[test]
fn reads_a_file(rt: HostRuntime) -> Result<(), Fail> {
    let alloc = rt.alloc();
    let folder = env::temp_dir(&rt)?;
    let name = format!(in alloc; "{}/j_io-{}", folder.display(), process::id(rt.process()))?;
    fs::write(&rt, name.as_str(), "ab\ncd")?;
    let mut source = RealSource::new(rt);
    let selected = source.select(name.clone()?);
    let mut sink = MemorySink::new(Vec::with_capacity(alloc, 10)?, 10, Vec::new(alloc));
    let copied = copy(&mut source, &mut sink);
    fs::remove_file(&rt, name.as_str())?;
    assert_eq!(rt; selected, Ok(()));
    assert_eq!(rt; copied, Ok(()));
    assert_eq!(rt; sink.bytes(), b"ab\ncd".as_slice());

    let mut missing = RealSource::new(rt);
    assert_eq!(rt; missing.select(name), Err(Failed));
    assert_eq!(rt; copy(&mut missing, &mut sink), Err(Failed));
    Ok(())
}

#[test]
fn writes_standard_output(rt: HostRuntime) -> Result<(), Fail> {
    let mut sink = RealSink::new(rt);
    assert_eq!(rt; sink.write(b"j_io\n"), Ok(5));
    Ok(())
}
