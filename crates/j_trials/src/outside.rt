// Faults of the outside, at several places, and the words of the command.
use j_cli::run_command;
use j_io::{MemorySink, MemorySource};
use std::alloc::Global;
use std::process::Abort;
use std::test::Fail;

// A text that is run over memory, what it writes and its status.
#[derive(Clone, Copy)]
struct Case<'a> {
    about: &'a str,
    words: &'a [&'a str],
    text: &'a [u8],
    most_read: usize,
    most_written: usize,
    source_fails: &'a [u64],
    sink_fails: &'a [u64],
    written: &'a [u8],
    status: u8,
}

const PLAIN: Case = Case {
    about: "",
    words: &["jrun"],
    text: b"",
    most_read: 4096,
    most_written: 4096,
    source_fails: &[],
    sink_fails: &[],
    written: b"",
    status: 0,
};

fn run_case(rt: &impl Abort, alloc: Global, case: &Case) -> Result<(), Fail> {
    let mut words = Vec::new(alloc);
    for word in case.words {
        words.push(String::from_str(alloc, *word)?)?;
    }
    let mut texts = Vec::new(alloc);
    texts.push((String::from_str(alloc, "-")?, case.text.to_vec(alloc)?))?;
    assert!(rt; 0 < case.most_read && 0 < case.most_written);
    let mut source = MemorySource::new(texts, case.most_read, case.source_fails.to_vec(alloc)?);
    let room = Vec::with_capacity(alloc, 1000)?;
    let mut sink = MemorySink::new(room, case.most_written, case.sink_fails.to_vec(alloc)?);
    let status = run_command(alloc, &words, &mut source, &mut sink);
    assert_eq!(rt; status, case.status, "the status of {}", case.about);
    assert_eq!(rt; sink.bytes(), case.written, "the bytes of {}", case.about);
    Ok(())
}

#[test]
fn faults_of_the_outside(rt: HostRuntime) -> Result<(), Fail> {
    let alloc = rt.alloc();
    let two = Case {
        text: b"1 2\n_3 + 4\n",
        written: b"1 2\n1\n",
        ..PLAIN
    };
    let rows: [Case; 10] = [
        Case {
            about: "one byte a read and a write",
            most_read: 1,
            most_written: 1,
            ..two
        },
        Case {
            about: "select fails",
            source_fails: &[1],
            written: b"",
            status: 5,
            ..two
        },
        Case {
            about: "the second read fails",
            most_read: 2,
            source_fails: &[3],
            written: b"",
            status: 5,
            ..two
        },
        Case {
            about: "the read at the end fails",
            source_fails: &[3],
            written: b"",
            status: 5,
            ..two
        },
        Case {
            about: "the first write fails",
            sink_fails: &[1],
            written: b"",
            status: 6,
            ..two
        },
        Case {
            about: "the second line can't be written",
            sink_fails: &[2],
            written: b"1 2\n",
            status: 6,
            ..two
        },
        Case {
            about: "the fourth write fails, of one byte each",
            most_written: 1,
            sink_fails: &[4],
            written: b"1 2",
            status: 6,
            ..two
        },
        Case {
            about: "a report can't be written",
            text: b"1 + + \n",
            sink_fails: &[1],
            written: b"",
            status: 6,
            ..two
        },
        Case {
            about: "a further word",
            words: &["jrun", "script.ijs"],
            written: b"",
            status: 2,
            ..two
        },
        Case {
            about: "no word at all",
            words: &[],
            ..two
        },
    ];
    for row in &rows {
        run_case(&rt, alloc, row)?;
    }
    Ok(())
}
