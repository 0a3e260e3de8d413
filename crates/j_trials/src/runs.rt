// Runs of texts over memory.
use crate::run_in_memory;
use j_io::MemorySink;
use std::alloc::Global;
use std::process::Abort;
use std::test::Fail;

// Runs a text: what it writes, at most that many bytes, and its status.
pub(crate) fn run(alloc: Global, text: Vec<u8>, most: usize) -> Result<(MemorySink, u8), Fail> {
    let words = Vec::new(alloc);
    let mut texts = Vec::new(alloc);
    texts.push((String::from_str(alloc, "-")?, text))?;
    let mut sink = MemorySink::new(Vec::with_capacity(alloc, most)?, 4096, Vec::new(alloc));
    let status = run_in_memory(alloc, &words, texts, &mut sink);
    Ok((sink, status))
}

// A text writes this, with that status.
pub(crate) fn check(
    rt: &impl Abort,
    alloc: Global,
    text: &str,
    written: &str,
    status: u8,
) -> Result<(), Fail> {
    let (sink, answered) = run(alloc, text.as_bytes().to_vec(alloc)?, 1000)?;
    assert_eq!(rt; answered, status, "the status of {text}");
    assert_eq!(rt; sink.bytes(), written.as_bytes(), "the bytes of {text}");
    Ok(())
}

// Each text shows what stands beside it.
pub(crate) fn show(rt: &impl Abort, alloc: Global, rows: &[(&str, &str)]) -> Result<(), Fail> {
    for (text, written) in rows {
        check(rt, alloc, *text, *written, 0)?;
    }
    Ok(())
}

// Each text has, after the lines before the last, the error beside it at its last line.
pub(crate) fn fail(
    rt: &impl Abort,
    alloc: Global,
    rows: &[(&str, &str, &str)],
) -> Result<(), Fail> {
    for (before, line, fault) in rows {
        let text = format!(in alloc; "{before}{line}\n9\n")?;
        let written = format!(in alloc; "|{fault} error\n|   {line}\n")?;
        check(rt, alloc, &text, &written, 3)?;
    }
    Ok(())
}

// Each sentence shows the row beside it.
pub(crate) fn show_rows(rt: &impl Abort, alloc: Global, rows: &[(&str, &str)]) -> Result<(), Fail> {
    for (sentence, row) in rows {
        let written = format!(in alloc; "{row}\n")?;
        check(rt, alloc, *sentence, &written, 0)?;
    }
    Ok(())
}

// Each sentence has the error beside it.
pub(crate) fn fail_rows(rt: &impl Abort, alloc: Global, rows: &[(&str, &str)]) -> Result<(), Fail> {
    for (sentence, fault) in rows {
        let written = format!(in alloc; "|{fault} error\n|   {sentence}\n")?;
        check(rt, alloc, *sentence, &written, 3)?;
    }
    Ok(())
}

// So many times a text.
pub(crate) fn repeated(alloc: Global, text: &[u8], count: usize) -> Result<Vec<u8>, Fail> {
    let mut all = Vec::new(alloc);
    for _ in 0..count {
        all.extend_from_slice(text)?;
    }
    Ok(all)
}
