// The report of an error.
ghost use Rattle.std.specs.Prelude.{◌≡◌, ◌≤◌, ◌++◌, IfOk, IfErr, length};
ghost use Rattle.j_definitions.specs.Bytes.{is_blank};
ghost use Rattle.j_words.specs.Lines.{words};
ghost use Rattle.j_cli.specs.Answer.{limit};
ghost use Rattle.j_cli.specs.Report.{report, last_end, worded, without_leading_blanks, without_trailing_blanks};

use crate::halt::RunHalt;
use j_noun::{Fault, Pool};
use j_words::{Word, WordFault, words};

// Room for the name of an error and what stands round it.
const REPORT_ROOM: usize = 32;

fn is_blank(byte: u8) -> bool
    ensures { result ≡ is_blank byte }
{
    byte == b' ' || byte == b'\t'
}

fn without_leading_blanks(line: &[u8]) -> &[u8]
    ensures { result.now ≡ without_leading_blanks line.now }
{
    let mut text = line;
    'blanks: while let [first, rest @ ..] = text {
        if !is_blank(*first) {
            break;
        }
        text = rest;
    }
    text
}

fn without_trailing_blanks(line: &[u8]) -> &[u8]
    ensures { result.now ≡ without_trailing_blanks line.now }
{
    let mut text = line;
    'blanks: while let [rest @ .., last] = text {
        if !is_blank(*last) {
            break;
        }
        text = rest;
    }
    text
}

// Where the last word ends.
#[tactic(auto, using(crate::proofs::Words::last_end_none, crate::proofs::Words::last_end_last))]
fn last_end(words: &[Word]) -> usize
    ensures { result ≡ last_end words.now }
{
    if words.is_empty() {
        0
    } else {
        words[words.len() - 1].to as usize
    }
}

// Up to the end of the last word. Where words can't be formed, up to the last byte that isn't a blank.
fn worded<'a>(pool: &mut Pool, line: &'a [u8]) -> Result<&'a [u8], RunHalt>
    requires { length line.now ≤ limit }
    ensures ok { IfOk result (λ text. text.now ≡ worded line.now (words line.now)) }
    ensures err { IfErr result (λ halt. halt ≡ RunHalt.NoMemory) }
{
    match words(pool, line) {
        Ok(words) => Ok(&line[..last_end(&words)]),
        Err(WordFault::NoMemory) => Err(RunHalt::NoMemory),
        Err(_) => Ok(without_trailing_blanks(line)),
    }
}

// What was shown, and then the two lines of a report.
pub fn reported(
    pool: &mut Pool,
    shown: &[u8],
    fault: Fault,
    line: &[u8],
) -> Result<Vec<u8>, RunHalt>
    requires { length line.now ≤ limit }
    ensures ok { IfOk result (λ piece. piece.items ≡ shown.now ++ report fault line.now) }
    ensures err { IfErr result (λ halt. halt ≡ RunHalt.NoMemory) }
{
    let text = worded(pool, line)?;
    let room = shown
        .len()
        .saturating_add(text.len())
        .saturating_add(REPORT_ROOM);
    let mut piece = pool.bytes(room)?;
    piece.extend_from_slice(shown)?;
    piece.extend_from_slice(b"|")?;
    piece.extend_from_slice(fault.text().as_bytes())?;
    piece.extend_from_slice(b"\n|   ")?;
    piece.extend_from_slice(without_leading_blanks(text))?;
    piece.extend_from_slice(b"\n")?;
    Ok(piece)
}
