// The lines of a text are executed one after another.
ghost use Rattle.std.specs.Prelude.{◌≡◌, ◌<◌, ◌≤◌, ◌∷◌, length};
ghost use Rattle.std.specs.Str.Lines.{strip_carriage_return};
ghost use Rattle.j_eval.specs.Meets.{ready};
ghost use Rattle.j_cli.specs.Run.{lines_of, start};
ghost use Rattle.j_cli.specs.Answer.{limit, answer_from};
ghost use Rattle.j_cli.specs.Halts.{Answered, Blames, run_of, run_status, status_by};

use crate::halt::RunHalt;
use crate::running::execute;
use j_eval::Machine;
use j_io::Sink;
use j_noun::Pool;
use memchr::memchr;
use std::alloc::Global;

// Most steps of a run.
const BUDGET: u64 = 100_000_000;

// A line without the carriage return at its end, if it has one.
fn without_return(line: &[u8]) -> &[u8]
    ensures { result.now ≡ strip_carriage_return line.now }
{
    match line {
        [start @ .., b'\r'] => start,
        _ => line,
    }
}

// The first line of a text that isn't empty, and what follows it.
fn first_line(text: &[u8]) -> (&[u8], &[u8])
    requires { 0 < length text.now }
    ensures lines { lines_of text.now ≡ result.0.now ∷ lines_of result.1.now }
    ensures within { length result.0.now ≤ length text.now }
    ensures shorter { length result.1.now < length text.now }
{
    match memchr(b'\n', text) {
        Some(end) => (without_return(&text[..end]), &text[end + 1..]),
        None => (text, &[]),
    }
}

// Executes the lines of a text one after another.
fn run_lines<K: Sink>(
    pool: &mut Pool,
    machine: &mut Machine,
    text: &[u8],
    sink: &mut K,
) -> Result<(), RunHalt>
    requires ready { machine.old.readiness ≡ ready }
    requires limit { length text.now ≤ limit }
    ensures answer { Answered (answer_from (run_of machine.old) (lines_of text.now)) (status_by run_status result) (K.bytes sink.old) (K.bytes sink.new) }
    ensures cause { Blames (K.faults sink.old) (K.faults sink.new) result RunHalt.Failed }
{
    let mut rest = text;
    'lines: while !rest.is_empty() {
        let (line, after) = first_line(rest);
        execute(pool, machine, line, sink)?;
        rest = after;
    }
    Ok(())
}

// Executes the lines of a text from the start of a run.
pub fn run_text<K: Sink>(alloc: Global, text: &[u8], sink: &mut K) -> Result<(), RunHalt>
    requires { length text.now ≤ limit }
    ensures answer { Answered (answer_from start (lines_of text.now)) (status_by run_status result) (K.bytes sink.old) (K.bytes sink.new) }
    ensures cause { Blames (K.faults sink.old) (K.faults sink.new) result RunHalt.Failed }
{
    let mut machine = Machine::new(alloc, BUDGET)?;
    let mut pool = Pool::new(alloc);
    run_lines(&mut pool, &mut machine, text, sink)
}
