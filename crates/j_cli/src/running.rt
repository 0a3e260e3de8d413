// A line is executed, and what it shows is written.
ghost use Rattle.std.specs.Prelude.{◌≡◌, ◌≤◌, ◌++◌, OnOk, IsErr, length};
ghost use Rattle.j_io.specs.Outside.{Grew};
ghost use Rattle.j_eval.specs.Meets.{ready};
ghost use Rattle.j_cli.specs.Run.{next};
ghost use Rattle.j_cli.specs.Answer.{limit, answer_of};
ghost use Rattle.j_cli.specs.Halts.{Answered, Blames, run_of, run_status, status_by};
ghost use Rattle.j_cli.specs.Report.{report};

use crate::halt::RunHalt;
use crate::report::reported;
use crate::writing::write_all;
use j_eval::{LineFault, Machine, Outcome, prepare};
use j_io::Sink;
use j_noun::{Fault, Pool};

// Writes what was shown and the report of an error, which stops the run.
fn stop<K: Sink>(
    pool: &mut Pool,
    shown: &[u8],
    fault: Fault,
    line: &[u8],
    sink: &mut K,
) -> Result<(), RunHalt>
    requires { length line.now ≤ limit }
    ensures stops { IsErr result }
    ensures piece { Answered (record { bytes = shown.now ++ report fault line.now; status = 3 }) (status_by run_status result) (K.bytes sink.old) (K.bytes sink.new) }
    ensures cause { Blames (K.faults sink.old) (K.faults sink.new) result RunHalt.Failed }
{
    let piece = reported(pool, shown, fault, line)?;
    write_all(sink, &piece)?;
    Err(RunHalt::Stopped)
}

// Writes what was shown before the steps were spent.
fn spend<K: Sink>(shown: &[u8], sink: &mut K) -> Result<(), RunHalt>
    ensures stops { IsErr result }
    ensures piece { Answered (record { bytes = shown.now; status = 4 }) (status_by run_status result) (K.bytes sink.old) (K.bytes sink.new) }
    ensures cause { Blames (K.faults sink.old) (K.faults sink.new) result RunHalt.Failed }
{
    write_all(sink, shown)?;
    Err(RunHalt::Spent)
}

// Writes what was shown, and the run goes on.
fn show<K: Sink>(shown: &[u8], sink: &mut K) -> Result<(), RunHalt>
    ensures piece { Answered (record { bytes = shown.now; status = 0 }) (status_by run_status result) (K.bytes sink.old) (K.bytes sink.new) }
    ensures cause { Blames (K.faults sink.old) (K.faults sink.new) result RunHalt.Failed }
{
    Ok(write_all(sink, shown)?)
}

// Executes one line, and writes what it shows.
pub fn execute<K: Sink>(
    pool: &mut Pool,
    machine: &mut Machine,
    line: &[u8],
    sink: &mut K,
) -> Result<(), RunHalt>
    requires ready { machine.old.readiness ≡ ready }
    requires limit { length line.now ≤ limit }
    ensures ready { OnOk result (machine.new.readiness ≡ ready) }
    ensures run { OnOk result (run_of machine.new ≡ (next (run_of machine.old) line.now).run) }
    ensures answer { Answered (answer_of (next (run_of machine.old) line.now)) (status_by run_status result) (K.bytes sink.old) (K.bytes sink.new) }
    ensures cause { Blames (K.faults sink.old) (K.faults sink.new) result RunHalt.Failed }
{
    let alloc = pool.alloc();
    let sentence = match prepare(alloc, pool, line) {
        Ok(sentence) => sentence,
        Err(LineFault::NoMemory) => return Err(RunHalt::NoMemory),
        Err(LineFault::Fault(fault)) => return stop(pool, b"", fault, line, sink),
    };
    if sentence.count() == 0 {
        return Ok(());
    }
    match machine.sentence(&sentence) {
        Outcome::Value(_) => show(machine.shown(), sink),
        Outcome::Failed(fault) => stop(pool, machine.shown(), fault, line, sink),
        Outcome::Spent => spend(machine.shown(), sink),
        Outcome::NoMemory => Err(RunHalt::NoMemory),
    }
}
