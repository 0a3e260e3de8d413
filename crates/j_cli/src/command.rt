// The top call.
ghost use Rattle.std.specs.Prelude.{◌≡◌, ◌⊎◌, ◌≤◌, ℕ, List, None, Some, IfSome, IsSome, IsErrOf, option_map, string_bytes};
ghost use Rattle.j_io.specs.Outside.{Grew, Rose, text_under};
ghost use Rattle.j_cli.specs.Answer.{answer, answer_on, request_of, words_of, IsAnswer};
ghost use Rattle.j_cli.specs.Halts.{Answered, Blames, ReadWithin, halt_status, status_by};
ghost use Rattle.j_cli.specs.Top.{Reads, Used};

use crate::halt::{Halt, ReadHalt, RunHalt, WordsHalt, status};
use crate::lines::run_text;
use crate::reading::read_text;
use j_io::{Sink, Source};
use std::alloc::Global;

// Reads the whole text that is selected, and then executes its lines.
fn run_selected<S: Source, K: Sink>(alloc: Global, source: &mut S, sink: &mut K) -> Result<(), Halt>
    requires { IsSome (S.selected source.old) }
    ensures answer { IfSome (S.left source.old) (λ text. Answered (answer_on text) (status_by halt_status result) (K.bytes sink.old) (K.bytes sink.new)) }
    ensures unread { (halt : ReadHalt) → IsErrOf result (Halt.Reading halt) → sink.new ≡ sink.old }
    ensures most { ReadWithin (S.left source.old) (S.left source.new) }
    ensures selected { S.selected source.new ≡ S.selected source.old }
    ensures texts { S.texts source.new ≡ S.texts source.old }
    ensures read { Blames (S.faults source.old) (S.faults source.new) result (Halt.Reading ReadHalt.Failed) }
    ensures write { Blames (K.faults sink.old) (K.faults sink.new) result (Halt.Running RunHalt.Failed) }
{
    let text = read_text(alloc, source)?;
    Ok(run_text(alloc, &text, sink)?)
}

// Runs the text under a name.
fn run_file<S: Source, K: Sink>(
    alloc: Global,
    file: String,
    source: &mut S,
    sink: &mut K,
) -> Result<(), Halt>
    requires { S.selected source.old ≡ None }
    ensures answer { IfSome (option_map (text_under (string_bytes file)) (S.texts source.old)) (λ text. Answered (answer_on text) (status_by halt_status result) (K.bytes sink.old) (K.bytes sink.new)) }
    ensures unread { (halt : ReadHalt) → IsErrOf result (Halt.Reading halt) → sink.new ≡ sink.old }
    ensures most { ReadWithin (option_map (text_under (string_bytes file)) (S.texts source.old)) (S.left source.new) }
    ensures selected { S.selected source.new ≡ Some (string_bytes file) }
    ensures texts { S.texts source.new ≡ S.texts source.old }
    ensures read { Blames (S.faults source.old) (S.faults source.new) result (Halt.Reading ReadHalt.Failed) }
    ensures write { Blames (K.faults sink.old) (K.faults sink.new) result (Halt.Running RunHalt.Failed) }
{
    if source.select(file).is_err() {
        return Err(Halt::Reading(ReadHalt::Failed));
    }
    run_selected(alloc, source, sink)
}

// The name of the text that the words ask for. The first word is the program's name.
fn read_words(alloc: Global, words: &[String]) -> Result<String, WordsHalt>
    ensures { Reads (request_of (words_of words.now)) result }
{
    match words {
        [] | [_] => Ok(String::from_str(alloc, "-")?),
        _ => Err(WordsHalt::Refused),
    }
}

/// Runs the text that the words ask for, and answers a status.
pub fn run_command<S: Source, K: Sink>(
    alloc: Global,
    words: &Vec<String>,
    source: &mut S,
    sink: &mut K,
) -> u8
    requires { S.selected source.old ≡ None }

    // The status and the bytes written are the answer's, or the call gave up and the bytes are a prefix of them.
    ensures headline { IfSome (S.texts source.old) (λ held. (written : List ℕ) × Grew (K.bytes sink.old) (K.bytes sink.new) written
        × IsAnswer (answer (words_of words.now.items) held) result written) }

    // Words are refused only where they ask for nothing, and then nothing is read or written.
    ensures refused { result ≡ 2 → (request_of (words_of words.now.items) ≡ None) × (source.new ≡ source.old) × (sink.new ≡ sink.old) }
    ensures refuses { request_of (words_of words.now.items) ≡ None → (result ≡ 1) ⊎ (result ≡ 2) }

    // A read fault comes only where the source had one, of the text that was asked for, and then nothing was written.
    ensures read_fault { result ≡ 5 → Rose (S.faults source.old) (S.faults source.new) }
    ensures faulty_name { result ≡ 5 → Used (request_of (words_of words.now.items)) (S.texts source.old) (S.selected source.new) (S.left source.new) }
    ensures exact { (result ≡ 5) ⊎ (result ≡ 7) → sink.new ≡ sink.old }

    // A write fault comes only where the sink had one.
    ensures write_fault { result ≡ 6 → Rose (K.faults sink.old) (K.faults sink.new) }

    // An error is reported only where it stops the run.
    ensures stopped { result ≡ 3 → IfSome (S.texts source.old) (λ held. (answer (words_of words.now.items) held).status ≡ 3) }

    // The budget is reported spent only where the run's steps are.
    ensures spent { result ≡ 4 → IfSome (S.texts source.old) (λ held. (answer (words_of words.now.items) held).status ≡ 4) }

    // The source wasn't used, or the name that was asked for is selected.
    ensures outside { (source.new ≡ source.old) ⊎ Used (request_of (words_of words.now.items)) (S.texts source.old) (S.selected source.new) (S.left source.new) }
    ensures texts { S.texts source.new ≡ S.texts source.old }
    ensures counts { (S.faults source.old ≤ S.faults source.new) × (K.faults sink.old ≤ K.faults sink.new) }
    ensures statuses { result ≤ 7 }
{
    match read_words(alloc, words) {
        Ok(file) => status(run_file(alloc, file, source, sink)),
        Err(halt) => halt.status(),
    }
}
