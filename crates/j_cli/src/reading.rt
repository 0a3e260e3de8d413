// A text is read in pieces, up to a limit.
ghost use Rattle.std.specs.Prelude.{◌≡◌, ◌≤◌, ◌<◌, ◌+◌, IfOk, IsErrOf, IsSome, length};
ghost use Rattle.std.specs.Io.KnownBytes.{IsAtEnd};
ghost use Rattle.j_io.specs.Outside.{Took};
ghost use Rattle.j_cli.specs.Answer.{limit};
ghost use Rattle.j_cli.specs.Halts.{Blames, ReadBeyond, ReadWithin};

use crate::halt::ReadHalt;
use j_io::Source;
use std::alloc::Global;

pub const LIMIT: usize = 16_777_216;

pub const PIECE: usize = 4096;

// How many bytes to ask for after so many: one where the limit is reached.
pub fn next_size(count: usize) -> usize
    requires { count ≤ limit }
    ensures some { 0 < result }
    ensures piece { result ≤ 4096 }
    ensures whole { count + 4096 ≤ limit → result ≡ 4096 }
    ensures most { count < limit → count + result ≤ limit }
    ensures last { count ≡ limit → result ≡ 1 }
{
    if count < LIMIT {
        PIECE.min(LIMIT - count)
    } else {
        1
    }
}

// The whole text.
pub fn read_text<S: Source>(alloc: Global, source: &mut S) -> Result<Vec<u8>, ReadHalt>
    requires { IsSome (S.selected source.old) }
    ensures ok { IfOk result (λ text. Took (S.left source.old) (S.left source.new) text.items
        × IsAtEnd (S.left source.new) × length text.items ≤ limit) }
    ensures most { ReadWithin (S.left source.old) (S.left source.new) }
    ensures too_long { IsErrOf result ReadHalt.TooLong → ReadBeyond (S.left source.old) (S.left source.new) }
    ensures selected { S.selected source.new ≡ S.selected source.old }
    ensures texts { S.texts source.new ≡ S.texts source.old }
    ensures cause { Blames (S.faults source.old) (S.faults source.new) result ReadHalt.Failed }
{
    let mut text = Vec::new(alloc);
    let mut piece = [0; PIECE];
    'pieces: loop {
        let size = next_size(text.len());
        let count = source.read(&mut piece[..size])?;
        if count == 0 {
            return Ok(text);
        }
        if text.len() == LIMIT {
            return Err(ReadHalt::TooLong);
        }
        text.extend_from_slice(&piece[..count])?;
    }
}
