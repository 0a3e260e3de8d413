// What was shown is written.
ghost use Rattle.std.specs.Prelude.{◌≡◌, OnOk, OnErr};
ghost use Rattle.j_io.specs.Outside.{HasCause, Grew, GrewByPrefix};

use j_io::{Failed, Sink};

// Writes a piece, however little each write takes.
pub fn write_all<K: Sink>(sink: &mut K, piece: &[u8]) -> Result<(), Failed>
    ensures ok { OnOk result (Grew (K.bytes sink.old) (K.bytes sink.new) piece.now) }
    ensures err { OnErr result (GrewByPrefix (K.bytes sink.old) (K.bytes sink.new) piece.now) }
    ensures cause { HasCause (K.faults sink.old) (K.faults sink.new) result }
{
    let mut at = 0;
    while at < piece.len() {
        at += sink.write(&piece[at..])?;
    }
    Ok(())
}
