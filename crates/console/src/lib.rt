//! What the programs that read share. Assumes nothing of the input: it may end or fail anywhere.
#![tactic(auto)]

ghost use Rattle.std.specs.Prelude.{◌≤◌, length, take};
ghost use Rattle.std.specs.Io.KnownBytes.{Consumes};

use std::io::Read;

/// Reads until the buffer is full, the input ends or a read fails, and gives how many bytes it put at the buffer's start: those that the reader had next.
/// No equation: how many come is for the outside to say.
pub fn read_full<R: Read>(reader: &mut R, buffer: &mut [u8]) -> usize
    ensures count { result ≤ length buffer.new }
    ensures bytes { Consumes (R.remaining reader.old) (R.remaining reader.new) (take result buffer.new) }
{
    let mut done = 0;
    // how far a turn goes is the reader's to say: no range is walked
    while done < buffer.len() {
        match reader.read(&mut buffer[done..]) {
            Ok(0) | Err(_) => break,
            Ok(n) => done += n,
        }
    }
    done
}
