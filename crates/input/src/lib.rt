// What a program reads: its input, into a buffer of its own.
#![tactic(auto)]

ghost use Rattle.std.specs.Prelude.{◌≡◌, ◌≤◌, ◌<◌, length, take, IfOk};
ghost use Rattle.std.specs.Io.KnownBytes.{Consumes, IsAtEnd};

use std::io;
use std::io::Read;

// Reads until the buffer is full or the input ends, and answers how many bytes it put at the
// buffer's start. An error is the read's: bytes read before may stand in the buffer. (What std has for
// this puts the bytes into a `Vec`, on the heap.)
pub fn read_full<R: Read>(from: &mut R, buf: &mut [u8]) -> io::Result<usize>
    ensures got_bound { IfOk result (λ got. got ≤ length buf.new) }
    ensures buf_len { length buf.new ≡ length buf.old }
    ensures bytes { IfOk result (λ got. Consumes (R.remaining from.old) (R.remaining from.new) (take got buf.new)) }
    ensures end { IfOk result (λ got. got < length buf.new → IsAtEnd (R.remaining from.new)) }
{
    let mut got: usize = 0;
    while got < buf.len() {
        let more = from.read(&mut buf[got..])?;
        if more == 0 {
            return Ok(got);
        }
        got += more;
    }
    Ok(got)
}
