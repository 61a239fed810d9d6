// The reading of an input to its end. One that cannot be read is told apart from one without bytes: no bytes are a flow (document 02, T-08).
#![tactic(auto)]

ghost use Rattle.input.specs.Input.{WithinBuffer, TakenFrom};

use std::io::{self, ErrorKind, Read};

// Reads until the input ends or buf is full, and says how many bytes it put there. A read that a signal interrupts is done again. A proved loop
// has to end, and nothing says that interruptions do: so the reads are counted, up to a number that no run uses up.
pub fn read_all<R: Read>(reader: &mut R, buf: &mut [u8]) -> io::Result<usize>
    ensures within { WithinBuffer result buf.new }
    ensures taken { TakenFrom result (R.remaining reader.old) (R.remaining reader.new) buf.new }
{
    let mut n = 0;
    for _ in 0..u64::MAX {
        if n == buf.len() {
            return Ok(n);
        }
        match reader.read(&mut buf[n..]) {
            Ok(0) => return Ok(n),
            Ok(got) => n += got,
            Err(e) => {
                if e.kind() != ErrorKind::Interrupted {
                    return Err(e);
                }
            }
        }
    }
    Err(io::Error::other("the reads were interrupted too often"))
}
