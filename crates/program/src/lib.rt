// What the programs `report` and `bound` share: the flow on standard input is read, and what is made of it is written to standard output. What
// cannot be read has no answer: then one line says so on standard error, and standard output is empty.
#![tactic(auto)]

ghost use Rattle.program.specs.Answer.{Answers};
ghost use Rattle.std.specs.Fn.{FnOnceReturnsAt};
ghost use Rattle.std.specs.Prelude.{◌+◌};

use flow::Flow;
use std::io::{self, Read};

// Reads a flow and has its answer written. A fault of either is said on standard error, and returned. One byte more than a flow may have is read,
// so that a longer text is seen to be too long.
pub fn answer<R: Read, F: FnOnce(&[u8]) -> io::Result<()>>(
    rt: &impl Eprint,
    stdin: &mut R,
    name: &str,
    write: F,
) -> io::Result<()>
    requires { F.IsAlwaysCallable write }
    ensures { Answers result (Flow.MAX_BYTES + 1) (R.remaining stdin.old) (R.remaining stdin.new) (FnOnceReturnsAt F.FnOnce write) }
{
    let mut text = [0u8; Flow::MAX_BYTES + 1];
    let (outcome, fault) = match input::read_all(stdin, &mut text) {
        Ok(n) => (write(&text[..n]), "output cannot be written"),
        Err(e) => (Err(e), "input cannot be read"),
    };
    if outcome.is_err() {
        let _ = eprintln!(rt; "{name}: standard {fault}");
    }
    outcome
}
