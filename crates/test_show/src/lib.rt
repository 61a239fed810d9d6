// What the test programs print on standard output. An exit and a refusal say which bytes are printed of them. The functions return nothing but
// that a write failed, and lend nothing, so a contract has nothing to speak of. The program `report` calls none of them: it prints the row of
// `render::report_of`, which is proved.
#![tactic(auto)]

ghost use Rattle.std.specs.Prelude.{Some, ◌++◌, codes, decimal, if◌then◌else◌};
ghost use Rattle.flow.specs.Refusals.{number_of, place_of};

use flow::Refusal;
use std::{fmt, io};
use tape_maker::Cell;

// A refusal: the word, its number and its place.
#[derive(Clone, Copy)]
pub struct Refused(pub Refusal);

impl fmt::Display for Refused {
    ghost output = { λ r. Some (codes "refused," ++ decimal (number_of r.0) ++ codes "," ++ decimal (place_of r.0)) };

    fn fmt<W: fmt::Write>(&self, f: &mut fmt::Formatter<W>) -> fmt::Result {
        write!(f, "refused,{},{}", self.0.number(), self.0.place())
    }
}

// An exit: the number of its instruction, and p or m.
#[derive(Clone, Copy)]
pub struct Exit {
    pub instruction: usize,
    pub p: bool,
}

impl fmt::Display for Exit {
    ghost output = { λ e. Some (decimal e.instruction ++ codes "," ++ (if e.p then codes "p" else codes "m")) };

    fn fmt<W: fmt::Write>(&self, f: &mut fmt::Formatter<W>) -> fmt::Result {
        let letter = if self.p { 'p' } else { 'm' };
        write!(f, "{},{letter}", self.instruction)
    }
}

// The bytes of a line, and its end.
pub fn line(rt: &impl Print, bytes: &[u8]) -> io::Result<()> {
    rt.write_all(bytes)?;
    rt.write_all(b"\n")
}

// The report of a flow, with 4,096 cells lent.
pub fn report_of(rt: &impl Print, text: &[u8]) -> io::Result<()> {
    let mut lines = [0u8; render::REPORT_BYTES];
    let n = render::report_of(text, &mut lines);
    rt.write_all(&lines[..n])
}

// The report of a flow, with these cells lent.
pub fn report(rt: &impl Print, text: &[u8], cells: &mut [[u32; Cell::WORDS]]) -> io::Result<()> {
    let mut lines = [0u8; render::REPORT_BYTES];
    let n = render::report_text(tape_maker::report(text, cells), &mut lines);
    rt.write_all(&lines[..n])
}
