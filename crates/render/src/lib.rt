// The lines of a report (document 01, "The report") and of a bound, in a row. Every function that is not public puts bytes into the row
// from a place on, and gives the place behind them.
#![tactic(auto)]

ghost use Rattle.std.specs.Prelude.{◌≡◌, [], ◌∷◌, ◌++◌, ◌+◌, ◌*◌, ◌≤◌, length, Some, Ok};
ghost use Rattle.text.specs.Write.{decimal, ended};
ghost use Rattle.flow.specs.Limits.{max_instructions};
ghost use Rattle.flow.specs.Read.{read_flow};
ghost use Rattle.interpreter.specs.Run.{written};
ghost use Rattle.tape_maker.specs.Bound.{bound_in};
ghost use Rattle.render.specs.Report.{distance_text, exit_line, exit_lines, exit_lines_from, word_line, refusal_line, report_text, Printed};
ghost use Rattle.render.specs.Bound.{bound_line, bound_text};
ghost use Rattle.render.specs.Inner.Writing.{line_bytes, Put};

use cells::Cell;
use flow::{Flow, Refusal};
use tape_maker::ReportAnswer;

// No report has more bytes.
pub const REPORT_BYTES: usize = 4096;

pub type Row = [u8; REPORT_BYTES];

// No line of a bound has more bytes.
pub const LINE_BYTES: usize = 64;

pub type Line = [u8; LINE_BYTES];

// The cells that a report is made with.
pub const CELLS: usize = 4096;

// Kept: `out` and `at` are parameters; a struct that holds the `&mut [u8]` needs one clause more at each function, that it still holds the same row.
fn copy(out: &mut [u8], at: usize, bytes: &[u8]) -> usize
    requires { at + length bytes.now ≤ length out.old }
    ensures { Put bytes.now out.old at out.new result }
{
    let end = at + bytes.len();
    out[at..end].copy_from_slice(bytes);
    end
}

fn number(out: &mut [u8], at: usize, n: u64) -> usize
    requires { at + 20 ≤ length out.old }
    ensures { Put (decimal n) out.old at out.new result × (result ≤ at + 20) }
{
    let mut digits = [0u8; 20];
    let k = io::decimal(n, &mut digits);
    copy(out, at, &digits[0..k])
}

// A field that is a number: a comma and the number.
fn field(out: &mut [u8], at: usize, n: u64) -> usize
    requires { at + 21 ≤ length out.old }
    ensures { Put (44 ∷ decimal n) out.old at out.new result × (result ≤ at + 21) }
{
    let a = copy(out, at, b",");
    number(out, a, n)
}

// The distance, 0 for none.
fn distance(out: &mut [u8], at: usize, d: u32) -> usize
    requires { at + 20 ≤ length out.old }
    ensures { Put (distance_text d) out.old at out.new result × (result ≤ at + 20) }
{
    if d == 0 {
        return copy(out, at, b"none");
    }
    number(out, at, d as u64)
}

// The line of an exit of instruction i: the exit is p or m, and d its distance.
fn exit_line(out: &mut [u8], at: usize, i: usize, exit: u8, d: u32) -> usize
    requires { (at + 64 ≤ length out.old) × (i ≤ max_instructions) }
    ensures { Put (exit_line i (exit ∷ []) d ++ (10 ∷ [])) out.old at out.new result × (result ≤ at + 16) }
{
    let a = number(out, at, i as u64);
    let b = copy(out, a, &[b',', exit, b',']);
    let c = distance(out, b, d);
    copy(out, c, b"\n")
}

// The two lines of instruction i, if it has two exits.
fn exit_lines(out: &mut [u8], at: usize, i: usize, two: bool, p: u32, m: u32) -> usize
    requires { (at + 96 ≤ length out.old) × (i ≤ max_instructions) }
    ensures { Put (ended (exit_lines i two p m)) out.old at out.new result × (result ≤ at + 32) }
{
    if two {
        let a = exit_line(out, at, i, b'p', p);
        return exit_line(out, a, i, b'm', m);
    }
    at
}

// The lines of all exits.
fn all_exits(out: &mut [u8], at: usize, r: &ReportAnswer) -> usize
    requires { at + 32 * max_instructions + 64 ≤ length out.old }
    ensures { Put (ended (exit_lines_from 0 max_instructions r.now.two r.now.p r.now.m)) out.old at out.new result × (result ≤ at + 32 * max_instructions) }
{
    let mut end = at;
    for i in 0..Flow::MAX_INSTRUCTIONS {
        end = exit_lines(out, end, i + 1, r.two[i], r.p[i], r.m[i]);
    }
    end
}

// A line of a word and two numbers, at the row's start.
fn word_line(out: &mut [u8], word: &[u8], a: u64, b: u64) -> usize
    requires { (length word.now ≤ 8) × (line_bytes ≤ length out.old) }
    ensures { Put (word_line word.now a b ++ (10 ∷ [])) out.old 0 out.new result × (result ≤ line_bytes) }
{
    let x = copy(out, 0, word);
    let y = field(out, x, a);
    let z = field(out, y, b);
    copy(out, z, b"\n")
}

// The line of a refusal, at the row's start.
fn refusal_line(out: &mut [u8], why: Refusal) -> usize
    requires { line_bytes ≤ length out.old }
    ensures { Put (refusal_line why ++ (10 ∷ [])) out.old 0 out.new result × (result ≤ line_bytes) }
{
    word_line(out, b"refused", why.number() as u64, why.place() as u64)
}

// Writes the lines of a report into the first cells of a row, and says how many bytes they have.
pub fn report_text(r: Result<ReportAnswer, Refusal>, out: &mut Row) -> usize
    ensures value { (result ≡ length (report_text r)) × (out.new ≡ written (report_text r) out.old) }
    ensures upper_bound { result ≤ length out.new }
{
    match r {
        Ok(report) => {
            let at = word_line(
                out,
                b"report",
                report.instructions as u64,
                report.configurations as u64,
            );
            all_exits(out, at, &report)
        }
        Err(why) => refusal_line(out, why),
    }
}

// The report of a flow with `CELLS` cells lent, as text.
pub fn report_of(text: &[u8], out: &mut Row) -> usize
    ensures printed { Printed text.now out.old out.new result }
    ensures upper_bound { result ≤ length out.new }
{
    let mut cells = [[0u32; Cell::WORDS]; CELLS];
    let r = tape_maker::report(text, &mut cells);
    report_text(r, out)
}

// The line of a bound, at the row's start.
fn bound_line(out: &mut [u8], n: u64) -> usize
    requires { line_bytes ≤ length out.old }
    ensures { Put (bound_line (Ok (Some n)) ++ (10 ∷ [])) out.old 0 out.new result × (result ≤ line_bytes) }
{
    let x = copy(out, 0, b"bound");
    let y = field(out, x, n);
    copy(out, y, b"\n")
}

// Writes the line of a bound into the first cells of a row, and says how many bytes it has.
pub fn bound_text(r: Result<Option<usize>, Refusal>, out: &mut Line) -> usize
    ensures value { (result ≡ length (bound_text r)) × (out.new ≡ written (bound_text r) out.old) }
    ensures upper_bound { result ≤ length out.new }
{
    match r {
        Ok(Some(n)) => bound_line(out, n as u64),
        Ok(None) => copy(out, 0, b"bound,over\n"),
        Err(why) => refusal_line(out, why),
    }
}

// The bound of a flow, as text.
pub fn bound_of(text: &[u8], out: &mut Line) -> usize
    ensures value { (result ≡ length (bound_text (bound_in (read_flow text.now))))
        × (out.new ≡ written (bound_text (bound_in (read_flow text.now))) out.old) }
    ensures upper_bound { result ≤ length out.new }
{
    bound_text(tape_maker::bound(text), out)
}
