// Prints what each flow text of data/ is read as, in the order of the names in data/index: the name, and then the refusal, or
// the flow, written back from its rows. A text with bytes in it that is read is the only one of its flow with bytes, so the lines written
// back have to be its own.
// The texts, and the answers in stdout, are made by tests/readings.py.
#![tactic(auto)]

ghost use Rattle.input.specs.Input.{WithinBuffer};

use flow::{Flow, Instruction};
use std::rt::Files;
use std::{fs, io, str};

fn print_line(rt: &impl Print, i: usize, x: Instruction) -> io::Result<()> {
    print!(rt; "{i},{}", x.kind.word())?;
    for n in x.numbers().iter().take(x.kind.sorts().len()) {
        print!(rt; ",{n}")?;
    }
    rt.println("")
}

fn print_flow(rt: &impl Print, f: &Flow) -> io::Result<()> {
    println!(rt; " flow,{},{},{}", f.tapes, f.outputs, f.variables)?;
    for (i, x) in f.instructions.iter().take(f.count).enumerate() {
        print_line(rt, i + 1, *x)?;
    }
    Ok(())
}

// What a text is read as.
fn print_reading(rt: &impl Print, text: &[u8]) -> io::Result<()> {
    match reader::read(text) {
        Ok(flow) => print_flow(rt, &flow),
        Err(why) => println!(rt; " refused,{},{}", why.number(), why.place()),
    }
}

fn read_file(rt: &impl Files, name: &str, buf: &mut [u8]) -> io::Result<usize>
    ensures { WithinBuffer result buf.new }
{
    let mut file = fs::open(rt, name)?;
    input::read_all(&mut file, buf)
}

// What the text of a file is read as; a byte past the limit is enough to see that there are too many. A name that is no text cannot be read.
fn print_file(rt: &(impl Files + Print), name: &[u8]) -> io::Result<()> {
    let mut text = [0u8; Flow::MAX_BYTES + 1];
    rt.write_all(name)?;
    let Ok(path) = str::from_utf8(name) else {
        return rt.println(" cannot be read");
    };
    match read_file(rt, path, &mut text) {
        Ok(n) => print_reading(rt, &text[..n]),
        Err(_) => rt.println(" cannot be read"),
    }
}

// The list names a file to a line.
fn main(rt: HostRuntime) -> io::Result<()> {
    let mut list = [0u8; 65536];
    let n = read_file(&rt, "index", &mut list).map_err(|_| io::Error::other(
        "the list of the files cannot be read",
    ))?;
    for line in list[..n].split_inclusive(|b| *b == b'\n') {
        print_file(&rt, line.strip_suffix(b"\n").unwrap_or(line))?;
    }
    Ok(())
}
