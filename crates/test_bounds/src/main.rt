// Prints of each flow of data/flows its name, what the program `bound` prints of it, and if that is a number, its report with exactly so many
// cells lent. The flows, and the answers in stdout, are made by tests/bounds.py.
#![tactic(auto)]

use std::{fs, io};
use tape_maker::Cell;
use test_cases::Cases;

fn print_bound(rt: &impl Print, text: &[u8]) -> io::Result<()> {
    let mut line = [0u8; render::LINE_BYTES];
    let n = render::bound_of(text, &mut line);
    rt.write_all(&line[..n])
}

// The report with so many of the cells lent.
fn print_lent(rt: &impl Print, text: &[u8]) -> io::Result<()> {
    let mut cells = [[0u32; Cell::WORDS]; Cell::MOST];
    let bound = tape_maker::bound(text);
    match bound {
        Ok(Some(n)) => test_show::report(rt, text, &mut cells[..n]),
        Ok(None) | Err(_) => Ok(()),
    }
}

fn main(rt: HostRuntime) -> io::Result<()> {
    let mut buf = [0u8; 131072];
    let mut file = fs::open(&rt, "flows")?;
    let n = input::read_all(&mut file, &mut buf).map_err(|_| io::Error::other(
        "the file of flows cannot be read",
    ))?;
    for case in Cases::new(&buf[..n]) {
        test_show::line(&rt, case.name)?;
        print_bound(&rt, case.text)?;
        print_lent(&rt, case.text)?;
    }
    Ok(())
}
