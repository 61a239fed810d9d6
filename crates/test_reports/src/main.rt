// Prints the report of each flow of data/flows: the flow's name, and its report as the program `report` prints it. Then the same of the
// flows of data/wide, with 65,536 cells lent. The flows, and the reports in stdout, are made by tests/reports.py.
#![tactic(auto)]

use std::rt::Files;
use std::{fs, io};
use tape_maker::Cell;
use test_cases::Cases;

// The reports of the flows of a file.
fn print_file<F: FnMut(&[u8]) -> io::Result<()>>(
    rt: &(impl Files + Print),
    name: &str,
    mut print_report: F,
) -> io::Result<()>
    requires { F.IsAlwaysCallable print_report }
{
    let mut buf = [0u8; 131072];
    let mut file = fs::open(rt, name)?;
    let n = input::read_all(&mut file, &mut buf).map_err(|_| io::Error::other(
        "a file of flows cannot be read",
    ))?;
    for case in Cases::new(&buf[..n]) {
        test_show::line(rt, case.name)?;
        print_report(case.text)?;
    }
    Ok(())
}

fn main(rt: HostRuntime) -> io::Result<()> {
    print_file(&rt, "flows", |text| test_show::report_of(&rt, text))?;
    print_file(&rt, "wide", |text| {
        let mut cells = [[0u32; Cell::WORDS]; Cell::MOST];
        test_show::report(&rt, text, &mut cells)
    })
}
