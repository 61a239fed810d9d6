// The pieces of document 01, the text of no bytes (document 02, T-08) and the merge of flows/, run and printed. Of a run: the end, the steps
// and the puts, then how often each exit of the first instructions was taken. Of a flow: its report. The stored output has what the
// documents say.
#![tactic(auto)]

use std::{fmt, io};
use tape_maker::{Cell, RunEnd};
use test_show::Refused;

const FLOW_A: &[u8] = b"flow,1,0,1\n1,read,1,1,2,3\n2,over,5,1,1,3\n3,stop\n";

const FLOW_B: &[u8] = b"flow,1,1,1\n1,read,1,1,2,3\n2,put,1,1,1\n3,stop\n";

const MERGE: &[u8] =
    b"flow,2,1,2\n1,read,1,1,2,10\n2,read,2,2,3,8\n3,less,1,2,4,5\n4,put,1,1,6\n5,put,2,1,2\n6,read,1,1,3,7\n7,put,2,1,12\n8,put,1,1,9\n9,read,1,1,8,12\n10,read,2,2,11,12\n11,put,2,1,10\n12,stop\n";

// How a run ends.
#[derive(Clone, Copy)]
struct End(RunEnd);

impl fmt::Display for End {
    fn fmt<W: fmt::Write>(&self, f: &mut fmt::Formatter<W>) -> fmt::Result {
        match self.0 {
            RunEnd::Stopped => write!(f, "stopped"),
            RunEnd::Spent => write!(f, "spent"),
            RunEnd::Full => write!(f, "full"),
        }
    }
}

fn print_run(
    rt: &impl Print,
    text: &[u8],
    limit: u64,
    records: &[i32],
    lengths: &[usize],
    numbers: &mut [u8],
    values: &mut [i32],
) -> io::Result<()> {
    match tape_maker::run(text, limit, records, lengths, numbers, values) {
        Ok(ran) => {
            let (p, m) = (ran.p, ran.m);
            println!(rt;
                "{},{},{} p,{},{} m,{},{}",
                End(ran.end),
                ran.steps,
                ran.puts,
                p[0],
                p[1],
                m[0],
                m[1]
            )
        }
        Err(why) => println!(rt; "{},0,0 p,0,0 m,0,0", Refused(why)),
    }
}

// A run without output.
fn run_alone(rt: &impl Print, text: &[u8], limit: u64, tape: &[i32]) -> io::Result<()> {
    print_run(rt, text, limit, tape, &[tape.len()], &mut [0], &mut [0])
}

fn flow_a(rt: &impl Print, limit: u64, tape: &[i32]) -> io::Result<()> {
    run_alone(rt, FLOW_A, limit, tape)
}

fn flow_b(rt: &impl Print, limit: u64, tape: &[i32], numbers: &mut [u8]) -> io::Result<()> {
    print_run(rt, FLOW_B, limit, tape, &[tape.len()], numbers, &mut [0; 4])
}

// The merge of the 1977 paper, with its bug: on (0) and (1,2) the last record is lost.
fn merge(rt: &impl Print, records: &[i32], lengths: &[usize]) -> io::Result<()> {
    print_run(rt, MERGE, 1000, records, lengths, &mut [0; 8], &mut [0; 8])
}

// Flow A with 18, 19 and 0 cells.
fn cells(rt: &impl Print) -> io::Result<()> {
    test_show::report(rt, FLOW_A, &mut [[0; Cell::WORDS]; 18])?;
    test_show::report(rt, FLOW_A, &mut [[0; Cell::WORDS]; 19])?;
    test_show::report(rt, FLOW_A, &mut [[0; Cell::WORDS]; 0])
}

// The exits of which the document says that no tapes take them.
fn reports(rt: &impl Print) -> io::Result<()> {
    test_show::report_of(
        rt,
        b"flow,1,0,2\n1,read,1,1,2,6\n2,read,1,2,3,6\n3,over,3,1,4,6\n4,less,1,2,5,6\n5,under,2,5,6,6\n6,stop\n",
    )?;
    test_show::report_of(rt, b"flow,1,0,1\n1,read,1,1,3,2\n2,read,1,1,3,3\n3,stop\n")?;
    test_show::report_of(rt, b"flow,1,0,1\n1,under,1,5,2,2\n2,stop\n")?;
    test_show::report_of(rt, b"flow,1,0,1\n1,less,1,1,2,2\n2,stop\n")
}

// A text of no bytes: runs with the limit 0 and on a record that is not read, and its report with 4,096 cells, with one and with none.
fn no_bytes(rt: &impl Print) -> io::Result<()> {
    run_alone(rt, b"", 0, &[])?;
    run_alone(rt, b"", 1000000, &[7])?;
    test_show::report_of(rt, b"")?;
    test_show::report(rt, b"", &mut [[0; Cell::WORDS]; 1])?;
    test_show::report(rt, b"", &mut [[0; Cell::WORDS]; 0])
}

fn main(rt: HostRuntime) -> io::Result<()> {
    flow_a(&rt, 1000000, &[])?;
    flow_a(&rt, 1000000, &[5])?;
    flow_a(&rt, 1000000, &[6])?;
    flow_a(&rt, 1000000, &[6, 9, 5])?;
    flow_a(&rt, 2, &[6])?;
    flow_a(&rt, 3, &[6])?;
    flow_b(&rt, 1000000, &[4, -7], &mut [0; 4])?;
    flow_b(&rt, 1000000, &[4, -7], &mut [0])?;
    flow_b(&rt, 3, &[4, -7], &mut [0])?;
    flow_b(&rt, 0, &[4, -7], &mut [0])?;
    merge(&rt, &[0, 1, 2], &[1, 2])?;
    merge(&rt, &[0, 1, 2], &[2, 2])?;
    run_alone(&rt, b"flow,1,0,1\n1,nop,1\n", 2000000, &[])?;
    run_alone(&rt, b"flow,1,0,1\n1,stop\n", 0, &[])?;
    no_bytes(&rt)?;
    reports(&rt)?;
    cells(&rt)
}
