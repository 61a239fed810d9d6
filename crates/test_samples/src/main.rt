// Asks for a sample of every exit of each flow of data/flows, and of data/wide with 65,536 cells lent, and runs it. A line says the
// exit's distance, or none. After a distance it says `taken` if the run of the sample takes the exit first as exit number that, and has read
// all records of the sample by then, and if the rest of the row is as it was. The flows, and the answers in stdout, are made by
// tests/reports.py.
#![tactic(auto)]

ghost use Rattle.std.specs.Prelude.{◌<◌};
ghost use Rattle.flow.specs.Limits.{max_instructions};

use flow::{Flow, Kind, Refusal};
use std::rt::Files;
use std::{fs, io};
use tape_maker::{Cell, RunAnswer, SampleAnswer};
use test_cases::Cases;
use test_show::{Exit, Refused};

// The cells of the record row before a sample is asked for; no record of a sample is so large.
const BLANK: i32 = 77777;

// The work cells of data/flows, and the cells of the record row and of the output rows.
const CELLS: usize = 4096;

fn is_blank(row: &[i32]) -> bool {
    row.iter().all(|record| *record == BLANK)
}

fn run(text: &[u8], limit: u64, records: &[i32], lengths: &[usize]) -> Result<RunAnswer, Refusal> {
    let mut numbers = [0u8; CELLS];
    let mut values = [0i32; CELLS];
    tape_maker::run(text, limit, records, lengths, &mut numbers, &mut values)
}

// An exit of instruction index + 1 of a flow.
#[derive(Drop)]
struct Wish<'a> {
    text: &'a [u8],
    flow: &'a Flow,
    index: usize,
    p: bool,
    ghost within: { index < max_instructions },
}

impl Wish<'_> {
    fn exit(&self) -> Exit {
        Exit {
            instruction: self.index + 1,
            p: self.p,
        }
    }

    // How often a run took the exit.
    fn times(&self, ran: &RunAnswer) -> u32 {
        if self.p {
            ran.p[self.index]
        } else {
            ran.m[self.index]
        }
    }

    // With which step a run on the tapes first takes the exit, found by halves; 131,072 also for a later step or none.
    fn first_step(&self, records: &[i32], lengths: &[usize]) -> u64 {
        let mut before = 0;
        let mut span = 65536;
        while 0 < span {
            let ran = run(self.text, before + span, records, lengths);
            if !matches!(&ran, Ok(ran) if 0 < self.times(ran)) {
                before += span;
            }
            span /= 2;
        }
        before + 1
    }

    // How many records the reads of a run took.
    fn records_read(&self, ran: &RunAnswer) -> u64 {
        self.flow
            .instructions
            .iter()
            .zip(ran.p.iter())
            .filter(|(x, _)| matches!(x.kind, Kind::Read))
            .fold(0u64, |sum, (_, n)| sum.saturating_add(u64::from(*n)))
    }

    // Whether tapes are a sample for the exit: a run on them takes it first as exit number d, and has read all records then.
    fn is_sample(&self, d: usize, records: &[i32], lengths: &[usize]) -> bool {
        let n = self.first_step(records, lengths);
        let Ok(ran) = run(self.text, n, records, lengths) else {
            return false;
        };
        ran.steps == n
            && self.times(&ran) == 1
            && exits_taken(&ran) == d as u64
            && self.records_read(&ran) == records.len() as u64
    }

    // Whether the row holds the sample of an answer, and is blank beyond it. The lengths past those of the flow's tapes are 0.
    fn is_held(&self, a: &SampleAnswer, row: &[i32]) -> bool {
        let Some((lengths, idle)) = a.lengths.split_at_checked(a.tapes) else {
            return false;
        };
        let n = lengths.iter().fold(0usize, |sum, n| sum.saturating_add(*n));
        let Some((records, rest)) = row.split_at_checked(n) else {
            return false;
        };
        idle.iter().all(|n| *n == 0)
            && is_blank(rest)
            && self.is_sample(a.distance, records, lengths)
    }
}

// How many exits a run took.
fn exits_taken(ran: &RunAnswer) -> u64 {
    ran.p
        .iter()
        .chain(ran.m.iter())
        .fold(0u64, |sum, n| sum.saturating_add(u64::from(*n)))
}

// The line of an exit; no line where the instruction has no two exits.
fn print_sample(rt: &impl Print, wish: &Wish, cells: &mut [[u32; Cell::WORDS]]) -> io::Result<()> {
    let mut row = [BLANK; CELLS];
    let exit = wish.exit();
    let answer = tape_maker::sample(wish.text, exit.instruction, exit.p, cells, &mut row);
    let changed = if is_blank(&row) {
        ""
    } else {
        ", and the row is changed"
    };
    match answer {
        Ok(Some(sample)) => {
            let taken = if wish.is_held(&sample, &row) {
                "taken"
            } else {
                "not taken"
            };
            println!(rt; "{exit},{},{taken}", sample.distance)
        }
        Ok(None) => println!(rt; "{exit},none{changed}"),
        Err(Refusal::NoSuchExit) => Ok(()),
        Err(why) => println!(rt; "{exit},{}{changed}", Refused(why)),
    }
}

fn print_samples(rt: &impl Print, text: &[u8], cells: &mut [[u32; Cell::WORDS]]) -> io::Result<()> {
    let Ok(flow) = reader::read(text) else {
        return Ok(());
    };
    for index in 0..flow.count.min(Flow::MAX_INSTRUCTIONS) {
        for p in [true, false] {
            let wish = Wish {
                text,
                flow: &flow,
                index,
                p,
            };
            print_sample(rt, &wish, cells)?;
        }
    }
    Ok(())
}

// The samples of the flows of a file.
fn print_file(
    rt: &(impl Files + Print),
    name: &str,
    cells: &mut [[u32; Cell::WORDS]],
) -> io::Result<()> {
    let mut buf = [0u8; 131072];
    let mut file = fs::open(rt, name)?;
    let n = input::read_all(&mut file, &mut buf).map_err(|_| io::Error::other(
        "a file of flows cannot be read",
    ))?;
    for case in Cases::new(&buf[..n]) {
        test_show::line(rt, case.name)?;
        print_samples(rt, case.text, cells)?;
    }
    Ok(())
}

fn main(rt: HostRuntime) -> io::Result<()> {
    let mut cells = [[0u32; Cell::WORDS]; CELLS];
    print_file(&rt, "flows", &mut cells)?;
    let mut most = [[0u32; Cell::WORDS]; Cell::MOST];
    print_file(&rt, "wide", &mut most)
}
