// The tape maker: what a maker calls. Each function takes a flow as text, refuses a faulty request itself, and has no condition on
// its caller; specs/ has the promise of each but `tape`, whose definitions are in crate sample_row.
#![tactic(auto)]

mod running; // running.rt: the request for a run
mod planning; // planning.rt: what a search needs of a flow
mod reporting; // reporting.rt: the report
mod sampling; // sampling.rt: the sample for one exit

ghost use Rattle.std.specs.Prelude.{◌≡◌, true, length};
ghost use Rattle.cells.specs.Cells.{zeroed};
ghost use Rattle.flow.specs.Read.{read_flow};
ghost use Rattle.sample_row.specs.Part.{span_of, IsPart};
ghost use Rattle.tape_maker.specs.Bound.{bound_in};
ghost use Rattle.tape_maker.specs.Run.{requested, RunIs};
ghost use Rattle.tape_maker.specs.Report.{ReportIs};
ghost use Rattle.tape_maker.specs.Sample.{SampleIs};
ghost use Rattle.tape_maker.specs.Inner.Plan.{ReadAs};

pub use cells::Cell;
use flow::{Flow, Refusal};
pub use interpreter::{RunAnswer, RunEnd};
pub use sample::SampleAnswer;

// The flow of a text, or its refusal.
fn read(text: &[u8]) -> Result<Flow, Refusal>
    ensures { ReadAs (read_flow text.now) result }
{
    reader::read(text)
}

// Says from the text alone how many cells are enough for the flow's report and for its samples. `None`: more than are used.
#[tactic(auto, unfolding(crate::specs::Bound::bound_in))]
pub fn bound(text: &[u8]) -> Result<Option<usize>, Refusal>
    ensures { result ≡ bound_in (read_flow text.now) }
{
    let flow = read(text)?;
    Ok(flow_bound::bound_of(flow))
}

// Runs a flow on the tapes that stand one after another in a row. A put writes its output tape's number and its value into the next
// cells of the two output rows.
pub fn run(
    text: &[u8],
    limit: u64,
    records: &[i32],
    lengths: &[usize],
    numbers: &mut [u8],
    values: &mut [i32],
) -> Result<RunAnswer, Refusal>
    ensures { RunIs (requested text.now limit records.now lengths.now numbers.old values.old)
        numbers.old numbers.new values.old values.new result }
{
    let flow = read(text)?;
    running::run_flow(flow, limit, records, lengths, numbers, values)
}

// The report of a flow: its instructions, its reachable configurations, and for each instruction whether it has two exits and the
// distance of each; 0 stands for none.
#[derive(Clone, Copy)]
pub struct ReportAnswer {
    pub instructions: usize,
    pub configurations: usize,
    pub two: [bool; Flow::MAX_INSTRUCTIONS],
    pub p: [u32; Flow::MAX_INSTRUCTIONS],
    pub m: [u32; Flow::MAX_INSTRUCTIONS],
}

// A refused request leaves 0 in every word of every cell.
fn release(cells: &mut [[u32; Cell::WORDS]], refused: bool)
    ensures { refused ≡ true → cells.new ≡ zeroed cells.old }
{
    if refused {
        cells::clear(cells);
    }
}

// Reports the distance of every exit of a flow. The work cells are lent; at most 65,536 of them count.
pub fn report(text: &[u8], cells: &mut [[u32; Cell::WORDS]]) -> Result<ReportAnswer, Refusal>
    ensures { ReportIs text.now cells.old cells.new result }
{
    let report = reporting::answer(text, cells);
    release(cells, report.is_err());
    report
}

// Writes a sample for an exit of an instruction, p if `exit`, into the record row, which has to be as long as the exit's distance. `None`:
// no tapes take it. The work cells are lent as for a report.
pub fn sample(
    text: &[u8],
    instruction: usize,
    exit: bool,
    cells: &mut [[u32; Cell::WORDS]],
    row: &mut [i32],
) -> Result<Option<SampleAnswer>, Refusal>
    ensures { SampleIs text.now instruction exit cells.old cells.new row.old row.new result }
{
    let sample = sampling::answer(text, instruction, exit, cells, row);
    release(cells, sample.is_err());
    sample
}

// The part of the record row that holds the records of one tape, counted from 1, by the lengths that came with the sample.
pub fn tape<'a>(row: &'a [i32], lengths: &[usize], number: usize) -> &'a [i32]
    ensures { IsPart (span_of lengths.now number (length row.now)) row.now row.entry.ref_ptr result.now result.ref_ptr }
{
    sample_row::tape_records(row, lengths, number)
}
