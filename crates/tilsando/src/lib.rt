// The tape maker for callers in C and Rust: the functions of tape_maker with numbers and rows only. include/tilsando.h says what a
// caller passes and gets. No function has a condition on its caller. A refusal is told by the number returned alone: every row is as
// it was, save the work cells, which are 0.
#![tactic(auto)]

mod rows; // rows.rt: values into the first cells of a lent row
mod told; // told.rt: an answer in rows, or a refusal in one number

ghost use Rattle.std.specs.Prelude.{◌≡◌, [], ◌∷◌, length, Option, Result};
ghost use Rattle.sample_row.specs.Part.{span_of};
ghost use Rattle.flow.specs.Read.{read_flow};
ghost use Rattle.flow.specs.declared.Refusal.{Refusal};
ghost use Rattle.tape_maker.specs.Bound.{bound_in};
ghost use Rattle.tape_maker.specs.Run.{requested, RunIs};
ghost use Rattle.tape_maker.specs.Report.{ReportIs};
ghost use Rattle.tape_maker.specs.Sample.{SampleIs};
ghost use Rattle.interpreter.specs.declared.RunAnswer.{RunAnswer};
ghost use Rattle.sample.specs.declared.SampleAnswer.{SampleAnswer};
ghost use Rattle.tape_maker.specs.declared.ReportAnswer.{ReportAnswer};
ghost use Rattle.tilsando.specs.Exports.{laid, RunTold, ReportTold, SampleTold, BoundTold, wants_p, span_values};

use tape_maker::Cell;

// Runs a flow on the tapes that stand one after another in a row of records: what `tape_maker::run` answers, told in rows.
#[unsafe(no_mangle)]
pub extern "C" fn tilsando_run(
    text: &[u8],
    limit: u64,
    records: &[i32],
    lengths: &[usize],
    numbers: &mut [u8],
    values: &mut [i32],
    p: &mut [u32],
    m: &mut [u32],
    answer: &mut [u64],
) -> u32
    ensures { (a : Result RunAnswer Refusal)
        × RunIs (requested text.now limit records.now lengths.now numbers.old values.old)
        numbers.old numbers.new values.old values.new a
        × RunTold a (p.old ∷ m.old ∷ answer.old ∷ [])
        (p.new ∷ m.new ∷ answer.new ∷ []) result }
{
    let ran = tape_maker::run(text, limit, records, lengths, numbers, values);
    told::tell_run(ran, p, m, answer)
}

// Reports the distance of every exit of a flow: what `tape_maker::report` answers, told in rows.
#[unsafe(no_mangle)]
pub extern "C" fn tilsando_report(
    text: &[u8],
    cells: &mut [[u32; Cell::WORDS]],
    two: &mut [u8],
    p: &mut [u32],
    m: &mut [u32],
    answer: &mut [u64],
) -> u32
    ensures { (a : Result ReportAnswer Refusal)
        × ReportIs text.now cells.old cells.new a
        × ReportTold a (two.old ∷ p.old ∷ m.old ∷ answer.old ∷ [])
        (two.new ∷ p.new ∷ m.new ∷ answer.new ∷ []) result }
{
    let report = tape_maker::report(text, cells);
    told::tell_report(report, two, p, m, answer)
}

// Says from the text alone how many cells are enough: what `tape_maker::bound` answers, told in a row.
#[unsafe(no_mangle)]
pub extern "C" fn tilsando_bound(text: &[u8], answer: &mut [u64]) -> u32
    ensures { BoundTold (bound_in (read_flow text.now)) (answer.old ∷ []) (answer.new ∷ []) result }
{
    let bound = tape_maker::bound(text);
    told::tell_bound(bound, answer)
}

// Writes a sample for an exit of an instruction, m if the exit is 0 and else p: what `tape_maker::sample` answers, told in a row.
#[unsafe(no_mangle)]
pub extern "C" fn tilsando_sample(
    text: &[u8],
    instruction: u64,
    exit: u8,
    cells: &mut [[u32; Cell::WORDS]],
    row: &mut [i32],
    answer: &mut [u64],
) -> u32
    ensures { (a : Result (Option SampleAnswer) Refusal)
        × SampleIs text.now instruction (wants_p exit) cells.old cells.new row.old row.new a
        × SampleTold a (answer.old ∷ []) (answer.new ∷ []) result }
{
    let sample = tape_maker::sample(text, instruction as usize, exit != 0, cells, row);
    told::tell_sample(sample, answer)
}

// Says where the part of the row that holds the records of one tape starts, and how many it holds. It refuses nothing.
#[unsafe(no_mangle)]
pub extern "C" fn tilsando_tape(
    row: &[i32],
    lengths: &[usize],
    tape: usize,
    answer: &mut [u64],
) -> u32
    ensures { (result ≡ 0) × (answer.new
        ≡ laid (span_values (span_of lengths.now tape (length row.now))) answer.old) }
{
    let span = sample_row::span_of(row, lengths, tape);
    let numbers = [span.start as u64, span.count as u64];
    rows::lay(answer, &numbers);
    0
}
