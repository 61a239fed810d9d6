// The tapes of a sample (document 01, "Distances and configurations"). The way to an entry of a finished table is walked forward, and the
// records that its steps take are written into the lent row.
#![tactic(auto)]

ghost use Rattle.std.specs.Prelude.{◌≡◌, true, ◌&&◌, ℕ, suc, ◌≤◌, ◌<◌, length, get_or};
ghost use Rattle.model.specs.Language.{Flow as FlowOf};
ghost use Rattle.model.specs.Machine.{exit_if};
ghost use Rattle.configuration.specs.Inner.Place.{words};
ghost use Rattle.pattern_word.specs.Inner.Span.{real};
ghost use Rattle.sample_row.specs.Inner.Moves.{Movable};
ghost use Rattle.sample_row.specs.Inner.Reading.{Ready};
ghost use Rattle.cells.specs.Inner.Columns.{place_field, pattern_field, way_field, column, word_column, columns_of};
ghost use Rattle.cells.specs.Inner.Entries.{entries_of};
ghost use Rattle.search_table.specs.Inner.Way.{place_on, Passable, is_read, counted_of, reads_on};
ghost use Rattle.sample.specs.Inner.Steps.{wish_of, takes_record, term_in, quiet_walk, walk_to, row_to, last_row, OpFits, Low};
ghost use Rattle.sample.specs.Inner.Sampling.{course_in, exits_along, CourseLeads, Ends, Roomy, Following, WrittenBy, Tabled, NearestIs};
ghost use Rattle.sample.specs.Inner.Picking.{PickedIs};

use cells::Cell;
use configuration::{Action, Op, Words, place};
use flow::{Flow, Refusal};
use pattern_word::Coding;
use sample_row::Walk;

// A sample: the exit's distance, the number of tapes, and their lengths in the record row.
#[derive(Clone, Copy, Debug, PartialEq, Eq)]
pub struct SampleAnswer {
    pub distance: usize,
    pub tapes: usize,
    pub lengths: [usize; Flow::TAPES],
}

// A flow as a sample follows it: its instructions, prepared, and C1 and C2.
#[derive(Clone, Copy, Debug, PartialEq, Eq)]
pub struct Program {
    pub ops: [Op; Flow::MAX_INSTRUCTIONS],
    pub lo: i32,
    pub hi: i32,
}

// The whole number that the value y of a search stands for.
fn real(y: u64, lo: i32) -> i32
    requires y_bound { y < 65536 }
    requires low { Low lo }
    ensures { result ≡ real lo y }
{
    lo - pattern_word::LOW as i32 + y as i32
}

// Values of the pattern of a word.
#[tactic(auto, using(crate::proofs::Numbers::values_small))]
fn wish_of(coding: &Coding, word: u64, lo: i32) -> [i32; Flow::VARIABLES]
    requires { Low lo }
    ensures { result ≡ wish_of lo coding.now.w word }
{
    let [a, b, c, d] = coding.held(word);
    [real(a, lo), real(b, lo), real(c, lo), real(d, lo)]
}

// The value of term u: a variable, or the constant.
#[tactic(auto, unfolding(crate::specs::Inner::Steps::term_in))]
fn term(values: [i32; Flow::VARIABLES], op: Op, lo: i32, u: u8) -> i32
    requires op_fits { OpFits op }
    requires low { Low lo }
    ensures { result ≡ term_in lo op values u }
{
    if u < Flow::MAX_VARIABLES {
        return values[u as usize];
    }
    lo + op.constant as i32
}

// A step that reads no record.
#[tactic(auto, unfolding(crate::specs::Inner::Steps::quiet_walk))]
fn quiet(mut walk: Walk, op: Op, lo: i32) -> Walk
    requires op_fits { OpFits op }
    requires low { Low lo }
    ensures { result ≡ quiet_walk lo op walk }
{
    if let Action::Assign = op.action {
        walk.values[op.variable as usize] = term(walk.values, op, lo, op.left);
    }
    walk
}

// Whether a step of op to the words `next` reads a record: a read that finds none ends its tape.
#[tactic(auto, unfolding(crate::specs::Inner::Steps::takes_record))]
fn takes_record(op: Op, next: Words) -> bool
    ensures { result ≡ takes_record op next }
{
    matches!(op.action, Action::Read) && !place::ended(next.place, op.tape)
}

// One step, of whatever kind, to the words `next`.
#[tactic(auto, unfolding(crate::specs::Inner::Steps::walk_to, crate::specs::Inner::Steps::row_to))]
fn step(
    row: &mut [i32],
    coding: &Coding,
    program: &Program,
    walk: Walk,
    op: Op,
    next: Words,
) -> Walk
    requires low { Low program.now.lo }
    requires op_fits { OpFits op }
    requires ready { takes_record op next ≡ true
        → Ready walk op.tape op.variable row.old × Movable program.now.lo × Movable program.now.hi }
    ensures { (result ≡ walk_to program.now.lo program.now.hi coding.now.w op next walk)
        × (row.new ≡ row_to program.now.lo program.now.hi coding.now.w op next walk row.old) }
{
    let lo = program.lo;
    if !takes_record(op, next) {
        return quiet(walk, op, lo);
    }
    let wish = wish_of(coding, next.pattern, lo);
    walk.read(
        row,
        lo,
        program.hi,
        wish,
        op.tape as usize,
        op.variable as usize,
    )
}

// The record of the last step, if that step takes p of a read: the one that is chosen for the wish 0.
#[tactic(auto, unfolding(crate::specs::Inner::Steps::last_row))]
fn last_read(row: &mut [i32], program: &Program, walk: Walk, op: Op, exit: bool)
    requires op_fits { OpFits op }
    requires ready { (is_read op.action && exit) ≡ true
        → Ready walk op.tape op.variable row.old × Movable program.now.lo × Movable program.now.hi }
    ensures { row.new ≡ last_row program.now.lo program.now.hi op exit walk row.old }
{
    if matches!(op.action, Action::Read) && exit {
        let v = op.variable as usize;
        let mut wish = walk.values;
        wish[v] = 0;
        walk.read(row, program.lo, program.hi, wish, op.tape as usize, v);
    }
}

// The words at place t of a way.
fn words_on(cells: &[[u32; Cell::WORDS]], t: usize) -> Words
    requires t_in_bounds { t < length cells.now }
    requires t_in_bounds_2 { get_or (column way_field cells.now) t 0 < length cells.now }
    ensures { result ≡ words (place_on (word_column place_field cells.now) (column way_field cells.now) t)
        (get_or (word_column pattern_field cells.now) (get_or (column way_field cells.now) t 0) 0) }
{
    let k = cells::wide(cells::get(cells, t, Cell::WAY));
    search_table::words_at(cells, k)
}

// How many records of each tape the steps of a way take, with the step by which op takes the exit, p if `exit`, at its end.
fn sizes_of(
    cells: &[[u32; Cell::WORDS]],
    steps: usize,
    ops: [Op; Flow::MAX_INSTRUCTIONS],
    op: Op,
    exit: bool,
) -> [usize; Flow::TAPES]
    requires { Passable (word_column place_field cells.now) (column way_field cells.now) steps }
    ensures { result ≡ counted_of (reads_on ops (word_column place_field cells.now) (column way_field cells.now) steps) op exit }
{
    let counts = search_table::reads(cells, ops, steps);
    search_table::counted(counts, op, exit).map(cells::wide)
}

// The steps of a way, from its start to its end.
fn write_steps(
    cells: &[[u32; Cell::WORDS]],
    coding: &Coding,
    steps: usize,
    program: &Program,
    sizes: [usize; Flow::TAPES],
    row: &mut [i32],
) -> Walk
    requires course_leads { (flow : FlowOf) × CourseLeads (course_in cells.now steps coding.now.w program.now) flow }
    requires roomy { Roomy (course_in cells.now steps coding.now.w program.now) sizes (length row.old) }
    ensures { (flow : FlowOf)
        → CourseLeads (course_in cells.now steps coding.now.w program.now) flow
        → Following (course_in cells.now steps coding.now.w program.now) flow sizes
        row.old steps result row.new }
{
    let mut walk = Walk::new(sizes);
    for t in 0..steps {
        let here = words_on(cells, t);
        let op = program.ops[search_table::index(here.place)];
        let next = words_on(cells, t + 1);
        walk = step(row, coding, program, walk, op, next);
    }
    walk
}

// A sample for the exit, p if `exit`, of the instruction at the end of a way: its records in the row, and the lengths of its tapes.
fn write_sample(
    cells: &[[u32; Cell::WORDS]],
    coding: &Coding,
    steps: usize,
    program: &Program,
    exit: bool,
    row: &mut [i32],
) -> [usize; Flow::TAPES]
    requires course_leads { (flow : FlowOf) × CourseLeads (course_in cells.now steps coding.now.w program.now) flow
        × Ends (course_in cells.now steps coding.now.w program.now) flow exit }
    requires steps_in_bounds { suc (exits_along (course_in cells.now steps coding.now.w program.now) steps) ≤ length row.old }
    ensures { (flow : FlowOf)
        → CourseLeads (course_in cells.now steps coding.now.w program.now) flow
        → Ends (course_in cells.now steps coding.now.w program.now) flow exit
        → WrittenBy (course_in cells.now steps coding.now.w program.now) flow exit
        row.old row.new result }
{
    let op = program.ops[search_table::index(search_table::place_on(cells, steps))];
    let sizes = sizes_of(cells, steps, program.ops, op, exit);
    let walk = write_steps(cells, coding, steps, program, sizes, row);
    last_read(row, program, walk, op, exit);
    sizes
}

// The sample for an exit, p if `exit`; entry k is the nearest that takes it. The way to the entry is written into the cells, and the records
// that are read on it into the row.
fn sample_at(
    cells: &mut [[u32; Cell::WORDS]],
    coding: &Coding,
    n: usize,
    program: &Program,
    tapes: usize,
    k: usize,
    exit: bool,
    row: &mut [i32],
) -> Result<Option<SampleAnswer>, Refusal>
    requires by_index { (flow : FlowOf) × (i : ℕ)
        × Tabled flow (entries_of (columns_of cells.old)) n (length cells.old) coding.now.w program.now i
        × NearestIs coding.now.w (entries_of (columns_of cells.old)) n program.now.ops i (exit_if exit) (Some k) }
    ensures { (flow : FlowOf) (i : ℕ)
        → Tabled flow (entries_of (columns_of cells.old)) n
        (length cells.old) coding.now.w program.now i
        → NearestIs coding.now.w (entries_of (columns_of cells.old)) n program.now.ops i
        (exit_if exit) (Some k)
        → PickedIs flow tapes i (exit_if exit) row.old row.new result }
{
    let d = cells::wide(cells::get(cells, k, Cell::DISTANCE));
    let steps = cells::depth(cells, n, k);
    let short = row.len() <= d;
    if short {
        return Err(Refusal::ShortRow);
    }
    cells::trace(cells, n, k, steps);
    let lengths = write_sample(cells, coding, steps, program, exit, row);
    let distance = d + 1;
    Ok(Some(SampleAnswer {
        distance,
        tapes,
        lengths,
    }))
}

// The sample for an exit of an instruction, p if `exit`, of a flow with so many tapes, from a finished table of n entries.
pub fn sample_for(
    cells: &mut [[u32; Cell::WORDS]],
    coding: &Coding,
    n: usize,
    program: &Program,
    tapes: usize,
    instruction: usize,
    exit: bool,
    row: &mut [i32],
) -> Result<Option<SampleAnswer>, Refusal>
    requires tabled { (flow : FlowOf)
        × Tabled flow (entries_of (columns_of cells.old)) n (length cells.old) coding.now.w program.now instruction }
    ensures { (flow : FlowOf)
        → Tabled flow (entries_of (columns_of cells.old)) n
        (length cells.old) coding.now.w program.now instruction
        → PickedIs flow tapes instruction (exit_if exit) row.old row.new result }
{
    let op = program.ops[instruction - 1];
    match search_table::nearest(cells, coding, n, op, instruction, exit) {
        Some(k) => sample_at(cells, coding, n, program, tapes, k, exit, row),
        None => Ok(None),
    }
}
