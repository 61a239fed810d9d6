// The interpreter: a run of a flow on tapes in a row, with a step limit and two output rows (document 01, "Runs").
//
// `run` gives what `row_run` of specs/Run.antt says. The loop indexes the instructions itself, holds the variables and
// the tapes' places as arrays, and lends these to functions that each do one thing of a step: nothing large is copied.
#![tactic(auto)]

ghost use Rattle.std.specs.Prelude.{◌≡◌, true, false, cond, ◌&&◌, ◌+◌, ◌-◌, ◌≤◌, ◌<◌, min, pos, length, get_or, set};
ghost use Rattle.model.specs.Machine.{p_exit, m_exit};
ghost use Rattle.flow.specs.Limits.{max_instructions, max_variables};
ghost use Rattle.flow.specs.Inner.Reader.{max_numbers};
ghost use Rattle.flow.specs.Legal.{Legal};
ghost use Rattle.flow.specs.declared.Kind.TheVariants.{Read};
ghost use Rattle.flow.specs.Inner.Rows.{flow_of, branches};
ghost use Rattle.model.specs.Tapes.{total};
ghost use Rattle.interpreter.specs.Run.{max_steps, row_run, ran_of, written, tapes_put, values_put, counted};
ghost use Rattle.interpreter.specs.Inner.Arrays.{Placed, RowFits, count_at, straight_on, either_on, stops, outputs, exit_when, Stepped, held_run};

use flow::{Flow, Instruction, Kind};

// A value for each variable, a number for each tape, a count for each instruction.
pub type Variables = [i32; Flow::VARIABLES];

pub type PerTape = [usize; Flow::TAPES];

pub type PerInstruction = [u32; Flow::MAX_INSTRUCTIONS];

// How a run ends: at a `stop`, with the limit of steps used, or at a put with no free cell.
#[derive(Clone, Copy, Debug, PartialEq, Eq)]
pub enum RunEnd {
    Stopped,
    Spent,
    Full,
}

// What a run comes to: its end, the steps and the puts done, and how often each exit was taken, by instruction.
#[derive(Clone, Copy)]
pub struct RunAnswer {
    pub end: RunEnd,
    pub steps: u64,
    pub puts: usize,
    pub p: PerInstruction,
    pub m: PerInstruction,
}

// Kept: the arrays of a run are lent one by one; in a struct with methods on `&mut self`, which was proved too, a step took 1.3 times as long, where 1.05 is wanted.
// The value of variable number u.
fn value(variables: &Variables, u: usize) -> i32
    requires { (1 ≤ u) × (u ≤ max_variables) }
    ensures { result ≡ get_or variables.now (u - 1) (pos 0) }
{
    variables[u - 1]
}

// y to variable number v.
fn assign(variables: &mut Variables, v: usize, y: i32)
    requires { (1 ≤ v) × (v ≤ max_variables) }
    ensures { variables.new ≡ set variables.old (v - 1) y }
{
    variables[v - 1] = y;
}

// Writes what an instruction puts into the output rows, if it is a put, and gives the number of puts done then.
#[tactic(auto, unfolding(crate::specs::Inner::Arrays::RowFits))]
fn put(
    x: Instruction,
    variables: &Variables,
    puts: usize,
    numbers: &mut [u8],
    values: &mut [i32],
) -> usize
    requires row_fits { RowFits x }
    requires puts_in_bounds { outputs x.kind ≡ true → (puts < length numbers.old) × (puts < length values.old) }
    ensures value { result ≡ cond (outputs x.kind) (puts + 1) puts }
    ensures numbers_after { numbers.new ≡ cond (outputs x.kind) (set numbers.old puts (count_at x 1)) numbers.old }
    ensures values_after { values.new
        ≡ cond (outputs x.kind) (set values.old puts (get_or variables.now (count_at x 0 - 1) (pos 0))) values.old }
{
    let kind = x.kind;
    if kind != Kind::Put {
        return puts;
    }
    numbers[puts] = x.count(1) as u8;
    values[puts] = value(variables, x.count(0));
    puts + 1
}

// Where a step goes on, and whether by the first of its targets.
#[derive(Clone, Copy)]
pub struct Onward {
    pub first: bool,
    pub next: usize,
}

// On to N, in field k after the word.
fn straight(x: Instruction, k: usize) -> Onward
    requires { (k < max_numbers) × (1 ≤ count_at x k) }
    ensures { result ≡ straight_on (count_at x k) }
{
    Onward {
        first: true,
        next: x.count(k),
    }
}

// On to P or to M.
fn either(x: Instruction, first: bool) -> Onward
    requires { (1 ≤ count_at x 2) × (1 ≤ count_at x 3) }
    ensures { result ≡ either_on x first }
{
    let k = if first { 2 } else { 3 };
    Onward {
        first,
        next: x.count(k),
    }
}

// The step of a read: on to P if the tape has a record left.
#[tactic(auto, unfolding(crate::specs::Inner::Arrays::RowFits))]
fn read_record(
    x: Instruction,
    records: &[i32],
    variables: &mut Variables,
    at: &mut PerTape,
    ends: &PerTape,
) -> Onward
    requires kind_value { x.kind ≡ Read }
    requires row_fits { RowFits x }
    requires placed { Placed records.now at.old ends.now }
    ensures { Stepped x records.now ends.now
        variables.old at.old variables.new at.new result }
{
    let i = x.count(0) - 1;
    let j = x.count(1) - 1;
    let k = at[i];
    if ends[i] <= k {
        return either(x, false);
    }
    at[i] = k + 1;
    let y = records[k];
    variables[j] = y;
    either(x, true)
}

// One step of an instruction other than `stop`.
#[tactic(auto, unfolding(crate::specs::Inner::Arrays::RowFits))]
fn step(
    x: Instruction,
    records: &[i32],
    variables: &mut Variables,
    at: &mut PerTape,
    ends: &PerTape,
) -> Onward
    requires kind_value { stops x.kind ≡ false }
    requires row_fits { RowFits x }
    requires placed { Placed records.now at.old ends.now }
    ensures { Stepped x records.now ends.now
        variables.old at.old variables.new at.new result }
{
    // Kept: a match on the kind, since each arm is a line of the table of instructions.
    match x.kind {
        Kind::Read => read_record(x, records, variables, at, ends),
        Kind::Put => straight(x, 2),
        Kind::Copy => {
            let y = value(variables, x.count(0));
            assign(variables, x.count(1), y);
            straight(x, 2)
        }
        Kind::Set => {
            assign(variables, x.count(1), x.number(0));
            straight(x, 2)
        }
        Kind::Less => either(
            x,
            value(variables, x.count(0)) < value(variables, x.count(1)),
        ),
        Kind::Over => either(x, x.number(0) < value(variables, x.count(1))),
        Kind::Under => either(x, value(variables, x.count(0)) < x.number(1)),
        Kind::Nop => straight(x, 0),
        Kind::Stop => Onward {
            first: true,
            next: 0,
        },
    }
}

// Counts the exit that instruction i took.
fn count(kind: Kind, first: bool, i: usize, p: &mut PerInstruction, m: &mut PerInstruction)
    requires le_i { (1 ≤ i) × (i ≤ max_instructions) }
    requires i_bound { (get_or p.old (i - 1) 0 < max_steps) × (get_or m.old (i - 1) 0 < max_steps) }
    ensures p_after { p.new ≡ counted (exit_when (branches kind) first) p_exit i p.old }
    ensures m_after { m.new ≡ counted (exit_when (branches kind) first) m_exit i m.old }
{
    if !kind.has_exits() {
        return;
    }
    if first {
        p[i - 1] += 1;
    } else {
        m[i - 1] += 1;
    }
}

// The run with the tapes at these places.
fn run_from(
    flow: Flow,
    limit: u64,
    records: &[i32],
    places: PerTape,
    ends: PerTape,
    cells: usize,
    numbers: &mut [u8],
    values: &mut [i32],
) -> RunAnswer
    requires legal { Legal (flow_of flow) }
    requires limit_le_max_steps { limit ≤ max_steps }
    requires placed { Placed records.now places ends }
    requires cells_in_bounds { (cells ≤ length numbers.old) × (cells ≤ length values.old) }
    ensures value { result ≡ ran_of (held_run flow cells limit records.now places ends) }
    ensures numbers_after { numbers.new
        ≡ written (tapes_put (held_run flow cells limit records.now places ends)) numbers.old }
    ensures values_after { values.new
        ≡ written (values_put (held_run flow cells limit records.now places ends)) values.old }
{
    let mut next: usize = 1;
    let mut variables: Variables = [0; Flow::VARIABLES];
    let mut at = places;
    let mut p: PerInstruction = [0; Flow::MAX_INSTRUCTIONS];
    let mut m: PerInstruction = [0; Flow::MAX_INSTRUCTIONS];
    let mut steps: u64 = 0;
    let mut puts: usize = 0;
    // Kept: a `for` over the steps would have to look at `stop` once more behind its last turn.
    let end = loop {
        let x = flow.instructions[next - 1];
        // Kept: the kind is read once; where each test read it, a step took 1.1 to 1.5 times as long, and its tests were not joined.
        let kind = x.kind;
        if kind == Kind::Stop {
            break RunEnd::Stopped;
        }
        let spent = steps == limit;
        if spent {
            break RunEnd::Spent;
        }
        let full = kind == Kind::Put && cells <= puts;
        if full {
            break RunEnd::Full;
        }
        puts = put(x, &variables, puts, numbers, values);
        let went = step(x, records, &mut variables, &mut at, &ends);
        count(kind, went.first, next, &mut p, &mut m);
        next = went.next;
        steps += 1;
    };
    RunAnswer {
        end,
        steps,
        puts,
        p,
        m,
    }
}

impl RunAnswer {
    // A larger step limit counts as this one.
    pub const MAX_STEPS: u64 = 1000000;
}

// The run of a flow on the tapes of these lengths in the row of records. The output tape and the value of each put go into the first free
// cells of `numbers` and `values`.
pub fn run(
    flow: Flow,
    limit: u64,
    records: &[i32],
    lengths: PerTape,
    numbers: &mut [u8],
    values: &mut [i32],
) -> RunAnswer
    requires legal { Legal (flow_of flow) }
    requires lengths_in_bounds { total lengths ≤ length records.now }
    ensures value { result ≡ ran_of (row_run (flow_of flow) limit records.now lengths numbers.old values.old) }
    ensures numbers_after { numbers.new
        ≡ written (tapes_put (row_run (flow_of flow) limit records.now lengths numbers.old values.old))
        numbers.old }
    ensures values_after { values.new
        ≡ written (values_put (row_run (flow_of flow) limit records.now lengths numbers.old values.old))
        values.old }
{
    let most = limit.min(RunAnswer::MAX_STEPS);
    let cells = numbers.len().min(values.len());
    let a = lengths[0];
    let b = a + lengths[1];
    let c = b + lengths[2];
    run_from(
        flow,
        most,
        records,
        [0, a, b],
        [a, b, c],
        cells,
        numbers,
        values,
    )
}
