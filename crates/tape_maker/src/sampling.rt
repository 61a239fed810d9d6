// A sample for one exit.
ghost use Rattle.std.specs.Prelude.{◌≡◌, ◌≤◌};
ghost use Rattle.model.specs.Machine.{exit_if};
ghost use Rattle.flow.specs.Limits.{max_instructions};
ghost use Rattle.flow.specs.Legal.{Legal};
ghost use Rattle.flow.specs.Read.{read_flow};
ghost use Rattle.flow.specs.Inner.Rows.{flow_of};
ghost use Rattle.cells.specs.Cells.{cells_of};
ghost use Rattle.tape_maker.specs.Sample.{Answered, SampleOf};
ghost use Rattle.tape_maker.specs.Inner.Plan.{exits_at};

use crate::planning;
use cells::Cell;
use flow::{Flow, Instruction, Refusal, lent};
use outside_row::Table;
use pattern_word::Coding;
use sample::SampleAnswer;

// Whether instruction number i exists and has two exits.
fn has_exits(instructions: [Instruction; Flow::MAX_INSTRUCTIONS], count: usize, i: usize) -> bool
    requires { count ≤ max_instructions }
    ensures { result ≡ exits_at instructions count i }
{
    if i == 0 {
        return false;
    }
    if count < i {
        return false;
    }
    lent::fetch(&instructions, i - 1).kind.has_exits()
}

// The sample for an exit of a legal flow, p if `exit`, or the refusal.
fn sample_flow(
    flow: Flow,
    instruction: usize,
    exit: bool,
    cells: &mut [[u32; Cell::WORDS]],
    row: &mut [i32],
) -> Result<Option<SampleAnswer>, Refusal>
    requires { Legal (flow_of flow) × (flow.count ≤ max_instructions) }
    ensures { Answered (flow_of flow) instruction (exit_if exit) (cells_of cells.old) row.old row.new result }
{
    if !has_exits(flow.instructions, flow.count, instruction) {
        return Err(Refusal::NoSuchExit);
    }
    let plan = planning::plan_of(flow);
    let table = Table::new();
    let coding = Coding::new(&table, plan.w);
    match search::search(cells, &coding, plan.program.ops, plan.start) {
        None => Err(Refusal::TooFewCells),
        Some(n) => {
            let tapes = flow.tapes as usize;
            sample::sample_for(
                cells,
                &coding,
                n,
                &plan.program,
                tapes,
                instruction,
                exit,
                row,
            )
        }
    }
}

// The sample for an exit of a text's flow, or the refusal.
#[tactic(auto, unfolding(crate::specs::Sample::SampleOf))]
pub fn answer(
    text: &[u8],
    instruction: usize,
    exit: bool,
    cells: &mut [[u32; Cell::WORDS]],
    row: &mut [i32],
) -> Result<Option<SampleAnswer>, Refusal>
    ensures { SampleOf (read_flow text.now) instruction (exit_if exit) (cells_of cells.old) row.old row.new result }
{
    let flow = crate::read(text)?;
    sample_flow(flow, instruction, exit, cells, row)
}
