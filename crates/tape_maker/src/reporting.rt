// The report.
ghost use Rattle.std.specs.Prelude.{false, ◌≤◌};
ghost use Rattle.model.specs.Language.{has_exits};
ghost use Rattle.flow.specs.Limits.{max_instructions};
ghost use Rattle.flow.specs.Legal.{Legal};
ghost use Rattle.flow.specs.Read.{read_flow};
ghost use Rattle.flow.specs.Inner.Rows.{flow_of};
ghost use Rattle.cells.specs.Cells.{cells_of};
ghost use Rattle.tape_maker.specs.Report.{FlowReport, ReportOf};
ghost use Rattle.tape_maker.specs.Inner.Plan.{Each};

use crate::{ReportAnswer, planning};
use cells::Cell;
use flow::{Flow, Instruction, Refusal};
use outside_row::Table;
use pattern_word::Coding;

// Which of the instructions have two exits.
fn twos(
    instructions: [Instruction; Flow::MAX_INSTRUCTIONS],
    count: usize,
) -> [bool; Flow::MAX_INSTRUCTIONS]
    requires { count ≤ max_instructions }
    ensures { Each has_exits false instructions count result }
{
    let mut two = [false; Flow::MAX_INSTRUCTIONS];
    for i in 0..count {
        two[i] = instructions[i].kind.has_exits();
    }
    two
}

// The report of a legal flow, or the refusal for want of cells.
fn report_flow(flow: Flow, cells: &mut [[u32; Cell::WORDS]]) -> Result<ReportAnswer, Refusal>
    requires { Legal (flow_of flow) × (flow.count ≤ max_instructions) }
    ensures { FlowReport (flow_of flow) (cells_of cells.old) result }
{
    let plan = planning::plan_of(flow);
    let table = Table::new();
    let coding = Coding::new(&table, plan.w);
    match search::search(cells, &coding, plan.program.ops, plan.start) {
        None => Err(Refusal::TooFewCells),
        Some(n) => {
            let d = search_table::exits(cells, &coding, n, plan.program.ops);
            let two = twos(flow.instructions, flow.count);
            let p = d.p;
            let m = d.m;
            Ok(ReportAnswer {
                instructions: flow.count,
                configurations: n,
                two,
                p,
                m,
            })
        }
    }
}

// The report of a text, or its refusal.
#[tactic(auto, unfolding(crate::specs::Report::ReportOf))]
pub fn answer(text: &[u8], cells: &mut [[u32; Cell::WORDS]]) -> Result<ReportAnswer, Refusal>
    ensures { ReportOf (read_flow text.now) (cells_of cells.old) result }
{
    let flow = crate::read(text)?;
    report_flow(flow, cells)
}
