// What a search needs of a flow.
ghost use Rattle.std.specs.Prelude.{◌≤◌};
ghost use Rattle.flow.specs.Limits.{max_instructions};
ghost use Rattle.flow.specs.Legal.{Legal};
ghost use Rattle.flow.specs.Inner.Rows.{flow_of};
ghost use Rattle.configuration.specs.Inner.Op.{op_of};
ghost use Rattle.search_table.specs.Inner.Passes.{blank};
ghost use Rattle.tape_maker.specs.Inner.Plan.{AllFitBytes, Each, Planned};

use configuration::{Op, Words, forms};
use flow::{Flow, Instruction};
use sample::Program;

// What a search needs of a flow: its instructions, prepared, with C1 and C2; the width of its constants; and the start.
#[derive(Clone, Copy)]
pub struct Plan {
    pub program: Program,
    pub w: u64,
    pub start: Words,
}

// The instructions, prepared for the search.
fn prepare(
    instructions: [Instruction; Flow::MAX_INSTRUCTIONS],
    count: usize,
    lo: i32,
) -> [Op; Flow::MAX_INSTRUCTIONS]
    requires { (count ≤ max_instructions) × AllFitBytes instructions count }
    ensures { Each (op_of lo) blank instructions count result }
{
    let mut ops = [Op::stop(); Flow::MAX_INSTRUCTIONS];
    for i in 0..count {
        ops[i] = forms::prepare(instructions[i], lo);
    }
    ops
}

// The plan of a legal flow.
pub fn plan_of(flow: Flow) -> Plan
    requires { Legal (flow_of flow) × (flow.count ≤ max_instructions) }
    ensures { Planned (flow_of flow) result }
{
    let range = constants::range_of(flow);
    Plan {
        program: Program {
            ops: prepare(flow.instructions, flow.count, range.lo),
            lo: range.lo,
            hi: range.hi,
        },
        w: constants::width(range),
        start: configuration::start(range.lo),
    }
}
