// The constants of a flow: C1 and C2, how many whole numbers there are from C1 to C2, and how far a constant lies above C1.
#![tactic(auto)]

ghost use Rattle.std.specs.Prelude.{◌≡◌, ◌≤◌};
ghost use Rattle.model.specs.Language.{C1, C2};
ghost use Rattle.model.specs.Pattern.{width_of};
ghost use Rattle.flow.specs.Limits.{max_instructions};
ghost use Rattle.flow.specs.Inner.Rows.{instruction_of, flow_of};
ghost use Rattle.constants.specs.Inner.Constants.{offset, constant_in};

use flow::{Flow, Instruction};

// The least and the greatest basic constant.
#[derive(Clone, Copy, Debug, PartialEq, Eq)]
pub struct Range {
    pub lo: i32,
    pub hi: i32,
}

// How far c lies above lo.
pub fn offset_of(c: i32, lo: i32) -> u32
    ensures { result ≡ offset c lo }
{
    let d = c as i64 - lo as i64;
    if d < 0 { 0 } else { d as u32 }
}

// How many whole numbers there are from lo to hi.
pub fn width(range: Range) -> u64
    ensures { result ≡ width_of range.lo range.hi }
{
    offset_of(range.hi, range.lo) as u64 + 1
}

// The constant of an instruction; 0, itself a basic constant, of one that has none.
fn constant(x: Instruction) -> i32
    ensures { result ≡ constant_in (instruction_of x) }
{
    for (k, sort) in x.kind.sorts().iter().enumerate() {
        if sort.may_minus() {
            return x.number(k);
        }
    }
    0
}

// C1 and C2 of a flow.
pub fn range_of(flow: Flow) -> Range
    requires { flow.count ≤ max_instructions }
    ensures { (result.lo ≡ C1 (flow_of flow)) × (result.hi ≡ C2 (flow_of flow)) }
{
    let mut lo: i32 = 0;
    let mut hi: i32 = 0;
    for i in (0..flow.count).rev() {
        let c = constant(flow.instructions[i]);
        lo = lo.min(c);
        hi = hi.max(c);
    }
    Range { lo, hi }
}
