// The bound on the cells that a legal flow takes (document 02, T-01). Every stage is cut off past the most cells, so nothing leaves 64 bits
// whatever the factors, and the answer is the same.
#![tactic(auto)]

ghost use Rattle.std.specs.Prelude.{◌≡◌, ◌+◌, ◌*◌, ◌^◌, ◌≤◌};
ghost use Rattle.patterns.specs.Patterns.{patterns_of};
ghost use Rattle.flow.specs.Limits.{max_instructions, max_tapes, max_variables};
ghost use Rattle.flow.specs.Legal.{Legal};
ghost use Rattle.flow.specs.Inner.Rows.{flow_of};
ghost use Rattle.flow_bound.specs.Bound.{bound_of, bound_answer};
ghost use Rattle.flow_bound.specs.Inner.Capped.{cells_cap, capped_cells};

use cells::Cell;
use flow::Flow;

// At most so many cells are used; numbers are cut off at one more.
const MOST: u64 = Cell::MOST as u64;

const CAP: u64 = MOST + 1;

// x times y, plus c, cut off.
fn times_plus(x: u64, y: u64, c: u64) -> u64
    requires { (x ≤ cells_cap) × (y ≤ cells_cap) × (c ≤ cells_cap) }
    ensures { (result ≡ capped_cells (x * y + c)) × (result ≤ cells_cap) }
{
    (x * y + c).min(CAP)
}

// The number of patterns of v variables, one factor w at a time.
fn pattern_count(v: u8, w: u64) -> u64
    requires { (1 ≤ v) × (v ≤ max_variables) × (w ≤ cells_cap) }
    ensures { (result ≡ capped_cells (patterns_of v w)) × (result ≤ cells_cap) }
{
    match v {
        1 => times_plus(1, w, 2),
        2 => times_plus(times_plus(1, w, 4), w, 8),
        3 => times_plus(times_plus(times_plus(1, w, 6), w, 24), w, 44),
        _ => times_plus(
            times_plus(times_plus(times_plus(1, w, 8), w, 48), w, 176),
            w,
            308,
        ),
    }
}

// The number of sets of t tapes: 2 to the power t.
fn tape_sets(t: u8) -> u64
    requires { (1 ≤ t) × (t ≤ max_tapes) }
    ensures { (result ≡ 2 ^ t) × (result ≤ 8) }
{
    1 << t
}

// How many cells a legal flow takes at most: its instructions, times the sets of tapes whose end was met, times the patterns. `None`: more
// than are used.
pub fn bound_of(flow: Flow) -> Option<usize>
    requires { Legal (flow_of flow) × (flow.count ≤ max_instructions) }
    ensures { result ≡ bound_answer (bound_of (flow_of flow)) }
{
    let w = constants::width(constants::range_of(flow));
    let places = flow.count as u64;
    let ends = tape_sets(flow.tapes);
    let patterns = pattern_count(flow.variables, w);
    let n = times_plus(times_plus(places, ends, 0), patterns, 0);
    let over = MOST < n;
    if over { None } else { Some(n as usize) }
}
