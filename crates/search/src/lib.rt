// The search over the configurations of a flow in the order of distance, in lent cells. Entries are expanded in the order in which they were
// stored. A step that takes no exit costs nothing: what it leads to is stored, at the same distance, before an exit is followed. The entry is then
// settled.
#![tactic(auto)]

ghost use Rattle.std.specs.Prelude.{◌≡◌, ◌<◌, get_or};
ghost use Rattle.configuration.specs.Inner.Step.{start_of};
ghost use Rattle.cells.specs.Cells.{most_cells, cells_of};
ghost use Rattle.cells.specs.Inner.Columns.{distance_field, column, columns_of};
ghost use Rattle.cells.specs.Inner.Entries.{entries_of};
ghost use Rattle.search_table.specs.Inner.Table.{words_at};
ghost use Rattle.search_visit.specs.Inner.Fan.{SearchReady, FanFits};
ghost use Rattle.search.specs.Inner.Search.{Subject, ExpandedIs, Exploring, SearchedIs};

use cells::Cell;
use configuration::{Op, Words};
use flow::Flow;
use pattern_word::Coding;

// Visits what entry i leads to, if its step costs nothing. What `stop` leads to, itself, is stored.
fn settle(
    cells: &mut [[u32; Cell::WORDS]],
    coding: &Coding,
    count: usize,
    size: usize,
    i: usize,
    op: Op,
) -> Option<usize>
    requires search_ready { SearchReady coding.now.w (columns_of cells.old) count size }
    requires i_lt_count { i < count }
    requires fan_fits { FanFits coding.now.w op (words_at (entries_of (columns_of cells.old)) i) }
    ensures { ExpandedIs coding.now.w op
        (columns_of cells.old)
        (columns_of cells.new)
        count size i 0 result }
{
    if !configuration::goes_on(op) {
        return Some(count);
    }
    let x = search_table::words_at(cells, i);
    let d = cells::get(cells, i, Cell::DISTANCE);
    let y = configuration::follow(coding, op, x);
    search_visit::visit(cells, count, size, d, i, y).map(|v| v.count)
}

// Visits what entry i leads to, if its steps cost 1.
fn expand(
    cells: &mut [[u32; Cell::WORDS]],
    coding: &Coding,
    count: usize,
    size: usize,
    i: usize,
    op: Op,
) -> Option<usize>
    requires search_ready { SearchReady coding.now.w (columns_of cells.old) count size }
    requires i_lt_count { i < count }
    requires fan_fits { FanFits coding.now.w op (words_at (entries_of (columns_of cells.old)) i) }
    requires i_bound { get_or (column distance_field cells.old) i 0 < most_cells }
    ensures { ExpandedIs coding.now.w op
        (columns_of cells.old)
        (columns_of cells.new)
        count size i 1 result }
{
    if configuration::weight(op) != 1 {
        return Some(count);
    }
    let x = search_table::words_at(cells, i);
    let d = cells::get(cells, i, Cell::DISTANCE) + 1;
    let n = search_visit::fan(cells, coding, count, size, d, i, op, x)?;
    let y = configuration::branch(coding, op, x);
    search_visit::visit(cells, n, size, d, i, y).map(|v| v.count)
}

// Looks at each entry twice until none is left or no cell is: c is the first that is not settled and k, when all are settled, the first that is
// not expanded. Instruction number i is ops[i - 1].
fn walk(
    cells: &mut [[u32; Cell::WORDS]],
    coding: &Coding,
    size: usize,
    ops: [Op; Flow::MAX_INSTRUCTIONS],
) -> Option<usize>
    requires { (s : Subject coding.now.w ops) × Exploring s.lo coding.now.w s.flow
        (columns_of cells.old) 1 size 0 0 }
    ensures { (s : Subject coding.now.w ops) → Exploring s.lo coding.now.w s.flow
        (columns_of cells.old) 1 size 0 0
        → SearchedIs s.lo coding.now.w s.flow
        (columns_of cells.new) size result }
{
    let mut n = 1;
    let mut c = 0;
    let mut k = 0;
    // Kept: no index counts the turns; each advances c or k, and an entry that is stored in a turn is met in a later one.
    while k < n {
        let unsettled = c < n;
        if unsettled {
            let i = search_table::index(cells::word(cells, c, Cell::PLACE));
            let op = ops[i];
            n = settle(cells, coding, n, size, c, op)?;
            c += 1;
        } else {
            let i = search_table::index(cells::word(cells, k, Cell::PLACE));
            let op = ops[i];
            n = expand(cells, coding, n, size, k, op)?;
            k += 1;
        }
    }
    Some(n)
}

// Everything that the flow reaches from its start. Where the cells are too few they are not zeroed here.
pub fn search(
    cells: &mut [[u32; Cell::WORDS]],
    coding: &Coding,
    ops: [Op; Flow::MAX_INSTRUCTIONS],
    start: Words,
) -> Option<usize>
    requires { (s : Subject coding.now.w ops) × (start ≡ start_of s.lo) }
    ensures { (s : Subject coding.now.w ops) → start ≡ start_of s.lo
        → SearchedIs s.lo coding.now.w s.flow
        (columns_of cells.new)
        (cells_of cells.old) result }
{
    let size = cells::cells_of(cells);
    let empty = size == 0;
    if empty {
        return None;
    }
    cells::begin(cells, size, start.place, start.pattern);
    walk(cells, coding, size, ops)
}
