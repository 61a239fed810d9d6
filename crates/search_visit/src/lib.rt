// How the table of configurations grows: words that are not stored yet are stored, one by one or a fan at a time.
//
// A read that finds a record leads to a fan: words that differ in one variable. The fan depends on its first member alone, so the cell of that
// member has a mark for each variable that says that the fan is stored whole. A configuration lies in at most four fans, one for each variable,
// and a fan is walked once: a search is linear in the configurations.
#![tactic(auto)]

ghost use Rattle.std.specs.Prelude.{◌≡◌, ◌<◌, option_map};
ghost use Rattle.pattern_word.specs.Inner.Pattern.{low, assign_of};
ghost use Rattle.cells.specs.Inner.Columns.{columns_of};
ghost use Rattle.cells.specs.Inner.Entries.{FilledIn};
ghost use Rattle.search_visit.specs.Inner.Visit.{VisitedIn};
ghost use Rattle.search_visit.specs.Inner.Fan.{FreshIn, MembersIn, SearchReady, LeadsTo, opens_of, InFan, FanFits, GrownIs};

use cells::Cell;
use configuration::{Action, Op, Words, place};
use pattern_word::Coding;

// Where a visit finds or stores its words: the entry, and the number of entries then.
#[derive(Clone, Copy, Debug, PartialEq, Eq)]
pub struct Visited {
    pub entry: usize,
    pub count: usize,
}

// Stores the words y, if they are not stored yet, at distance d and with parent k. `None` says that no cell is left.
pub fn visit(
    cells: &mut [[u32; Cell::WORDS]],
    count: usize,
    size: usize,
    d: u32,
    k: usize,
    y: Words,
) -> Option<Visited>
    requires filled_in { FilledIn cells.old count size }
    requires k_lt_count { k < count }
    ensures visited_in { VisitedIn cells.old cells.new count size d k y result }
    ensures fresh_in { FreshIn cells.old cells.new count (option_map (λ v. v.count) result) }
{
    if let Some(entry) = cells::find(cells, count, size, y.place, y.pattern) {
        return Some(Visited { entry, count });
    }
    let n = count + 1;
    if size < n {
        return None;
    }
    cells::add(cells, count, size, y.place, y.pattern, d, k as u32);
    Some(Visited {
        entry: count,
        count: n,
    })
}

// Visits the fan over v whose first member is `first`. The records go from one below C1 and all values to one above C2 and all values: those
// farther out give the same words.
fn members(
    cells: &mut [[u32; Cell::WORDS]],
    coding: &Coding,
    count: usize,
    size: usize,
    d: u32,
    k: usize,
    v: u8,
    first: Words,
) -> Option<usize>
    requires filled_in { FilledIn cells.old count size }
    requires k_lt_count { k < count }
    requires pattern_value { first.pattern ≡ assign_of coding.now.w first.pattern v low }
    ensures members_in { MembersIn coding.now.w v first cells.old cells.new count size d k result }
    ensures fresh_in { FreshIn cells.old cells.new count result }
{
    let values = coding.held(first.pattern);
    let last = coding.last_trial(values);
    let mut n = count;
    for y in pattern_word::first_trial(values)..=last {
        let member = Words {
            place: first.place,
            pattern: coding.fan_at(first.pattern, values, v, y),
        };
        n = visit(cells, n, size, d, k, member)?.count;
    }
    Some(n)
}

// Whether the instruction is a read that can find a record.
#[tactic(auto, unfolding(crate::specs::Inner::Fan::opens_of))]
fn opens(op: Op, x: Words) -> bool
    ensures { result ≡ opens_of op x }
{
    matches!(op.action, Action::Read) && !place::ended(x.place, op.tape)
}

// Visits what a read that finds a record leads to from x, which is entry k: its fan, unless the fan is marked. The mark is set before the
// members are stored: if one of them finds no cell, the search is over.
pub fn fan(
    cells: &mut [[u32; Cell::WORDS]],
    coding: &Coding,
    count: usize,
    size: usize,
    d: u32,
    k: usize,
    op: Op,
    x: Words,
) -> Option<usize>
    requires search_ready { SearchReady coding.now.w (columns_of cells.old) count size }
    requires k_lt_count { k < count }
    requires fan_fits { FanFits coding.now.w op x }
    ensures { GrownIs (LeadsTo coding.now.w op x) (InFan coding.now.w op x) coding.now.w (columns_of cells.old) (columns_of cells.new) count size d k result }
{
    if !opens(op, x) {
        return Some(count);
    }
    let first = configuration::take(coding, op, x, pattern_word::LOW);
    let Visited { entry, count } = visit(cells, count, size, d, k, first)?;
    let v = op.variable as usize;
    if cells::marked(cells, entry, v) {
        return Some(count);
    }
    cells::mark(cells, entry, v);
    members(cells, coding, count, size, d, k, op.variable, first)
}
