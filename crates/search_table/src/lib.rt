// Passes over the entries of a finished table of configurations (specs/Inner/Table.antt): the distances of all exits, the entry that is nearest to
// one exit, and how many records each tape yields on the way to an entry. What they find is said in specs/Inner/Passes.antt and specs/Inner/Way.antt;
// the laws of proofs/ lead from there to the distances and the count of configurations of document 01.
#![tactic(auto)]

ghost use Rattle.std.specs.Prelude.{◌≡◌, not, cond, ◌&&◌, ◌||◌, ◌+◌, ◌≤◌, ◌<◌, length, get_or, eqb};
ghost use Rattle.model.specs.Machine.{p_exit, m_exit, exit_if};
ghost use Rattle.flow.specs.Limits.{max_instructions};
ghost use Rattle.configuration.specs.Inner.Place.{at_of};
ghost use Rattle.configuration.specs.Inner.Step.{weight_of, takes_of};
ghost use Rattle.pattern_word.specs.Inner.Digits.{Below};
ghost use Rattle.cells.specs.Inner.Columns.{place_field, pattern_field, distance_field, way_field, column, word_column, columns_of};
ghost use Rattle.cells.specs.Inner.Entries.{entries_of};
ghost use Rattle.search_table.specs.Inner.Table.{words_at};
ghost use Rattle.search_table.specs.Inner.Passes.{Stands, Walkable, takes_at, FirstIs, ExitsOf};
ghost use Rattle.search_table.specs.Inner.Way.{place_on, Passable, counted_of, reads_on};

use cells::Cell;
use configuration::{Action, Op, Words, place};
use flow::Flow;
use pattern_word::Coding;

// The distances of the exits p and m of every instruction, that of instruction i at i - 1; 0 for none.
#[derive(Clone, Copy, Debug, PartialEq, Eq)]
pub struct Distances {
    pub p: [u32; Flow::MAX_INSTRUCTIONS],
    pub m: [u32; Flow::MAX_INSTRUCTIONS],
}

// The words of entry k.
pub fn words_at(cells: &[[u32; Cell::WORDS]], k: usize) -> Words
    requires { k < length cells.now }
    ensures { result ≡ words_at (entries_of (columns_of cells.now)) k }
{
    Words {
        place: cells::word(cells, k, Cell::PLACE),
        pattern: cells::word(cells, k, Cell::PATTERN),
    }
}

// The index, in an array by instruction, of the instruction at which a place word stands.
pub fn index(place: u64) -> usize
    requires { Stands place }
    ensures { (at_of place ≡ result + 1) × (result < max_instructions) }
{
    place::at(place) - 1
}

// The number listed for an exit after an entry at distance d - 1: that of the first entry that takes the exit stays.
fn kept(cell: u32, taken: bool, d: u32) -> u32
    ensures { result ≡ cond (taken && eqb cell 0) d cell }
{
    if taken && cell == 0 { d } else { cell }
}

// What is listed for the two exits of one instruction.
#[derive(Clone, Copy, Debug, PartialEq, Eq)]
struct Numbers {
    p: u32,
    m: u32,
}

// The numbers listed for the exits of an instruction after its entry x, at distance d - 1.
fn list_exits(coding: &Coding, p: u32, m: u32, op: Op, x: Words, d: u32) -> Numbers
    ensures { (result.p ≡ cond (takes_of coding.now.w op x p_exit && eqb p 0) d p) × (result.m ≡ cond (takes_of coding.now.w op x m_exit && eqb m 0) d m) }
{
    let taken = configuration::exits_of(coding, op, x);
    Numbers {
        p: kept(p, taken.p, d),
        m: kept(m, taken.m, d),
    }
}

// Whether the instruction has an exit that is not listed.
fn unlisted(op: Op, p: u32, m: u32) -> bool
    ensures { result ≡ (not (eqb (weight_of op) 0) && (eqb p 0 || eqb m 0)) }
{
    configuration::weight(op) != 0 && (p == 0 || m == 0)
}

// The distances of all exits. An entry at which none is left to list is not looked into.
pub fn exits(
    cells: &[[u32; Cell::WORDS]],
    coding: &Coding,
    n: usize,
    ops: [Op; Flow::MAX_INSTRUCTIONS],
) -> Distances
    requires { Walkable (word_column place_field cells.now) (word_column pattern_field cells.now) (column distance_field cells.now) n }
    ensures { ExitsOf coding.now.w (word_column place_field cells.now) (word_column pattern_field cells.now) (column distance_field cells.now) n ops result }
{
    let mut p: [u32; Flow::MAX_INSTRUCTIONS] = [0; Flow::MAX_INSTRUCTIONS];
    let mut m: [u32; Flow::MAX_INSTRUCTIONS] = [0; Flow::MAX_INSTRUCTIONS];
    for k in 0..n {
        let i = index(cells::word(cells, k, Cell::PLACE));
        let op = ops[i];
        if unlisted(op, p[i], m[i]) {
            let d = cells::get(cells, k, Cell::DISTANCE) + 1;
            let listed = list_exits(coding, p[i], m[i], op, words_at(cells, k), d);
            p[i] = listed.p;
            m[i] = listed.m;
        }
    }
    Distances { p, m }
}

// Whether words stand at the instruction, prepared as op, and can take the exit, p if `exit`.
fn takes(coding: &Coding, x: Words, op: Op, instruction: usize, exit: bool) -> bool
    ensures { result ≡ (eqb (at_of x.place) instruction && takes_of coding.now.w op x (exit_if exit)) }
{
    if place::at(x.place) != instruction {
        return false;
    }
    let taken = configuration::exits_of(coding, op, x);
    if exit { taken.p } else { taken.m }
}

// The first entry that stands at the instruction, prepared as op, and takes the exit, p if `exit`: none is nearer.
pub fn nearest(
    cells: &[[u32; Cell::WORDS]],
    coding: &Coding,
    n: usize,
    op: Op,
    instruction: usize,
    exit: bool,
) -> Option<usize>
    requires { n ≤ length cells.now }
    ensures { FirstIs (takes_at coding.now.w (word_column place_field cells.now) (word_column pattern_field cells.now) op instruction (exit_if exit)) n result }
{
    (0..n).find(|k| takes(coding, words_at(cells, *k), op, instruction, exit))
}

// Counts the record, if any, that a step of op takes; `taken` if it takes exit p.
#[tactic(auto, unfolding(crate::specs::Inner::Way::counted_of))]
pub fn counted(counts: [u32; Flow::TAPES], op: Op, taken: bool) -> [u32; Flow::TAPES]
    requires { Below 4294967295 counts }
    ensures { result ≡ counted_of counts op taken }
{
    let a = op.tape as usize;
    let mut more = counts;
    if matches!(op.action, Action::Read) && taken && a < Flow::TAPES {
        more[a] += 1;
    }
    more
}

// The place word of the entry that stands at place t of a way.
pub fn place_on(cells: &[[u32; Cell::WORDS]], t: usize) -> u64
    requires t_in_bounds { t < length cells.now }
    requires t_in_bounds_2 { get_or (column way_field cells.now) t 0 < length cells.now }
    ensures { result ≡ place_on (word_column place_field cells.now) (column way_field cells.now) t }
{
    let k = cells::get(cells, t, Cell::WAY) as usize;
    cells::word(cells, k, Cell::PLACE)
}

// How many records of each tape the steps of a way take, without the step that its last entry takes; a tape that the flow does not have
// yields none.
pub fn reads(
    cells: &[[u32; Cell::WORDS]],
    ops: [Op; Flow::MAX_INSTRUCTIONS],
    last: usize,
) -> [u32; Flow::TAPES]
    requires { Passable (word_column place_field cells.now) (column way_field cells.now) last }
    ensures { result ≡ reads_on ops (word_column place_field cells.now) (column way_field cells.now) last }
{
    let mut counts: [u32; Flow::TAPES] = [0; Flow::TAPES];
    for t in 0..last {
        let op = ops[index(place_on(cells, t))];
        let ended = place::ended(place_on(cells, t + 1), op.tape);
        // Kept: tried as one line, and the proof did not close: the check does not cover a call whose array goes into a variable of the loop.
        let more = counted(counts, op, !ended);
        counts = more;
    }
    counts
}
