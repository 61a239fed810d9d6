// The records of a sample, written into a lent row.
//
// A path is followed step by step. The values that the run holds are known (`Walk`); at a read the record is chosen so that the
// values get the pattern of the next configuration (choices.rt), the numbers written so far make room for it (moves.rt), and it
// goes behind the records of its tape. `tape_records` hands back one tape's part of the row.
#![tactic(auto)]

mod moves; // moves.rt: one outward
mod choices; // choices.rt: which record

ghost use Rattle.std.specs.Prelude.{◌≡◌, min, ◌+◌, ◌≤◌, ◌<◌, length, set};
ghost use Rattle.model.specs.Tapes.{total};
ghost use Rattle.sample_row.specs.Part.{span_of, IsPart};
ghost use Rattle.sample_row.specs.Inner.Moves.{Movable};
ghost use Rattle.sample_row.specs.Inner.Choices.{chosen, Safe};
ghost use Rattle.sample_row.specs.Inner.Reading.{first_walk, walk_after, row_after, Ready};
ghost use Rattle.sample_row.specs.Inner.WalkFits.{most_records};

use flow::Flow;

// A value for each variable.
pub type Values = [i32; Flow::VARIABLES];

// The way in which numbers lie and move out, away from those between C1 and C2.
#[derive(Clone, Copy, Debug, PartialEq, Eq)]
pub enum Direction {
    Up,
    Down,
}

// What a read gets: a number that needs no room, or the number next to m, outward; then the numbers beyond m move.
#[derive(Clone, Copy, Debug, PartialEq, Eq)]
pub enum Choice {
    Take(i32),
    Between(Direction, i32),
}

// What is held while a sample is written: the values of the variables, how many records each tape has so far, and the cell where
// its part of the row starts.
// Kept: counts and starts are two arrays, since the counts alone are compared with those of a way (crate sample).
#[derive(Clone, Copy, Debug, PartialEq, Eq)]
pub struct Walk {
    pub values: Values,
    pub counts: [usize; Flow::TAPES],
    pub starts: [usize; Flow::TAPES],
}

// A part of a row: the cell where it starts, and how many records it holds.
#[derive(Clone, Copy, Debug, PartialEq, Eq)]
pub struct Span {
    pub start: usize,
    pub count: usize,
}

// A record behind the k records of the part that starts at s.
fn put(row: &mut [i32], s: usize, k: usize, x: i32)
    requires { s + k < length row.old }
    ensures { row.new ≡ set row.old (s + k) x }
{
    let part = &mut row[s..];
    part[k] = x;
}

impl Walk {
    // The start: nothing is written, every variable is 0, and the part of each tape has as many cells as its size.
    pub fn new(sizes: [usize; Flow::TAPES]) -> Self
        requires { total sizes ≤ most_records }
        ensures { result ≡ first_walk sizes }
    {
        Walk {
            values: [0; Flow::VARIABLES],
            counts: [0; Flow::TAPES],
            starts: [0, sizes[0], sizes[0] + sizes[1]],
        }
    }

    // The chosen record to tape a and variable v, and room for it among the records and values so far.
    #[tactic(auto, unfolding(crate::specs::Inner::Choices::move_of, crate::specs::Inner::Reading::roomed))]
    fn add_record(mut self, row: &mut [i32], a: usize, v: usize, choice: Choice) -> Self
        requires { Ready self a v row.old × Safe choice }
        ensures { (result ≡ walk_after choice a v self) × (row.new ≡ row_after choice a self row.old) }
    {
        if let Choice::Between(out, m) = choice {
            self.shift_records(row, out, m);
            moves::shift(&mut self.values, out, m);
        }
        let x = choice.record();
        self.values[v] = x;
        put(row, self.starts[a], self.counts[a], x);
        self.counts[a] += 1;
        self
    }

    // One read that takes p: tape a gives variable v a record, so that the values get the pattern of the wish.
    #[tactic(auto, using(crate::proofs::ChoiceLaws::chosen_safe))]
    pub fn read(self, row: &mut [i32], lo: i32, hi: i32, wish: Values, a: usize, v: usize) -> Self
        requires { Ready self a v row.old × Movable lo × Movable hi }
        ensures { (result ≡ walk_after (chosen lo hi wish self.values v) a v self)
            × (row.new ≡ row_after (chosen lo hi wish self.values v) a self row.old) }
    {
        let choice = Choice::new(lo, hi, wish, self.values, v);
        self.add_record(row, a, v, choice)
    }
}

// The lengths together, or the cap if they reach it.
#[tactic(auto, using(crate::proofs::Spans::total_take), unfolding(model::specs::Tapes::total))]
fn capped(lengths: &[usize], cap: usize) -> usize
    ensures { result ≡ min (total lengths.now) cap }
{
    let mut sum: usize = 0;
    for x in lengths {
        if cap - sum <= *x {
            return cap;
        }
        sum += *x;
    }
    sum
}

// Where the part of the row that holds the records of one tape, counted from 1, starts, and how many it holds.
#[tactic(auto, using(crate::proofs::Spans::total_le), unfolding(crate::specs::Part::span_of))]
pub fn span_of(row: &[i32], lengths: &[usize], tape: usize) -> Span
    ensures { result ≡ span_of lengths.now tape (length row.now) }
{
    let nothing = Span { start: 0, count: 0 };
    if tape == 0 || lengths.len() < tape {
        return nothing;
    }
    let cap = row.len() + 1;
    let all = capped(lengths, cap);
    if row.len() < all {
        return nothing;
    }
    let a = tape - 1;
    Span {
        start: capped(&lengths[..a], cap),
        count: lengths[a],
    }
}

// The part of the row that holds the records of one tape, counted from 1.
#[tactic(auto, using(crate::proofs::Spans::span_fits))]
pub fn tape_records<'a>(row: &'a [i32], lengths: &[usize], tape: usize) -> &'a [i32]
    ensures { IsPart (span_of lengths.now tape (length row.now)) row.now row.entry.ref_ptr result.now result.ref_ptr }
{
    let Span { start, count } = span_of(row, lengths, tape);
    &row[start..start + count]
}
