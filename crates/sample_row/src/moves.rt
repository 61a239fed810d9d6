// Records and values moved one outward.
ghost use Rattle.std.specs.Prelude.{◌≡◌, map, ◌+◌, ◌≤◌, length, take, drop};
ghost use Rattle.sample_row.specs.Inner.Moves.{further, outward, moved, Movable};
ghost use Rattle.sample_row.specs.Inner.Layout.{on_part, on_parts, Apart};
ghost use Rattle.sample_row.specs.Inner.Reading.{tapes_written};
ghost use Rattle.model.specs.Inner.Lists.{All};

use crate::{Direction, Walk};

impl Direction {
    // Does y lie further out than x?
    pub(crate) fn further(self, x: i32, y: i32) -> bool
        ensures { result ≡ further self x y }
    {
        match self {
            Direction::Up => x < y,
            Direction::Down => y < x,
        }
    }

    // The next number out. Below C1 a record is built by subtraction.
    pub(crate) fn outward(self, x: i32) -> i32
        requires { Movable x }
        ensures { result ≡ outward self x }
    {
        match self {
            Direction::Up => x + 1,
            Direction::Down => x - 1,
        }
    }

    // x, moved if it lies further out than m.
    #[tactic(auto, unfolding(crate::specs::Inner::Moves::moved))]
    fn moved(self, m: i32, x: i32) -> i32
        requires { Movable x }
        ensures { result ≡ moved self m x }
    {
        if self.further(m, x) {
            self.outward(x)
        } else {
            x
        }
    }
}

// Moves all numbers of a part, also those that no variable holds any more: else an earlier comparison could have another result.
pub fn shift(part: &mut [i32], out: Direction, m: i32)
    requires { All Movable part.old }
    ensures { part.new ≡ map (moved out m) part.old }
{
    for x in part.iter_mut() {
        *x = out.moved(m, *x);
    }
}

// The k records of the part that starts at s.
fn shift_part(row: &mut [i32], s: usize, k: usize, out: Direction, m: i32)
    requires { (s + k ≤ length row.old) × All Movable (take k (drop s row.old)) }
    ensures { row.new ≡ on_part (moved out m) s k row.old }
{
    shift(&mut row[s..s + k], out, m);
}

impl Walk {
    // The records of all tapes.
    #[tactic(auto, using(crate::proofs::Parts::parts_short))]
    pub(crate) fn shift_records(self, row: &mut [i32], out: Direction, m: i32)
        requires { Apart 0 self.starts self.counts (length row.old) × All (All Movable) (tapes_written self row.old) }
        ensures { row.new ≡ on_parts (moved out m) self.starts self.counts row.old }
    {
        for (s, k) in self.starts.iter().zip(self.counts.iter()) {
            shift_part(row, *s, *k, out, m);
        }
    }
}
