// Which record a read gets. This is decided by comparing the wish with the values; the row is not looked at.
ghost use Rattle.std.specs.Prelude.{◌≡◌, ◌<◌};
ghost use Rattle.model.specs.Inner.Runs.{furthest};
ghost use Rattle.flow.specs.Limits.{max_variables};
ghost use Rattle.sample_row.specs.Inner.Moves.{further};
ghost use Rattle.sample_row.specs.Inner.Choices.{first_at, choose_beyond, choose, chosen, record_of, Safe};

use crate::{Choice, Direction, Values};

// What the variables that are not read shall have the pattern of, and what they hold.
#[derive(Clone, Copy)]
struct Others {
    wish: Values,
    values: Values,
}

impl Others {
    // The furthest of the edge and the values whose wish lies before y.
    fn furthest(self, out: Direction, edge: i32, y: i32) -> i32
        ensures { result ≡ furthest (further out) edge y self.wish self.values }
    {
        let mut m = edge;
        for (a, b) in self.wish.iter().zip(self.values.iter()) {
            if out.further(*a, y) && out.further(m, *b) {
                m = *b;
            }
        }
        m
    }

    // The first place of y in the wish.
    fn first_at(self, y: i32) -> Option<usize>
        ensures { result ≡ first_at y self.wish }
    {
        self.wish.iter().position(|x| *x == y)
    }

    // The choice for a wish y beyond the edge.
    #[tactic(auto, unfolding(crate::specs::Inner::Choices::choose_beyond))]
    fn choose_beyond(self, out: Direction, edge: i32, y: i32) -> Choice
        ensures { result ≡ choose_beyond out edge y self.wish self.values }
    {
        match self.first_at(y) {
            Some(i) => Choice::Take(self.values[i]),
            None => Choice::Between(out, self.furthest(out, edge, y)),
        }
    }

    // The choice for a wish y.
    #[tactic(auto, unfolding(crate::specs::Inner::Choices::choose))]
    fn choose(self, lo: i32, hi: i32, y: i32) -> Choice
        ensures { result ≡ choose lo hi y self.wish self.values }
    {
        if hi < y {
            self.choose_beyond(Direction::Up, hi, y)
        } else if y < lo {
            self.choose_beyond(Direction::Down, lo, y)
        } else {
            Choice::Take(y)
        }
    }
}

impl Choice {
    // The choice for variable v.
    pub(crate) fn new(lo: i32, hi: i32, mut wish: Values, mut values: Values, v: usize) -> Self
        requires { v < max_variables }
        ensures { result ≡ chosen lo hi wish values v }
    {
        let y = wish[v];
        wish[v] = 0;
        values[v] = 0;
        Others { wish, values }.choose(lo, hi, y)
    }

    // The record itself.
    #[tactic(auto, unfolding(crate::specs::Inner::Choices::record_of))]
    pub(crate) fn record(self) -> i32
        requires { Safe self }
        ensures { result ≡ record_of self }
    {
        match self {
            Choice::Take(x) => x,
            Choice::Between(out, m) => out.outward(m),
        }
    }
}
