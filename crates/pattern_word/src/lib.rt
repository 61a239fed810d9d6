// The pattern word: four codes, stored as digits of 16 bits (specs/Inner/Pattern.antt).
//
// Codes are read, written, compared and ranked by `recall`, `store`, `less` and `codes`, and nowhere else. The ranks of variables outside are
// looked up in the row of outside_row.
#![tactic(auto)]

ghost use Rattle.std.specs.Prelude.{◌≡◌, true, cond, not, ◌&&◌, List, [], ◌∷◌, ℕ, suc, ◌+◌, ◌*◌, ◌-◌, ◌<◌, ◌≤◌, pos, length, get_or, set, ltb};
ghost use Rattle.model.specs.Inner.Lists.{All};
ghost use Rattle.outside_row.specs.Inner.Table.{key_of, slot_of};
ghost use Rattle.flow.specs.Limits.{max_variables};
ghost use Rattle.pattern_word.specs.Inner.Digits.{digits, undigits, Below};
ghost use Rattle.pattern_word.specs.Inner.Pattern.{Width, lane, lanes, low, high, within, member, different_within};
ghost use Rattle.pattern_word.specs.Inner.Pattern.{lane_code, codes_of, value_of, values_of, excess, recall_from, recall_of, AreCodes, store_from, store_of};
ghost use Rattle.pattern_word.specs.Inner.Pattern.{word_of, Valid, mark_of, less_of, assign_of, unit_of};
ghost use Rattle.pattern_word.specs.Inner.Pattern.{least_of, greatest_of, first_trial, last_trial};
ghost use Rattle.pattern_word.specs.Inner.Position.{position_of};

use flow::Flow;
use outside_row::Table;

// LOW stands for C1; BELOW is the greatest value below it, and BELOW + w stands for C2.
pub const LOW: u64 = 16;

pub const BELOW: u64 = 15;

// How many numbers a lane can hold; two lanes, and three.
pub const LANE: u64 = 65536;

pub const LANES_2: u64 = LANE * LANE;

pub const LANES_3: u64 = LANE * LANES_2;

// How many ranks lie beyond an edge, and where the last above stands, to which w is added.
pub const RANKS: u64 = Flow::MAX_VARIABLES as u64;

pub const LAST_ABOVE: u64 = RANKS - 1;

// What the codes of a search rest on: w says how many whole numbers there are from C1 to C2, and the table has the ranks of variables outside.
// The table is lent, and may serve any number of codings.
#[derive(Clone, Copy)]
pub struct Coding<'a> {
    table: &'a Table,
    pub w: u64,
    ghost width: { Width w },
}

// The position of a value: below C1, from C1 to C2, above C2.
#[derive(Clone, Copy, Debug, PartialEq, Eq)]
enum Position {
    Below,
    Inside,
    Above,
}

// How many different values lie from p to q.
fn count(values: [u64; Flow::VARIABLES], p: u64, q: u64) -> u64
    ensures { (result ≡ different_within p q values) × (result ≤ max_variables) }
{
    let mut n = 0;
    for i in (0..Flow::VARIABLES).rev() {
        let x = values[i];
        if p <= x && x <= q && !values[i + 1..].contains(&x) {
            n += 1;
        }
    }
    n
}

// The word of four digits.
// Kept: four digits are written out here and in `unpack`: a loop of quotients is no plainer.
pub fn pack(c: [u64; Flow::VARIABLES]) -> u64
    requires { Below lane c }
    ensures { result ≡ undigits lane c }
{
    c[0] + LANE * (c[1] + LANE * (c[2] + LANE * c[3]))
}

#[tactic(auto, unfolding(crate::specs::Inner::Digits::digits))]
fn unpack(pattern: u64) -> [u64; Flow::VARIABLES]
    ensures { result ≡ digits lane max_variables pattern }
{
    let x = pattern / LANE;
    let y = x / LANE;
    let z = y / LANE;
    [pattern % LANE, x % LANE, y % LANE, z % LANE]
}

// The digit of variable v.
fn digit(pattern: u64, v: u8) -> u64
    requires { v < max_variables }
    ensures { result ≡ get_or (digits lane max_variables pattern) v 0 }
{
    unpack(pattern)[v as usize]
}

// 1 in lane v.
#[tactic(auto, unfolding(crate::specs::Inner::Pattern::unit_of))]
fn unit(v: u8) -> u64
    requires { v < max_variables }
    ensures { result ≡ unit_of v }
{
    match v {
        0 => 1,
        1 => LANE,
        2 => LANES_2,
        _ => LANES_3,
    }
}

// The values with y for variable v.
fn with_value(mut values: [u64; Flow::VARIABLES], v: u8, y: u64) -> [u64; Flow::VARIABLES]
    ensures { result ≡ set values v y }
{
    if v < Flow::MAX_VARIABLES {
        values[v as usize] = y;
    }
    values
}

// The first record that a fan is tried with: one less than the least of C1 and the values of its first member.
pub fn first_trial(values: [u64; Flow::VARIABLES]) -> u64
    requires { 0 < least_of low values }
    ensures { result ≡ first_trial values }
{
    let mut least = LOW;
    for x in values {
        least = least.min(x);
    }
    least - 1
}

impl<'a> Coding<'a> {
    pub fn new(table: &'a Table, w: u64) -> Self
        requires { Width w }
        ensures { result.w ≡ w }
    {
        Coding { table, w }
    }

    // The code of x among the values.
    #[tactic(auto, unfolding(crate::specs::Inner::Pattern::lane_code))]
    fn code(&self, values: [u64; Flow::VARIABLES], x: u64) -> u64
        ensures { result ≡ lane_code self.now.w values x }
    {
        let high = BELOW + self.w;
        if high < x {
            self.w + count(values, high + 1, x) - 1
        } else if x < LOW {
            self.w + LAST_ABOVE + count(values, x, BELOW)
        } else {
            x - LOW
        }
    }

    // The codes of four values.
    fn codes(&self, values: [u64; Flow::VARIABLES]) -> [u64; Flow::VARIABLES]
        ensures { result ≡ codes_of self.now.w values }
    {
        let mut codes = values;
        for x in codes.iter_mut() {
            *x = self.code(values, *x);
        }
        codes
    }

    // The value that a trial uses for a code.
    #[tactic(auto, unfolding(crate::specs::Inner::Pattern::value_of))]
    pub fn value(&self, c: u64) -> u64
        requires { c < 4294967296 }
        ensures { result ≡ value_of self.now.w c }
    {
        if c < self.w {
            LOW + c
        } else if c < self.w + RANKS {
            BELOW + self.w + 2 * (c + 1 - self.w)
        } else {
            LOW.saturating_sub(2 * (c + 1 - (self.w + RANKS)))
        }
    }

    fn values(&self, mut c: [u64; Flow::VARIABLES]) -> [u64; Flow::VARIABLES]
        requires { Below lane c }
        ensures { result ≡ values_of self.now.w c }
    {
        for x in c.iter_mut() {
            *x = self.value(*x);
        }
        c
    }

    // The codes that the digits store.
    fn recall(&self, d: [u64; Flow::VARIABLES]) -> [u64; Flow::VARIABLES]
        ensures { result ≡ recall_of self.now.w d }
    {
        let v = self.outs(d);
        if v == 0 {
            return d;
        }
        self.recall_from(d, self.table.key_at(v as usize, self.index(d)))
    }

    // How many of the digits are those of variables outside.
    fn outs(&self, d: [u64; Flow::VARIABLES]) -> u64
        ensures { (result ≡ length (excess self.now.w d)) × (result ≤ max_variables) }
    {
        let mut n = 0;
        for x in d {
            let is_outside = self.w <= x;
            if is_outside {
                n += 1;
            }
        }
        n
    }

    // The index that the first digit of a variable outside holds.
    fn index(&self, d: [u64; Flow::VARIABLES]) -> u64
        ensures { result ≡ get_or (excess self.now.w d) 0 0 }
    {
        for x in d {
            if self.w <= x {
                return x - self.w;
            }
        }
        0
    }

    // The codes that the digits store, if the ranks of those outside have the key k.
    fn recall_from(&self, mut d: [u64; Flow::VARIABLES], mut k: u64) -> [u64; Flow::VARIABLES]
        ensures { (l : List ℕ) → All (λ b. b < 8) l → k ≡ key_of l → result ≡ recall_from self.now.w d l }
    {
        for x in d.iter_mut() {
            if self.w <= *x {
                *x = self.w + k % 8;
                k /= 8;
            }
        }
        d
    }

    // The digits that store the codes of values.
    fn store(&self, c: [u64; Flow::VARIABLES]) -> [u64; Flow::VARIABLES]
        requires { AreCodes self.now.w c }
        ensures { result ≡ store_of self.now.w c }
    {
        let s = self.slots(c);
        if s == 0 {
            return c;
        }
        self.store_from(c, self.w + self.table.index_at(s))
    }

    // The slot of the ranks of the codes outside.
    fn slots(&self, c: [u64; Flow::VARIABLES]) -> u64
        requires { Below (self.now.w + 8) c }
        ensures { (result ≡ slot_of (excess self.now.w c)) × (result < 4681) }
    {
        let mut s = 0;
        for i in (0..Flow::VARIABLES).rev() {
            if self.w <= c[i] {
                s = c[i] - self.w + 8 * s + 1;
            }
        }
        s
    }

    // The digits of the codes; n is that of the first variable outside.
    fn store_from(&self, mut c: [u64; Flow::VARIABLES], mut n: u64) -> [u64; Flow::VARIABLES]
        ensures { result ≡ store_from self.now.w n c }
    {
        for x in c.iter_mut() {
            if self.w <= *x {
                *x = n;
                n = self.w;
            }
        }
        c
    }

    // The pattern word of values.
    #[tactic(auto, unfolding(crate::specs::Inner::Pattern::word_of))]
    fn word(&self, values: [u64; Flow::VARIABLES]) -> u64
        ensures { result ≡ word_of self.now.w values }
    {
        pack(self.store(self.codes(values)))
    }

    // The codes of a pattern word.
    pub fn lanes(&self, pattern: u64) -> [u64; Flow::VARIABLES]
        ensures { (result ≡ lanes self.now.w pattern) × Below lane result }
    {
        self.recall(unpack(pattern))
    }

    // The values that a trial uses for the codes of a pattern word.
    pub fn held(&self, pattern: u64) -> [u64; Flow::VARIABLES]
        ensures { result ≡ values_of self.now.w (lanes self.now.w pattern) }
    {
        self.values(self.lanes(pattern))
    }

    // Whether v has a lane and y lies from C1 to C2.
    fn is_inside(&self, v: u8, y: u64) -> bool
        ensures value { result ≡ (ltb v max_variables && within low (high self.now.w) y) }
        ensures v_lt_max_variables { result ≡ true → (v < max_variables) × (low ≤ y) × (y ≤ high self.now.w) }
    {
        v < Flow::MAX_VARIABLES && LOW <= y && y <= BELOW + self.w
    }

    // The pattern when variable v, whose digit d is a value, gets the value y from C1 to C2: another digit.
    fn shifted(&self, pattern: u64, v: u8, d: u64, y: u64) -> u64
        requires valid { Valid self.now.w pattern }
        requires v_lt_max_variables { (v < max_variables) × (low ≤ y) × (y ≤ high self.now.w) }
        requires d_value { (d ≡ get_or (digits lane max_variables pattern) v 0) × (d < self.now.w) }
        ensures { result ≡ assign_of self.now.w pattern v y }
    {
        let u = unit(v);
        pattern - d * u + (y - LOW) * u
    }

    // The pattern when variable v gets the value y.
    #[tactic(auto, unfolding(crate::specs::Inner::Pattern::assign_of))]
    pub fn assign(&self, pattern: u64, v: u8, y: u64) -> u64
        requires { Valid self.now.w pattern }
        ensures { result ≡ assign_of self.now.w pattern v y }
    {
        if self.is_inside(v, y) {
            let d = digit(pattern, v);
            if d < self.w {
                return self.shifted(pattern, v, d, y);
            }
        }
        self.word(with_value(self.held(pattern), v, y))
    }

    // The position of the value of code c.
    #[tactic(auto, unfolding(crate::specs::Inner::Position::position_of, crate::specs::Inner::Pattern::mark_of))]
    fn position(&self, c: u64) -> Position
        ensures { result ≡ position_of (mark_of (pos 0) self.now.w c) }
    {
        if c < self.w {
            Position::Inside
        } else if c < self.w + RANKS {
            Position::Above
        } else {
            Position::Below
        }
    }

    // Whether the value of code c is less than that of code d: nine cases, by the positions of c and d. Of codes of one position the greater
    // has the greater value or rank.
    pub fn less(&self, c: u64, d: u64) -> bool
        ensures { result ≡ less_of self.now.w c d }
    {
        match (self.position(c), self.position(d)) {
            (Position::Below, Position::Below) => d < c, // the greater rank is the farther below
            (Position::Below, Position::Inside) => true,
            (Position::Below, Position::Above) => true,
            (Position::Inside, Position::Below) => false,
            (Position::Inside, Position::Inside) => c < d,
            (Position::Inside, Position::Above) => true,
            (Position::Above, Position::Below) => false,
            (Position::Above, Position::Inside) => false,
            (Position::Above, Position::Above) => c < d,
        }
    }

    // The member by the record y of the fan over v; `first` is the first member, in which v is C1, and `values` are those of its codes. If y
    // lies from C1 to C2 it is a sum.
    #[tactic(auto, unfolding(crate::specs::Inner::Pattern::assign_of))]
    pub fn fan_at(&self, first: u64, values: [u64; Flow::VARIABLES], v: u8, y: u64) -> u64
        requires first_value { first ≡ assign_of self.now.w first v low }
        requires values_value { values ≡ values_of self.now.w (lanes self.now.w first) }
        ensures { result ≡ assign_of self.now.w first v y }
    {
        if self.is_inside(v, y) {
            first + (y - LOW) * unit(v)
        } else {
            self.word(with_value(values, v, y))
        }
    }

    // The last record that a fan is tried with: one more than the greatest of C2 and the values of its first member.
    pub fn last_trial(&self, values: [u64; Flow::VARIABLES]) -> u64
        requires { greatest_of (high self.now.w) values ≤ self.now.w + 23 }
        ensures { result ≡ last_trial self.now.w values }
    {
        let mut greatest = BELOW + self.w;
        for x in values {
            greatest = greatest.max(x);
        }
        greatest + 1
    }
}
