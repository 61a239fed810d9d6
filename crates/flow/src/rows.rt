// An instruction as a row: the numbers of its line as the row keeps them, and whether they lie in their ranges.
//
// The size of a number comes here with at most 10,000,000,000, and a row keeps at most 100,000: for a larger number it keeps one that
// lies outside every range too (`bounded`).
ghost use Rattle.std.specs.Prelude.{◌≡◌, min, ◌≤◌, ◌<◌, nat_abs, pos};
ghost use Rattle.std.specs.Prelude.{Some, Option, ℤ};
ghost use Rattle.model.specs.Language.{stop, fields};
ghost use Rattle.flow.specs.Words.{number, count as counted, at};
ghost use Rattle.flow.specs.Code.{row, row_of};
ghost use Rattle.flow.specs.Read.{bounds as bounds_of, targets as targets_of, between, lies_within, all, in_range, is_named};
ghost use Rattle.flow.specs.declared.Sort.{Sort as SortOf};
ghost use Rattle.flow.specs.Inner.Reader.{max_numbers, bounded, field};
ghost use Rattle.flow.specs.Inner.Rows.{numbers_in, instruction_of};

use crate::{Flow, Head, Instruction, Kind, Sort};

impl Instruction {
    pub const MAX_NUMBERS: usize = 4;

    // An instruction of a kind, from the numbers after the word.
    pub fn new(kind: Kind, numbers: [i32; Instruction::MAX_NUMBERS]) -> Self
        ensures { result ≡ row kind numbers }
    {
        let [first, second, third, fourth] = numbers;
        Instruction {
            kind,
            first,
            second,
            third,
            fourth,
        }
    }

    // `stop`, which also fills the rows past the last instruction.
    pub fn stop() -> Self
        ensures { result ≡ row_of stop }
    {
        Instruction::new(Kind::Stop, [0; Instruction::MAX_NUMBERS])
    }

    // Its numbers, for a loop over the fields of its line.
    pub fn numbers(self) -> [i32; Instruction::MAX_NUMBERS]
        ensures { result ≡ numbers_in self }
    {
        [self.first, self.second, self.third, self.fourth]
    }

    // The number in field k after the word.
    // Kept: a match on the field, since `self.numbers()[k]` builds an array of four for one number.
    pub fn number(self, k: usize) -> i32
        requires { k < max_numbers }
        ensures { result ≡ at (numbers_in self) k }
    {
        match k {
            0 => self.first,
            1 => self.second,
            2 => self.third,
            _ => self.fourth,
        }
    }

    // The same, of a number that counts from 1.
    pub fn count(self, k: usize) -> usize
        requires { (k < max_numbers) × (1 ≤ counted (at (numbers_in self) k)) }
        ensures { result ≡ counted (at (numbers_in self) k) }
    {
        self.number(k) as usize
    }

    // Whether its numbers other than N, P, M lie in their ranges.
    pub fn in_range(self, head: Head) -> bool
        ensures { result ≡ all (in_range head) (fields (instruction_of self)) }
    {
        self.lies_within(|sort| sort.bounds(head))
    }

    // Whether its N, P and M name one of so many instructions.
    pub fn is_named(self, count: u8) -> bool
        ensures { result ≡ all (is_named count) (fields (instruction_of self)) }
    {
        self.lies_within(|sort| sort.targets(count))
    }

    // Whether its numbers lie in the ranges of their sorts.
    fn lies_within<R: Fn(Sort) -> Option<(i32, i32)>>(self, range: R) -> bool
        requires { R.IsAlwaysCallable range }
        ensures { (ranges : SortOf → Option (ℤ × ℤ)) → ((s : SortOf) (r : Option (ℤ × ℤ)) → R.post range s r → r ≡ ranges s) → result ≡ all (lies_within ranges) (fields (instruction_of self)) }
    {
        for (sort, n) in self.kind.sorts().iter().zip(&self.numbers()) {
            let in_range = lies(sort.held(*n), range(*sort));
            if !in_range {
                return false;
            }
        }
        true
    }
}

// The number of a line, or a count of line 1, as a byte keeps it.
pub fn small(x: i64) -> u8
    ensures { result ≡ min (nat_abs x) 255 }
{
    x.unsigned_abs().min(255) as u8
}

// A number of a row.
pub fn in_bounds(x: i64) -> i32
    ensures { result ≡ bounded x }
{
    x.clamp(-100000, 100000) as i32
}

// From 1 up to a count.
fn up_to(count: u8) -> Option<(i32, i32)>
    ensures { result ≡ Some (pos 1, pos count) }
{
    Some((1, i32::from(count)))
}

// Whether a number lies in a range, from the least to the greatest, if it has one.
fn lies(n: i32, range: Option<(i32, i32)>) -> bool
    ensures { result ≡ between range n }
{
    match range {
        None => true,
        Some((least, greatest)) => least <= n && n <= greatest,
    }
}

impl Sort {
    // The number in a field of this sort: one that counts is not below 0.
    fn held(self, n: i32) -> i32
        ensures { result ≡ number (field self n) }
    {
        if self.may_minus() { n } else { n.max(0) }
    }

    // The range of a number other than N, P, M.
    // Kept: two tables, `bounds` and `targets`, as the definitions have two, which are looked at at different times.
    fn bounds(self, head: Head) -> Option<(i32, i32)>
        ensures { result ≡ bounds_of head self }
    {
        match self {
            Sort::Target => None,
            Sort::Tape => up_to(head.tapes),
            Sort::Output => up_to(head.outputs),
            Sort::Variable => up_to(head.variables),
            Sort::Constant => Some((Flow::LEAST_CONSTANT, Flow::GREATEST_CONSTANT)),
        }
    }

    // The range of N, P and M, by the count of instructions.
    fn targets(self, count: u8) -> Option<(i32, i32)>
        ensures { result ≡ targets_of count self }
    {
        match self {
            Sort::Target => up_to(count),
            Sort::Tape | Sort::Output | Sort::Variable | Sort::Constant => None,
        }
    }
}
