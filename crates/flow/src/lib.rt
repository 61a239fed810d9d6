// A flow: its instructions and its limits, and the words and rows of its lines. The crate `reader` reads its text.
//
// The limits stand in `Flow`, and nowhere else in the code.
#![tactic(auto)]

mod words; // words.rt: the word of a line, and the fields that it asks for
pub mod rows; // rows.rt: an instruction as a row, its numbers, and their ranges
pub mod lent; // lent.rt: an instruction fetched from a lent slice, and stored there

ghost use Rattle.std.specs.Prelude.{◌≡◌};
ghost use Rattle.flow.specs.Refusals.{number_of, place_of};
ghost use Rattle.flow.specs.Read.{head_of, only_stop};
ghost use Rattle.flow.specs.Code.{rows_of};

// The kinds of instruction, by their words.
#[derive(Clone, Copy, Debug, PartialEq, Eq)]
pub enum Kind {
    Read,
    Put,
    Copy,
    Set,
    Less,
    Over,
    Under,
    Nop,
    Stop,
}

// What a field after the word names.
#[derive(Clone, Copy, Debug, PartialEq, Eq)]
pub enum Sort {
    Target,
    Tape,
    Output,
    Variable,
    Constant,
}

// An instruction, kept whole: the kind of its line, and the numbers after the word in their order; 0 past the last.
// Kept: four fields for four numbers, since with an array of them a run's step took 1.3 to 1.6 times as long, where 1.05 is wanted (docs/DECISIONS.md, "Rows").
#[derive(Clone, Copy, Debug, PartialEq, Eq)]
pub struct Instruction {
    pub kind: Kind,
    pub first: i32,
    pub second: i32,
    pub third: i32,
    pub fourth: i32,
}

// The counts of line 1: input tapes, output tapes, inner variables.
#[derive(Clone, Copy, Debug, PartialEq, Eq)]
pub struct Head {
    pub tapes: u8,
    pub outputs: u8,
    pub variables: u8,
}

// A flow: the counts of line 1, and the instructions in the order of their lines; rows past the count hold `stop`.
// Kept: an array with its count beside it, since there is no heap; and the counts of `Head`, since `flow.head.tapes` says no more than `flow.tapes`.
#[derive(Clone, Copy, Debug, PartialEq, Eq)]
pub struct Flow {
    pub tapes: u8,
    pub outputs: u8,
    pub variables: u8,
    pub count: usize,
    pub instructions: [Instruction; Flow::MAX_INSTRUCTIONS],
}

// Why a request is turned back; the number in a case is that of the line. The first ten cases concern the text of a flow.
#[derive(Clone, Copy, Debug, PartialEq, Eq)]
pub enum Refusal {
    TooLong,
    NoLastEnd,
    UnknownWord(usize),
    WrongCount(usize),
    BadNumber(usize),
    OutOfRange(usize),
    OutOfTurn(usize),
    NoSuchTarget(usize),
    TooManyLines,
    NoInstruction,
    TooFewCells,
    ShortRow,
    NoSuchExit,
    WrongTapes,
}

impl Flow {
    pub const MAX_BYTES: usize = 4096;

    pub const MAX_INSTRUCTIONS: usize = 64;

    pub const MAX_TAPES: u8 = 3;

    pub const MAX_OUTPUTS: u8 = 3;

    pub const MAX_VARIABLES: u8 = 4;
    // Tapes and variables again, for the lengths of arrays.
    pub const TAPES: usize = Flow::MAX_TAPES as usize;

    pub const VARIABLES: usize = Flow::MAX_VARIABLES as usize;

    pub const LEAST_CONSTANT: i32 = -9999;

    pub const GREATEST_CONSTANT: i32 = 9999;

    // The counts of line 1, if they lie in their ranges.
    pub fn head(tapes: u8, outputs: u8, variables: u8) -> Result<Head, Refusal>
        ensures { result ≡ head_of tapes outputs variables }
    {
        let in_range = (1..=Flow::MAX_TAPES).contains(&tapes)
            && outputs <= Flow::MAX_OUTPUTS
            && (1..=Flow::MAX_VARIABLES).contains(&variables);
        if !in_range {
            return Err(Refusal::OutOfRange(1));
        }
        Ok(Head {
            tapes,
            outputs,
            variables,
        })
    }

    // A flow with the counts of line 1 and some instructions.
    pub fn new(
        head: Head,
        count: usize,
        instructions: [Instruction; Flow::MAX_INSTRUCTIONS],
    ) -> Self
        ensures { result ≡ record { tapes = head.tapes; outputs = head.outputs; variables = head.variables; count = count; instructions = instructions } }
    {
        Flow {
            tapes: head.tapes,
            outputs: head.outputs,
            variables: head.variables,
            count,
            instructions,
        }
    }

    // One tape, no outputs, one variable and the single instruction `stop`.
    pub fn only_stop() -> Self
        ensures { result ≡ rows_of only_stop }
    {
        let head = Head {
            tapes: 1,
            outputs: 0,
            variables: 1,
        };
        Flow::new(head, 1, [Instruction::stop(); Flow::MAX_INSTRUCTIONS])
    }
}

impl Refusal {
    // The number of a refusal.
    pub fn number(self) -> usize
        ensures { result ≡ number_of self }
    {
        match self {
            Refusal::TooLong => 1,
            Refusal::NoLastEnd => 3,
            Refusal::UnknownWord(_) => 13,
            Refusal::WrongCount(_) => 14,
            Refusal::BadNumber(_) => 15,
            Refusal::OutOfRange(_) => 5,
            Refusal::OutOfTurn(_) => 6,
            Refusal::NoSuchTarget(_) => 7,
            Refusal::TooManyLines | Refusal::NoInstruction => 8,
            Refusal::TooFewCells => 9,
            Refusal::ShortRow => 10,
            Refusal::NoSuchExit => 11,
            Refusal::WrongTapes => 12,
        }
    }

    // The place of a refusal.
    pub fn place(self) -> usize
        ensures { result ≡ place_of self }
    {
        match self {
            Refusal::UnknownWord(line)
            | Refusal::WrongCount(line)
            | Refusal::BadNumber(line)
            | Refusal::OutOfRange(line)
            | Refusal::OutOfTurn(line)
            | Refusal::NoSuchTarget(line) => line,
            Refusal::TooManyLines => Flow::MAX_INSTRUCTIONS + 2,
            Refusal::NoInstruction => 2,
            Refusal::TooLong
            | Refusal::NoLastEnd
            | Refusal::TooFewCells
            | Refusal::ShortRow
            | Refusal::NoSuchExit
            | Refusal::WrongTapes => 0,
        }
    }
}
