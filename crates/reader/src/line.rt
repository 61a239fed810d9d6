// One instruction line: what it shows before the numbers after its word, and the checks once these are read.
ghost use Rattle.std.specs.Prelude.{◌≡◌, ◌≤◌, ◌<◌};
ghost use Rattle.text.specs.Split.{split};
ghost use Rattle.text.specs.Inner.Divided.{kept};
ghost use Rattle.flow.specs.Limits.{max_instructions};
ghost use Rattle.flow.specs.Code.{row};
ghost use Rattle.reader.specs.Inner.Line.{small_at, begin_line, end_line};

use flow::{Flow, Head, Instruction, Kind, Refusal, rows};
use text::Fields;

// The number without a minus in field k, as a byte keeps it, if it is well written.
pub fn small_at(fields: &Fields, k: usize) -> Option<u8>
    requires { k < kept }
    ensures { result ≡ small_at (split fields.now.line.now) k }
{
    let number = text::read_number(fields.get(k), false)?;
    Some(rows::small(number))
}

// The kind of a line and its own number.
#[derive(Clone, Copy, Debug, PartialEq, Eq)]
pub struct Start {
    pub kind: Kind,
    pub number: u8,
}

// The checks before the numbers after the word, on the line after `count` instructions.
pub fn begin(fields: &Fields, count: usize) -> Result<Start, Refusal>
    requires { count ≤ max_instructions }
    ensures { result ≡ begin_line count (split fields.now.line.now) }
{
    if count == Flow::MAX_INSTRUCTIONS {
        return Err(Refusal::TooManyLines);
    }
    let kind = Kind::from_word(fields.get(1)).ok_or(Refusal::UnknownWord(count + 2))?;
    if fields.count() != kind.sorts().len() + 2 {
        return Err(Refusal::WrongCount(count + 2));
    }
    let number = small_at(fields, 0).ok_or(Refusal::BadNumber(count + 2))?;
    Ok(Start { kind, number })
}

// The checks once all numbers are read: the line is in turn, and the numbers lie in their ranges.
pub fn end(
    start: Start,
    numbers: [i32; Instruction::MAX_NUMBERS],
    count: usize,
    head: Head,
) -> Result<Instruction, Refusal>
    requires { count ≤ max_instructions }
    ensures { result ≡ end_line head count start.number (row start.kind numbers) }
{
    if usize::from(start.number) != count + 1 {
        return Err(Refusal::OutOfTurn(count + 2));
    }
    let instruction = Instruction::new(start.kind, numbers);
    if !instruction.in_range(head) {
        return Err(Refusal::OutOfRange(count + 2));
    }
    Ok(instruction)
}
