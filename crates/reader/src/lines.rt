// Line 1, the instruction lines, and the targets that they name.
ghost use Rattle.std.specs.Prelude.{◌≡◌, map, ◌≤◌, length, Ok};
ghost use Rattle.text.specs.Split.{lines, split};
ghost use Rattle.flow.specs.Limits.{max_instructions};
ghost use Rattle.flow.specs.Read.{after, unless, read_head, read_lines, lost_target};
ghost use Rattle.flow.specs.Inner.Reader.{HeadFits};
ghost use Rattle.reader.specs.Inner.Lines.{kept_flow};
ghost use Rattle.flow.specs.Inner.Rows.{instruction_of};
ghost use Rattle.flow.specs.declared.Refusal.TheVariants.{NoSuchTarget};

use crate::line;
use flow::{Flow, Head, Instruction, Refusal, lent, rows};
use text::Fields;

// Line 1.
pub fn read_head(line: &[u8]) -> Result<Head, Refusal>
    ensures { result ≡ read_head (split line.now) }
{
    let fields = Fields::new(line);
    if fields.get(0) != b"flow".as_slice() {
        return Err(Refusal::UnknownWord(1));
    }
    if fields.count() != 4 {
        return Err(Refusal::WrongCount(1));
    }
    let tapes = line::small_at(&fields, 1).ok_or(Refusal::BadNumber(1))?;
    let outputs = line::small_at(&fields, 2).ok_or(Refusal::BadNumber(1))?;
    let variables = line::small_at(&fields, 3).ok_or(Refusal::BadNumber(1))?;
    Flow::head(tapes, outputs, variables)
}

// The flow of line 1 and the instruction lines: nested loops over lines and fields, left with the refusal of the first line at fault.
pub fn read_lines(text: &[u8], head: Head) -> Result<Flow, Refusal>
    requires { HeadFits head }
    ensures { result ≡ after (read_lines head 1 (lines text.now)) (λ xs. Ok (kept_flow head xs)) }
{
    let mut instructions = [Instruction::stop(); Flow::MAX_INSTRUCTIONS];
    let mut count = 0;
    let mut at = 0;
    // Kept: `split` would add an empty line behind the last byte 10, and `split_inclusive` leave that byte on each line.
    while at < text.len() {
        let end = text::end_of(text, at, b'\n');
        let fields = Fields::new(&text[at..end]);
        let start = line::begin(&fields, count)?;
        let mut numbers = [0; Instruction::MAX_NUMBERS];
        for (k, sort) in start.kind.sorts().iter().enumerate() {
            let number = text::read_number(fields.get(k + 2), sort.may_minus());
            numbers[k] = rows::in_bounds(number.ok_or(Refusal::BadNumber(count + 2))?);
        }
        let instruction = line::end(start, numbers, count, head)?;
        lent::store(&mut instructions, count, instruction);
        count += 1;
        at = end + 1;
    }
    Ok(Flow::new(head, count, instructions))
}

// Whether every target names one of the instructions; if not, the lowest line with one that does not.
pub fn check_targets(instructions: &[Instruction]) -> Result<(), Refusal>
    requires { length instructions.now ≤ max_instructions }
    ensures { result ≡ unless (lost_target (length instructions.now) 2 (map instruction_of instructions.now)) NoSuchTarget (Ok tt) }
{
    for (i, instruction) in instructions.iter().enumerate() {
        let named = instruction.is_named(instructions.len() as u8);
        let lost = !named;
        if lost {
            return Err(Refusal::NoSuchTarget(i + 2));
        }
    }
    Ok(())
}
