// The reading of a flow's text.
//
// `read` is the reader: what it answers is what `read_flow` of flow/specs/Read.antt says of the text.
#![tactic(auto)]

mod line; // line.rt: one instruction line
mod lines; // lines.rt: line 1, the instruction lines, the targets

ghost use Rattle.std.specs.Prelude.{◌≡◌, ◌≤◌, length};
ghost use Rattle.text.specs.Split.{lines};
ghost use Rattle.flow.specs.Read.{read_rest, read_bytes, read_flow};
ghost use Rattle.flow.specs.Code.{reading_of};
ghost use Rattle.flow.specs.Inner.Reader.{HeadFits};

use flow::{Flow, Head, Refusal};

// Reads a flow text.
pub fn read(text: &[u8]) -> Result<Flow, Refusal>
    ensures { result ≡ reading_of (read_flow text.now) }
{
    let empty = text.len() == 0;
    if empty {
        return Ok(Flow::only_stop());
    }
    read_bytes(text)
}

// A text with bytes in it.
fn read_bytes(text: &[u8]) -> Result<Flow, Refusal>
    requires { 1 ≤ length text.now }
    ensures { result ≡ reading_of (read_bytes text.now) }
{
    let long = Flow::MAX_BYTES < text.len();
    if long {
        return Err(Refusal::TooLong);
    }
    if text[text.len() - 1] != b'\n' {
        return Err(Refusal::NoLastEnd);
    }
    let end = text::end_of(text, 0, b'\n');
    let head = lines::read_head(&text[..end])?;
    read_rest(&text[end + 1..], head)
}

// The lines after line 1, and their targets.
fn read_rest(rest: &[u8], head: Head) -> Result<Flow, Refusal>
    requires { HeadFits head }
    ensures { result ≡ reading_of (read_rest head (lines rest.now)) }
{
    let flow = lines::read_lines(rest, head)?;
    if flow.count == 0 {
        return Err(Refusal::NoInstruction);
    }
    lines::check_targets(&flow.instructions[..flow.count])?;
    Ok(flow)
}
