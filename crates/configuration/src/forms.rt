// Instructions prepared for a search, in which a constant is its offset from C1 (specs/Inner/Op.antt).

ghost use Rattle.std.specs.Prelude.{◌≡◌, ◌-◌, min};
ghost use Rattle.flow.specs.Words.{count};
ghost use Rattle.flow.specs.Inner.Rows.{instruction_of};
ghost use Rattle.configuration.specs.Inner.Prepare.{FitBytes, formed};
ghost use Rattle.configuration.specs.Inner.Op.{op_of};

use crate::Op;
use flow::{Instruction, Kind};

// The index, from 0 on, of a number that counts from 1.
fn from_zero(n: u8) -> u8
    ensures { result ≡ n - 1 }
{
    n.saturating_sub(1)
}

// A number that counts, in a byte; a legal flow has none that is larger.
fn byte(n: i32) -> u8
    ensures { result ≡ min (count n) 255 }
{
    n.clamp(0, 255) as u8
}

// The prepared form of a kind: a, b, c, d are the numbers of the line as counts, u and v the first two as constants, prepared already.
fn form(kind: Kind, a: u8, b: u8, c: u8, d: u8, u: u32, v: u32) -> Op
    ensures { result ≡ formed kind a b c d u v }
{
    // Kept: a match on the kind, since each arm is a line of the table of instructions.
    match kind {
        Kind::Read => Op::read(from_zero(a), from_zero(b), c, d),
        Kind::Put => Op::go(c),
        Kind::Copy => Op::assign(from_zero(a), from_zero(b), 0, c),
        Kind::Set => Op::assign(Op::CONSTANT, from_zero(b), u, c),
        Kind::Less => Op::test(from_zero(a), from_zero(b), 0, c, d),
        Kind::Over => Op::test(Op::CONSTANT, from_zero(b), u, c, d),
        Kind::Under => Op::test(from_zero(a), Op::CONSTANT, v, c, d),
        Kind::Nop => Op::go(a),
        Kind::Stop => Op::stop(),
    }
}

// An instruction prepared for a search; lo is C1.
pub fn prepare(x: Instruction, lo: i32) -> Op
    requires { FitBytes x }
    ensures { result ≡ op_of lo (instruction_of x) }
{
    let a = byte(x.first);
    let b = byte(x.second);
    let c = byte(x.third);
    let d = byte(x.fourth);
    let u = constants::offset_of(x.first, lo);
    let v = constants::offset_of(x.second, lo);
    form(x.kind, a, b, c, d, u, v)
}
