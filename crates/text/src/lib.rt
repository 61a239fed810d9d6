// Lines, fields and numbers of a byte text. Knows bytes only, and nothing of what the text says.
#![tactic(auto)]

ghost use Rattle.std.specs.Prelude.{◌≡◌, [], ◌+◌, ◌≤◌, ◌<◌, pos, length, get_or, drop, option_map};
ghost use Rattle.text.specs.Split.{split};
ghost use Rattle.text.specs.Inner.Divided.{kept, until, Divided};
ghost use Rattle.text.specs.Number.{digits_after, natural, numeral};
ghost use Rattle.text.specs.Inner.Capped.{capped};

// A greater size of a number is given as this one.
const CAP: u64 = 10000000000;

// A line divided into its fields: how many it has, and where the first of them end.
#[derive(Clone, Copy)]
pub struct Fields<'a> {
    pub line: &'a [u8],
    pub count: usize,
    pub ends: [usize; Fields::KEPT],
    pub ghost divided: { Divided line.now count ends },
}

impl<'a> Fields<'a> {
    // The ends of so many fields are kept; further ones are only counted.
    pub const KEPT: usize = 6;

    // Divides a line.
    pub fn new(line: &'a [u8]) -> Self
        ensures same_line { result.line.now ≡ line.now }
        ensures divided { Divided line.now result.count result.ends }
    {
        let mut ends = [line.len(); Fields::KEPT];
        let mut commas = 0;
        for (i, b) in line.iter().enumerate() {
            if *b == b',' {
                if commas < Fields::KEPT {
                    ends[commas] = i;
                }
                commas += 1;
            }
        }
        Fields {
            line,
            count: commas + 1,
            ends,
        }
    }

    // How many fields the line has.
    pub fn count(&self) -> usize
        ensures { result ≡ length (split self.now.line.now) }
    {
        self.count
    }

    // Field k, counted from 0; the empty part where there is none.
    pub fn get(&self, k: usize) -> &'a [u8]
        requires { k < kept }
        ensures { result.now ≡ get_or (split self.now.line.now) k [] }
    {
        if k >= self.count {
            return &[];
        }
        let start = if k == 0 { 0 } else { self.ends[k - 1] + 1 };
        &self.line[start..self.ends[k]]
    }
}

// Where the first `byte` stands from `from` on, or the text's length where there is none.
pub fn end_of(text: &[u8], from: usize, byte: u8) -> usize
    requires { from ≤ length text.now }
    ensures { (result ≡ from + until byte (drop from text.now)) × (result ≤ length text.now) }
{
    match text[from..].iter().position(|b| *b == byte) {
        Some(i) => from + i,
        None => text.len(),
    }
}

// A run of digits, which may be empty and begin with zeros.
fn read_digits(f: &[u8]) -> Option<i64>
    ensures { result ≡ option_map capped (option_map pos (digits_after 0 f.now)) }
{
    let mut n: u64 = 0;
    for b in f {
        if !b.is_ascii_digit() {
            return None;
        }
        n = (n * 10 + u64::from(*b - b'0')).min(CAP);
    }
    Some(n as i64)
}

// A number without a minus: one digit or more, no leading zero unless it is 0 itself.
fn read_natural(f: &[u8]) -> Option<i64>
    ensures { result ≡ option_map capped (option_map pos (natural f.now)) }
{
    match f {
        [] | [b'0', _, ..] => None,
        _ => read_digits(f),
    }
}

// A field that is to be a number; `minus` says whether a minus may stand first. -0 is badly written.
pub fn read_number(f: &[u8], minus: bool) -> Option<i64>
    ensures { result ≡ option_map capped (numeral minus f.now) }
{
    let [b'-', size @ ..] = f else {
        return read_natural(f);
    };
    if !minus {
        return None;
    }
    match read_natural(size)? {
        0 => None,
        n => Some(-n),
    }
}
