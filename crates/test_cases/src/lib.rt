// The flows of a data file, one after another: a line with a name, the lines of the text, and an empty line.
#![tactic(auto)]

ghost use Rattle.std.specs.Prelude.{◌≡◌, ◌-◌, ◌≤◌, max, length};
ghost use Rattle.std.specs.Iterator.{at_most};
ghost use Rattle.test_cases.specs.Cases.{empty_line, text_start, GivesCase};

// A case: its name, and the text of its flow.
#[derive(Clone, Copy)]
pub struct Case<'a> {
    pub name: &'a [u8],
    pub text: &'a [u8],
}

// The cases of a file, from the byte `at` on.
#[derive(Drop)]
pub struct Cases<'a> {
    pub file: &'a [u8],
    pub at: usize,
}

impl<'a> Cases<'a> {
    pub fn new(file: &'a [u8]) -> Cases<'a>
        ensures { (result.file.now ≡ file.now) × (result.at ≡ 0) }
    {
        Cases { file, at: 0 }
    }
}

impl<'a> Iterator for Cases<'a> {
    type Item = Case<'a>;

    ghost next_gives = { λ s r t. GivesCase s.file.now s.at r t.file.now t.at };

    ghost remaining = { λ s. at_most (length s.file.now - s.at) };

    fn next(&mut self) -> Option<Case<'a>> {
        let file = self.file;
        let at = self.at;
        if file.len() <= at {
            return None;
        }
        let named = text::end_of(file, at, b'\n');
        let start = text_start(file, named);
        let end = empty_line(file, start);
        self.at = end + 1;
        Some(Case {
            name: &file[at..named],
            text: &file[start..end],
        })
    }
}

// Where the text behind a name that ends at a place starts.
fn text_start(file: &[u8], at: usize) -> usize
    requires { at ≤ length file.now }
    ensures { (result ≡ text_start file.now at) × (at ≤ result) × (result ≤ length file.now) }
{
    file.len().min(at + 1)
}

// Where the first empty line from `from` on stands, or the file's end; a line starts at `from`.
fn empty_line(file: &[u8], from: usize) -> usize
    ensures { (result ≡ empty_line file.now from) × (from ≤ result) × (result ≤ max from (length file.now)) }
{
    let mut opens = true;
    for at in from..file.len() {
        let ends = file[at] == b'\n';
        let is_empty = opens & ends;
        if is_empty {
            return at;
        }
        opens = ends;
    }
    from.max(file.len())
}
