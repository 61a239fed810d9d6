// The word of an instruction line, and the fields that it asks for.
ghost use Rattle.std.specs.Prelude.{◌≡◌};
ghost use Rattle.flow.specs.Words.{table, kind_of, sorts, may_minus};
ghost use Rattle.flow.specs.Inner.Rows.{branches};

use crate::{Kind, Sort};

impl Kind {
    // Every kind, in the order of the table.
    const ALL: [Kind; 9] = [
        Kind::Read,
        Kind::Put,
        Kind::Copy,
        Kind::Set,
        Kind::Less,
        Kind::Over,
        Kind::Under,
        Kind::Nop,
        Kind::Stop,
    ];

    // The kind that a word names, if it names one.
    pub fn from_word(w: &[u8]) -> Option<Kind>
        ensures { result ≡ kind_of w.now }
    {
        Kind::ALL
            .iter()
            .find(|kind| w == kind.word().as_bytes())
            .copied()
    }

    // The word of its lines.
    pub fn word(self) -> &'static str
        ensures { result.now ≡ (table self).word }
    {
        match self {
            Kind::Read => "read",
            Kind::Put => "put",
            Kind::Copy => "copy",
            Kind::Set => "set",
            Kind::Less => "less",
            Kind::Over => "over",
            Kind::Under => "under",
            Kind::Nop => "nop",
            Kind::Stop => "stop",
        }
    }

    // What the fields after the word name.
    pub fn sorts(self) -> &'static [Sort]
        ensures { result.now ≡ sorts self }
    {
        match self {
            Kind::Read => &[Sort::Tape, Sort::Variable, Sort::Target, Sort::Target],
            Kind::Put => &[Sort::Variable, Sort::Output, Sort::Target],
            Kind::Copy => &[Sort::Variable, Sort::Variable, Sort::Target],
            Kind::Set => &[Sort::Constant, Sort::Variable, Sort::Target],
            Kind::Less => &[Sort::Variable, Sort::Variable, Sort::Target, Sort::Target],
            Kind::Over => &[Sort::Constant, Sort::Variable, Sort::Target, Sort::Target],
            Kind::Under => &[Sort::Variable, Sort::Constant, Sort::Target, Sort::Target],
            Kind::Nop => &[Sort::Target],
            Kind::Stop => &[],
        }
    }

    // Whether an instruction of this kind has two exits.
    pub fn has_exits(self) -> bool
        ensures { result ≡ branches self }
    {
        matches!(self, Kind::Read | Kind::Less | Kind::Over | Kind::Under)
    }
}

impl Sort {
    // Whether a number may have a minus.
    pub fn may_minus(self) -> bool
        ensures { result ≡ may_minus self }
    {
        matches!(self, Sort::Constant)
    }
}
