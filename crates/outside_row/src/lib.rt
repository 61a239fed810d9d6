// The tables of outside patterns (document 02, T-06), and the row in which a search looks them up (specs/Inner/Table.antt).
#![tactic(auto)]

mod tables; // tables.rt: the constants, as the program `tables` prints them

ghost use Rattle.std.specs.Prelude.{◌≡◌, List, [], ℕ, ◌+◌, ◌≤◌, ◌<◌, length, get_or};
ghost use Rattle.graph.specs.Lists.{In};
ghost use Rattle.outside.specs.Inner.Rows.{flat};
ghost use Rattle.outside.specs.Outside.{eight, outside};
ghost use Rattle.outside_row.specs.Inner.Table.{rank_number, entries_for, IsEntry, key_of, slot_of, first_of, HasEntry, IsTable, key_at, place_in};
ghost use Rattle.outside_row.specs.Inner.Filling.{LoadedTo, ones_of};

// The row, made once for a search: for each entry its index and its key.
#[derive(Clone, Copy)]
pub struct Table {
    row: [u16; Table::SIZE],
    ghost is: { IsTable row },
}

impl Table {
    // The sizes of the row: how many slots there are, and where the keys end.
    pub const SLOTS: usize = 4681;

    pub const SIZE: usize = 5043;

    pub fn new() -> Self {
        let mut row = [0; Table::SIZE];
        let mut ones = 0;
        for v in 1..=4 {
            ones = 1 + 8 * ones;
            load(&mut row, v, ones);
        }
        Table { row }
    }

    // The key of entry n for v variables, 0 past the last.
    pub fn key_at(&self, v: usize, n: u64) -> u64
        requires le_v { (1 ≤ v) × (v ≤ 4) }
        ensures { result ≡ key_at v n }
    {
        let start = first(v);
        let i = n as usize;
        if i < first(v + 1) - start {
            u64::from(self.row[start + i])
        } else {
            0
        }
    }

    // The index of the entry with this slot.
    pub fn index_at(&self, slot: u64) -> u64
        requires slot_bound { slot < 4681 }
        ensures { (result < 65536) × ((l : List ℕ) → IsEntry l → slot ≡ slot_of l → result ≡ place_in (entries_for (length l)) l) }
    {
        u64::from(self.row[slot as usize])
    }
}

// The table for v variables: completeness and order are computed.
fn patterns(v: usize) -> &'static [i8]
    requires { (1 ≤ v) × (v ≤ 4) }
    ensures { result.now ≡ flat (outside v) }
{
    match v {
        1 => &tables::ONE,
        2 => &tables::TWO,
        3 => &tables::THREE,
        _ => &tables::FOUR,
    }
}

// The number of a rank.
fn number(r: i8) -> usize
    requires { In r eight }
    ensures { result ≡ rank_number r }
{
    let d = (r + 4) as usize;
    if 4 < d { d - 5 } else { 7 - d }
}

// The key of entry n for v variables, from the last rank to the first.
fn key(ranks: &[i8], v: usize, n: usize) -> usize
    requires ranks_value { ranks.now ≡ flat (outside v) }
    requires has_entry { HasEntry v n }
    ensures { result ≡ key_of (get_or (entries_for v) n []) }
{
    let mut k = 0;
    for i in (0..v).rev() {
        k = 8 * k + number(ranks[v * n + i]);
    }
    k
}

// Where the keys of the entries for v variables stand.
#[tactic(auto, unfolding(crate::specs::Inner::Table::first_of))]
fn first(v: usize) -> usize
    ensures { result ≡ first_of v }
{
    match v {
        0 | 1 => Table::SLOTS,
        2 => 4683,
        3 => 4691,
        4 => 4735,
        _ => Table::SIZE,
    }
}

// Writes the entries for v variables into the row, each with its key and its index.
fn load(row: &mut [u16], v: usize, ones: usize)
    requires le_v { (1 ≤ v) × (v ≤ 4) × (ones ≡ ones_of v) }
    requires loaded_to { LoadedTo (first_of v) row.old }
    ensures { LoadedTo (first_of (v + 1)) row.new }
{
    let ranks = patterns(v);
    let start = first(v);
    for n in 0..first(v + 1) - start {
        let k = key(ranks, v, n);
        row[start + n] = k as u16;
        row[k + ones] = n as u16;
    }
}
