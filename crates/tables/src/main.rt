// Prints crates/outside_row/src/tables.rt: the outside patterns of one to four variables (document 02, T-06).
//
// A table is what is kept of all rows of four ranks from -4 to 4, which are gone through in rising order. If there are v variables, the first v
// ranks of a row are theirs, and the others are 0.
#![tactic(auto)]

use std::io;

const VARIABLES: usize = 4;

// The greatest rank, and the number of ranks from its negative on.
const GREATEST: i8 = 4;

const RANKS: u16 = 9;

const ROWS: u16 = 6561;

type Row = [i8; VARIABLES];

// What stands before, between and after the ranks of a table.
struct Layout {
    before: &'static str,
    between: &'static str,
    after: &'static str,
}

// A table in one line.
const SHORT: Layout = Layout {
    before: "",
    between: ", ",
    after: "",
};

// A table with a line for each rank.
const LONG: Layout = Layout {
    before: "\n    ",
    between: ",\n    ",
    after: ",\n",
};

// The row with number n, counted from 0: n written to the base 9, each digit less 4.
fn row_at(n: u16) -> Row {
    [n / 729, n / 81, n / RANKS, n].map(|digits| (digits % RANKS) as i8 - GREATEST)
}

// The rank one nearer to 0; for -1, 0 and 1 the rank itself.
fn nearer(rank: i8) -> i8 {
    if rank < -1 {
        rank + 1
    } else if 1 < rank {
        rank - 1
    } else {
        rank
    }
}

// Whether the first v ranks are those that are not 0, and ranks are counted from 1 and from -1 with none left out.
fn is_pattern(row: &Row, v: usize) -> bool {
    row.iter()
        .enumerate()
        .all(|(i, rank)| (*rank != 0) == (i < v))
        && row.iter().all(|rank| row.contains(&nearer(*rank)))
}

fn print_table(
    rt: &impl Print,
    name: &str,
    size: usize,
    v: usize,
    layout: &Layout,
) -> io::Result<()> {
    print!(rt; "\npub const {name}: [i8; {size}] = [")?;
    let mut before = layout.before;
    for n in 0..ROWS {
        let row = row_at(n);
        if is_pattern(&row, v) {
            for rank in row.iter().take(v) {
                print!(rt; "{before}{rank}")?;
                before = layout.between;
            }
        }
    }
    println!(rt; "{}];", layout.after)
}

fn main(rt: HostRuntime) -> io::Result<()> {
    println!(rt;
        "// The outside patterns of one to four variables, entry after entry, a signed rank for each variable."
    )?;
    println!(rt; "// The program `tables` prints this file.")?;
    print_table(&rt, "ONE", 2, 1, &SHORT)?;
    print_table(&rt, "TWO", 16, 2, &SHORT)?;
    print_table(&rt, "THREE", 132, 3, &LONG)?;
    print_table(&rt, "FOUR", 1232, 4, &LONG)
}
