// The lent work cells of a search over nodes of two words. A node is found by a hash index with chains, stored and marked; cells are counted
// and zeroed; the way of parents to an entry is written out. What the nodes mean, and which leads to which, is not known here.
#![tactic(auto)]

ghost use Rattle.std.specs.Prelude.{◌≡◌, ◌+◌, ◌*◌, ◌/◌, ◌%◌, ◌<◌, ◌≤◌, length, get_or, set};
ghost use Rattle.cells.specs.Cells.{cell_words, most_cells, cells_of, zeroed};
ghost use Rattle.cells.specs.Inner.Columns.{half, place_field, pattern_field, distance_field, parent_field, marks_field, way_field, column, word_column, columns_of, Only, Stored, Entered};
ghost use Rattle.cells.specs.Inner.Index.{node, fold_of, bucket_of, FoundIs};
ghost use Rattle.cells.specs.Inner.Entries.{entries_of, FilledIn, LatestIn, Added, BegunIn};
ghost use Rattle.cells.specs.Inner.Marks.{is_marked, marking};
ghost use Rattle.cells.specs.Inner.Way.{Parents, Depth, Traced};

// How many numbers half a word holds.
const HALF: u64 = 4294967296;

// A cell: its words, and which field is where. A place and a pattern take two words each, the lower half first. The way of a sample takes the
// place of the marks, which only a search needs.
#[derive(Clone, Copy, Debug, PartialEq, Eq)]
pub struct Cell;

impl Cell {
    // At most so many cells are used.
    pub const MOST: usize = 65536;

    pub const WORDS: usize = 10;

    pub const PLACE: usize = 0;

    pub const PATTERN: usize = 2;

    pub const DISTANCE: usize = 4;

    pub const PARENT: usize = 5;

    pub const HEAD: usize = 6;

    pub const NEXT: usize = 7;

    pub const MARKS: usize = 8;

    pub const WAY: usize = 8;

    pub const BUCKET: usize = 9;
}

// A number of a cell, for an index.
pub fn wide(x: u32) -> usize
    ensures { result ≡ x }
{
    x as usize
}

// ---- the fields of a cell
fn low(x: u64) -> u32
    ensures { result ≡ x % half }
{
    (x % HALF) as u32
}

fn high(x: u64) -> u32
    ensures { result ≡ x / half }
{
    (x / HALF) as u32
}

fn join(low: u32, high: u32) -> u64
    ensures { result ≡ low + high * half }
{
    low as u64 + high as u64 * HALF
}

// Field f of cell i.
pub fn get(cells: &[[u32; Cell::WORDS]], i: usize, f: usize) -> u32
    requires { (i < length cells.now) × (f < cell_words) }
    ensures { result ≡ get_or (column f cells.now) i 0 }
{
    cells[i][f]
}

// The word of 64 bits in fields f and f + 1 of cell i.
pub fn word(cells: &[[u32; Cell::WORDS]], i: usize, f: usize) -> u64
    requires { (i < length cells.now) × (f + 1 < cell_words) }
    ensures { result ≡ get_or (word_column f cells.now) i 0 }
{
    join(cells[i][f], cells[i][f + 1])
}

// Stores x in field f of cell i.
pub fn put(cells: &mut [[u32; Cell::WORDS]], i: usize, f: usize, x: u32)
    requires { (i < length cells.old) × (f < cell_words) }
    ensures { Stored f i x cells.old cells.new }
{
    cells[i][f] = x;
}

// ---- all cells
// The cells that are used.
pub fn cells_of(cells: &[[u32; Cell::WORDS]]) -> usize
    ensures { result ≡ cells_of cells.now }
{
    Cell::MOST.min(cells.len())
}

// Zeroes every word of every cell.
pub fn clear(cells: &mut [[u32; Cell::WORDS]])
    ensures { cells.new ≡ zeroed cells.old }
{
    cells.fill([0; Cell::WORDS]);
}

// ---- the index
#[tactic(auto, unfolding(crate::specs::Inner::Index::fold_of))]
fn fold(x: u64) -> u64
    ensures { result ≡ fold_of x }
{
    (x ^ x / HALF) % HALF
}

// The bucket of a node. Factors of 32 bits spread small numbers over a word, and two rounds mix the pattern's upper lanes. Nodes that
// differ in the first lane alone lie side by side, and those that differ in the place alone at a fixed distance, so that a search
// that visits them one after another uses neighbouring cells.
pub fn bucket(place: u64, pattern: u64, size: usize) -> usize
    requires { (0 < size) × (size ≤ most_cells) }
    ensures { (result ≡ bucket_of (node place pattern) size) × (result < size) }
{
    let low = pattern / 65536 % 65536 * 2654435769;
    let high = pattern / HALF * 2246822519;
    let mixed = fold(fold(low ^ high) * 2654435769);
    let lane = pattern % 65536 * (HALF / size as u64);
    let spread = (mixed + place % HALF * 2654435769 + lane) % HALF;
    (spread * size as u64 / HALF) as usize
}

// The latest entry of bucket b. The head counts only if it names an entry of that bucket: else the bucket has none.
fn first(cells: &[[u32; Cell::WORDS]], count: usize, size: usize, b: usize) -> u32
    requires filled_in { FilledIn cells.now count size }
    requires b_lt_size { b < size }
    ensures { LatestIn cells.now count size b result }
{
    let head = get(cells, b, Cell::HEAD);
    let h = head as usize;
    let past = count < h;
    if h == 0 || past {
        return 0;
    }
    if get(cells, h - 1, Cell::BUCKET) as usize == b {
        head
    } else {
        0
    }
}

// Where the node is stored among the first count entries.
pub fn find(
    cells: &[[u32; Cell::WORDS]],
    count: usize,
    size: usize,
    place: u64,
    pattern: u64,
) -> Option<usize>
    requires { FilledIn cells.now count size }
    ensures { FoundIs (word_column place_field cells.now) (word_column pattern_field cells.now) count (node place pattern) result }
{
    let h = bucket(place, pattern, size);
    let mut cur = first(cells, count, size, h) as usize;
    while 0 < cur {
        let i = cur - 1;
        if word(cells, i, Cell::PLACE) == place && word(cells, i, Cell::PATTERN) == pattern {
            return Some(i);
        }
        cur = get(cells, i, Cell::NEXT) as usize;
    }
    None
}

// ---- the entries
// Writes an entry, with the next of its bucket and no marks, into cell i.
fn enter(
    cells: &mut [[u32; Cell::WORDS]],
    i: usize,
    place: u64,
    pattern: u64,
    distance: u32,
    parent: u32,
    next: u32,
    bucket: u32,
)
    requires { i < length cells.old }
    ensures { Entered i place pattern distance parent next bucket cells.old cells.new }
{
    let mut c = cells[i];
    c[Cell::PLACE] = low(place);
    c[Cell::PLACE + 1] = high(place);
    c[Cell::PATTERN] = low(pattern);
    c[Cell::PATTERN + 1] = high(pattern);
    c[Cell::DISTANCE] = distance;
    c[Cell::PARENT] = parent;
    c[Cell::NEXT] = next;
    c[Cell::MARKS] = 0;
    c[Cell::BUCKET] = bucket;
    cells[i] = c;
}

// Stores an entry, a node with its distance and its parent, as entry count, at the head of its bucket's chain.
pub fn add(
    cells: &mut [[u32; Cell::WORDS]],
    count: usize,
    size: usize,
    place: u64,
    pattern: u64,
    distance: u32,
    parent: u32,
)
    requires filled_in { FilledIn cells.old count size }
    requires count_lt_size { count < size }
    ensures added { Added (entries_of (columns_of cells.old)) (entries_of (columns_of cells.new))
        count (node place pattern) distance parent }
    ensures filled_in_2 { FilledIn cells.new (count + 1) size }
    ensures cells_after { column marks_field cells.new ≡ set (column marks_field cells.old) count 0 }
{
    let h = bucket(place, pattern, size);
    let next = first(cells, count, size, h);
    enter(
        cells, count, place, pattern, distance, parent, next, h as u32,
    );
    put(cells, h, Cell::HEAD, (count + 1) as u32);
}

// Stores the start as entry 0, whatever the cells hold.
pub fn begin(cells: &mut [[u32; Cell::WORDS]], size: usize, place: u64, pattern: u64)
    requires size_nonzero { 0 < size }
    requires size_bound { size ≤ cells_of cells.old }
    ensures { BegunIn cells.new size (node place pattern) }
{
    add(cells, 0, size, place, pattern, 0, 0);
}

// Whether entry i is marked for variable v.
#[tactic(auto, unfolding(crate::specs::Inner::Marks::is_marked))]
pub fn marked(cells: &[[u32; Cell::WORDS]], i: usize, v: usize) -> bool
    requires { (i < length cells.now) × (v < 32) }
    ensures { result ≡ is_marked (column marks_field cells.now) i v }
{
    (get(cells, i, Cell::MARKS) >> v) % 2 == 1
}

// Marks entry i for variable v.
#[tactic(auto, using(crate::proofs::Marking::shifted_one), unfolding(crate::specs::Inner::Marks::marking))]
pub fn mark(cells: &mut [[u32; Cell::WORDS]], i: usize, v: usize)
    requires { (i < length cells.old) × (v < 32) }
    ensures cells_after { column marks_field cells.new ≡ marking (column marks_field cells.old) i v }
    ensures only { Only marks_field cells.old cells.new }
{
    let m = get(cells, i, Cell::MARKS) | 1 << v;
    put(cells, i, Cell::MARKS, m);
}

// How many parents up from an entry the first entry is.
pub fn depth(cells: &[[u32; Cell::WORDS]], n: usize, at: usize) -> usize
    requires parents { Parents (column parent_field cells.now) n }
    requires at_lt_n { at < n }
    ensures { Depth (column parent_field cells.now) at result }
{
    let mut i = at;
    let mut s = 0;
    // Kept: s counts the steps of a walk that ends at the first entry; it is no index.
    while 0 < i {
        i = get(cells, i, Cell::PARENT) as usize;
        s += 1;
    }
    s
}

// Writes the way of parents to an entry that is so many steps below the first: cell t holds the entry at step t.
pub fn trace(cells: &mut [[u32; Cell::WORDS]], n: usize, at: usize, steps: usize)
    requires parents { Parents (column parent_field cells.old) n }
    requires at_lt_n { at < n }
    requires depth { Depth (column parent_field cells.old) at steps }
    ensures traced { Traced (column parent_field cells.old) (column way_field cells.new) n at steps }
    ensures only { Only way_field cells.old cells.new }
{
    let mut i = at;
    for t in (0..=steps).rev() {
        put(cells, t, Cell::WAY, i as u32);
        i = get(cells, i, Cell::PARENT) as usize;
    }
}
