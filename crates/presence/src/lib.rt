// Not for callers: which cells are present in the rows of a target, as a set of members for each row, and the left
// sides that they back, which are those inside the set of some row.
// Relies on `layout` for what stands where, on `climb` for numbers of the catalogue, on `planes` for the closing, and
// on the laws of `table` and `filled`. Called by `rights`, `soundness` and `coverage`.
#![tactic(auto)]

ghost use Rattle.std.specs.Prelude.{ℕ, ◌+◌, ◌*◌, ◌^◌, ◌≤◌, ◌<◌, ◌≡◌, length};
ghost use Rattle.columns.specs.Bound.{column_bound};
ghost use Rattle.columns.specs.Set.{set_below};
ghost use Rattle.model.specs.Bounds.{row_bound};
ghost use Rattle.model.specs.View.{View, backed};
ghost use Rattle.layout.specs.Targets.{view_of, members_in, rows_in};
ghost use Rattle.table.specs.Words.{word};
ghost use Rattle.table.specs.Backed.{present_set_of, PresentSets, LaidSet, SetsNoted};
ghost use Rattle.planes.specs.Marks.{RoomFor, Marked};
ghost use Rattle.planes.specs.Plane.{BackedPlane};
ghost use Rattle.presence.specs.Cells.{present_cell};

use bits::power;
use climb::{code_at, short_at};
use layout::{Target, trailer};
use model::{MISSING, ROWS};
use planes::{PLANE, mark};

// Is the left side x backed, by the sets of the rows?
pub fn is_backed(sets: &[u32; ROWS], end: usize, x: u32) -> bool
    requires { end ≤ row_bound }
    ensures { (v : View) (n : ℕ) → PresentSets v n end sets.now → x < 2 ^ n → result ≡ backed v x }
{
    for q in 0..end {
        if x & sets[q] == x {
            return true;
        }
    }
    false
}

// Notes bit b at the set of each row.
pub fn note(sets: &[u32; ROWS], end: usize, b: u32, words: &mut [u32])
    requires { (end ≤ row_bound) × (b < 32) × ((q : ℕ) → q < end → word sets.now q < length words.old) }
    ensures { SetsNoted b sets.now end words.old words.new }
{
    let bit = power(b);
    for row in 0..end {
        words[sets[row] as usize] |= bit;
    }
}

// Marks the set of each row, which is one of m columns.
fn mark_sets(sets: &[u32; ROWS], end: usize, m: u32, plane: &mut [u32])
    requires { (end ≤ row_bound) × RoomFor m plane.old × ((q : ℕ) → q < end → word sets.now q < 2 ^ m) }
    ensures { Marked (LaidSet sets.now end) plane.old plane.new }
{
    for q in 0..end {
        mark(plane, sets[q]);
    }
}

// The plane of backed left sides from the sets of the rows, among the sets of m columns.
fn close_rows(sets: &[u32; ROWS], end: usize, m: u32, plane: &mut [u32])
    requires { (end ≤ row_bound) × RoomFor m plane.old × ((q : ℕ) → q < end → word sets.now q < 2 ^ m) }
    ensures { (v : View) (n : ℕ) → n ≤ m → PresentSets v n end sets.now
        → BackedPlane v plane.new }
{
    let mut marks = [0; PLANE];
    mark_sets(sets, end, m, &mut marks);
    planes::fill(&marks, m, m, plane);
}

// The present ones among the c cells from a byte on, and behind them the members of a set: the last cell first.
fn join_cells(cat: &[u8], from: usize, c: usize, set: u32) -> u32
    requires { (from + 4 * c ≤ length cat.now) × (c ≤ column_bound) × (set < 2 ^ column_bound) }
    ensures { result ≡ set_below c (present_cell cat.now from) + 2 ^ c * set }
{
    let mut joined = set;
    for j in (0..c).rev() {
        let present = code_at(cat, from + 4 * j) != MISSING;
        joined = 2 * joined + u32::from(present);
    }
    joined
}

// The members whose cells are present in row p of a target with n members: table by table from the target up to the
// root, by the rows that p leads to. The number is handed on, since to ask the target for it is a climb of its own.
fn present_set(target: Target, n: u32, p: usize) -> u32
    requires { (n ≡ members_in target) × (p < rows_in target) }
    ensures { result ≡ present_set_of (view_of target.entry) p }
{
    let cat = target.cat;
    let first = trailer(cat) as usize;
    let mut at = target.table as usize;
    let mut row = p;
    let mut above = n as usize;
    let mut set: u32 = 0;
    // It counts no index: the climb goes by the parents that the bytes name.
    'climb: loop {
        let o = code_at(cat, first + 4 * at) as usize;
        let c = short_at(cat, o) as usize;
        above -= c;
        let here = o + 6 + row * (2 + 4 * c);
        set = join_cells(cat, here + 2, c, set);
        if above == 0 {
            return set;
        }
        row = short_at(cat, here) as usize;
        at = short_at(cat, o + 2) as usize;
    }
}

// The sets of all rows of a target.
pub fn lay(target: Target, sets: &mut [u32; ROWS])
    requires { length sets.old ≡ row_bound }
    ensures { PresentSets (view_of target.entry) (members_in target.entry) (rows_in target.entry) sets.new }
{
    let n = target.members();
    for q in 0..target.rows() {
        sets[q] = present_set(target, n, q);
    }
}

// The plane of the backed left sides of a target, among the sets of m columns.
pub fn backed_plane(target: Target, m: u32, plane: &mut [u32])
    requires { (members_in target ≤ m) × RoomFor m plane.old }
    ensures { BackedPlane (view_of target.entry) plane.new }
{
    let mut sets = [0; ROWS];
    lay(target, &mut sets);
    close_rows(&sets, target.rows(), m, plane);
}
