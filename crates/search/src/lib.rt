// Not for callers: the first breaking pair of a dependency, from keys alone. A row strays if it does not agree on the
// right side with its leader on the left; the first breaking pair is the lowest leader that a row strays from, and the
// lowest such row.
// Relies on `partition` for the leaders of a left side and on the laws of `leaders`. Called by `dependency`.
#![tactic(auto)]

ghost use Rattle.std.specs.Prelude.{◌≤◌, ◌<◌, ◌≡◌, get_or, length};
ghost use Rattle.columns.specs.Bound.{column_bound};
ghost use Rattle.model.specs.Bounds.{row, row_bound};
ghost use Rattle.model.specs.Pair.{first_pair};
ghost use Rattle.leaders.specs.Table.{view_by};
ghost use Rattle.search.specs.Strays.{LowerLeaders, strays as strays_of, MarkedMore, MarkedBelow, FirstStray};
ghost use Rattle.search.specs.Strays.{rows_found, follows as follows_of, row_after};

use leaders::{ROWS, RowKeys};
use model::RowPair;
use partition::leaders_of;

// Does row q not agree on the right side with its leader?
fn strays(keys: RowKeys, leaders: &[u16; ROWS], right: u32, q: usize) -> bool
    requires { (q < row_bound) × (get_or leaders.now q 0 < row_bound) × ((right ≡ row → ⊥) → right < column_bound) }
    ensures { result ≡ strays_of keys.entry.keys.now leaders.now right q }
{
    !keys.agree_right(right, leaders[q] as usize, q)
}

// Marks the leader of row q if the row strays from it.
fn mark_leader(keys: RowKeys, leaders: &[u16; ROWS], right: u32, q: usize, marks: &mut [bool; ROWS])
    requires q_lt_row_bound { (q < row_bound) × (get_or leaders.now q 0 < row_bound)
        × ((right ≡ row → ⊥) → right < column_bound) }
    requires marks_len { length marks.old ≡ row_bound }
    ensures { MarkedMore keys.entry.keys.now leaders.now right q marks.old marks.new }
{
    if strays(keys, leaders, right, q) {
        marks[leaders[q] as usize] = true;
    }
}

// Marks each leader that a row strays from. A mark too many would only cost time.
fn mark_leaders(keys: RowKeys, leaders: &[u16; ROWS], right: u32, marks: &mut [bool; ROWS])
    requires { LowerLeaders keys.rows leaders.now × ((right ≡ row → ⊥) → right < column_bound)
        × (length marks.old ≡ row_bound) }
    ensures { (length marks.new ≡ row_bound)
        × MarkedBelow keys.entry.keys.now leaders.now right keys.entry.rows marks.new }
{
    for q in 0..keys.rows {
        mark_leader(keys, leaders, right, q, marks);
    }
}

// The row after p where p is marked, and else the end.
fn row_after(marks: &[bool; ROWS], p: usize, end: usize) -> usize
    requires { p < row_bound }
    ensures { result ≡ row_after marks.now p end }
{
    if marks[p] {
        return p + 1;
    }
    end
}

// Is p the leader of row q, from which it strays?
fn follows(keys: RowKeys, leaders: &[u16; ROWS], right: u32, p: usize, q: usize) -> bool
    requires { (q < row_bound) × (get_or leaders.now q 0 < row_bound) × ((right ≡ row → ⊥) → right < column_bound) }
    ensures { result ≡ follows_of keys.entry.keys.now leaders.now right p q }
{
    if leaders[q] as usize != p {
        return false;
    }
    strays(keys, leaders, right, q)
}

// The lowest leader that a row strays from, and the lowest such row. The loops over rows are left by a label with the
// pair, as docs/PROMISES.md names the form of this search.
fn first_stray(
    keys: RowKeys,
    leaders: &[u16; ROWS],
    marks: &[bool; ROWS],
    right: u32,
) -> Option<RowPair>
    requires lower_leaders { LowerLeaders keys.rows leaders.now × ((right ≡ row → ⊥) → right < column_bound) }
    requires marked_below { MarkedBelow keys.keys.now leaders.now right keys.rows marks.now }
    ensures { FirstStray keys.entry.keys.now leaders.now right keys.entry.rows result }
{
    let end = keys.rows;
    'rows: {
        for p in 0..end {
            for q in row_after(marks, p, end)..end {
                if follows(keys, leaders, right, p, q) {
                    break 'rows Some(RowPair {
                        first: p as u32,
                        second: q as u32,
                    });
                }
            }
        }
        None
    }
}

// The first breaking pair of the left side x and the right side, the lower row first, or that there is none.
pub fn first_pair(keys: RowKeys, x: u32, right: u32) -> Option<RowPair>
    requires { (right ≡ row → ⊥) → right < column_bound }
    ensures { rows_found result ≡ first_pair (view_by keys.entry) x right }
{
    let mut rows = [0u16; ROWS];
    leaders_of(keys, x, &mut rows);
    let mut marks = [false; ROWS];
    mark_leaders(keys, &rows, right, &mut marks);
    first_stray(keys, &rows, &marks, right)
}
