// Members whose classes are not numbered: compared by their keys, one after the other.
ghost use Rattle.std.specs.Prelude.{ℕ, ◌+◌, ◌<◌, List};
ghost use Rattle.columns.specs.Bound.{column_bound};
ghost use Rattle.model.specs.Bounds.{row_bound};
ghost use Rattle.lines.specs.Lines.{LineOf, with_member, met_at};

use bits::power;
use leaders::{ROWS, RowKeys};

// The line of row x with the bit of member k at the rows that have the same key there.
fn add_member(keys: RowKeys, k: u32, x: usize, line: &mut [u16; ROWS])
    requires { (k < column_bound) × (x < row_bound) }
    ensures { LineOf (with_member keys.entry.keys.now k x line.old) x keys.entry.rows line.new }
{
    let all = keys.keys;
    let at = k as usize * ROWS;
    let own = all[at + x];
    let bit = power(k) as u16;
    for q in x + 1..keys.rows {
        line[q] |= if own == all[at + q] { bit } else { 0 };
    }
}

// The same for member k if it is not numbered, where those before it are in the line.
fn add_if(keys: RowKeys, few: u32, k: u32, x: usize, line: &mut [u16; ROWS])
    requires { (k < column_bound) × (x < row_bound) }
    ensures { (bytes : List ℕ) → LineOf (met_at keys.entry.keys.now bytes few k x) x keys.entry.rows line.old
        → LineOf (met_at keys.entry.keys.now bytes few (k + 1) x) x keys.entry.rows line.new }
{
    if (few >> k) % 2 == 0 {
        add_member(keys, k, x, line);
    }
}

// Adds all of the members that are not numbered.
pub fn add_wide(keys: RowKeys, few: u32, x: usize, line: &mut [u16; ROWS])
    requires { x < row_bound }
    ensures { (bytes : List ℕ) → LineOf (met_at keys.entry.keys.now bytes few 0 x) x keys.entry.rows line.old
        → LineOf (met_at keys.entry.keys.now bytes few keys.entry.members x) x keys.entry.rows line.new }
{
    for k in 0..keys.members {
        add_if(keys, few, k, x, line);
    }
}
