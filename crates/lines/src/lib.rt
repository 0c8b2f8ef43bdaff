// Not for callers: the line of one row, its agree sets with the rows after it as 2-byte numbers. Members whose
// classes are numbered in a byte are compared eight at a time, which the compiler turns into vector compares of bytes
// (`part`); the others by their keys, one after the other (`wide`).
// Relies on `classes` for the numbers, on the definitions of `leaders` and `table` for keys and agree sets, and on a
// law of `filled`. Called by `scan`.
#![tactic(auto)]

mod part;
mod wide;

ghost use Rattle.std.specs.Prelude.{◌<◌};
ghost use Rattle.model.specs.Bounds.{row_bound};
ghost use Rattle.table.specs.Broken.{agree_set_of};
ghost use Rattle.leaders.specs.Table.{view_by};
ghost use Rattle.classes.specs.Classes.{Numbered};
ghost use Rattle.lines.specs.Lines.{LineOf};

use bits::power;
use classes::BYTES;
use leaders::{ROWS, RowKeys};
use part::numbered_line;
use wide::add_wide;

// The agree sets of row x with the rows after it, by all members. The line and its two parts may hold anything before.
pub fn line_of(
    keys: RowKeys,
    bytes: &[u8; BYTES],
    few: u32,
    x: usize,
    low: &mut [u8; ROWS],
    high: &mut [u8; ROWS],
    line: &mut [u16; ROWS],
)
    requires x_lt_row_bound { x < row_bound }
    requires numbered { Numbered keys.keys.now keys.members keys.rows few bytes.now }
    ensures { LineOf (agree_set_of (view_by keys.entry) x) x keys.entry.rows line.new }
{
    numbered_line(bytes, few, x, keys.rows, low, high, line);
    if few == power(keys.members) - 1 {
        return;
    }
    add_wide(keys, few, x, line);
}
