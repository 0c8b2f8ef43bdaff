// Not for callers: the classes of rows that have the same key on a member, numbered in a byte each, for the members
// with at most 256 of them. Rows are then compared by bytes, twice as many at a time as by keys.
// Relies on the definitions of `leaders` for keys. Called by `scan`; `lines` reads the numbers.
#![tactic(auto)]

ghost use Rattle.std.specs.Prelude.{◌+◌, ◌<◌, ◌≡◌, true, IfSome};
ghost use Rattle.columns.specs.Bound.{column_bound};
ghost use Rattle.model.specs.Bounds.{row_bound};
ghost use Rattle.classes.specs.Classes.{Numbering, OnlyMember, SameClasses, Numbered};

use bits::power;
use columns::COLUMN_BOUND;
use leaders::{ROWS, RowKeys, SIZE};

// How many numbers a byte has; `byte_bound` of specs/Classes.antt is the same number in the definitions.
const BYTE_BOUND: usize = 256;

// How far the numbers of a member stand from those of the member before; `byte_stride` is the same number in the
// definitions.
pub const STRIDE: usize = ROWS + 64;

// How many numbers there is room for; `bytes_size` is the same number in the definitions.
pub const BYTES: usize = COLUMN_BOUND as usize * STRIDE;

// Numbers row q on member k after the rows before it: as the row that is its key, or, if that is the row itself, by
// the next number. It answers how many numbers there are then, or nothing if there are too many or the key is no
// earlier row that is its own key.
fn number_row(
    keys: &[u16; SIZE],
    k: usize,
    q: usize,
    count: usize,
    bytes: &mut [u8; BYTES],
) -> Option<usize>
    requires k_lt_column_bound { (k < column_bound) × (q < row_bound) }
    requires numbering { Numbering keys.now k q count bytes.old }
    ensures only_member { OnlyMember k bytes.old bytes.new }
    ensures numbering_2 { IfSome result (λ r. Numbering keys.now k (q + 1) r bytes.new) }
{
    let from = k * ROWS;
    let at = k * STRIDE;
    let p = keys[from + q] as usize;
    if q < p {
        return None;
    }
    if p != q {
        if keys[from + p] as usize != p {
            return None;
        }
        bytes[at + q] = bytes[at + p];
        return Some(count);
    }
    if BYTE_BOUND <= count {
        return None;
    }
    bytes[at + q] = count as u8;
    Some(count + 1)
}

// Numbers the rows on member k, and answers whether all of them are numbered.
fn number_member(keys: RowKeys, k: usize, bytes: &mut [u8; BYTES]) -> bool
    requires { k < column_bound }
    ensures only_member { OnlyMember k bytes.old bytes.new }
    ensures member_numbered { result ≡ true → SameClasses keys.entry.keys.now k keys.entry.rows bytes.new }
{
    let all = keys.keys;
    let mut count = 0;
    for q in 0..keys.rows {
        match number_row(all, k, q, count, bytes) {
            Some(next) => count = next,
            None => return false,
        }
    }
    true
}

// Numbers the rows on each of the members that has few enough classes, and answers which these are. A member that it
// left out would only cost time.
pub fn number(keys: RowKeys, bytes: &mut [u8; BYTES]) -> u32
    ensures { Numbered keys.entry.keys.now keys.entry.members keys.entry.rows result bytes.new }
{
    let mut few = 0;
    for k in 0..keys.members {
        if number_member(keys, k as usize, bytes) {
            few |= power(k);
        }
    }
    few
}
