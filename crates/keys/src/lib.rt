// Not for callers: the keys of a target's members, laid from the catalogue. The key of a row on a member is the
// lowest row that agrees with it there, so above the keys nothing looks at codes, missing cells or ancestor rows.
// Relies on `layout` for what stands where, on `climb` for the rows reached, on `grouping` for rows grouped by words,
// and on the laws of `leaders` and `filled`. Called by `rights`, `dependency`, `records` and
// `soundness`.
#![tactic(auto)]

mod column;

ghost use Rattle.std.specs.Prelude.{ℕ, ◌+◌, ◌-◌, ◌*◌, ◌^◌, ◌≤◌, ◌<◌, ◌≡◌, length, get_or};
ghost use Rattle.columns.specs.Bound.{column_bound};
ghost use Rattle.model.specs.Bounds.{row_bound};
ghost use Rattle.layout.specs.Targets.{view_of, members_in, rows_in};
ghost use Rattle.leaders.specs.Keys.{keys_size, LaidFor, Keyed};
ghost use Rattle.keys.specs.Column.{LaidTable};

use bits::power;
use climb::{code_at, own_rows, parent_rows, short_at};
use column::{fill_words, put_keys};
use grouping::group;
use layout::{Target, trailer};
use leaders::{ROWS, SIZE};

// Lays the members of a set among the c columns of the table at o, the last first, where the first is member low and
// the rows of the target lead to the rows reached.
fn lay_table(
    cat: &[u8],
    o: usize,
    c: usize,
    low: usize,
    reached: &[u16; ROWS],
    end: usize,
    set: u32,
    keys: &mut [u16; SIZE],
)
    requires o_bound { (o < 2 ^ 32) × (low + c ≤ column_bound) × (end ≤ row_bound) × (length keys.old ≡ keys_size) }
    requires by_index { (q : ℕ) → q < end
        → o + 6 + get_or reached.now q 0 * (2 + 4 * c) + (2 + 4 * c) ≤ length cat.now }
    ensures { LaidTable cat.now o c low reached.now end set 0 keys.old
        keys.new }
{
    let mut words = [0; ROWS];
    let mut leaders = [0; ROWS];
    for j in (0..c).rev() {
        if (set >> (low + j)) % 2 == 0 {
            continue;
        }
        fill_words(cat, o + 8 + 4 * j, 2 + 4 * c, reached, end, &mut words);
        group(&words, end, &mut leaders);
        put_keys(low + j, end, &leaders, keys);
    }
}

// Lays the keys of the members in a set, table by table from the target up to the last that has one: the key of a row
// on a member is the lowest row that agrees with it there.
pub fn lay(target: Target, set: u32, keys: &mut [u16; SIZE])
    requires { length keys.old ≡ keys_size }
    ensures { (length keys.new ≡ keys_size) × LaidFor (view_of target.entry) set keys.new }
{
    let cat = target.cat;
    let first = trailer(cat) as usize;
    let end = target.rows();
    let mut reached = [0; ROWS];
    own_rows(end, &mut reached);
    let mut at = target.table as usize;
    let mut above = target.members() as usize;
    // It counts no index: the climb goes by the parents that the bytes name.
    'climb: loop {
        let o = code_at(cat, first + 4 * at) as usize;
        let c = short_at(cat, o) as usize;
        above -= c;
        lay_table(cat, o, c, above, &reached, end, set, keys);
        if set % power(above as u32) == 0 {
            return;
        }
        parent_rows(cat, o + 6, 2 + 4 * c, end, &mut reached);
        at = short_at(cat, o + 2) as usize;
    }
}

// Lays the keys of all members of a target.
pub fn lay_all(target: Target, all: &mut [u16; SIZE])
    requires { length all.old ≡ keys_size }
    ensures { Keyed (view_of target.entry) (2 ^ members_in target.entry - 1) (members_in target.entry)
        (rows_in target.entry) all.new }
{
    lay(target, power(target.members()) - 1, all);
}
