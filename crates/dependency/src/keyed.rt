// A question that is not refused, answered by the keys of the members that it looks at.
ghost use Rattle.std.specs.Prelude.{◌≡◌, ◌^◌, ◌≤◌, ◌<◌, length};
ghost use Rattle.columns.specs.Bound.{column_bound};
ghost use Rattle.model.specs.Bounds.{row};
ghost use Rattle.model.specs.Catalogue.{rows as rows_of, visible as visible_of};
ghost use Rattle.model.specs.Pair.{first_pair};
ghost use Rattle.model.specs.Target.{view};
ghost use Rattle.model.specs.View.{holds as holds_in};
ghost use Rattle.leaders.specs.Keys.{Keyed, keys_size};
ghost use Rattle.search.specs.Strays.{rows_found};
ghost use Rattle.dependency.specs.Posed.{Posed, members_asked, right_bit};

use bits::power;
use keys::lay;
use layout::{Target, rows, visible};
use leaders::{RowKeys, SIZE};
use model::{ROW, RowPair};
use partition::given;
use search::first_pair;

// The members that a question looks at: those of the left side, and the right side where it is a column.
fn members_of(left: u32, right: u32) -> u32
    requires { (right ≡ row → ⊥) → right < column_bound }
    ensures { result ≡ members_asked left right }
{
    if right == ROW {
        return left;
    }
    left | power(right)
}

// The bit of the right side, where n columns are visible: that of a column, or the bit above them all for the row.
fn right_bit(n: u32, right: u32) -> u32
    requires { (n ≤ column_bound) × ((right ≡ row → ⊥) → right < n) }
    ensures { result ≡ 2 ^ right_bit n right }
{
    if right == ROW {
        return power(n);
    }
    power(right)
}

// Lays the keys of the members that a question looks at.
fn lay_question(cat: &[u8], target: u32, left: u32, right: u32, keys: &mut [u16; SIZE])
    requires posed { Posed cat.now target left right }
    requires keys_len { length keys.old ≡ keys_size }
    ensures { Keyed (view cat.now target) (members_asked left right) (visible_of cat.now target)
        (rows_of cat.now target) keys.new }
{
    let table = target;
    lay(Target { cat, table }, members_of(left, right), keys);
}

// Does the dependency hold?
pub fn holds(cat: &[u8], target: u32, left: u32, right: u32) -> bool
    requires { Posed cat.now target left right }
    ensures { result ≡ holds_in (view cat.now target) left right }
{
    let mut all = [0u16; SIZE];
    lay_question(cat, target, left, right, &mut all);
    let members = visible(cat, target);
    let keys = RowKeys {
        keys: &all,
        members,
        rows: rows(cat, target) as usize,
    };
    given(keys, left, right_bit(members, right)) != 0
}

// The first breaking pair.
pub fn breaking_pair(cat: &[u8], target: u32, left: u32, right: u32) -> Option<RowPair>
    requires { Posed cat.now target left right }
    ensures { rows_found result ≡ first_pair (view cat.now target) left right }
{
    let mut all = [0u16; SIZE];
    lay_question(cat, target, left, right, &mut all);
    let keys = RowKeys {
        keys: &all,
        members: visible(cat, target),
        rows: rows(cat, target) as usize,
    };
    first_pair(keys, left, right)
}
