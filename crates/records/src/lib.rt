// Not for callers: are the evidence records of a target true? From the keys of its members, which are laid once for
// all records of the target.
// Relies on `evidence` for the records and the sides that a target allows, on `keys` and `leaders` for the keys and on
// `layout` for the target, its rows and columns. Called by `verify`.
#![tactic(auto)]

ghost use Rattle.std.specs.Prelude.{◌<◌, ◌≡◌, true, ◌↔◌};
ghost use Rattle.columns.specs.Bound.{column_bound};
ghost use Rattle.model.specs.Bounds.{row_bound};
ghost use Rattle.model.specs.View.{AgreeOn};
ghost use Rattle.leaders.specs.Table.{view_by};
ghost use Rattle.evidence.specs.Lists.{Each};
ghost use Rattle.evidence.specs.Run.{records_of};
ghost use Rattle.records.specs.True.{AgreeAt, TrueBy, TrueByFor, AllTrueBy, AllTrue};

use evidence::{EvidenceRecords, sides_fit};
use keys::lay_all;
use layout::Target;
use leaders::{RowKeys, SIZE};
use model::Evidence;

// Do rows p and q agree on column k, if it is in the set?
fn agree_at(keys: RowKeys, set: u32, k: u32, p: usize, q: usize) -> bool
    requires { (k < column_bound) × (p < row_bound) × (q < row_bound) }
    ensures { (result ≡ true) ↔ AgreeAt keys.entry set p q k }
{
    (set >> k) % 2 == 0 || keys.key(k, p) == keys.key(k, q)
}

// Do they agree on a set of members?
fn agree_on(keys: RowKeys, set: u32, p: usize, q: usize) -> bool
    requires { (p < row_bound) × (q < row_bound) }
    ensures { (result ≡ true) ↔ AgreeOn (view_by keys.entry) set p q }
{
    (0..keys.members).all(|k| agree_at(keys, set, k, p, q))
}

// Is a record of the target true? Where its rows agree on the set and disagree on the right, the right is not in the
// set.
fn is_true(keys: RowKeys, low: u32, e: Evidence) -> bool
    ensures { (result ≡ true) ↔ TrueBy keys.entry low e }
{
    let set = u32::from(e.set);
    let right = u32::from(e.right);
    let p = usize::from(e.first);
    let q = usize::from(e.second);
    sides_fit(keys.members, low, set, right)
        && p < keys.rows
        && q < keys.rows
        && agree_on(keys, set, p, q)
        && !keys.agree_right(right, p, q)
}

// Is a record true if it is one of the target?
fn is_true_for(keys: RowKeys, low: u32, target: u32, e: Evidence) -> bool
    ensures { (result ≡ true) ↔ TrueByFor keys.entry low target e }
{
    u32::from(e.target) != target || is_true(keys, low, e)
}

// Are all records of the target true?
fn all_true(keys: RowKeys, low: u32, target: u32, records: EvidenceRecords) -> bool
    ensures { (result ≡ true) ↔ AllTrueBy keys.entry low target (records_of records.entry) }
{
    (0..records.count).all(|i| is_true_for(keys, low, target, records.record(i)))
}

// 8: is each record's target below the number of tables?
pub fn all_known(records: EvidenceRecords, tables: u32) -> bool
    ensures { (result ≡ true) ↔ Each (λ e. e.target < tables) (records_of records.entry) }
{
    (0..records.count).all(|i| u32::from(records.record(i).target) < tables)
}

// Are the records of a target true?
pub fn target_true(target: Target, records: EvidenceRecords) -> bool
    ensures { (result ≡ true) ↔ AllTrue target.entry.cat.now target.entry.table (records_of records.entry) }
{
    let mut all = [0u16; SIZE];
    lay_all(target, &mut all);
    let n = target.members();
    let low = target.inherited();
    let end = target.rows();
    let keys = RowKeys {
        keys: &all,
        members: n,
        rows: end,
    };
    all_true(keys, low, target.table, records)
}
