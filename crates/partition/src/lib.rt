// Not for callers: the partition of the rows by a left side, from keys alone. The rows that agree on the left side
// have one leader, and the left side gives a right exactly if every row agrees with its leader there: one pass over
// the rows for each member and each right, and none over pairs of rows.
// Relies on `grouping` for the leaders by one number a row, on the laws of `leaders` and `filled`, and on `table` for
// sets of rights. Called by `rights`, `search` and `dependency`.
#![tactic(auto)]

ghost use Rattle.std.specs.Prelude.{◌≡◌, ◌↔◌, true, ℕ, suc, ◌^◌, ◌≤◌, ◌<◌, List, length};
ghost use Rattle.columns.specs.Bound.{column_bound};
ghost use Rattle.columns.specs.Set.{bit};
ghost use Rattle.model.specs.Bounds.{row_bound};
ghost use Rattle.model.specs.View.{In};
ghost use Rattle.table.specs.Broken.{minimal_mask};
ghost use Rattle.leaders.specs.Table.{view_by};
ghost use Rattle.partition.specs.Partition.{key_bound, leader_word, Led, MemberJoined, Back, Gives, GivenBelow};
ghost use Rattle.partition.specs.Partition.{Given, Spares};

use bits::power;
use grouping::group;
use leaders::{ROWS, RowKeys};
use table::lacking;

// A key is below it; `key_bound` of specs/Partition.antt is the same number in the definitions.
const KEY_BOUND: u64 = 65536;

// By no member row 0 leads every row. Answers as `leaders_of`.
fn lead_by_first(end: usize, leaders: &mut [u16; ROWS]) -> bool
    requires end_le_row_bound { end ≤ row_bound }
    requires leaders_len { length leaders.old ≡ row_bound }
    ensures { (keys : List ℕ) (x : ℕ) → Led keys 0 end x leaders.new result }
{
    leaders[..end].fill(0);
    end <= 1
}

// A leader and a key as one number.
fn word(leader: u16, key: u16) -> u64
    ensures { (key < key_bound) × (result ≡ leader_word leader key) }
{
    leader as u64 * KEY_BOUND + key as u64
}

// One member more: rows have the same leader if they had the same one before and have the same key on member k.
// Answers as `leaders_of`.
fn join(keys: RowKeys, k: u32, leaders: &mut [u16; ROWS]) -> bool
    requires k_lt_column_bound { k < column_bound }
    requires leaders_len { length leaders.old ≡ row_bound }
    ensures { MemberJoined keys.entry.keys.now k keys.entry.rows leaders.old leaders.new result }
{
    let mut words = [0u64; ROWS];
    for q in 0..keys.rows {
        words[q] = word(leaders[q], keys.key(k, q));
    }
    group(&words, keys.rows, leaders)
}

// The same if the left side has member k; else the leaders stay.
fn join_if(keys: RowKeys, k: u32, x: u32, alone: bool, leaders: &mut [u16; ROWS]) -> bool
    requires k_lt_column_bound { k < column_bound }
    requires leaders_len { length leaders.old ≡ row_bound }
    ensures { Led keys.entry.keys.now k keys.entry.rows x leaders.old alone
        → Led keys.entry.keys.now (suc k) keys.entry.rows x leaders.new result }
{
    if (x >> k) % 2 == 0 {
        return alone;
    }
    join(keys, k, leaders)
}

// The leaders of all rows on the left side x. It answers whether every row leads itself, and ends as soon as every row
// does.
pub fn leaders_of(keys: RowKeys, x: u32, leaders: &mut [u16; ROWS]) -> bool
    requires leaders_len { length leaders.old ≡ row_bound }
    ensures { Led keys.entry.keys.now keys.entry.members keys.entry.rows x leaders.new result }
{
    let mut alone = lead_by_first(keys.rows, leaders);
    for m in 0..keys.members {
        if alone {
            return true;
        }
        alone = join_if(keys, m, x, alone, leaders);
    }
    alone
}

// Does every row have the key of its leader on member a? With the leaders on a left side: does it give member a?
fn gives(keys: RowKeys, leaders: &[u16; ROWS], a: u32) -> bool
    requires a_lt_column_bound { a < column_bound }
    requires back { Back leaders.now keys.rows }
    ensures { (result ≡ true) ↔ Gives keys.entry.keys.now leaders.now a keys.entry.rows }
{
    for q in 0..keys.rows {
        if keys.key(a, leaders[q] as usize) != keys.key(a, q) {
            return false;
        }
    }
    true
}

// The members given, with member a if it is wanted and the left side of the leaders gives it.
fn with_member(keys: RowKeys, leaders: &[u16; ROWS], a: u32, wanted: u32, given: u32) -> u32
    requires a_lt_column_bound { a < column_bound }
    requires back { Back leaders.now keys.rows }
    ensures { GivenBelow keys.entry.keys.now leaders.now keys.entry.rows wanted a given
        → GivenBelow keys.entry.keys.now leaders.now keys.entry.rows wanted (suc a) result }
{
    if (wanted >> a) % 2 == 0 {
        return given;
    }
    if !gives(keys, leaders, a) {
        return given;
    }
    given | power(a)
}

// Of the members wanted, those that the left side of the leaders gives.
fn given_members(keys: RowKeys, leaders: &[u16; ROWS], wanted: u32) -> u32
    requires back { Back leaders.now keys.rows }
    ensures { GivenBelow keys.entry.keys.now leaders.now keys.entry.rows wanted keys.entry.members result }
{
    let mut given: u32 = 0;
    for a in 0..keys.members {
        given = with_member(keys, leaders, a, wanted, given);
    }
    given
}

// Of the rights wanted, bit a for member a and the bit above them all for the row, those that the left side x gives.
// Where every row leads itself, x gives them all.
pub fn given(keys: RowKeys, x: u32, wanted: u32) -> u32
    ensures { Given keys.entry.keys.now keys.entry.members keys.entry.rows x wanted result }
{
    let mut leaders = [0u16; ROWS];
    if leaders_of(keys, x, &mut leaders) {
        return wanted % power(keys.members + 1);
    }
    given_members(keys, &leaders, wanted)
}

// Of some rights, those that cannot spare member k of the left side x, if it has it.
fn needing(keys: RowKeys, x: u32, k: u32, rights: u32) -> u32
    requires k_lt_members { k < keys.members }
    ensures { (a : ℕ) → (bit result a ≡ 1) ↔ ((bit rights a ≡ 1)
        × (In k x → Spares keys.entry.keys.now keys.entry.members keys.entry.rows x a k → ⊥)) }
{
    if (x >> k) % 2 == 0 {
        return rights;
    }
    lacking(rights, given(keys, x - power(k), rights))
}

// The minimal rights of one left side, of those asked for: x gives them, and does not with a member less. It ends
// early once no right is left.
pub fn minimal_alone(keys: RowKeys, own: u32, x: u32) -> u32
    requires x_bound { x < 2 ^ keys.members }
    requires own_bound { own < 2 ^ suc keys.members }
    ensures { result ≡ minimal_mask (view_by keys.entry) own x }
{
    let mut kept = given(keys, x, lacking(own, x));
    for k in 0..keys.members {
        if kept == 0 {
            return 0;
        }
        kept = needing(keys, x, k, kept);
    }
    kept
}
