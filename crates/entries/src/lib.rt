// Not for callers: 15 of entries. May an entry stand in a list, may it stand behind another, and may all the entries
// of a file from a position on?
// Relies on the definitions of `model`, on `file` for numbers in a file and on `columns` for left sides. Called by
// `unpacking`, `packing`, `packed` and `marks`; their proofs, and those of `verify` and `acceptance`, cite the laws on
// entries as bytes.
#![tactic(auto)]

mod rank;

ghost use Rattle.std.specs.Prelude.{◌+◌, ◌*◌, ◌≤◌, ◌≡◌, length};
ghost use Rattle.model.specs.Entry.{earlier};
ghost use Rattle.model.specs.Entries.{entry_bytes, entry_code, entries_code, entry_at, entries_from};
ghost use Rattle.entries.specs.Verdict.{bad_unless, code_after, entry_in};

use columns::{COLUMN_BOUND, ColumnSet};
use file::{byte_at, u16_at};
use model::{ENTRY_BYTES, Entry, ROW, TABLE_BOUND};
pub use rank::{Ranked, with_rank};

// The left side of an entry.
fn left_set(e: Entry) -> ColumnSet
    ensures { result.bits ≡ e.left }
{
    let bits = u32::from(e.left);
    ColumnSet { bits }
}

// 15: may the entry stand in a list?
#[tactic(auto, unfolding(model::specs::Entries::entry_code, columns::specs::Test::if_eq, columns::specs::Test::if_le))]
fn entry_ok(e: Entry) -> bool
    ensures { bad_unless result ≡ entry_code e }
{
    let right = u32::from(e.right);
    u32::from(e.target) < TABLE_BOUND
        && (right == ROW || right < COLUMN_BOUND && !left_set(e).member(right))
}

// Does e stand before f in listing order?
fn earlier(e: Ranked, f: Ranked) -> bool
    ensures { result ≡ earlier e.it f.it }
{
    e.rank < f.rank
}

// 15: may the entry stand in a list, behind the one before if there is one?
pub fn fine_after(before: Option<Ranked>, e: Ranked) -> bool
    ensures { bad_unless result ≡ code_after (entry_in before) e.it }
{
    entry_ok(e.it) && before.is_none_or(|d| earlier(d, e))
}

// The entry whose bytes begin at a position; a byte past the end reads as 0.
#[tactic(auto, using(crate::proofs::OneEntry::entry_past), unfolding(model::specs::Entries::entry_at))]
pub fn entry_from(file: &[u8], at: usize) -> Entry
    ensures { result ≡ entry_at file.now at }
{
    if file.len() <= at {
        return Entry {
            target: 0,
            right: 0,
            left: 0,
        };
    }
    Entry {
        target: byte_at(file, at),
        right: byte_at(file, at + 1),
        left: u16_at(file, at + 2),
    }
}

// 15, entry by entry: may all the entries from a position on stand in a list?
pub fn entries_ok(file: &[u8], count: u32, from: usize) -> bool
    requires { from + entry_bytes * count ≤ length file.now }
    ensures { bad_unless result ≡ entries_code (entries_from file.now count from) }
{
    let mut before = None;
    for i in 0..count {
        let at = from + ENTRY_BYTES * (i as usize);
        let e = with_rank(entry_from(&file[at..at + ENTRY_BYTES], 0));
        if !fine_after(before, e) {
            return false;
        }
        before = Some(e);
    }
    true
}
