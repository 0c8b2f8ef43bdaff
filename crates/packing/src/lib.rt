// Not for callers: packing entries. `packed::pack` checks them (15), checks the output's room (16) and writes the list.
// Relies on the definitions of `model`, on `file` for numbers in a file and on `entries` for 15. Called by `packed`.
#![tactic(auto)]

ghost use Rattle.std.specs.Prelude.{◌+◌, ◌≤◌, ◌≡◌, ◌++◌, length, drop};
ghost use Rattle.std.proofs.lemmas.List.Edits.{sets};
ghost use Rattle.model.specs.Refusal.{code_of};
ghost use Rattle.model.specs.Entries.{entry_bytes, bytes_of, entries_code};
ghost use Rattle.model.specs.Packing.{distance_of, output_code, packed};

use entries::{fine_after, with_rank};
use file::{put_u16, put_u32};
use model::{ENTRY_BYTES, Entry, Refusal, TRAILER_BYTES};

// 15, entry by entry, each behind the one before. It stays beside `entries::entries_ok`, whose entries stand in bytes:
// both loops are `with_rank`, `fine_after` and little else.
pub fn check_entries(entries: &[Entry]) -> Result<(), Refusal>
    ensures { code_of result ≡ entries_code entries.now }
{
    let mut before = None;
    for e in entries {
        let e = with_rank(*e);
        if !fine_after(before, e) {
            return Err(Refusal::BadEntry);
        }
        before = Some(e);
    }
    Ok(())
}

// 16: is there room in the output for the entries and the trailer?
#[tactic(auto, unfolding(model::specs::Packing::output_code, columns::specs::Test::if_lt))]
pub fn check_room(entries: &[Entry], out: &[u8]) -> Result<(), Refusal>
    ensures { code_of result ≡ output_code (length entries.now) (length out.now) }
{
    if out.len() < ENTRY_BYTES * entries.len() + TRAILER_BYTES {
        return Err(Refusal::OutputTooShort);
    }
    Ok(())
}

// Writes an entry.
fn put_entry(out: &mut [u8], at: usize, e: Entry)
    requires { at + entry_bytes ≤ length out.old }
    ensures { out.new ≡ sets out.old at (bytes_of e) }
{
    out[at] = e.target;
    out[at + 1] = e.right;
    put_u16(out, at + 2, e.left as usize);
}

// Writes the entries one after the other, then the trailer, and answers how many bytes that is.
#[tactic(auto, unfolding(model::specs::Entries::entries_bytes))]
pub fn write_list(entries: &[Entry], out: &mut [u8]) -> usize
    requires { distance_of (length entries.now) ≤ length out.old }
    ensures bytes { result ≡ distance_of (length entries.now) }
    ensures output { out.new ≡ packed entries.now ++ drop (distance_of (length entries.now)) out.old }
{
    for (i, e) in entries.iter().enumerate() {
        put_entry(out, ENTRY_BYTES * i, *e);
    }
    let behind = ENTRY_BYTES * entries.len();
    let bytes = behind + TRAILER_BYTES;
    put_u32(out, behind, entries.len());
    put_u32(out, behind + 4, bytes);
    bytes
}
