// Not for callers: what is read of a packed list: the trailer's two numbers; by what `packed::open` answered, the
// entry at a position, the position after it and the part in front; and the entries from an index on that a run has
// room for.
// Relies on the definitions of `model`, on `file` for numbers in a file and on `entries` for the entries. Called by
// `packed`.
#![tactic(auto)]

ghost use Rattle.std.specs.Prelude.{◌+◌, ◌-◌, ◌*◌, ◌≤◌, ◌≡◌, length};
ghost use Rattle.model.specs.Calls.{run_after};
ghost use Rattle.model.specs.Entries.{entry_bytes};
ghost use Rattle.model.specs.Reading.{count_in, distance_in, read_at};
ghost use Rattle.unpacking.specs.Reading.{entries_by, front_by, after_in};
ghost use Rattle.unpacking.specs.Part.{part_from};

use entries::entry_from;
use file::u32_at;
use model::{ENTRY_BYTES, Entry, Opened, Refusal, TRAILER_BYTES};

// The trailer's two numbers: how many entries, and the distance from the end back to the first.
#[tactic(auto, unfolding(model::specs::Reading::count_in))]
pub fn count_in(file: &[u8]) -> u32
    ensures { result ≡ count_in file.now }
{
    u32_at(file, file.len().saturating_sub(TRAILER_BYTES))
}

#[tactic(auto, unfolding(model::specs::Reading::distance_in))]
pub fn distance_in(file: &[u8]) -> usize
    ensures { result ≡ distance_in file.now }
{
    u32_at(file, file.len().saturating_sub(4)) as usize
}

// The position of the first entry.
fn first_in(file: &[u8]) -> usize
    ensures { result ≡ length file.now - distance_in file.now }
{
    file.len().saturating_sub(distance_in(file))
}

// How many entries may be read: none where the file was refused. Here and below the file and the answer are two
// parameters and no struct, since `Begun` and `advanced` of packed/specs fix that `Reader` holds them side by side.
#[tactic(auto, using(entries::proofs::Entries::length_in), unfolding(crate::specs::Reading::entries_by))]
fn entries_in(file: &[u8], answer: Result<Opened, Refusal>) -> u32
    ensures { result ≡ length (entries_by answer file.now) }
{
    match answer {
        Ok(_) => count_in(file),
        Err(_) => 0,
    }
}

// The entry at position i of a file that `open` gave an answer; none behind the last entry, and where the file was
// refused.
pub fn entry_at(file: &[u8], i: u32, answer: Result<Opened, Refusal>) -> Option<Entry>
    ensures { result ≡ read_at (entries_by answer file.now) i }
{
    if entries_in(file, answer) <= i {
        return None;
    }
    let at = first_in(file) + ENTRY_BYTES * (i as usize);
    Some(entry_from(file, at))
}

// The position after i while an entry is there, else i.
#[tactic(auto, unfolding(crate::specs::Reading::after_in, columns::specs::Test::if_lt))]
pub fn position_after(file: &[u8], i: u32, answer: Result<Opened, Refusal>) -> u32
    ensures { result ≡ after_in (entries_by answer file.now) i }
{
    if i < entries_in(file, answer) {
        i + 1
    } else {
        i
    }
}

// The part in front of the list; no byte where the file was refused.
#[tactic(auto, unfolding(crate::specs::Reading::front_by, model::specs::Reading::front_of))]
pub fn front_by(file: &[u8], answer: Result<Opened, Refusal>) -> &[u8]
    ensures { result.now ≡ front_by answer file.now }
{
    match answer {
        Ok(_) => &file[..first_in(file)],
        Err(_) => &file[..0],
    }
}

// Of k entries that begin at a position: reads into the run those from an index on, as many as it has records, and
// answers how many.
#[tactic(auto, unfolding(model::specs::Entries::entries_from))]
pub fn read_part(file: &[u8], k: usize, first: usize, from: usize, run: &mut [Entry]) -> usize
    requires { first + entry_bytes * k ≤ length file.now }
    ensures count { result ≡ length (part_from file.now k first from (length run.old)) }
    ensures run { run.new ≡ run_after 0 (part_from file.now k first from (length run.old)) run.old }
{
    let skipped = from.min(k);
    let at = first + ENTRY_BYTES * skipped;
    let rest = k - skipped;
    let count = rest.min(run.len());
    for (n, slot) in run[..count].iter_mut().enumerate() {
        let here = at + ENTRY_BYTES * n;
        *slot = entry_from(&file[here..here + ENTRY_BYTES], 0);
    }
    count
}
