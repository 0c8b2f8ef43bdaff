// Packed lists: entries packed into bytes and read back, behind any bytes in front. In order: whether a file may be
// read, and the part in front (`open`, `front`); a reading entry by entry (`Reader`: `start`, `opened`, `next`,
// `advance`, `front_of`); reading into a lent run of records (`read`); packing (`pack`). A file that `open` refuses
// gives the refusal and no byte in front, never an entry.
// Relies on the definitions of `model`, on `entries` for 15, and on `unpacking` and `packing` for all that needs no
// reader.
// Called by hosts and programs, and by `verify`.
#![tactic(auto)]

ghost use Rattle.std.specs.Prelude.{◌≡◌, length};
ghost use Rattle.model.specs.Reply.{entries_reply, open_reply, pack_reply};
ghost use Rattle.model.specs.Packing.{pack_meaning, output_after};
ghost use Rattle.model.specs.Reading.{front_read, open_meaning, read_meaning, run_read};
ghost use Rattle.packed.specs.Reading.{Begun, entry_next, front_held, advanced};

use entries::entries_ok;
use model::{ENTRY_BYTES, Entry, Opened, Refusal, TRAILER_BYTES};
use packing::{check_entries, check_room, write_list};
use unpacking::{count_in, distance_in, entry_at, front_by, position_after, read_part};

// May the file be read as a packed list? 14, then 15 over all entries.
pub fn open(file: &[u8]) -> Result<Opened, Refusal>
    ensures { open_reply result ≡ open_meaning file.now }
{
    if file.len() < TRAILER_BYTES {
        return Err(Refusal::NoList);
    }
    let count = count_in(file);
    let distance = distance_in(file);
    if distance != ENTRY_BYTES * (count as usize) + TRAILER_BYTES || file.len() < distance {
        return Err(Refusal::NoList);
    }
    let first = file.len() - distance;
    if !entries_ok(file, count, first) {
        return Err(Refusal::BadEntry);
    }
    Ok(Opened {
        entries: count,
        front: first,
    })
}

// The part in front of the list of a file; no byte where `open` refuses the file.
#[tactic(auto, using(crate::proofs::Reading::front_by_lem))]
pub fn front(file: &[u8]) -> &[u8]
    ensures { result.now ≡ front_read file.now }
{
    front_by(file, open(file))
}

// A reading of a packed list, entry by entry over the lent file: the file, the position of the entry that comes next,
// and what `open` answers.
#[derive(Clone, Copy)]
pub struct Reader<'a> {
    list: &'a [u8],
    at: u32,
    answer: Result<Opened, Refusal>,
}

// A reading of a file, at its first entry. It goes over the list once, for `open`, and not again.
pub fn start<'a>(file: &'a [u8]) -> Reader<'a>
    ensures { Begun file.entry result }
{
    Reader {
        list: file,
        at: 0,
        answer: open(file),
    }
}

// What `open` answers: how many entries and how many bytes in front, or the refusal.
pub fn opened<'a>(r: Reader<'a>) -> Result<Opened, Refusal>
    ensures { result ≡ r.entry.answer }
{
    r.answer
}

// The entry that comes next; none at the end, and where the file was refused.
pub fn next<'a>(r: Reader<'a>) -> Option<Entry>
    ensures { result ≡ entry_next r.entry }
{
    entry_at(r.list, r.at, r.answer)
}

// The reading after that entry; at the end it stays there.
pub fn advance<'a>(r: Reader<'a>) -> Reader<'a>
    ensures { result ≡ advanced r.entry }
{
    Reader {
        at: position_after(r.list, r.at, r.answer),
        ..r
    }
}

// The part of the file in front of the list; no byte where the file was refused.
pub fn front_of<'a>(r: Reader<'a>) -> &'a [u8]
    ensures { result.now ≡ front_held r.entry }
{
    front_by(r.list, r.answer)
}

// Reads the entries from an index on into the run, as many as it has records, and answers how many: none behind the
// last entry. The other records stay as they were, and all of them after a refusal.
pub fn read(file: &[u8], from: usize, run: &mut [Entry]) -> Result<usize, Refusal>
    ensures { (entries_reply result ≡ read_meaning file.now from (length run.old))
        × (run.new ≡ run_read file.now from run.old) }
{
    let list = open(file)?;
    Ok(read_part(file, list.entries as usize, list.front, from, run))
}

// Packs entries into an output: 15 entry by entry, then 16. It writes the list from the output's start and answers
// how many bytes that is; a refusal writes nothing.
pub fn pack(entries: &[Entry], out: &mut [u8]) -> Result<usize, Refusal>
    ensures { (pack_reply result ≡ pack_meaning entries.now (length out.old))
        × (out.new ≡ output_after entries.now out.old) }
{
    check_entries(entries)?;
    check_room(entries, out)?;
    Ok(write_list(entries, out))
}
