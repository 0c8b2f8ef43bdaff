// What the check answered, and a listing call, on a line. The answer to the call is the next place, how many sets it
// passed and how many entries they have, or the refusal; then stand how many records of the run are not zero (an entry
// 0 0 0 is), how many work words are 0, and the entries. All work words are 7 and all records are zero before the call,
// and there is one work word more than is ever lent.
use listing::list_filled;
use model::Entry;
use std::io;
use trial_kit::{listed, print_answer, print_entry, print_listed};

// A trial's name, and its call: the catalogue, the place, the budget and how many records the run has.
pub type Case<'a> = (&'a str, &'a [u8], u32, u32, usize);

pub fn check(rt: &impl Print, name: &str, cat: &[u8]) -> io::Result<()> {
    print!(rt; "{name} ")?;
    print_answer(
        rt,
        catalogue::check(cat),
        |c| print!(rt; "sound {} {}", c.tables, c.sets),
    )?;
    println!(rt; "")
}

// A record as it was.
const ZERO: Entry = Entry {
    target: 0,
    right: 0,
    left: 0,
};

// The call on so many of the work words.
pub fn trial_on(rt: &impl Print, case: Case<'_>, words: usize) -> io::Result<()> {
    let (name, cat, place, budget, room) = case;
    let mut work = [7u32; 16385];
    let lent = words.min(work.len());
    let filled = list_filled(cat, place, budget, room, &mut work[..lent]);
    print!(rt; "{name} ")?;
    print_listed(rt, filled.answer)?;
    let records = filled.run.iter().filter(|e| **e != ZERO).count();
    let zeros = work.iter().filter(|word| **word == 0).count();
    print!(rt; " records {records} zeros {zeros}")?;
    for e in listed(filled.answer, &filled.run) {
        print_entry(rt, *e)?;
    }
    println!(rt; "")
}

// The same on as many work words as a call needs.
pub fn trial(rt: &impl Print, case: Case<'_>) -> io::Result<()> {
    trial_on(rt, case, 16384)
}
