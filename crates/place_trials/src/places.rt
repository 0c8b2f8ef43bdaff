// Listing calls that pass one set, each against the walk from place 0: at every place of 6 columns, and of 16 columns
// at the first and the last place of each size and at the middle ones; on one catalogue for all places, on one in which
// the set at the place is a key, and on one in which it gives all other columns and is none.
use columns::ColumnSet;
use listing::{Filled, RUN_BOUND, list_filled};
use model::Entry;
use std::io;
use trial_kit::{keyed, listed, print_listed};

// A listing call, whose work words are all 7 before.
fn list(cat: &[u8], place: u32, budget: u32) -> Filled {
    let mut work = [7u32; 16384];
    list_filled(cat, place, budget, RUN_BOUND, &mut work)
}

// The left side of the first entry that the call for one set gave, if it gave one, and whether its entries are those by
// which the walk past the set has more than the walk up to it.
fn print_same(
    rt: &impl Print,
    single: &[Entry],
    before: &[Entry],
    past: &[Entry],
) -> io::Result<()> {
    if let Some(first) = single.first() {
        print!(rt; " left {}", first.left)?;
    }
    let verdict = match past.get(before.len()..) {
        Some(rest) if rest == single => "same",
        Some(rest) if rest.len() == single.len() => "entries differ",
        _ => "counts differ",
    };
    println!(rt; " {verdict}")
}

// The three calls.
fn at_place(rt: &impl Print, cat: &[u8], place: u32) -> io::Result<()> {
    let single = list(cat, place, 1);
    let before = list(cat, 0, place);
    let past = list(cat, 0, place % 65536 + 1);
    print_listed(rt, single.answer)?;
    print_same(
        rt,
        listed(single.answer, &single.run),
        listed(before.answer, &before.run),
        listed(past.answer, &past.run),
    )
}

// The calls at a place, on a line, on a catalogue of n columns in which a set has entries: as a key, or for columns.
fn trial(rt: &impl Print, n: u32, place: u32, set: ColumnSet, twice: bool) -> io::Result<()> {
    let kind = if twice { "determinant" } else { "key" };
    print!(rt; "columns {n} {kind} {} place {place} ", set.bits)?;
    let mut bytes = [0u8; 4096];
    at_place(rt, keyed(&mut bytes, n, set, twice), place)
}

// Is the place tried? Every one of fewer than 16 columns. Of 16, those in the middle and the first and the last of each
// size: the set of the lowest columns, and that of the highest.
fn is_tried(n: u32, place: u32, set: ColumnSet) -> bool {
    let bits = (set.bits & 0xffff) as u16;
    let size = bits.count_ones();
    n < 16
        || place == 32767
        || place == 32768
        || size == bits.trailing_ones()
        || size == bits.leading_ones()
}

// The places of n columns, from set to set. A place that is tried is tried on the catalogues in which its set has
// entries, and on one for all places: there columns 0, 2 and 4 are a key, and each other column.
fn places(rt: &impl Print, n: u32) -> io::Result<()> {
    let mut set = ColumnSet::EMPTY;
    for place in 0..65536 {
        if is_tried(n, place, set) {
            trial(rt, n, place, set, false)?;
            trial(rt, n, place, set, true)?;
            trial(rt, n, place, ColumnSet { bits: 21 }, false)?;
        }
        match set.next(n) {
            Some(next) => set = next,
            None => break,
        }
    }
    Ok(())
}

// 6 and 16 columns.
pub fn trial_places(rt: &impl Print) -> io::Result<()> {
    places(rt, 6)?;
    places(rt, 16)
}
