// Trials on catalogues at the bounds, written into lent bytes: what the check answers, and listing calls.
use crate::print::{check, trial};
use std::io;
use trial_kit::{coded, deep, flat, two};

// 16 and 17 columns in one table.
fn columns(rt: &impl Print, bytes: &mut [u8]) -> io::Result<()> {
    check(rt, "16 columns", flat(bytes, 16, 2))?;
    let cat = flat(bytes, 17, 2);
    check(rt, "17 columns", cat)?;
    trial(rt, ("17 columns, list", cat, 0, 1, 17))
}

// 16 and 17 visible columns in two tables.
fn visible(rt: &impl Print, bytes: &mut [u8]) -> io::Result<()> {
    check(rt, "16 visible columns", two(bytes, 15, 1))?;
    let cat = two(bytes, 16, 1);
    check(rt, "17 visible columns", cat)?;
    trial(rt, ("17 visible columns, list", cat, 0, 1, 17))
}

// Two rows of 16 columns, of which the first is a key and the others have one code: the sets of no column, of one and
// of two; the last set; the last place and the one after it.
fn wide(rt: &impl Print, bytes: &mut [u8]) -> io::Result<()> {
    let cat = flat(bytes, 16, 2);
    trial(rt, ("16 columns, 137 sets", cat, 0, 137, 17))?;
    trial(rt, ("16 columns, the last set", cat, 65535, 1, 17))?;
    trial(rt, ("16 columns, place 65536", cat, 65536, 1, 17))?;
    trial(rt, ("16 columns, place 65537", cat, 65537, 1, 17))
}

// Two equal rows: the empty set gives every column, 16 entries, the most that a set has. They fit, or miss by one. One
// row: the empty set is a key, which is one entry.
fn fit(rt: &impl Print, bytes: &mut [u8]) -> io::Result<()> {
    let equal = coded(bytes, 16, 2, |_| 5);
    trial(rt, ("16 entries, run of 16", equal, 0, 2, 16))?;
    trial(rt, ("16 entries, run of 15", equal, 0, 2, 15))?;
    trial(rt, ("16 entries, run of 15, budget 0", equal, 0, 0, 15))?;
    let lone = flat(bytes, 16, 1);
    trial(rt, ("16 columns, one row", lone, 0, 65536, 17))?;
    trial(rt, ("16 columns, one row, budget 1", lone, 0, 1, 17))
}

// Tables without rows, of one column (K6) and of 16: they have their sets, and list nothing.
fn none(rt: &impl Print, bytes: &mut [u8]) -> io::Result<()> {
    trial(rt, ("K6", flat(bytes, 1, 0), 0, 2, 2))?;
    let cat = flat(bytes, 16, 0);
    trial(rt, ("16 columns, no rows", cat, 0, 65536, 17))?;
    trial(rt, ("16 columns, no rows, budget 1", cat, 0, 1, 17))
}

// 4,096 and 4,097 rows of one column, which is a key.
fn rows(rt: &impl Print, bytes: &mut [u8]) -> io::Result<()> {
    let cat = flat(bytes, 1, 4096);
    check(rt, "4096 rows", cat)?;
    trial(rt, ("4096 rows, list", cat, 0, 2, 1))?;
    let cat = flat(bytes, 1, 4097);
    check(rt, "4097 rows", cat)?;
    trial(rt, ("4097 rows, list", cat, 0, 2, 1))
}

// 16 and 17 tables of one column and two rows, each under the one before.
fn tables(rt: &impl Print, bytes: &mut [u8]) -> io::Result<()> {
    check(rt, "16 tables", deep(bytes, 16, 2))?;
    let cat = deep(bytes, 17, 2);
    check(rt, "17 tables", cat)?;
    trial(rt, ("17 tables, list", cat, 0, 1, 1))
}

pub fn trial_sizes(rt: &impl Print) -> io::Result<()> {
    let mut bytes = [0u8; 24598];
    columns(rt, &mut bytes)?;
    visible(rt, &mut bytes)?;
    wide(rt, &mut bytes)?;
    fit(rt, &mut bytes)?;
    none(rt, &mut bytes)?;
    rows(rt, &mut bytes)?;
    tables(rt, &mut bytes)
}
