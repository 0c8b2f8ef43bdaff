// Runs the proved cases K1 to K9 and the boundary cases of the question and of the first breaking pair through the
// compiled calls, and prints what came back.
#![tactic(auto)]

mod large;
mod print;

use large::{first_pairs, large_tables};
use print::{Case, trial, trial_on};
use std::io;
use trial_kit::{ALBUM, EMPTY, EQUAL, GROUPS, LONE, MISSING_TWICE, THREE};

const CASES: [Case; 24] = [
    // The cases of the document's table.
    ("K1", &ALBUM, 1, 1, 2),
    ("K2", &ALBUM, 1, 2, 2),
    ("K3", &ALBUM, 1, 6, 255),
    ("K4", &ALBUM, 0, 0, 0),
    ("K5", &ALBUM, 0, 1, 0),
    ("K6", &EMPTY, 0, 0, 255),
    ("K7", &LONE, 0, 0, 0),
    ("K8", &MISSING_TWICE, 0, 1, 255),
    ("K9", &EQUAL, 1, 3, 255),
    // Targets at and past the last.
    ("target 1 of 2", &ALBUM, 1, 7, 255),
    ("target 2 of 2", &ALBUM, 2, 7, 255),
    ("target 4294967295 of 2", &ALBUM, 4294967295, 7, 255),
    // Left sides with the last bit and with the one after it, of 3 visible columns.
    ("left 4 of 3 columns", &ALBUM, 1, 4, 255),
    ("left 7 of 3 columns", &ALBUM, 1, 7, 255),
    ("left 8 of 3 columns", &ALBUM, 1, 8, 255),
    ("left 1 of no column", &EMPTY, 0, 1, 255),
    ("left 2147483648", &ALBUM, 1, 2147483648, 255),
    // Right sides below, at and above the own columns, which are 1 and 2, and around the row.
    ("right 0 of 1 and 2", &ALBUM, 1, 7, 0),
    ("right 1 of 1 and 2", &ALBUM, 1, 1, 1),
    ("right 2 of 1 and 2", &ALBUM, 1, 0, 2),
    ("right 3 of 1 and 2", &ALBUM, 1, 7, 3),
    ("right 254", &ALBUM, 1, 7, 254),
    ("right 255", &ALBUM, 1, 7, 255),
    ("right 256", &ALBUM, 1, 7, 256),
];

// Work words around the bound, and which ground comes first.
fn grounds(rt: &impl Print) -> io::Result<()> {
    trial_on(rt, ("16383 words", &ALBUM, 1, 1, 2), 16383)?;
    trial_on(rt, ("16384 words", &ALBUM, 1, 1, 2), 16384)?;
    trial_on(rt, ("16385 words", &ALBUM, 1, 1, 2), 16385)?;
    trial_on(rt, ("8 before 9", &ALBUM, 2, 8, 3), 0)?;
    trial_on(rt, ("9 before 10", &ALBUM, 1, 8, 3), 0)?;
    trial_on(rt, ("10 before 11", &ALBUM, 1, 7, 3), 0)?;
    trial_on(rt, ("11 alone", &ALBUM, 1, 7, 2), 0)?;
    trial_on(rt, ("1 before all", &ALBUM[..15], 9, 8, 3), 0)?;
    trial_on(rt, ("2 before all", &ALBUM[..16], 9, 8, 3), 0)
}

// A column two tables up, and a missing cell there: rows 1 and 2 reach the same root row, rows 0 and 1 do not.
const ANCESTORS: [Case; 4] = [
    ("root column gives the middle one's", &THREE, 1, 1, 1),
    ("root column gives the row", &THREE, 2, 1, 255),
    ("middle column gives the row", &THREE, 2, 2, 255),
    ("own column gives the row", &THREE, 2, 4, 255),
];

// The first of several breaking pairs: the lowest first row, then the lowest second row.
const PAIRS: [Case; 3] = [
    ("rows 0 4, 0 5, 1 2, 4 5", &GROUPS, 0, 1, 1),
    ("rows 0 1, 0 3, 1 3, 2 4", &GROUPS, 0, 2, 255),
    ("every two rows", &GROUPS, 0, 0, 255),
];

fn main(rt: HostRuntime) -> io::Result<()> {
    for case in CASES {
        trial(&rt, case)?;
    }
    grounds(&rt)?;
    for case in ANCESTORS {
        trial(&rt, case)?;
    }
    large_tables(&rt)?;
    for case in PAIRS {
        trial(&rt, case)?;
    }
    first_pairs(&rt)
}
