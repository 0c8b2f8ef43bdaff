// Runs the boundary cases of the check and of the listing call through the compiled calls, and prints what came back.
#![tactic(auto)]

mod print;
mod sizes;
mod stepwise;

use print::{Case, check, trial, trial_on};
use sizes::trial_sizes;
use std::io;
use stepwise::trial_steps;
use trial_kit::{ALBUM, EMPTY, LONE, MISSING_TWICE, THREE, TWO_KEYS};

const CASES: [Case; 29] = [
    // The whole listing, at the least and at the largest budget.
    ("whole", &ALBUM, 0, 10, 3),
    ("whole, budget 4294967295", &ALBUM, 0, 4294967295, 64),
    ("smallest file", &EMPTY, 0, 1, 1),
    // The last place and those after it.
    ("place 9", &ALBUM, 9, 1, 1),
    ("K11", &ALBUM, 10, 1, 1),
    ("place 10, budget 0", &ALBUM, 10, 0, 1),
    ("place 10, run of 0", &ALBUM, 10, 1, 0),
    ("place 11", &ALBUM, 11, 1, 1),
    ("place 11, budget 0", &ALBUM, 11, 0, 1),
    ("place 4294967295", &ALBUM, 4294967295, 1, 1),
    // Budgets: none, and one set.
    ("budget 0", &ALBUM, 0, 0, 4),
    ("budget 0 before an entry", &ALBUM, 3, 0, 4),
    ("budget 1 before no entry", &ALBUM, 0, 1, 4),
    ("budget 1 before an entry", &ALBUM, 3, 1, 4),
    // Runs: none, and one record less than the entries, and just as many.
    ("run of 0", &ALBUM, 0, 10, 0),
    ("run of 0 before an entry", &ALBUM, 3, 1, 0),
    ("run of 0 before an entry, budget 0", &ALBUM, 3, 0, 0),
    ("run of 1", &ALBUM, 0, 10, 1),
    ("run of 2", &ALBUM, 0, 10, 2),
    ("run of 3", &ALBUM, 0, 10, 3),
    ("run of 4", &ALBUM, 0, 10, 4),
    // Cells that are missing: K7's row has a key that is listed, and K8's key is not, in a call for all sets and in one
    // for its set. Of three tables in a line, whose root has a missing cell, all that is listed.
    ("K7", &LONE, 0, 2, 2),
    ("K8", &MISSING_TWICE, 0, 2, 2),
    ("K8, budget 1", &MISSING_TWICE, 1, 1, 2),
    ("three tables", &THREE, 0, 4294967295, 64),
    // Keys, which stand for what they give: two keys, in a call for all sets and in calls for the sets of each.
    ("two keys", &TWO_KEYS, 0, 8, 8),
    ("two keys, the first", &TWO_KEYS, 1, 1, 8),
    ("two keys, the second", &TWO_KEYS, 6, 1, 8),
    ("two keys, all columns", &TWO_KEYS, 7, 1, 8),
];

// Work words around the bound, and which ground comes first.
fn grounds(rt: &impl Print) -> io::Result<()> {
    trial_on(rt, ("16383 words", &ALBUM, 0, 10, 4), 16383)?;
    trial_on(rt, ("16384 words", &ALBUM, 0, 10, 4), 16384)?;
    trial_on(rt, ("16385 words", &ALBUM, 0, 10, 4), 16385)?;
    trial_on(rt, ("1 before all", &ALBUM[..15], 11, 1, 0), 0)?;
    trial_on(rt, ("2 before all", &ALBUM[..16], 11, 1, 0), 0)?;
    trial_on(rt, ("11 before 12", &ALBUM, 11, 1, 0), 0)?;
    trial_on(rt, ("11 before 13", &ALBUM, 3, 1, 0), 0)?;
    trial_on(rt, ("12 before 13", &ALBUM, 11, 1, 0), 16384)
}

fn main(rt: HostRuntime) -> io::Result<()> {
    check(&rt, "album", &ALBUM)?;
    for case in CASES {
        trial(&rt, case)?;
    }
    grounds(&rt)?;
    trial_sizes(&rt)?;
    trial_steps(&rt)
}
