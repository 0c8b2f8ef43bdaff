// Not for callers: a walk through the sets of a listing, from the set at a place (`locate`) to the next set whose
// entries fit (`onward`).
// Relies on `passing` for the walk itself, on `rights` for the listed rights of one set, on `layout` for targets and
// on `columns` for the order of sets. Called by `steps`.
#![tactic(auto)]

pub mod locate;
pub mod onward;
