// Not for callers: what the trial programs share, small catalogues as their bytes (`album`), larger ones written into
// lent bytes (`build`), and answers on a line (`line`). It promises nothing but that it is safe and ends: what the
// trials printed is compared with what they should.
// Relies on `text` for entries, on `model` for answers and on `columns` for sets. Called by the trial programs.
#![tactic(auto)]

mod album;
mod build;
mod line;

pub use album::{ALBUM, EMPTY, EQUAL, GROUPS, LONE, MISSING_TWICE, THREE, TWO_KEYS};
pub use build::{coded, deep, flat, keyed, two};
pub use line::{listed, print_answer, print_entry, print_listed};
