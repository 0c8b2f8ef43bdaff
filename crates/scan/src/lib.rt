// Not for callers: what the agree sets that occur break, or the seeds, of any view whose rows are laid as keys. A flag
// for each agree set notes which of them occur in the lines of the rows, and the words are written from these flags.
// Relies on `classes` and `lines` for the lines, and on the definitions of `table` and `planes`. Called by `rights` and
// `soundness`.
#![tactic(auto)]

mod broken;
mod pairs;
mod seeds;

pub use broken::write;
pub use seeds::{sow, sow_among};

// How many agree sets there are.
const SETS: usize = 1 << columns::COLUMN_BOUND;
