// Finds sets by their places, and compares them with the walk, which goes from each set to the next: by the set at an
// index (`sets`), and by listing calls that pass one set (`places`). Prints what came of it.
#![tactic(auto)]

mod places;
mod sets;

use places::trial_places;
use sets::trial_sets;
use std::io;

fn main(rt: HostRuntime) -> io::Result<()> {
    trial_sets(&rt)?;
    trial_places(&rt)
}
