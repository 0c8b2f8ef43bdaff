// The check of a catalogue: the public call that says whether bytes are one.
// Relies on `grounds`, where each ground of the refusals 1 to 7 has a function, and on `layout` for how many tables and
// sets there are. Called by hosts and programs; the other public calls check first by themselves.
#![tactic(auto)]

ghost use Rattle.std.specs.Prelude.{◌≡◌};
ghost use Rattle.model.specs.Reply.{check_reply};
ghost use Rattle.model.specs.Check.{check_meaning};

use layout::{sets, tables};
use model::{Checked, Refusal};

// The check: how many tables, and how many sets over all targets; or why the bytes are no catalogue.
pub fn check(cat: &[u8]) -> Result<Checked, Refusal>
    ensures { check_reply result ≡ check_meaning cat.now }
{
    grounds::check(cat)?;
    Ok(Checked {
        tables: u32::from(tables(cat)),
        sets: sets(cat),
    })
}
