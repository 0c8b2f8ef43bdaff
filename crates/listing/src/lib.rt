// The listing call: entries are put into a lent run of records, one after the other, as `steps` says: `list` stores
// and counts.
// Relies on `steps` for everything else. Called by hosts and programs.
#![tactic(auto)]

ghost use Rattle.model.specs.Reply.{list_reply};
ghost use Rattle.model.specs.List.{ListMeaning};
ghost use Rattle.model.specs.Calls.{seen};
ghost use Rattle.listing.specs.Filled.{FilledBy};

use model::{Entry, Progress, Refusal};
use steps::{Stepped, begin, step};

// Puts the entries of a call into the run, one after the other. What comes next is looked at before there is a record
// for it, so a `for` over the records would have to look at it once more behind the last one.
pub fn list(
    cat: &[u8],
    place: u32,
    budget: u32,
    run: &mut [Entry],
    work: &mut [u32],
) -> Result<Progress, Refusal>
    ensures { ListMeaning cat.now
        (seen place budget run.old work.old (list_reply result) run.new
        work.new) }
{
    let mut s = begin(cat, place, budget, run.len(), work)?;
    let mut n: usize = 0;
    loop {
        match s {
            Stepped::Put(e, next) => {
                run[n] = e;
                n += 1;
                s = step(cat, next, work);
            }
            Stepped::Done(a) => return Ok(a),
        }
    }
}

// How many records a run by value holds; `run_bound` of specs/Filled.antt is the same number in the definitions.
pub const RUN_BOUND: usize = 65536;

// What a listing call answers, and its run: `FilledBy` says what the run is after a refusal too.
#[derive(Clone, Copy)]
pub struct Filled {
    pub answer: Result<Progress, Refusal>,
    pub run: [Entry; RUN_BOUND],
}

// A listing call with a run of its own, of records that are zero: for callers that hold no slice of records.
pub fn list_filled(cat: &[u8], place: u32, budget: u32, room: usize, work: &mut [u32]) -> Filled
    ensures { FilledBy cat.now place budget room work.old result.answer result.run
        work.new }
{
    let mut run = [Entry {
        target: 0,
        right: 0,
        left: 0,
    }; RUN_BOUND];
    let k = room.min(RUN_BOUND);
    let answer = list(cat, place, budget, &mut run[..k], work);
    Filled { answer, run }
}
