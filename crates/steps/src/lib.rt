// Not for callers: the steps of a listing call, from entry to entry: `begin` and `step` decide everything, keep the
// work words and look at no record.
// Relies on `walk` for going from set to set, on `passing` for the walk's type, on `table` for the right that a bit
// stands for, on `grounds` for the check's grounds, on `layout` for the number of sets and on `refusals` for the work
// words. Called by `listing`.
#![tactic(auto)]

mod put;

ghost use Rattle.model.specs.Check.{check_code, Accepted};
ghost use Rattle.model.specs.Listing.{ordinary};
ghost use Rattle.walk.specs.Meaning.{Good};
ghost use Rattle.steps.specs.Steps.{Began, Went};

use layout::sets;
use model::{Entry, Progress, Refusal};
use passing::Walk;
use put::put;
use refusals::zero_words;
use walk::locate::first;
use walk::onward::{onward, pass_first};

// What comes next: an entry to put and the walk after it, or the answer. It is no `Result`, since neither is an error,
// and no `ControlFlow`, whose `Continue((e, w))` and `Break(a)` say less than these names.
#[derive(Clone, Copy)]
pub enum Stepped {
    Put(Entry, Walk),
    Done(Progress),
}

// One step: the next entry, or the answer.
pub fn step(cat: &[u8], w: Walk, work: &mut [u32]) -> Stepped
    requires { Accepted cat.now × Good (ordinary cat.now) w work.old }
    ensures { Went (ordinary cat.now) w work.old result work.new }
{
    let mut v = w;
    while v.pending == 0 {
        match onward(cat, v, work) {
            Some(next) => v = next,
            None => {
                zero_words(work);
                return Stepped::Done(Progress {
                    place: v.place,
                    passed: v.passed,
                    count: v.count,
                });
            }
        }
    }
    put(v)
}

// The first step of a call: a refusal, the first entry, or the answer.
pub fn begin(
    cat: &[u8],
    place: u32,
    budget: u32,
    room: usize,
    work: &mut [u32],
) -> Result<Stepped, Refusal>
    ensures { Began (check_code cat.now) (ordinary cat.now) place budget room
        work.old result
        work.new }
{
    grounds::check(cat)?;
    if work.len() < model::WORK_BOUND {
        return Err(Refusal::TooFewWords);
    }
    let last = sets(cat);
    if last < place {
        return Err(Refusal::PastTheEnd);
    }
    if budget == 0 || place == last {
        zero_words(work);
        return Ok(Stepped::Done(Progress {
            place,
            passed: 0,
            count: 0,
        }));
    }
    let w = first(cat, place, budget, room);
    match pass_first(cat, w, work) {
        Some(v) => Ok(step(cat, v, work)),
        None => {
            zero_words(work);
            Err(Refusal::RunTooShort)
        }
    }
}
