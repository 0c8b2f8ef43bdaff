// Listings of the album in steps: what the calls join, compared with the listing at one go.
use listing::{RUN_BOUND, list_filled};
use model::{Entry, Refusal};
use std::io;
use trial_kit::{ALBUM, listed};

// The album's sets, and its last place.
const LAST: u32 = 10;

// How many calls were answered, and the place that they reached.
#[derive(Clone, Copy)]
struct Reached {
    calls: u32,
    place: u32,
}

// Why a listing in steps is not the one at one go: a call is refused, stays at its place, or lists other entries.
#[derive(Clone, Copy)]
enum Fault {
    Refused(Refusal),
    Stuck,
    Differs,
}

impl From<Refusal> for Fault {
    fn from(why: Refusal) -> Fault {
        Fault::Refused(why)
    }
}

// Calls from the place reached on, until the last place. Every work word is 7 before each call.
fn list_in_steps(
    reached: &mut Reached,
    whole: &[Entry],
    budget: u32,
    room: usize,
    work: &mut [u32],
) -> Result<(), Fault> {
    let mut rest = whole;
    for calls in 1..=LAST {
        work.fill(7);
        let filled = list_filled(&ALBUM, reached.place, budget, room, work);
        let progress = filled.answer?;
        if progress.place <= reached.place {
            return Err(Fault::Stuck);
        }
        let entries = listed(filled.answer, &filled.run);
        let (front, behind) = rest.split_at_checked(entries.len()).ok_or(Fault::Differs)?;
        if front != entries {
            return Err(Fault::Differs);
        }
        rest = behind;
        *reached = Reached {
            calls,
            place: progress.place,
        };
        if progress.place == LAST {
            break;
        }
    }
    if rest.is_empty() {
        Ok(())
    } else {
        Err(Fault::Differs)
    }
}

// A listing in steps of one budget and one run, against the listing at one go.
fn compare(
    rt: &impl Print,
    whole: &[Entry],
    budget: u32,
    room: usize,
    work: &mut [u32],
) -> io::Result<()> {
    let mut reached = Reached { calls: 0, place: 0 };
    let outcome = list_in_steps(&mut reached, whole, budget, room, work);
    let Reached { calls, place } = reached;
    print!(rt; "budget {budget} run {room}: calls {calls} ")?;
    match outcome {
        Ok(()) => println!(rt; "same"),
        Err(Fault::Refused(why)) => println!(rt; "refused {} at place {place}", u32::from(why)),
        Err(Fault::Stuck) => println!(rt; "stuck at place {place}"),
        Err(Fault::Differs) => println!(rt; "differs behind place {place}"),
    }
}

// Every budget from 1 to the number of sets, and runs of 0 to 4 records.
pub fn trial_steps(rt: &impl Print) -> io::Result<()> {
    let mut work = [7u32; 16384];
    let whole = list_filled(&ALBUM, 0, LAST, RUN_BOUND, &mut work);
    for budget in 1..=LAST {
        for room in 0..=4 {
            compare(
                rt,
                listed(whole.answer, &whole.run),
                budget,
                room,
                &mut work,
            )?;
        }
    }
    Ok(())
}
