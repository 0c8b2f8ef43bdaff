// From one set to the next: a set is passed if its entries fit.
ghost use Rattle.std.specs.Prelude.{◌<◌, ◌≡◌};
ghost use Rattle.model.specs.Check.{Accepted};
ghost use Rattle.model.specs.Listing.{ordinary};
ghost use Rattle.rights.specs.Ready.{Ready};
ghost use Rattle.walk.specs.Meaning.{Good};
ghost use Rattle.walk.specs.Walks.{Fresh, moved_to, Passes, Follows, Goes};

use columns::ColumnSet;
use layout::Target;
use passing::{Walk, passed};
use rights::Entered;

// Passes the walk's set, whose rights the work words tell. It is written out where it is called: a walk handed over and
// back goes through memory, for every set of a listing.
#[inline(always)]
fn pass(cat: &[u8], w: Walk, work: &mut [u32]) -> Option<Walk>
    requires accepted { Accepted cat.now }
    requires fresh { Fresh (ordinary cat.now) w work.old }
    requires ready { Ready (ordinary cat.now) w.target w.held w.own work.old }
    ensures { Passes (ordinary cat.now) w result work.new }
{
    let target = Target {
        cat,
        table: w.target,
    };
    let mask = rights::rights(target, w.members, w.left, w.held, w.own, work);
    passed(w, mask)
}

// The walk at a set of a target that is entered.
fn entering(w: Walk, target: u32, left: u32, members: u32, entered: Entered) -> Walk
    ensures { result ≡ moved_to w target left members entered.held entered.mask }
{
    Walk {
        target,
        left,
        members,
        held: entered.held,
        own: entered.mask,
        ..w
    }
}

// Passes the first set of a call: by itself where it is the only one that can be passed, and else with the words made
// ready for its target.
pub fn pass_first(cat: &[u8], w: Walk, work: &mut [u32]) -> Option<Walk>
    requires accepted { Accepted cat.now }
    requires fresh { Fresh (ordinary cat.now) w work.old }
    ensures { Passes (ordinary cat.now) w result work.new }
{
    let target = Target {
        cat,
        table: w.target,
    };
    if w.budget == 1 {
        let mask = rights::alone(target, w.left, work);
        return passed(w, mask);
    }
    let entered = rights::prepare(target, work);
    let v = entering(w, w.target, w.left, w.members, entered);
    pass(cat, v, work)
}

// The walk at the next set: of the same target, or the empty set of the next target.
fn following(cat: &[u8], w: Walk, work: &mut [u32]) -> Option<Walk>
    requires accepted { Accepted cat.now }
    requires good { Good (ordinary cat.now) w work.old }
    requires pending_value { w.pending ≡ 0 }
    requires budget_nonzero { 0 < w.budget }
    ensures { Follows (ordinary cat.now) w result work.new }
{
    let here = ColumnSet { bits: w.left };
    match here.next(w.members) {
        Some(s) => { Some(Walk { left: s.bits, ..w }) }
        None => {
            let table = w.target + 1;
            let n = layout::tables(cat) as u32;
            if n <= table {
                return None;
            }
            let target = Target { cat, table };
            let entered = rights::prepare(target, work);
            Some(entering(w, table, ColumnSet::EMPTY.bits, target.members(), entered))
        }
    }
}

// Passes the next set, if there is budget and a set and its entries fit.
pub fn onward(cat: &[u8], w: Walk, work: &mut [u32]) -> Option<Walk>
    requires accepted { Accepted cat.now }
    requires good { Good (ordinary cat.now) w work.old }
    requires pending_value { w.pending ≡ 0 }
    ensures { Goes (ordinary cat.now) w result work.new }
{
    if w.budget == 0 {
        return None;
    }
    let v = following(cat, w, work)?;
    pass(cat, v, work)
}
