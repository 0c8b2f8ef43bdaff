// Where a place is: its target and its left side.
ghost use Rattle.std.specs.Prelude.{ℕ, ◌^◌, ◌≤◌, ◌<◌, List, ◌≡◌, get_or, length};
ghost use Rattle.columns.specs.Bound.{column_bound};
ghost use Rattle.columns.specs.Order.{in_order};
ghost use Rattle.model.specs.Bounds.{work_bound};
ghost use Rattle.model.specs.Catalogue.{sets as sets_of};
ghost use Rattle.model.specs.Check.{Accepted};
ghost use Rattle.model.specs.Listing.{ordinary};
ghost use Rattle.walk.specs.Places.{Found};
ghost use Rattle.walk.specs.Walks.{First};

use bits::power;
use columns::ColumnSet;
use passing::{Held, Walk};

// A target, and an index in the order of its sets.
#[derive(Clone, Copy)]
pub struct Spot {
    pub target: u32,
    pub index: u32,
}

// The target of a place, and the index of the set that stands there: whole targets are passed.
fn find(cat: &[u8], place: u32) -> Spot
    requires accepted { Accepted cat.now }
    requires place_bound { place < sets_of cat.now }
    ensures { Found (ordinary cat.now) place result.target result.index }
{
    let mut index = place;
    for target in 0..u32::from(layout::tables(cat)) {
        let here = power(layout::visible(cat, target));
        if index < here {
            return Spot { target, index };
        }
        index -= here;
    }
    unreachable!()
}

// The set at an index of the order of n columns.
fn set_at(n: u32, index: u32) -> u32
    requires n_le_column_bound { n ≤ column_bound }
    requires index_bound { index < 2 ^ n }
    ensures { result ≡ get_or (in_order n) index 0 }
{
    ColumnSet::at(n, index).unwrap().bits
}

// The walk at the set that stands at a place. What it says of the work words and of rights means nothing yet.
pub fn first(cat: &[u8], place: u32, budget: u32, room: usize) -> Walk
    requires accepted { Accepted cat.now }
    requires place_bound { place < sets_of cat.now }
    requires budget_nonzero { 0 < budget }
    ensures { (words : List ℕ) → work_bound ≤ length words
        → First (ordinary cat.now) place budget room result words }
{
    let s = find(cat, place);
    let target = s.target;
    let n = layout::visible(cat, target);
    let left = set_at(n, s.index);
    Walk {
        target,
        left,
        members: n,
        held: Held::Table,
        own: 0,
        place,
        budget,
        room,
        passed: 0,
        count: 0,
        pending: 0,
    }
}
