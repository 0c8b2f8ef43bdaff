// An entry's rank: listing order as one number, worked out once for each entry of a list.
ghost use Rattle.std.specs.Prelude.{◌≡◌};
ghost use Rattle.entries.specs.Rank.{rank_of};

use crate::left_set;
use model::Entry;

// An entry with its rank, which is part of the type.
#[derive(Clone, Copy)]
pub struct Ranked {
    pub it: Entry,
    pub rank: u64,
    pub ghost ranked: { rank ≡ rank_of it },
}

// The entry with its rank.
pub fn with_rank(e: Entry) -> Ranked
    ensures { result.it ≡ e }
{
    let sized = u64::from(e.target) * 256 + u64::from(left_set(e).size());
    let rank = (sized * 65536 + u64::from(e.left)) * 256 + u64::from(e.right);
    Ranked { it: e, rank }
}
