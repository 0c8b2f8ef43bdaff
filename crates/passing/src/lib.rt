// Not for callers: where a walk through the sets of a listing stands, and how it passes its set: with the set's
// rights pending if their entries fit, and else not at all. It looks at no catalogue.
// Relies on the definitions of `model` and `columns`. Called by `walk`; `rights` and `steps` name its types.
#![tactic(auto)]

ghost use Rattle.std.specs.Prelude.{◌≡◌};
ghost use Rattle.passing.specs.Pass.{passed_by, Passable};

// What the work words hold for a target: the table of broken rights, a word for each left side; or a bit for each
// agree set, and the rights of some left sides.
#[derive(Clone, Copy)]
pub enum Held {
    Table,
    Seeds,
}

// Where a call stands: the set that it passed last, with how many members its target has and, where more sets can be
// passed, what the work words hold for that target and which rights it has; the place after the set, the budget and
// the room that are left from there on, how many sets are passed and how many entries they have; and the rights of the
// set that are still to be put.
#[derive(Clone, Copy)]
pub struct Walk {
    pub target: u32,
    pub left: u32,
    pub members: u32,
    pub held: Held,
    pub own: u32,
    pub place: u32,
    pub budget: u32,
    pub room: usize,
    pub passed: u32,
    pub count: u32,
    pub pending: u32,
}

// The walk with its set passed, and the rights pending; none if the entries do not fit.
pub fn passed(w: Walk, mask: u32) -> Option<Walk>
    requires { Passable w mask }
    ensures { result ≡ passed_by w mask }
{
    let entries = mask.count_ones();
    if w.room < entries as usize {
        return None;
    }
    let mut v = w;
    v.place += 1;
    v.budget -= 1;
    v.room -= entries as usize;
    v.passed += 1;
    v.count += entries;
    v.pending = mask;
    Some(v)
}
