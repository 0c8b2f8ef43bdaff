// An entry that is put: the lowest right that is pending.
ghost use Rattle.std.specs.Prelude.{◌≡◌};
ghost use Rattle.steps.specs.Putting.{Puttable, put_from};

use crate::Stepped;
use bits::power;
use model::Entry;
use passing::Walk;

// The entry of the lowest pending right, and the walk without it.
pub fn put(w: Walk) -> Stepped
    requires { Puttable w }
    ensures { result ≡ put_from w }
{
    let m = w.pending;
    let k = m.trailing_zeros();
    let right = table::right_at(w.members, k);
    let e = Entry {
        target: w.target as u8,
        right: right as u8,
        left: w.left as u16,
    };
    Stepped::Put(
        e,
        Walk {
            pending: m - power(k),
            ..w
        },
    )
}
