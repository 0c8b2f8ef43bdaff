// The seeds, where less than a word for each left side is lent: one bit for each agree set.
ghost use Rattle.std.specs.Prelude.{◌+◌, ◌-◌, ◌*◌, ◌^◌, ◌≤◌, ◌<◌, ◌≡◌, length};
ghost use Rattle.columns.specs.Bound.{column_bound};
ghost use Rattle.model.specs.View.{View, Equivalence};
ghost use Rattle.table.specs.Words.{word};
ghost use Rattle.planes.specs.Bits.{plane_word};
ghost use Rattle.planes.specs.Plane.{seed_words, SeedsBelow, Sown};
ghost use Rattle.leaders.specs.Table.{KeyedBy};
ghost use Rattle.filled.specs.Filled.{Filled};
ghost use Rattle.scan.specs.SeenSets.{seen_at};

use crate::SETS;
use crate::pairs::occurring;
use bits::power;
use leaders::RowKeys;

// The bits of the 32 agree sets that stand in word i.
fn gathered(seen: &[bool; SETS], i: u32) -> u32
    requires { i * 32 < 2 ^ column_bound }
    ensures { result ≡ plane_word (seen_at seen.now) i }
{
    let from = i * 32;
    let mut w = 0;
    for j in 0..32 {
        w |= if seen[(from + j) as usize] {
            power(j)
        } else {
            0
        };
    }
    w
}

// Writes the bits of all agree sets of n members. One function with `write_broken`, over a closure, would be no
// plainer: each is a loop of one line.
fn write_seeds(seen: &[bool; SETS], n: u32, words: &mut [u32])
    requires { (5 ≤ n) × (n ≤ column_bound) × (seed_words n ≤ length words.old) }
    ensures { Filled 0 (seed_words n) (plane_word (seen_at seen.now)) words.old
        words.new }
{
    for i in 0..power(n - 5) {
        words[i as usize] = gathered(seen, i);
    }
}

// The seeds of the view that the keys are laid for: bit s is 1 exactly if s is the agree set of a pair of rows. They
// stand among the sets of m columns, of which the members are the first.
pub fn sow_among(keys: RowKeys, m: u32, words: &mut [u32])
    requires { (5 ≤ m) × (m ≤ column_bound) × (seed_words m ≤ length words.old) }
    ensures { (length words.new ≡ length words.old)
        × ((v : View) → KeyedBy v keys.entry → SeedsBelow v m words.new) }
{
    let mut seen = [false; SETS];
    occurring(keys, &mut seen);
    write_seeds(&seen, m, words);
}

// The seeds among the sets of members, with no rights cached behind them and the plane that follows them. It does not
// call `sow_among`: a listing's stack has no room for a second array of agree sets beside that of `write`.
pub fn sow(keys: RowKeys, words: &mut [u32])
    requires { (5 ≤ keys.members) × (2 ^ (keys.members - 4) + 4 ≤ length words.old) }
    ensures sown { (v : View) → KeyedBy v keys.entry → Equivalence v → Sown v keys.entry.members words.new }
    ensures n_after { word words.new (2 ^ (keys.entry.members - 4) + 1) ≡ 0 }
{
    let n = keys.members;
    let mut seen = [false; SETS];
    occurring(keys, &mut seen);
    write_seeds(&seen, n, words);
    words[power(n - 4) as usize + 1] = 0;
}
