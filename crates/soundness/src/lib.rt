// Not for callers: are the entries of a list that are for a target sound? That they are backed comes from the cells
// that are present, and that they hold from one scan of the target's rows; that they contain no other listed left is
// read off the plane of the listed lefts, one right at a time, and that those for a column contain no listed key off
// the plane of the listed keys.
// Relies on `evidence` for the sides that a target allows, on `presence` for the backed lefts, on `keys` and `scan` for
// the agree sets that occur, on `planes` and `marks` for the planes and the entries, on `table` for the right that a
// bit stands for, and on `layout` for the target, its rows and columns. Called by `verify`.
#![tactic(auto)]

ghost use Rattle.std.specs.Prelude.{ℕ, ◌+◌, ◌≤◌, ◌<◌, ◌≡◌, true, ◌↔◌, length};
ghost use Rattle.columns.specs.Bound.{column_bound};
ghost use Rattle.model.specs.Bounds.{row};
ghost use Rattle.model.specs.Rights.{right_at};
ghost use Rattle.layout.specs.Targets.{view_of};
ghost use Rattle.model.specs.View.{View, Equivalence};
ghost use Rattle.planes.specs.Marks.{RoomFor};
ghost use Rattle.planes.specs.Plane.{SeedsBelow, BackedPlane};
ghost use Rattle.evidence.specs.Lists.{Each};
ghost use Rattle.evidence.specs.Sides.{LeftsWithin};
ghost use Rattle.marks.specs.Listed.{LeftsClosed};
ghost use Rattle.marks.specs.Run.{entries_of};
ghost use Rattle.soundness.specs.Sound.{FitsFor, SoundIn, SoundFor};

use evidence::sides_fit;
use keys::lay_all;
use layout::Target;
use leaders::{RowKeys, SIZE};
use marks::{PackedEntries, close_lefts, entries_sound, wide};
use model::{Entry, ROW};
use planes::PLANE;
use presence::backed_plane;
use scan::sow_among;
use table::right_at;

// Does the target allow the sides of an entry, if it is for the target?
fn fits_for(e: Entry, target: u32, n: u32, low: u32) -> bool
    requires { n ≤ column_bound }
    ensures { (result ≡ true) ↔ FitsFor n low target e }
{
    u32::from(e.target) != target || sides_fit(n, low, u32::from(e.left), u32::from(e.right))
}

// The same for all entries.
fn entries_fit(list: PackedEntries, target: u32, n: u32, low: u32) -> bool
    requires { n ≤ column_bound }
    ensures { (result ≡ true) ↔ Each (FitsFor n low target) (entries_of list.entry) }
{
    (0..list.count).all(|i| fits_for(list.entry(i), target, n, low))
}

// 8: is each entry's target below the number of tables? `records::all_known` asks it of records: a trait over both runs
// would be longer than the two lines.
pub fn all_known(list: PackedEntries, tables: u32) -> bool
    ensures { (result ≡ true) ↔ Each (λ e. e.target < tables) (entries_of list.entry) }
{
    (0..list.count).all(|i| u32::from(list.entry(i).target) < tables)
}

// The agree sets that occur in the target, as seeds among the sets of m columns.
fn sow(target: Target, m: u32, seeds: &mut [u32])
    requires { RoomFor m seeds.old }
    ensures { (length seeds.new ≡ length seeds.old) × SeedsBelow (view_of target.entry) m seeds.new }
{
    let mut all = [0u16; SIZE];
    lay_all(target, &mut all);
    let n = target.members();
    let end = target.rows();
    let keys = RowKeys {
        keys: &all,
        members: n,
        rows: end,
    };
    sow_among(keys, m, seeds);
}

// Are the entries sound that are for the target and the right of bit a?
fn right_sound(
    list: PackedEntries,
    target: u32,
    n: u32,
    m: u32,
    a: u32,
    seeds: &[u32],
    backed: &[u32],
    keys: &[u32],
) -> bool
    requires { (n ≤ m) × (n ≤ column_bound) × (a ≤ n) × RoomFor m seeds.now × RoomFor m backed.now
        × LeftsWithin n target (entries_of list)
        × RoomFor m keys.now × LeftsClosed (entries_of list) target row m keys.now }
    ensures { (v : View) → v.members ≡ n → Equivalence v → SeedsBelow v m seeds.now
        → BackedPlane v backed.now
        → (result ≡ true) ↔ SoundIn v (entries_of list.entry) target (right_at n a) }
{
    let right = right_at(n, a);
    let mut broken = [0; PLANE];
    planes::fill(seeds, m, a, &mut broken);
    let mut lefts = [0; PLANE];
    close_lefts(list, target, right, m, &mut lefts);
    entries_sound(list, target, right, backed, &broken, keys, &lefts, m)
}

// Are those sound that are for the target and one of its rights?
fn rights_sound(
    list: PackedEntries,
    target: u32,
    n: u32,
    m: u32,
    low: u32,
    seeds: &[u32],
    backed: &[u32],
    keys: &[u32],
) -> bool
    requires { (n ≤ m) × (n ≤ column_bound) × (low ≤ n) × RoomFor m seeds.now × RoomFor m backed.now
        × LeftsWithin n target (entries_of list)
        × RoomFor m keys.now × LeftsClosed (entries_of list) target row m keys.now }
    ensures { (v : View) → v.members ≡ n → Equivalence v → SeedsBelow v m seeds.now
        → BackedPlane v backed.now
        → (result ≡ true) ↔ ((a : ℕ) → a < n + 1 → low ≤ a
        → SoundIn v (entries_of list.entry) target (right_at n a)) }
{
    for a in low..n + 1 {
        if !right_sound(list, target, n, m, a, seeds, backed, keys) {
            return false;
        }
    }
    true
}

// Are the entries of a target sound?
pub fn target_sound(target: Target, list: PackedEntries) -> bool
    ensures { (result ≡ true) ↔ SoundFor target.entry.cat.now target.entry.table (entries_of list.entry) }
{
    let table = target.table;
    let n = target.members();
    let low = target.inherited();
    if !entries_fit(list, table, n, low) {
        return false;
    }
    let m = wide(n);
    let mut seeds = [0; PLANE];
    sow(target, m, &mut seeds);
    let mut backed = [0; PLANE];
    backed_plane(target, m, &mut backed);
    let mut keys = [0; PLANE];
    close_lefts(list, table, ROW, m, &mut keys);
    rights_sound(list, table, n, m, low, &seeds, &backed, &keys)
}
