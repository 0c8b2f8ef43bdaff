// Not for callers: are the backed sets of a target covered, by a list's entries and by evidence? For one right at a
// time, by the planes of the listed lefts and of the records' sets, and by that of the target's listed keys, which
// cover for every right.
// Relies on `presence` for the plane of backed sets, on `marks` for the others and the entries, on `evidence` for the
// records, on `table` for the right that a bit stands for, and on `layout` for the target and its columns. Called by
// `verify`.
#![tactic(auto)]

ghost use Rattle.std.specs.Prelude.{◌≤◌, ◌<◌, ◌≡◌, true, ◌↔◌};
ghost use Rattle.model.specs.Bounds.{row};
ghost use Rattle.model.specs.Evidence.{TrueRecord};
ghost use Rattle.model.specs.Verify.{SoundEntries};
ghost use Rattle.model.specs.View.{View};
ghost use Rattle.planes.specs.Marks.{RoomFor};
ghost use Rattle.planes.specs.Plane.{BackedPlane};
ghost use Rattle.evidence.specs.Lists.{Each};
ghost use Rattle.evidence.specs.Run.{records_of};
ghost use Rattle.evidence.specs.Sides.{LeftsWithin, SetsWithin};
ghost use Rattle.marks.specs.Listed.{LeftsClosed};
ghost use Rattle.marks.specs.Run.{entries_of};
ghost use Rattle.coverage.specs.Covered.{RightCovered, TargetCovered};

use evidence::EvidenceRecords;
use layout::Target;
use marks::{PackedEntries, all_covered, close_lefts, close_sets, wide};
use model::ROW;
use planes::PLANE;
use presence::backed_plane;
use table::right_at;

// Are the sets of n columns that are marked as backed covered for the target and the right of bit a?
fn right_covered(
    list: PackedEntries,
    records: EvidenceRecords,
    target: u32,
    n: u32,
    m: u32,
    a: u32,
    backed: &[u32],
    keys: &[u32],
) -> bool
    requires { (n ≤ m) × (a ≤ n) × RoomFor m backed.now
        × LeftsWithin n target (entries_of list) × SetsWithin n target (records_of records)
        × RoomFor m keys.now × LeftsClosed (entries_of list) target row m keys.now }
    ensures { (v : View) → v.members ≡ n → BackedPlane v backed.now
        → (result ≡ true) ↔ RightCovered v (entries_of list.entry) (records_of records.entry) target n a }
{
    let right = right_at(n, a);
    let mut lefts = [0; PLANE];
    close_lefts(list, target, right, m, &mut lefts);
    let mut sets = [0; PLANE];
    close_sets(records, target, right, m, &mut sets);
    all_covered(backed, keys, &lefts, &sets, n, m, a)
}

// Are the backed sets of a target covered, where all entries are sound and all records true?
pub fn target_covered(target: Target, list: PackedEntries, records: EvidenceRecords) -> bool
    requires { SoundEntries target.cat.now (entries_of list) × Each (TrueRecord target.cat.now) (records_of records) }
    ensures { (result ≡ true)
        ↔ TargetCovered target.entry.cat.now (entries_of list.entry) (records_of records.entry) target.entry.table }
{
    let table = target.table;
    let n = target.members();
    let m = wide(n);
    let mut backed = [0; PLANE];
    backed_plane(target, m, &mut backed);
    let mut keys = [0; PLANE];
    close_lefts(list, table, ROW, m, &mut keys);
    let low = target.inherited();
    for a in low..n + 1 {
        if !right_covered(list, records, table, n, m, a, &backed, &keys) {
            return false;
        }
    }
    true
}
