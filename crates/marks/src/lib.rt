// Not for callers: whether sets of columns are covered for a target and a right, and whether the entries for the two
// are sound, by planes of bits. The lefts that are listed for the two are marked at their mirrors, on another plane the
// listed keys of the target, and the sets of records at themselves; then each plane is closed over smaller sets, and
// read. Which sets are backed is read off a plane that is handed in. And the entries of a packed list as a run.
// Relies on the definitions of `model` and `columns`, on `entries` and `evidence` for entries and records in bytes, on
// `file` for a byte, and on `planes` for the closing. Called by `soundness`, `coverage` and `verify`.
#![tactic(auto)]

ghost use Rattle.std.specs.Prelude.{ℕ, ◌+◌, ◌^◌, ◌≤◌, ◌<◌, ◌≡◌, true, ◌↔◌, length};
ghost use Rattle.columns.specs.Bound.{column_bound};
ghost use Rattle.model.specs.Bytes.{byte_at};
ghost use Rattle.planes.specs.Marks.{RoomFor, Marked};
ghost use Rattle.evidence.specs.Lists.{Some, Each};
ghost use Rattle.evidence.specs.Run.{record_of, records_of};
ghost use Rattle.marks.specs.Marks.{Wide, mirror, CoveredBy, Alone};
ghost use Rattle.marks.specs.Listed.{NarrowLeft, NarrowSet, LeftAt, SetAt, LeftsClosed, SetsClosed};
ghost use Rattle.marks.specs.Listed.{Keyless, SoundLeft, SoundBy};
ghost use Rattle.marks.specs.Run.{entry_of, entries_of};

mod run;

use bits::power;
use evidence::EvidenceRecords;
use file::byte_at;
use model::{EVIDENCE_BYTES, ROW};
use planes::{PLANE, bit_at, mark};
pub use run::PackedEntries;

// For how many columns a plane of sets of n columns is made: n, and at least as many as fill a word.
pub fn wide(n: u32) -> u32
    ensures { Wide n result }
{
    n.max(5)
}

// The mirror of the set x: the columns of m that are not in it.
fn mirror(m: u32, x: u32) -> u32
    requires { (m ≤ column_bound) × (x < 2 ^ m) }
    ensures { result ≡ mirror m x }
{
    power(m) - 1 - x
}

// Are the target and the right at a position the two that are asked for? Entries and records begin with them, and most
// are for others, so only these two bytes are read of them.
fn is_for(bytes: &[u8], at: usize, target: u32, right: u32) -> bool
    requires { at + 2 ≤ length bytes.now }
    ensures { (result ≡ true)
        ↔ ((byte_at bytes.now at ≡ target) × (byte_at bytes.now (at + 1) ≡ right)) }
{
    u32::from(byte_at(bytes, at + 1)) == right && u32::from(byte_at(bytes, at)) == target
}

// Marks the mirror of the left of the entry at an index, if it is for the two.
fn mark_left(list: PackedEntries, i: u32, target: u32, right: u32, m: u32, plane: &mut [u32])
    requires { RoomFor m plane.old × (i < list.count) × NarrowLeft m target right (entry_of list i) }
    ensures { Marked (λ y. LeftAt m target right y (entry_of list.entry i)) plane.old plane.new }
{
    if !is_for(list.file, list.place(i), target, right) {
        return;
    }
    let left = u32::from(list.entry(i).left);
    let place = mirror(m, left);
    mark(plane, place);
}

// Marks the mirrors of the lefts of the entries that are for the two.
fn mark_lefts(list: PackedEntries, target: u32, right: u32, m: u32, plane: &mut [u32])
    requires { RoomFor m plane.old × Each (NarrowLeft m target right) (entries_of list) }
    ensures { Marked (λ y. Some (LeftAt m target right y) (entries_of list.entry)) plane.old plane.new }
{
    for i in 0..list.count {
        mark_left(list, i, target, right, m, plane);
    }
}

// The plane that says, by its mirror, of each set of m columns whether it contains a left that is listed for the two.
pub fn close_lefts(list: PackedEntries, target: u32, right: u32, m: u32, plane: &mut [u32])
    requires { RoomFor m plane.old × Each (NarrowLeft m target right) (entries_of list) }
    ensures { LeftsClosed (entries_of list.entry) target right m plane.new }
{
    let mut marks = [0; PLANE];
    mark_lefts(list, target, right, m, &mut marks);
    planes::fill(&marks, m, m, plane);
}

// Marks the set of the record at an index, if it is for the two. With the two functions below it is the twin of those
// for lefts: one for both would take the reading and the place to mark as closures, and be no plainer.
fn mark_set(records: EvidenceRecords, i: usize, target: u32, right: u32, m: u32, plane: &mut [u32])
    requires { RoomFor m plane.old × (i < records.count) × NarrowSet m target right (record_of records i) }
    ensures { Marked (λ y. SetAt target right y (record_of records.entry i)) plane.old plane.new }
{
    if !is_for(records.bytes, EVIDENCE_BYTES * i, target, right) {
        return;
    }
    mark(plane, u32::from(records.record(i).set));
}

// Marks the sets of the records that are for the two.
fn mark_sets(records: EvidenceRecords, target: u32, right: u32, m: u32, plane: &mut [u32])
    requires { RoomFor m plane.old × Each (NarrowSet m target right) (records_of records) }
    ensures { Marked (λ y. Some (SetAt target right y) (records_of records.entry)) plane.old plane.new }
{
    for i in 0..records.count {
        mark_set(records, i, target, right, m, plane);
    }
}

// The plane that says of each set of m columns whether it lies inside the set of a record for the two.
pub fn close_sets(records: EvidenceRecords, target: u32, right: u32, m: u32, plane: &mut [u32])
    requires { RoomFor m plane.old × Each (NarrowSet m target right) (records_of records) }
    ensures { SetsClosed (records_of records.entry) target right m plane.new }
{
    let mut marks = [0; PLANE];
    mark_sets(records, target, right, m, &mut marks);
    planes::fill(&marks, m, m, plane);
}

// Is the set x covered, if a is not in it and it is backed? Most sets of a wide table contain a key, so this is asked
// first; and most are backed and covered, so whether it is backed is asked last.
fn is_covered(
    backed: &[u32],
    keys: &[u32],
    lefts: &[u32],
    sets: &[u32],
    m: u32,
    a: u32,
    x: u32,
) -> bool
    requires { RoomFor m backed.now × RoomFor m keys.now × RoomFor m lefts.now × RoomFor m sets.now
        × (a ≤ m) × (x < 2 ^ m) }
    ensures { (result ≡ true)
        ↔ CoveredBy backed.now keys.now lefts.now sets.now m a x }
{
    if (x >> a) % 2 != 0 {
        return true;
    }
    let place = mirror(m, x);
    bit_at(keys, place) != 0
        || bit_at(lefts, place) != 0
        || bit_at(sets, x) != 0
        || bit_at(backed, x) == 0
}

// Are all backed sets of n columns covered that a is not in?
pub fn all_covered(
    backed: &[u32],
    keys: &[u32],
    lefts: &[u32],
    sets: &[u32],
    n: u32,
    m: u32,
    a: u32,
) -> bool
    requires { RoomFor m backed.now × RoomFor m keys.now × RoomFor m lefts.now × RoomFor m sets.now
        × (n ≤ m) × (a ≤ m) }
    ensures { (result ≡ true)
        ↔ ((x : ℕ) → x < 2 ^ n
        → CoveredBy backed.now keys.now lefts.now sets.now m a x) }
{
    (0..power(n)).all(|x| is_covered(backed, keys, lefts, sets, m, a, x))
}

// Does x contain no other listed left? It goes over the members of x, the lowest first: x without any one of them must
// contain none.
fn is_alone(lefts: &[u32], m: u32, x: u32) -> bool
    requires { RoomFor m lefts.now × (x < 2 ^ m) }
    ensures { (result ≡ true) ↔ Alone lefts.now m x }
{
    let mut rest = x;
    while rest != 0 {
        let above = rest & (rest - 1);
        let less = x - (rest - above);
        if bit_at(lefts, mirror(m, less)) != 0 {
            return false;
        }
        rest = above;
    }
    true
}

// Does x contain no listed key, if the right is a column?
fn is_keyless(keys: &[u32], m: u32, right: u32, x: u32) -> bool
    requires { RoomFor m keys.now × (x < 2 ^ m) }
    ensures { (result ≡ true) ↔ Keyless keys.now m right x }
{
    right == ROW || bit_at(keys, mirror(m, x)) == 0
}

// Is the left x backed and not broken, and does it contain no other, nor a key if the right is a column?
fn is_sound(
    right: u32,
    x: u32,
    backed: &[u32],
    broken: &[u32],
    keys: &[u32],
    lefts: &[u32],
    m: u32,
) -> bool
    requires { RoomFor m backed.now × RoomFor m broken.now × RoomFor m keys.now × RoomFor m lefts.now
        × (x < 2 ^ m) }
    ensures { (result ≡ true) ↔ SoundLeft backed.now broken.now keys.now lefts.now m right x }
{
    bit_at(backed, x) != 0
        && bit_at(broken, x) == 0
        && is_keyless(keys, m, right, x)
        && is_alone(lefts, m, x)
}

// If the entry at an index is for the two, is its left so?
fn entry_sound(
    list: PackedEntries,
    i: u32,
    target: u32,
    right: u32,
    backed: &[u32],
    broken: &[u32],
    keys: &[u32],
    lefts: &[u32],
    m: u32,
) -> bool
    requires { RoomFor m backed.now × RoomFor m broken.now × RoomFor m keys.now × RoomFor m lefts.now
        × (i < list.count) × NarrowLeft m target right (entry_of list i) }
    ensures { (result ≡ true)
        ↔ SoundBy backed.now broken.now keys.now lefts.now m target right
        (entry_of list.entry i) }
{
    if !is_for(list.file, list.place(i), target, right) {
        return true;
    }
    let left = u32::from(list.entry(i).left);
    is_sound(right, left, backed, broken, keys, lefts, m)
}

// Is each entry that is for the two backed and not broken, and does none of them contain another, nor a key if the
// right is a column?
pub fn entries_sound(
    list: PackedEntries,
    target: u32,
    right: u32,
    backed: &[u32],
    broken: &[u32],
    keys: &[u32],
    lefts: &[u32],
    m: u32,
) -> bool
    requires { RoomFor m backed.now × RoomFor m broken.now × RoomFor m keys.now × RoomFor m lefts.now
        × Each (NarrowLeft m target right) (entries_of list) }
    ensures { (result ≡ true)
        ↔ Each (SoundBy backed.now broken.now keys.now lefts.now m target
        right) (entries_of list.entry) }
{
    for i in 0..list.count {
        if !entry_sound(list, i, target, right, backed, broken, keys, lefts, m) {
            return false;
        }
    }
    true
}
