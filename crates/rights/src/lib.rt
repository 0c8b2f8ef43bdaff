// Not for callers: the listed rights of one left side, for the listing call: by itself (`alone`), or by what is kept in
// the work words. Then `prepare` is called where a call enters a target, and `rights` for each left side of it; what
// the two keep in the words between calls is theirs alone. The engine finds what is minimal; `filter` says what of it
// is listed, by the mark of what is backed and by the bit of the row.
// Relies on `keys` for the keys of a target, on `presence` for what is backed, on `scan`, `table`, `planes` and
// `blocks` for what the words hold, on `partition` for one left side alone, on `layout` for how many rows and columns
// there are and on `passing` for the type that tells what the words hold. No cell is looked at but in `keys` and
// `presence`. Called by `walk`; `steps` cites its laws.
#![tactic(auto)]

ghost use Rattle.std.specs.Prelude.{◌≡◌, ℕ, suc, ◌+◌, ◌-◌, ◌^◌, ◌≤◌, ◌<◌, length, IfSome, MatchOption};
ghost use Rattle.columns.specs.Bound.{column_bound};
ghost use Rattle.model.specs.Bounds.{work_bound};
ghost use Rattle.model.specs.Listing.{ordinary};
ghost use Rattle.model.specs.Target.{own_rights};
ghost use Rattle.layout.specs.Targets.{view_of, members_in};
ghost use Rattle.table.specs.Words.{word};
ghost use Rattle.table.specs.Broken.{Scanned};
ghost use Rattle.leaders.specs.Table.{KeyedBy};
ghost use Rattle.filled.specs.Filled.{Filled};
ghost use Rattle.rights.specs.Kept.{undropped, kept};
ghost use Rattle.rights.specs.Ready.{Tabled, BackedPut, Holding, Ready, Readable, MinimalBy, BackedBy, KeptBy};
ghost use Rattle.rights.specs.Rights.{listed_rights};

use bits::power;
use keys::lay_all;
use layout::Target;
use leaders::{ROWS, RowKeys, SIZE};
use passing::Held;
use planes::{PLANE, bit_at};

// A target that is entered: what the work words hold for it and all its rights; for one left side alone its listed
// rights, and nothing of the words.
#[derive(Clone, Copy)]
pub struct Entered {
    pub held: Held,
    pub mask: u32,
}

// Of the minimal rights of a left side of any view of n members, those that are not dropped: where the row's bit stands
// only it stays, since a key stands for what it gives.
fn undropped(n: u32, minimal: u32) -> u32
    requires { n ≤ column_bound }
    ensures { result ≡ undropped n minimal }
{
    if (minimal >> n) % 2 == 1 {
        return power(n);
    }
    minimal
}

// Of the minimal rights of a left side of a target, by itself, those that are listed: none if it is not backed, the row
// alone if it is a key, else all.
fn filter_alone(target: Target, left: u32, minimal: u32) -> u32
    requires { left < 2 ^ members_in target }
    ensures { result ≡ kept (view_of target.entry) left minimal }
{
    if minimal == 0 {
        return 0;
    }
    let mut sets = [0u32; ROWS];
    presence::lay(target, &mut sets);
    if presence::is_backed(&sets, target.rows(), left) {
        return undropped(target.members(), minimal);
    }
    0
}

// Notes in the words of a table which left sides are backed, and closes them.
fn back_table(target: Target, n: u32, work: &mut [u32])
    requires { (n ≡ members_in target) × (2 ^ n ≤ length work.old)
        × ((s : ℕ) → s < 2 ^ n → word work.old s < 2 ^ suc n) × Scanned (view_of target) work.old }
    ensures { Tabled (view_of target.entry) work.new }
{
    let mut sets = [0u32; ROWS];
    presence::lay(target, &mut sets);
    presence::note(&sets, target.rows(), n + 1, work);
    table::close(work, n);
}

// Copies the first m words of a plane behind the first m of the work words.
fn put_behind(plane: &[u32], m: usize, work: &mut [u32])
    requires { (m ≤ length plane.now) × (m + m ≤ length work.old) }
    ensures { Filled m (m + m) (λ (i : ℕ). word plane.now (i - m)) work.old
        work.new }
{
    work[m..m + m].copy_from_slice(&plane[..m]);
}

// Puts the plane of backed left sides behind the seeds.
fn back_seeds(target: Target, n: u32, work: &mut [u32])
    requires { (n ≡ members_in target) × (5 ≤ n) × (2 ^ (n - 4) ≤ length work.old) }
    ensures { BackedPut (view_of target.entry) n work.old work.new }
{
    let mut plane = [0; PLANE];
    presence::backed_plane(target, n, &mut plane);
    let m = power(n - 5) as usize;
    put_behind(&plane, m, work);
}

// Fills the work words for a target whose keys are laid, and answers what they hold.
fn fill(target: Target, keys: RowKeys, work: &mut [u32]) -> Held
    requires { (keys.members ≡ members_in target) × (work_bound ≤ length work.old) × KeyedBy (view_of target) keys }
    ensures { (own : ℕ) → Holding result (view_of target.entry) own work.new }
{
    let n = keys.members;
    if work.len() < power(n) as usize {
        scan::sow(keys, work);
        back_seeds(target, n, work);
        return Held::Seeds;
    }
    scan::write(keys, work);
    back_table(target, n, work);
    Held::Table
}

// The rights of the target: its own columns, and the row.
fn own_rights(target: Target) -> u32
    ensures { result ≡ own_rights target.entry.cat.now target.entry.table }
{
    let end = target.members() + 1;
    power(end) - power(target.inherited())
}

// A target is entered: for one left side alone with its listed rights, without work words; and for none with the words
// made ready, and all its rights as the mask. The keys are laid in one place for both, so they stand in one frame.
fn enter(target: Target, alone: Option<u32>, work: &mut [u32]) -> Entered
    requires left_bound { IfSome alone (λ left. left < 2 ^ members_in target) }
    requires work_bound_in_bounds { work_bound ≤ length work.old }
    ensures { MatchOption alone
        (Ready (ordinary target.entry.cat.now) target.entry.table result.held result.mask work.new)
        (λ left. result.mask ≡ listed_rights (ordinary target.entry.cat.now) target.entry.table left) }
{
    let n = target.members();
    let end = target.rows();
    let mut all = [0u16; SIZE];
    lay_all(target, &mut all);
    let keys = RowKeys {
        keys: &all,
        members: n,
        rows: end,
    };
    let own = own_rights(target);
    match alone {
        Some(left) => {
            let minimal = partition::minimal_alone(keys, own, left);
            let mask = filter_alone(target, left, minimal);
            Entered {
                held: Held::Table,
                mask,
            }
        }
        None => {
            let held = fill(target, keys, work);
            Entered { held, mask: own }
        }
    }
}

// Makes the work words ready for a target, and answers what they hold and the target's rights.
pub fn prepare(target: Target, work: &mut [u32]) -> Entered
    requires { work_bound ≤ length work.old }
    ensures { Ready (ordinary target.entry.cat.now) target.entry.table result.held result.mask work.new }
{
    enter(target, None, work)
}

// The listed rights of a left side of the target, by itself.
pub fn alone(target: Target, left: u32, work: &mut [u32]) -> u32
    requires { (left < 2 ^ members_in target) × (work_bound ≤ length work.old) }
    ensures { result ≡ listed_rights (ordinary target.entry.cat.now) target.entry.table left }
{
    enter(target, Some(left), work).mask
}

// The minimal rights of a left side of any view of n members, by what the work words hold.
fn minimal(n: u32, left: u32, held: Held, own: u32, work: &mut [u32]) -> u32
    requires { (n ≤ column_bound) × (left < 2 ^ n) × (own < 2 ^ suc n) × Readable held n work.old }
    ensures { MinimalBy n left held own work.old work.new result }
{
    match held {
        Held::Table => table::minimal_rights(work, left, own),
        Held::Seeds => blocks::rights_from(work, n, own, left),
    }
}

// Is a left side of any view of n members backed, by what the work words hold?
fn backed(n: u32, left: u32, held: Held, work: &[u32]) -> bool
    requires { (n ≤ column_bound) × (left < 2 ^ n) × Readable held n work.now }
    ensures { BackedBy n left held work.now result }
{
    match held {
        Held::Table => (work[left as usize] >> (n + 1)) % 2 == 1,
        Held::Seeds => bit_at(work, power(n) + left) == 1,
    }
}

// Of the minimal rights of a left side of any view of n members, those that are listed, by what the work words hold:
// none if it is not backed, the row alone if it is a key, else all.
fn filter(n: u32, left: u32, held: Held, minimal: u32, work: &[u32]) -> u32
    requires { (n ≤ column_bound) × (left < 2 ^ n) × Readable held n work.now }
    ensures { KeptBy n left held work.now minimal result }
{
    if minimal == 0 {
        return 0;
    }
    if backed(n, left, held, work) {
        return undropped(n, minimal);
    }
    0
}

// The listed rights of a left side of a target with n members, by what the work words hold.
pub fn rights(target: Target, n: u32, left: u32, held: Held, own: u32, work: &mut [u32]) -> u32
    requires n_value { (n ≡ members_in target) × (left < 2 ^ n) }
    requires ready { Ready (ordinary target.cat.now) target.table held own work.old }
    ensures value { result ≡ listed_rights (ordinary target.entry.cat.now) target.entry.table left }
    ensures ready_2 { Ready (ordinary target.entry.cat.now) target.entry.table held own work.new }
{
    let found = minimal(n, left, held, own, work);
    filter(n, left, held, found, work)
}
