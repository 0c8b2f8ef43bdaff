// Not for callers: blocks of left sides, for calls that are lent less than one word for each left side. Behind the
// seeds and the plane of backed left sides the words hold the next left sides in listing order, each with its minimal
// rights, and a cursor to the one that is asked for next. Promised are the rights of each left side that stands there:
// other left sides, or a cursor that misses, would only cost time.
// Relies on the definitions of `model` and `columns`, and on `planes` for the plane of each right. Called by `rights`.
#![tactic(auto)]

ghost use Rattle.std.specs.Prelude.{◌+◌, ◌/◌, ◌^◌, ◌≤◌, ◌<◌, ◌≡◌, true, length};
ghost use Rattle.columns.specs.Bound.{column_bound};
ghost use Rattle.planes.specs.Plane.{seed_words};
ghost use Rattle.blocks.specs.Cache.{pairs_at, Roomy, Room, Lefts, Added, AddedBelow, PairsBelow};
ghost use Rattle.blocks.specs.Cache.{Answered, Block, AtCursor, RightsFrom};

use bits::power;
use columns::ColumnSet;
use planes::PLANE;

// How many pairs a block has: as many as fit, and no more than there are left sides.
fn room(length: usize, n: u32) -> u32
    requires { (5 ≤ n) × (n ≤ column_bound) × (pairs_at n + 2 ≤ length) }
    ensures { Room n length result }
{
    let all = power(n);
    let pairs = (length - (power(n - 4) as usize + 2)) / 2;
    pairs.min(all as usize) as u32
}

// Writes the left sides of a block from the first on, in listing order, each with no rights. It returns how many.
fn write_lefts(words: &mut [u32], n: u32, first: u32) -> u32
    requires { (5 ≤ n) × (n ≤ column_bound) × (pairs_at n + 2 ≤ length words.old) × (first < 2 ^ n) }
    ensures { Lefts n first result words.old words.new }
{
    let pairs = room(words.len(), n);
    let from = power(n - 4) + 2;
    let mut x = first;
    for j in 0..pairs {
        let at = (from + 2 * j) as usize;
        words[at] = x;
        words[at + 1] = 0;
        match (ColumnSet { bits: x }).next(n) {
            Some(y) => x = y.bits,
            None => return j + 1,
        }
    }
    pairs
}

// What right a adds to the rights of x, by its plane: its bit where it is minimal.
fn added(plane: &[u32], x: u32, a: u32) -> u32
    requires { (x / 32 < length plane.now) × (a ≤ column_bound) }
    ensures { Added plane.now x a result }
{
    if planes::is_minimal(plane, x, a) {
        power(a)
    } else {
        0
    }
}

// Adds right a to each pair, by its plane.
fn add_right(words: &mut [u32], n: u32, count: u32, a: u32, plane: &[u32])
    requires { (5 ≤ n) × (n ≤ column_bound) × (a ≤ n) × (seed_words n ≤ length plane.now)
        × Room n (length words.old) count × PairsBelow n a count words.old }
    ensures { AddedBelow n a count plane.now words.old words.new }
{
    let from = power(n - 4) + 2;
    for j in 0..count {
        let at = (from + 2 * j) as usize;
        words[at + 1] += added(plane, words[at], a);
    }
}

// Answers right a for each pair, if it is asked for.
fn answer_right(words: &mut [u32], n: u32, own: u32, count: u32, a: u32)
    requires { (5 ≤ n) × (n ≤ column_bound) × (a ≤ n) × Room n (length words.old) count
        × PairsBelow n a count words.old }
    ensures { Answered n own a count words.old words.new }
{
    if (own >> a) % 2 == 0 {
        return;
    }
    let mut plane = [0; PLANE];
    planes::fill(words, n, a, &mut plane);
    add_right(words, n, count, a, &plane);
}

// Answers a block of left sides from the first on. It returns how many.
fn answer_block(words: &mut [u32], n: u32, own: u32, first: u32) -> u32
    requires { (5 ≤ n) × (n ≤ column_bound) × (pairs_at n + 2 ≤ length words.old) × (first < 2 ^ n) }
    ensures { Block n own first result words.old words.new }
{
    let count = write_lefts(words, n, first);
    for a in 0..n + 1 {
        answer_right(words, n, own, count, a);
    }
    count
}

// Is the cursor's pair that of x?
fn at_cursor(words: &[u32], n: u32, x: u32) -> bool
    requires { (5 ≤ n) × (n ≤ column_bound) × Roomy n words.now }
    ensures { result ≡ true → AtCursor n x words.now }
{
    let m = power(n - 4) as usize;
    let cursor = words[m];
    if words[m + 1] <= cursor {
        return false;
    }
    words[m + 2 + 2 * cursor as usize] == x
}

// The minimal rights of x, of those asked for, as a mask: from the cursor's pair, or else from a new block.
pub fn rights_from(words: &mut [u32], n: u32, own: u32, x: u32) -> u32
    requires { (5 ≤ n) × (n ≤ column_bound) × (x < 2 ^ n) × Roomy n words.old }
    ensures { RightsFrom n own x words.old words.new result }
{
    let m = power(n - 4) as usize;
    if at_cursor(words, n, x) {
        let cursor = words[m];
        words[m] = cursor + 1;
        return words[m + 2 + 2 * cursor as usize + 1];
    }
    let count = answer_block(words, n, own, x);
    words[m] = 1;
    words[m + 1] = count;
    words[m + 3]
}
