// Not for callers: planes of bits, one for each left side, where there is no room for a word for each. The seeds are
// the agree sets, and a plane says for one right which left sides do not give it, or of sets that are marked which left
// sides lie inside one.
// Relies on the definitions of `model` and `columns`, and on `table` for the closing. Called by `blocks`, `marks`,
// `presence`, `rights`, `soundness` and `coverage`; `scan` makes the seeds.
#![tactic(auto)]

ghost use Rattle.std.specs.Prelude.{◌-◌, ◌/◌, ◌^◌, ◌≤◌, ◌<◌, ◌≡◌, true, ◌↔◌, length};
ghost use Rattle.columns.specs.Bound.{column_bound};
ghost use Rattle.table.specs.Words.{Narrow};
ghost use Rattle.planes.specs.Marks.{Marked};
ghost use Rattle.planes.specs.Bits.{plane_bit, clear_of, SelectedWord, ClosedWord, PlaneFrom};

use bits::power;

// How many words a plane takes at the bound on columns.
pub const PLANE: usize = 1 << (columns::COLUMN_BOUND - 5);

// The word with a 1 at each position whose bit k is 0.
fn clear(k: u32) -> u32
    requires { k < 5 }
    ensures { result ≡ clear_of k }
{
    u32::MAX / (power(power(k)) + 1)
}

// The word at i, with the bits of left sides that hold a taken away.
fn select(word: u32, i: u32, a: u32) -> u32
    requires { a ≤ column_bound }
    ensures { SelectedWord i a word result }
{
    if a < 5 {
        return word & clear(a);
    }
    if (i >> (a - 5)) % 2 == 1 { 0 } else { word }
}

// Closes a word over the five low columns: each position gets the bit of its position with column k.
fn close_word(word: u32) -> u32
    ensures { ClosedWord word result }
{
    let mut w = word;
    for k in 0..5 {
        w |= (w >> power(k)) & clear(k);
    }
    w
}

// The plane of right a from the seeds: those without a, closed over smaller left sides.
pub fn fill(words: &[u32], n: u32, a: u32, plane: &mut [u32])
    requires { (5 ≤ n) × (n ≤ column_bound) × (a ≤ n) × (2 ^ (n - 5) ≤ length words.now)
        × (2 ^ (n - 5) ≤ length plane.old) }
    ensures { PlaneFrom n a words.now plane.new }
{
    for i in 0..power(n - 5) {
        plane[i as usize] = close_word(select(words[i as usize], i, a));
    }
    table::close(plane, n - 5);
}

// The bit of the left side x.
pub fn bit_at(plane: &[u32], x: u32) -> u32
    requires { x / 32 < length plane.now }
    ensures { result ≡ plane_bit plane.now x }
{
    (plane[(x / 32) as usize] >> (x % 32)) % 2
}

// Marks the set x.
pub fn mark(plane: &mut [u32], x: u32)
    requires { x / 32 < length plane.old }
    ensures { Marked (λ y. y ≡ x) plane.old plane.new }
{
    let i = (x / 32) as usize;
    plane[i] |= power(x % 32);
}

// Is right a minimal for the left side x, by the plane of a? It goes over the members of x, the lowest first.
pub fn is_minimal(plane: &[u32], x: u32, a: u32) -> bool
    requires { (x / 32 < length plane.now) × (a ≤ column_bound) }
    ensures { (result ≡ true) ↔ Narrow (plane_bit plane.now) x a }
{
    if bit_at(plane, x) != 0 {
        return false;
    }
    if (x >> a) % 2 != 0 {
        return false;
    }
    let mut rest = x;
    while rest != 0 {
        let above = rest & (rest - 1);
        if bit_at(plane, x - (rest - above)) == 0 {
            return false;
        }
        rest = above;
    }
    true
}
