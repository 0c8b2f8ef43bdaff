// Not for callers: the climb from a target to the root. The rows that the target's rows lead to, one step for all of
// them at a time, and numbers of the catalogue by one load each, with no test, where the caller knows that they are
// within the bytes, as proofs/Within.antt tells.
// Relies on `model` and `filled`. Called by `keys` and `presence`.
#![tactic(auto)]

ghost use Rattle.std.specs.Prelude.{ℕ, ◌+◌, ◌*◌, ◌≤◌, ◌<◌, ◌≡◌, length, get_or};
ghost use Rattle.model.specs.Bounds.{row_bound};
ghost use Rattle.model.specs.Bytes.{u16_at, u32_at};
ghost use Rattle.filled.specs.Filled.{Filled};

use model::ROWS;

// The 2-byte number at o.
#[tactic(auto, unfolding(model::specs::Bytes::u16_at))]
pub fn short_at(cat: &[u8], o: usize) -> u16
    requires { o + 2 ≤ length cat.now }
    ensures { result ≡ u16_at cat.now o }
{
    u16::from_le_bytes([cat[o], cat[o + 1]])
}

// The 4-byte number at o.
#[tactic(auto, unfolding(model::specs::Bytes::u32_at))]
pub fn code_at(cat: &[u8], o: usize) -> u32
    requires { o + 4 ≤ length cat.now }
    ensures { result ≡ u32_at cat.now o }
{
    u32::from_le_bytes([cat[o], cat[o + 1], cat[o + 2], cat[o + 3]])
}

// Each row leads to itself.
pub fn own_rows(end: usize, reached: &mut [u16; ROWS])
    requires { (end ≤ row_bound) × (length reached.old ≡ row_bound) }
    ensures { Filled 0 end (λ (q : ℕ). q) reached.old reached.new }
{
    for row in 0..end {
        reached[row] = row as u16;
    }
}

// One step up, from a table whose rows stand at o, a width apart: to the parent rows of the rows reached.
pub fn parent_rows(cat: &[u8], o: usize, width: usize, end: usize, reached: &mut [u16; ROWS])
    requires end_le_row_bound { (end ≤ row_bound) × (length reached.old ≡ row_bound) }
    requires by_index { (q : ℕ) → q < end → o + get_or reached.old q 0 * width + 2 ≤ length cat.now }
    ensures { Filled 0 end (λ (q : ℕ). u16_at cat.now (o + get_or reached.old q 0 * width))
        reached.old reached.new }
{
    for q in 0..end {
        let row = reached[q] as usize;
        reached[q] = short_at(cat, o + row * width);
    }
}
