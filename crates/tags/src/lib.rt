// Not for callers: the tags of a supplier's text one after the other, and how many there are of each table.
// Relies on `attributes` for numbers in a text, on `file` for a byte and on the definitions of `model`. Called by
// `sheets` and `convert`.
#![tactic(auto)]

ghost use Rattle.std.specs.Prelude.{◌+◌, ◌≤◌, ◌<◌, ◌^◌, ◌≡◌, [], get_or, length, drop, MatchOption};
ghost use Rattle.model.specs.Bounds.{table_bound};
ghost use Rattle.model.specs.Convert.{tags_in};
ghost use Rattle.tags.specs.Next.{block_bytes, Without, Passed, NextLess, NextTag};
ghost use Rattle.tags.specs.Counts.{one_more, Counts};

use model::TABLES;

// How many bytes are looked at together: the compiler turns the loop over them into vector compares. `block_bytes` in
// specs/Next.antt is the same number.
const BLOCK: usize = 16;

// How many of the bytes of a block from i on are `<`: 0 only if none is.
fn less_in(s: &[u8], i: usize) -> u32
    requires { i + block_bytes ≤ length s.now }
    ensures { result ≡ 0 → Without s.now i block_bytes }
{
    let mut n = 0;
    for x in &s[i..i + BLOCK] {
        n += u32::from(*x == b'<');
    }
    n
}

// Behind whole blocks without `<` from p on.
fn behind_blocks(s: &[u8], p: usize) -> usize
    ensures { Passed s.now p result }
{
    let mut i = p;
    // The step is a whole block, and p may be past the end: `chunks_exact` would need a case for that.
    while i <= s.len().saturating_sub(BLOCK) {
        if s.len() < BLOCK {
            return i;
        }
        if less_in(s, i) != 0 {
            return i;
        }
        i += BLOCK;
    }
    i
}

// The first `<` from p on, if there is one.
fn next_less(s: &[u8], p: usize) -> Option<usize>
    ensures { MatchOption result (tags_in (drop p s.now) ≡ []) (NextLess s.now p) }
{
    for i in behind_blocks(s, p)..s.len() {
        if s[i] == b'<' {
            return Some(i);
        }
    }
    None
}

// Where the table's number of the first tag from p on stands, behind `<t`, if there is one.
pub fn next_tag(s: &[u8], p: usize) -> Option<usize>
    ensures { MatchOption result (tags_in (drop p s.now) ≡ []) (NextTag s.now p) }
{
    let mut q = p;
    while let Some(i) = next_less(s, q) {
        if file::byte_at(s, i + 1) == b't' {
            return Some(i + 2);
        }
        q = i + 1;
    }
    None
}

// One more row of table n, where there is room for such a table.
fn count_one(counts: &mut [usize; TABLES], n: usize)
    requires { (length counts.old ≡ table_bound) × (get_or counts.old n 0 + 1 < 2 ^ 64) }
    ensures { counts.new ≡ one_more n counts.old }
{
    if n < TABLES {
        counts[n] += 1;
    }
}

// How many rows of each table a text has.
pub fn count_rows(s: &[u8]) -> [usize; TABLES]
    ensures { Counts (tags_in s.now) result }
{
    let mut counts = [0usize; TABLES];
    let mut p = 0;
    while let Some(number) = next_tag(s, p) {
        let n = attributes::number_at(s, number) as usize;
        count_one(&mut counts, n);
        p = number;
    }
    counts
}
