// Not for callers: the table of broken rights, one word for each left side, bit a for right a. A scan notes what each
// agree set breaks, `close` carries it to every smaller left side, and `minimal_rights` reads a left side's rights
// off the closed words. A bit above those of the rights, that of what is backed, may stand in them too. `right_at` is
// the right that a bit stands for.
// Relies on the definitions of `model` and `columns`, and on `filled` for words that are rewritten in a run. Called
// by `planes`, `partition`, `rights`, `steps`, `soundness` and `coverage`.
#![tactic(auto)]

ghost use Rattle.std.specs.Prelude.{ℕ, ◌+◌, ◌%◌, ◌^◌, ◌≤◌, ◌<◌, ◌≡◌, ◌↔◌, length};
ghost use Rattle.columns.specs.Set.{bit};
ghost use Rattle.model.specs.Rights.{right_at};
ghost use Rattle.table.specs.Words.{lacking_of, BlockJoined, ColumnsJoined, ColumnJoined, Closed, ReadOff};

use bits::power;

// Joins one block: each of the `column` words from `start` on gets the bits of the word that is `column` further on.
fn join_block(words: &mut [u32], start: usize, column: usize)
    requires { start + column + column ≤ length words.old }
    ensures { BlockJoined start column words.old words.new }
{
    for x in start..start + column {
        words[x] |= words[x + column];
    }
}

// Joins one column, block by block: each word gets the bits of the word at its left side with column k. In a block of
// the left sides that differ in columns up to k only, those without column k come first.
fn join_column(words: &mut [u32], n: u32, k: u32)
    requires { (n < 32) × (2 ^ n ≤ length words.old) × (k < n) }
    ensures { ColumnJoined n k words.old words.new }
{
    let end = power(n) as usize;
    let column = power(k) as usize;
    for start in (0..end).step_by(2 * column) {
        join_block(words, start, column);
    }
}

// Joins the three lowest columns in eight words: those of left sides that differ in these columns only.
fn join_eight(words: &mut [u32], start: usize)
    requires { (start % 8 ≡ 0) × (start + 8 ≤ length words.old) }
    ensures { ColumnsJoined start (start + 8) 3 words.old words.new }
{
    join_block(words, start, 1);
    join_block(words, start + 2, 1);
    join_block(words, start + 4, 1);
    join_block(words, start + 6, 1);
    join_block(words, start, 2);
    join_block(words, start + 4, 2);
    join_block(words, start, 4);
}

// Joins the three lowest columns, eight words at a time, or none where there are fewer, and says how many.
fn join_lowest(words: &mut [u32], n: u32) -> u32
    requires { (n < 32) × (2 ^ n ≤ length words.old) }
    ensures { (result ≤ n) × ColumnsJoined 0 (2 ^ n) result words.old words.new }
{
    if n < 3 {
        return 0;
    }
    let end = power(n) as usize;
    for start in (0..end).step_by(8) {
        join_eight(words, start);
    }
    3
}

// Closes the words over larger left sides, column by column: what a left side does not give, no smaller one gives.
pub fn close(words: &mut [u32], n: u32)
    requires { (n < 32) × (2 ^ n ≤ length words.old) }
    ensures { Closed n words.old words.new }
{
    for k in join_lowest(words, n)..n {
        join_column(words, n, k);
    }
}

// The bits of x that are not bits of y.
pub fn lacking(x: u32, y: u32) -> u32
    ensures { result ≡ lacking_of x y }
{
    x ^ (x & y)
}

// The rights asked for, as a mask, that are minimal for the left side x by the closed words. It goes over the members
// of x, the lowest first, and ends early once no right is left.
pub fn minimal_rights(words: &[u32], x: u32, own: u32) -> u32
    requires { x < length words.now }
    ensures { (a : ℕ) → (bit result a ≡ 1) ↔ ReadOff words.now x own a }
{
    let mut rights = lacking(lacking(own, x), words[x as usize]);
    let mut rest = x;
    while rest != 0 {
        if rights == 0 {
            return 0;
        }
        let above = rest & (rest - 1);
        rights &= words[(x - (rest - above)) as usize];
        rest = above;
    }
    rights
}

// The right side that bit k stands for, where there are n members.
pub fn right_at(n: u32, k: u32) -> u32
    ensures { result ≡ right_at n k }
{
    if k == n { model::ROW } else { k }
}
