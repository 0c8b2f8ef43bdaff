// A part of a line: eight members compared by the numbers of their classes, a bit of a byte for each.
ghost use Rattle.std.specs.Prelude.{◌+◌, ◌≤◌, ◌<◌, ◌≡◌, bit_or, fold, All};
ghost use Rattle.columns.specs.Bound.{column_bound};
ghost use Rattle.model.specs.Bounds.{row_bound};
ghost use Rattle.classes.specs.Classes.{bytes_size};
ghost use Rattle.lines.specs.Lines.{LineOf, part_members, joined_at, part_at, numbered_at};
ghost use Rattle.lines.specs.Compares.{Compares, ComparesEach, added};

use bits::power;
use classes::{BYTES, STRIDE};
use leaders::ROWS;
// How many members a part has a bit for; `part_members` of specs/Lines.antt is the same number in the definitions.
const MEMBERS: usize = 8;

// What a row is compared by on one member: where the member's numbers stand, the row's own number, and the member's
// bit, or 0 where it counts for nothing.
#[derive(Clone, Copy, Default)]
pub struct Comparand {
    pub at: usize,
    pub own: u8,
    pub bit: u8,
}

// What row x is compared by on member v + j. The bit is a product and not chosen by a test, which the compiler would
// carry into the loop over rows.
fn comparand_of(bytes: &[u8; BYTES], few: u32, x: usize, v: u32, j: u32) -> Comparand
    requires { (x < row_bound) × (v + j < column_bound) × (j < part_members) }
    ensures { Compares bytes.now few x v j result }
{
    let k = v + j;
    let at = k as usize * STRIDE;
    Comparand {
        at,
        own: bytes[at + x],
        bit: ((few >> k) % 2 * power(j)) as u8,
    }
}

// What row x is compared by on the eight members from v on.
fn comparands(bytes: &[u8; BYTES], few: u32, x: usize, v: u32) -> [Comparand; MEMBERS]
    requires { (x < row_bound) × (v + part_members ≤ column_bound) }
    ensures { ComparesEach bytes.now few x v result }
{
    let mut members = [Comparand::default(); MEMBERS];
    for j in 0..MEMBERS {
        members[j] = comparand_of(bytes, few, x, v, j as u32);
    }
    members
}

// The bit of a member if row q has the same number there, else 0.
fn agreeing_bit(bytes: &[u8; BYTES], c: &Comparand, q: usize) -> u8
    requires { c.now.at + q < bytes_size }
    ensures { result ≡ added bytes.now q c.now }
{
    if c.own == bytes[c.at + q] { c.bit } else { 0 }
}

// The bits of the members on which row q has the same numbers.
fn agreeing(bytes: &[u8; BYTES], members: &[Comparand; MEMBERS], q: usize) -> u8
    requires { All (λ c. c.at + q < bytes_size) members.now }
    ensures { result ≡ fold (λ bits c. bit_or bits (added bytes.now q c)) 0 members.now }
{
    members
        .iter()
        .fold(0, |bits, c| bits | agreeing_bit(bytes, c, q))
}

// The part of row x's line by the eight members from v on.
fn compare_eight(bytes: &[u8; BYTES], few: u32, x: usize, v: u32, end: usize, part: &mut [u8; ROWS])
    requires { (x < row_bound) × (v + part_members ≤ column_bound) × (end ≤ row_bound) }
    ensures { LineOf (part_at bytes.now few x v) x end part.new }
{
    let members = comparands(bytes, few, x, v);
    for q in x + 1..end {
        part[q] = agreeing(bytes, &members, q);
    }
}

// A line by its two parts, the high one with a weight, which is 0 where it counts for nothing.
fn join_parts(
    x: usize,
    end: usize,
    low: &[u8; ROWS],
    high: &[u8; ROWS],
    weight: u16,
    line: &mut [u16; ROWS],
)
    requires { (x < row_bound) × (end ≤ row_bound) × (weight ≤ 256) }
    ensures { LineOf (joined_at weight low.now high.now) x end line.new }
{
    for q in x + 1..end {
        line[q] = u16::from(low[q]) + weight * u16::from(high[q]);
    }
}

// The line of row x by the members that are numbered.
pub fn numbered_line(
    bytes: &[u8; BYTES],
    few: u32,
    x: usize,
    end: usize,
    low: &mut [u8; ROWS],
    high: &mut [u8; ROWS],
    line: &mut [u16; ROWS],
)
    requires { (x < row_bound) × (end ≤ row_bound) }
    ensures { LineOf (numbered_at bytes.now few x) x end line.new }
{
    compare_eight(bytes, few, x, 0, end, low);
    if few < 256 {
        join_parts(x, end, low, high, 0, line);
        return;
    }
    compare_eight(bytes, few, x, 8, end, high);
    join_parts(x, end, low, high, 256, line);
}
