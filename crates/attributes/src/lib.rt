// Not for callers: numbers and attributes, read off a tag in a supplier's text at any position, for any bytes. A number
// that no table, column or cell has is read as the code of a missing cell.
// Relies on `layout` for the shape, on `file` for a byte and on the definitions of `model`. Called by `scanner`,
// `elements`, `tags` and `sheets`.
#![tactic(auto)]

ghost use Rattle.std.specs.Prelude.{◌≡◌, ◌<◌, not, eqb, [], length, drop, set, MatchOption};
ghost use Rattle.columns.specs.Bound.{column_bound};
ghost use Rattle.model.specs.Xml.{is_quote, is_fresh};
ghost use Rattle.model.specs.Form.{number_in, capped, quoted_in, cells_in, is_distinct};
ghost use Rattle.model.specs.Convert.{are_below, fits_tag};
ghost use Rattle.attributes.specs.Digits.{digit_in, BehindZeros};
ghost use Rattle.attributes.specs.Tags.{NextAttribute, Noted, Codes};

use columns::COLUMN_BOUND;
use file::byte_at;
use model::MISSING;

// How many columns a row can have, as the length of an array.
pub const COLUMNS: usize = COLUMN_BOUND as usize;

// The digit at i, if one stands there.
fn digit_at(s: &[u8], i: usize) -> Option<u8>
    ensures { MatchOption result (digit_in (drop i s.now) ≡ 10)
        (λ d. (d < 10) × (d ≡ digit_in (drop i s.now))) }
{
    let x = byte_at(s, i);
    if x.is_ascii_digit() {
        return Some(x - b'0');
    }
    None
}

// The number of the digits at p, at most the code of a missing cell.
pub fn number_at(s: &[u8], p: usize) -> u32
    ensures { result ≡ capped (number_in (drop p s.now)) }
{
    let mut n: u64 = 0;
    for i in p..s.len() {
        let Some(digit) = digit_at(s, i) else {
            return n as u32;
        };
        n = 10 * n + digit as u64;
        if MISSING as u64 <= n {
            return MISSING;
        }
    }
    n as u32
}

// Either quote?
pub fn is_quote(x: u8) -> bool
    ensures { result ≡ is_quote x }
{
    matches!(x, b'"' | b'\'')
}

// The number behind the first quote from p on, at most the code of a missing cell; 0 where there is none, as
// `quoted_in` of `model` says.
fn quoted_number(s: &[u8], p: usize) -> u32
    ensures { result ≡ capped (quoted_in (drop p s.now)) }
{
    for i in p..s.len() {
        if is_quote(s[i]) {
            return number_at(s, i + 1);
        }
    }
    0
}

// The first position from p on where no `0` stands.
fn behind_zeros(s: &[u8], p: usize) -> usize
    ensures { BehindZeros s.now p result }
{
    for i in p..s.len() {
        if s[i] != b'0' {
            return i;
        }
    }
    p.max(s.len())
}

// Do the digits at a and at b make the same number, however long they are?
fn same_number(s: &[u8], a: usize, b: usize) -> bool
    ensures { result ≡ eqb (number_in (drop a s.now)) (number_in (drop b s.now)) }
{
    let mut i = behind_zeros(s, a);
    let mut j = behind_zeros(s, b);
    // Two positions that move together: a `for` over one would still count the other by hand.
    while let Some(digit) = digit_at(s, i) {
        if digit_at(s, j) != Some(digit) {
            return false;
        }
        i += 1;
        j += 1;
    }
    digit_at(s, j).is_none()
}

// Where the name of the next attribute of the tag from p on stands, behind its letter, if there is one.
fn next_attribute(s: &[u8], p: usize) -> Option<usize>
    ensures { MatchOption result (cells_in (drop p s.now) ≡ []) (NextAttribute s.now p) }
{
    for i in p..s.len() {
        let x = s[i];
        if x == b'>' {
            return None;
        }
        if x == b'c' {
            return Some(i + 1);
        }
    }
    None
}

// Has an attribute of the tag from p on the name whose digits stand at `name`?
fn named_again(s: &[u8], p: usize, name: usize) -> bool
    ensures { result ≡ not (is_fresh (number_in (drop name s.now)) (cells_in (drop p s.now))) }
{
    let mut q = p;
    while let Some(other) = next_attribute(s, q) {
        if same_number(s, other, name) {
            return true;
        }
        q = other;
    }
    false
}

// Is the attribute, whose name stands at p, one that was seen, or one that comes again? A low column is noted as seen,
// and a high one is looked for in the rest of the tag.
fn is_again(s: &[u8], p: usize, seen: &mut [bool; COLUMNS]) -> bool
    requires { length seen.old ≡ column_bound }
    ensures { Noted s.now p seen.old seen.new result }
{
    let k = number_at(s, p);
    if COLUMN_BOUND <= k {
        return named_again(s, p, p);
    }
    let old = seen[k as usize];
    seen[k as usize] = true;
    old
}

// Is no attribute of the tag from p on there twice?
pub fn is_distinct(s: &[u8], p: usize) -> bool
    ensures { result ≡ is_distinct (cells_in (drop p s.now)) }
{
    let mut seen = [false; COLUMNS];
    let mut q = p;
    while let Some(name) = next_attribute(s, q) {
        if is_again(s, name, &mut seen) {
            return false;
        }
        q = name;
    }
    true
}

// Are all attributes of the tag from p on of columns below c?
fn are_below(s: &[u8], p: usize, c: u16) -> bool
    ensures { result ≡ are_below c (cells_in (drop p s.now)) }
{
    let mut q = p;
    while let Some(name) = next_attribute(s, q) {
        if c as u32 <= number_at(s, name) {
            return false;
        }
        q = name;
    }
    true
}

// Does the tag, whose table's number stands at p, fit the shape in a row of table `up`?
pub fn fits_tag(shape: &[u8], up: u32, s: &[u8], p: usize) -> bool
    ensures { result ≡ fits_tag shape.now up (capped (number_in (drop p s.now)))
        (cells_in (drop p s.now)) }
{
    let table = number_at(s, p);
    if layout::tables(shape) as u32 <= table {
        return false;
    }
    if layout::parent(shape, table) as u32 != up {
        return false;
    }
    are_below(s, p, layout::columns(shape, table))
}

// The code of a column; a column at or above the bound has none.
fn put_code(codes: &mut [u32; COLUMNS], column: u32, code: u32)
    requires { length codes.old ≡ column_bound }
    ensures { codes.new ≡ set codes.old column code }
{
    if column < COLUMN_BOUND {
        codes[column as usize] = code;
    }
}

// The codes of the attributes of the tag from p on; an absent one is missing.
pub fn read_codes(s: &[u8], p: usize, codes: &mut [u32; COLUMNS])
    ensures { Codes (cells_in (drop p s.now)) codes.new }
{
    *codes = [MISSING; COLUMNS];
    let mut q = p;
    while let Some(name) = next_attribute(s, q) {
        put_code(codes, number_at(s, name), quoted_number(s, name));
        q = name;
    }
}
