// Not for callers: the parts of a tag in a supplier's text. Each reader takes a position and gives the position behind
// what it reads there, if that stands there; the definitions of `model` have 0 for a reader that reads nothing.
// Relies on `model`, on `file` for a byte, on `attributes` for a number and on the laws of `readers`. Called by
// `elements`; the laws on how far a reader goes stand in proofs/Progress.antt.
#![tactic(auto)]

ghost use Rattle.std.specs.Prelude.{◌≡◌, ◌+◌, ◌<◌, ◌≤◌, length, unwrap_or, IfSome};
ghost use Rattle.model.specs.Xml.{is_white};
ghost use Rattle.model.specs.Form.{many, skip, digits_end, expect, word_at};
ghost use Rattle.model.specs.Form.{numeral_at, quoted_at, attribute_at, is_attribute};

use attributes::{is_quote, number_at};
use file::byte_at;
use model::MISSING;

// Is a byte white space?
fn is_white(x: u8) -> bool
    ensures { result ≡ is_white x }
{
    // These returns become one test of a bit in the loop of `skip`; `matches!` and `||` become four compares, a third
    // slower on a text of white space.
    if x == b' ' {
        return true;
    }
    if x == b'\t' {
        return true;
    }
    if x == b'\n' {
        return true;
    }
    x == b'\r'
}

// Behind white space.
pub fn skip(s: &[u8], p: usize) -> usize
    ensures { result ≡ skip s.now p }
{
    for q in p..s.len() {
        if !is_white(s[q]) {
            return q;
        }
    }
    p.max(s.len())
}

// Behind digits. The loop is that of `skip` with another test; one over any test would have to say in its contract what
// the closure answers for each byte, which is longer than both.
pub fn digits_end(s: &[u8], p: usize) -> usize
    ensures { result ≡ digits_end s.now p }
{
    for q in p..s.len() {
        if !s[q].is_ascii_digit() {
            return q;
        }
    }
    p.max(s.len())
}

// Behind a byte.
pub fn expect(s: &[u8], x: u8, p: usize) -> Option<usize>
    ensures place { unwrap_or result 0 ≡ expect s.now x p }
    ensures onward { IfSome result (λ q. p < q) }
{
    if s.len() <= p {
        return None;
    }
    if s[p] != x {
        return None;
    }
    Some(p + 1)
}

// Behind a word.
pub fn word_at(s: &[u8], word: &[u8], p: usize) -> Option<usize>
    ensures place { unwrap_or result 0 ≡ word_at s.now word.now p }
    ensures onward { IfSome result (λ q. p + length word.now ≤ q) }
{
    let mut q = p;
    for x in word {
        q = expect(s, *x, q)?;
    }
    Some(q)
}

// Behind a numeral: some digits, and no 0 before others.
pub fn numeral_at(s: &[u8], p: usize) -> Option<usize>
    ensures place { unwrap_or result 0 ≡ numeral_at s.now p }
    ensures onward { IfSome result (λ q. p < q) }
{
    let end = digits_end(s, p);
    if end == p {
        return None;
    }
    if byte_at(s, p) != b'0' {
        return Some(end);
    }
    if end != p + 1 {
        return None;
    }
    Some(end)
}

// Behind a value in quotes.
fn quoted_at(s: &[u8], p: usize) -> Option<usize>
    ensures place { unwrap_or result 0 ≡ quoted_at s.now p }
    ensures onward { IfSome result (λ q. p < q) }
{
    let quote = byte_at(s, p);
    if !is_quote(quote) {
        return None;
    }
    let end = numeral_at(s, p + 1)?;
    if MISSING <= number_at(s, p + 1) {
        return None;
    }
    expect(s, quote, end)
}

// Behind an attribute and the white space before it, and whether one follows.
fn attribute_at(s: &[u8], p: usize) -> Option<usize>
    ensures place { unwrap_or result 0 ≡ attribute_at s.now p }
    ensures onward { IfSome result (λ q. p < q) }
{
    let name = expect(s, b'c', skip(s, p))?;
    let end = numeral_at(s, name)?;
    let value = expect(s, b'=', skip(s, end))?;
    quoted_at(s, skip(s, value))
}

fn is_attribute(s: &[u8], p: usize) -> bool
    ensures { result ≡ is_attribute s.now p }
{
    let q = skip(s, p);
    if q == p {
        return false;
    }
    byte_at(s, q) == b'c'
}

// Behind all attributes.
pub fn attributes_end(s: &[u8], p: usize) -> Option<usize>
    ensures place { unwrap_or result 0 ≡ many s.now (is_attribute s.now) (attribute_at s.now) p }
    ensures onward { IfSome result (λ q. p ≤ q) }
{
    let mut q = p;
    while is_attribute(s, q) {
        q = attribute_at(s, q)?;
    }
    Some(q)
}
