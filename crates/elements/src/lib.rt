// Not for callers: the elements of a supplier's text. Is the whole text one element `catalogue` with rows in it, of the
// form, and if so asked with every tag in its place in the shape?
// Relies on `model`, on `scanner` for the parts of a tag, on `attributes` for its numbers and attributes, on `file` for
// a byte and on the laws of `readers`. Called by `convert`.
#![tactic(auto)]

ghost use Rattle.std.specs.Prelude.{◌≡◌, ◌<◌, ◌≤◌, not, eqb, drop, unwrap_or, IfSome};
ghost use Rattle.model.specs.Bounds.{table_bound, no_parent};
ghost use Rattle.model.specs.Xml.{catalogue_name};
ghost use Rattle.model.specs.Form.{number_in, capped, cells_in, tag_at, name_of, end_at, rest_at, is_open};
ghost use Rattle.model.specs.Form.{content_by, element_at, document_at};
ghost use Rattle.model.specs.Convert.{taken};

use attributes::{fits_tag, is_distinct, number_at};
use file::byte_at;
use model::{NO_PARENT, TABLE_BOUND};
use scanner::{attributes_end, digits_end, expect, numeral_at, skip, word_at};

// The number that stands for 'no table' above the root.
const NO_TABLE: u32 = NO_PARENT as u32;

// Behind the tag of a row, up to its `>` or `/>`.
fn tag_at(s: &[u8], p: usize) -> Option<usize>
    ensures place { unwrap_or result 0 ≡ tag_at s.now p }
    ensures onward { IfSome result (λ q. p < q) }
{
    let name = word_at(s, b"<t", p)?;
    let end = numeral_at(s, name)?;
    let last = attributes_end(s, end)?;
    if !is_distinct(s, name) {
        return None;
    }
    Some(skip(s, last))
}

// Behind the end tag of a name.
fn end_at(s: &[u8], name: &[u8], p: usize) -> Option<usize>
    ensures place { unwrap_or result 0 ≡ end_at s.now name.now p }
    ensures onward { IfSome result (λ q. p < q) }
{
    let start = word_at(s, b"</", p)?;
    let end = word_at(s, name, start)?;
    expect(s, b'>', skip(s, end))
}

// Behind the end tag of the row whose tag begins at p.
fn row_end(s: &[u8], p: usize, q: usize) -> Option<usize>
    requires { tag_at s.now p ≡ 0 → ⊥ }
    ensures place { unwrap_or result 0 ≡ end_at s.now (name_of s.now p) q }
    ensures onward { IfSome result (λ r. q < r) }
{
    let end = digits_end(s, p + 2);
    end_at(s, &s[p + 1..end], q)
}

// Does a tag follow that is no end tag?
fn is_open(s: &[u8], p: usize) -> bool
    ensures { result ≡ is_open s.now p }
{
    if byte_at(s, p) != b'<' {
        return false;
    }
    byte_at(s, p + 1) != b'/'
}

// Is the tag, whose table's number stands at p, one to be taken in a row of table `up`?
fn is_taken(shape: &[u8], strict: bool, up: u32, s: &[u8], p: usize) -> bool
    ensures { result ≡ taken strict shape.now up (capped (number_in (drop p s.now)))
        (cells_in (drop p s.now)) }
{
    if strict {
        return fits_tag(shape, up, s, p);
    }
    true
}

// Behind an element, a row in a row of table `up`, at most so deep.
#[cycle(content_element)]
fn element(s: &[u8], shape: &[u8], strict: bool, depth: u32, up: u32, p: usize) -> Option<usize>
    ensures place { unwrap_or result 0 ≡ element_at s.now (taken strict shape.now) depth up p }
    ensures onward { IfSome result (λ q. p < q) }
{
    if depth == 0 {
        return None;
    }
    let end = tag_at(s, p)?;
    if !is_taken(shape, strict, up, s, p + 2) {
        return None;
    }
    if byte_at(s, end) == b'/' {
        return expect(s, b'>', end + 1);
    }
    let inside = expect(s, b'>', end)?;
    let last = content(s, shape, strict, depth - 1, number_at(s, p + 2), inside)?;
    row_end(s, p, last)
}

// Behind content: elements with white space around.
#[cycle(content_element)]
fn content(s: &[u8], shape: &[u8], strict: bool, depth: u32, up: u32, p: usize) -> Option<usize>
    ensures place { unwrap_or result 0
        ≡ content_by s.now (element_at s.now (taken strict shape.now) depth up) p }
    ensures onward { IfSome result (λ q. p ≤ q) }
{
    let mut q = skip(s, p);
    while is_open(s, q) {
        let end = element(s, shape, strict, depth, up, q)?;
        q = skip(s, end);
    }
    Some(q)
}

// Behind the rest of the element `catalogue` from the end of its tag on.
fn root_end(s: &[u8], shape: &[u8], strict: bool, p: usize) -> Option<usize>
    ensures place { unwrap_or result 0 ≡ rest_at s.now (content_by s.now
        (element_at s.now (taken strict shape.now) table_bound no_parent)) catalogue_name p }
    ensures onward { IfSome result (λ q. p < q) }
{
    if byte_at(s, p) == b'/' {
        return expect(s, b'>', p + 1);
    }
    let inside = expect(s, b'>', p)?;
    let last = content(s, shape, strict, TABLE_BOUND, NO_TABLE, inside)?;
    end_at(s, b"catalogue", last)
}

// Is the whole text of the form; if strict, does every tag fit the shape?
pub fn document(s: &[u8], shape: &[u8], strict: bool) -> bool
    ensures { result ≡ not (eqb (document_at s.now (taken strict shape.now)) 0) }
{
    let Some(name) = word_at(s, b"<catalogue", skip(s, 0)) else {
        return false;
    };
    let Some(end) = root_end(s, shape, strict, skip(s, name)) else {
        return false;
    };
    skip(s, end) == s.len()
}
