// Not for callers: what the programs print: words, decimal numbers and entries, put into lent bytes at a position and
// written to a writer in one go. Each answers the position behind what it put; what does not fit is left out.
// There is no `Display`: `write!` answers no position, on which the contracts of the lines rest.
// Relies on the types of `model` and on `itoa` for digits. Called by the programs, and by `page_lines` and `pages`.
#![tactic(auto)]

ghost use Rattle.std.specs.Prelude.{◌≡◌, [], ◌∷◌, length, IfOk, OnOk, OnErr};
ghost use Rattle.std.specs.Io.KnownBytes.{Appends};
ghost use Rattle.columns.specs.Test.{if_le};
ghost use Rattle.model.specs.Text.{decimal, right_text, entry_text};
ghost use Rattle.text.specs.Puts.{Puts};
ghost use Rattle.text.specs.Written.{AppendsFirst, front};

use itoa::Buffer;
use model::{Entry, ROW};
use std::io;
use std::io::{ErrorKind, Write};

// A byte.
pub fn put_byte(out: &mut [u8], at: usize, x: u8) -> usize
    ensures { Puts (x ∷ []) at out.old out.new result }
{
    if at < out.len() {
        out[at] = x;
        return at + 1;
    }
    at
}

// The bytes of a word.
pub fn put_word(out: &mut [u8], at: usize, word: &[u8]) -> usize
    ensures { Puts word.now at out.old out.new result }
{
    let mut next = at;
    for x in word {
        next = put_byte(out, next, *x);
    }
    next
}

// A number in decimal.
pub fn put_number(out: &mut [u8], at: usize, x: u64) -> usize
    ensures { Puts (decimal x) at out.old out.new result }
{
    let mut digits = Buffer::new();
    put_word(out, at, digits.format(x).as_bytes())
}

// The right side of an entry: its number, or `row`.
fn put_right(out: &mut [u8], at: usize, right: u8) -> usize
    ensures { Puts (right_text right) at out.old out.new result }
{
    if right as u32 == ROW {
        return put_word(out, at, b"row");
    }
    put_number(out, at, right as u64)
}

// An entry: target, left side and right side, parted by one space.
pub fn put_entry(out: &mut [u8], at: usize, e: Entry) -> usize
    ensures { Puts (entry_text e) at out.old out.new result }
{
    let mut next = put_number(out, at, e.target as u64);
    next = put_byte(out, next, b' ');
    next = put_number(out, next, e.left as u64);
    next = put_byte(out, next, b' ');
    put_right(out, next, e.right)
}

// Writes all of the bytes. After an error the writer has taken some of them, from the first on: of that the library's
// `write_all` promises nothing, and clause `torn` here and of `write` needs it.
fn write_all<W: Write>(to: &mut W, bytes: &[u8]) -> io::Result<()>
    ensures whole { OnOk result (Appends (W.contents to.old) (W.contents to.new) bytes.now) }
    ensures torn { OnErr result (AppendsFirst (W.contents to.old) (W.contents to.new) bytes.now) }
{
    let mut done = 0;
    while done < bytes.len() {
        let taken = to.write(&bytes[done..])?;
        if taken == 0 {
            return Err(io::Error::from(ErrorKind::WriteZero));
        }
        done += taken;
    }
    Ok(())
}

// Writes the first n bytes, and answers how many those are: none where there are fewer. After an error the writer has
// taken some of them, from the first on.
pub fn write<W: Write>(to: &mut W, out: &[u8], n: usize) -> io::Result<usize>
    ensures count { IfOk result (λ bytes. bytes ≡ if_le n (length out.now) n 0) }
    ensures whole { OnOk result (Appends (W.contents to.old) (W.contents to.new) (front n out.now)) }
    ensures torn { OnErr result (AppendsFirst (W.contents to.old) (W.contents to.new) (front n out.now)) }
{
    if n <= out.len() {
        write_all(to, &out[..n])?;
        return Ok(n);
    }
    Ok(0)
}
