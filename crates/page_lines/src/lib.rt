// Not for callers: the lines of the listing program, put into lent bytes.
// Relies on `text` for words, numbers and entries. Called by `pages`.
#![tactic(auto)]

ghost use Rattle.model.specs.Text.{entry_line, lines_of, head_line, refused_line};
ghost use Rattle.text.specs.Puts.{Puts};

use model::Entry;

// The line of an entry.
fn put_line(out: &mut [u8], at: usize, e: Entry) -> usize
    ensures { Puts (entry_line e) at out.old out.new result }
{
    let next = text::put_entry(out, at, e);
    text::put_word(out, next, b"\n")
}

// The lines of the entries of a run.
pub fn put_run(out: &mut [u8], at: usize, run: &[Entry]) -> usize
    ensures { Puts (lines_of run.now) at out.old out.new result }
{
    let mut next = at;
    for e in run {
        next = put_line(out, next, *e);
    }
    next
}

// The head line: how many tables, sets and entries.
pub fn put_head(out: &mut [u8], tables: u16, sets: u32, entries: u64) -> usize
    ensures { Puts (head_line tables sets entries) 0 out.old out.new result }
{
    let mut at = text::put_word(out, 0, b"tables ");
    at = text::put_number(out, at, tables as u64);
    at = text::put_word(out, at, b" sets ");
    at = text::put_number(out, at, sets as u64);
    at = text::put_word(out, at, b" entries ");
    at = text::put_number(out, at, entries);
    text::put_word(out, at, b"\n")
}

// The line of a refusal.
pub fn put_refused(out: &mut [u8], number: u32) -> usize
    ensures { Puts (refused_line number) 0 out.old out.new result }
{
    let mut at = text::put_word(out, 0, b"refused ");
    at = text::put_number(out, at, number as u64);
    text::put_word(out, at, b"\n")
}
