// Lists a catalogue: reads it from standard input and prints its whole listing, or why it has none.
// Relies on `pages` for the text and on `text` for writing it. The text is `answer_text` of `model`: `list` prints it
// for the bytes of any reader, to any writer, page by page. That standard input and output are such is beyond its
// contract.
#![tactic(auto)]

ghost use Rattle.std.specs.Prelude.{◌≡◌, ◌≤◌, ◌<◌, length, take, IfOk, OnOk, OnErr, IfSome};
ghost use Rattle.std.specs.Io.KnownBytes.{Appends, Consumes, IsAtEnd};
ghost use Rattle.model.specs.Text.{answer_text};
ghost use Rattle.text.specs.Written.{AppendsFirst};
ghost use Rattle.pages.specs.Pages.{page_bound, word_count, Lent};

use listing::RUN_BOUND;
use model::FILE_BOUND;
use pages::{first_page, next_page};
use std::io;
use std::io::{Read, Write};

// How many bytes the line of an entry has at most, how many are kept for the head line, and how many a page has.
const LINE_BOUND: usize = 13;

const HEAD_BOUND: usize = 64;

const PAGE_BOUND: usize = LINE_BOUND * RUN_BOUND + HEAD_BOUND;

// How many work words are lent: one for each left side of the widest target.
const WORDS: usize = 65536;

// Bytes for a page. This and the next stay two: each gives its array's length the name that contracts know.
fn page_bytes() -> [u8; PAGE_BOUND]
    ensures { page_bound ≡ length result }
{
    [0; PAGE_BOUND]
}

// The work words.
fn work_words() -> [u32; WORDS]
    ensures { word_count ≡ length result }
{
    [0; WORDS]
}

// Prints every page, and answers how many bytes those were: as many as the whole text has. After a page that was not
// taken whole none is printed: what the writer took are the first bytes of the text, and no line is put together from
// two.
fn print<W: Write>(to: &mut W, file: &[u8], out: &mut [u8], work: &mut [u32]) -> io::Result<usize>
    requires { Lent out.old work.old }
    ensures count { IfOk result (λ bytes. bytes ≡ length (answer_text file.now)) }
    ensures whole { OnOk result (Appends (W.contents to.old) (W.contents to.new) (answer_text file.now)) }
    ensures torn { OnErr result (AppendsFirst (W.contents to.old) (W.contents to.new) (answer_text file.now)) }
{
    let mut page = first_page(file, out, work);
    let mut sum = text::write(to, out, page.len)?;
    while page.place < page.last {
        page = next_page(file, page, out, work);
        let more = text::write(to, out, page.len)?;
        sum += more;
    }
    Ok(sum)
}

// Reads until the bytes are full or the input ends, and answers how many bytes it put, from the first on: the library's
// `read_exact` fails at the end, and its `read_to_end` asks for heap.
fn read_front<R: Read>(from: &mut R, bytes: &mut [u8]) -> io::Result<usize>
    ensures within { IfOk result (λ n. n ≤ length bytes.new) }
    ensures taken { IfOk result (λ n. Consumes (R.remaining from.old) (R.remaining from.new) (take n bytes.new)) }
    ensures end { IfOk result (λ n. n < length bytes.new → IsAtEnd (R.remaining from.new)) }
{
    let mut done = 0;
    while done < bytes.len() {
        let got = from.read(&mut bytes[done..])?;
        if got == 0 {
            return Ok(done);
        }
        done += got;
    }
    Ok(done)
}

// Prints what there is to print for an input. After an error the writer has taken some of it, from the first byte on.
fn list<R: Read, W: Write>(from: &mut R, to: &mut W) -> io::Result<usize>
    ensures whole { OnOk result (IfSome (R.remaining from.old) (λ bytes.
        Appends (W.contents to.old) (W.contents to.new) (answer_text bytes))) }
    ensures torn { OnErr result (IfSome (R.remaining from.old) (λ bytes.
        AppendsFirst (W.contents to.old) (W.contents to.new) (answer_text bytes))) }
{
    let mut file = [0u8; FILE_BOUND + 1];
    let mut out = page_bytes();
    let mut work = work_words();
    let n = read_front(from, &mut file)?;
    print(to, &file[..n], &mut out, &mut work)
}

fn main(rt: HostRuntime) -> io::Result<()> {
    list(&mut rt.stdin(), &mut rt.stdout())?;
    Ok(())
}
