// Not for callers: what the listing program prints, page by page: a page is the lines of one run of entries, and the
// first one has the head line before them. No listing call made here is refused, so answers are unwrapped.
// Relies on `listing` for the entries, on `grounds` and `layout` for the check and on `page_lines` for what is put.
// Called by `list`.
#![tactic(auto)]

ghost use Rattle.std.specs.Prelude.{◌+◌, ◌≤◌, ◌<◌, ◌≡◌, length, drop};
ghost use Rattle.model.specs.Bounds.{work_bound};
ghost use Rattle.model.specs.Calls.{flat};
ghost use Rattle.model.specs.Listing.{cells, ordinary};
ghost use Rattle.model.specs.Text.{listing_text, answer_text};
ghost use Rattle.pages.specs.Pages.{rest, Lent, Listable, Paged};

use listing::{RUN_BOUND, list_filled};
use model::FILE_BOUND;
use page_lines::{put_head, put_refused, put_run};

// How many bytes stand at the start of the buffer, and from which place on the lines are still to come: none at the
// last place.
#[derive(Clone, Copy)]
pub struct Page {
    pub len: usize,
    pub place: u32,
    pub last: u32,
}

// How many entries there are: those before a place, and those of the sets from there on.
fn count_from(cat: &[u8], place: u32, last: u32, before: u32, work: &mut [u32]) -> u64
    requires listable { Listable cat.now last }
    requires work_bound_in_bounds { work_bound ≤ length work.old }
    requires place_le_last { place ≤ last }
    ensures { result ≡ before + length (flat (drop place (cells (ordinary cat.now)))) }
{
    let mut from = place;
    let mut sum = before as u64;
    while from < last {
        let filled = list_filled(cat, from, last, RUN_BOUND, work);
        let done = filled.answer.unwrap();
        sum += done.count as u64;
        from = done.place;
    }
    sum
}

// The head line and the lines of the first run. The entries of the first call are kept, so a listing that fits one
// run is made once; where there are more, the rest is counted before the head line.
fn head_page(cat: &[u8], last: u32, out: &mut [u8], work: &mut [u32]) -> Page
    requires listable { Listable cat.now last }
    requires lent { Lent out.old work.old }
    ensures { Paged cat.now (listing_text cat.now) out.new result }
{
    let filled = list_filled(cat, 0, last, RUN_BOUND, work);
    let done = filled.answer.unwrap();
    let place = done.place;
    let entries = count_from(cat, place, last, done.count, work);
    let at = put_head(out, layout::tables(cat), last, entries);
    let len = put_run(out, at, &filled.run[..done.count as usize]);
    Page { len, place, last }
}

// The first page for the bytes of an input: a line that says why it has no listing, or the first lines of its listing.
pub fn first_page(file: &[u8], out: &mut [u8], work: &mut [u32]) -> Page
    requires { Lent out.old work.old }
    ensures { Paged file.now (answer_text file.now) out.new result }
{
    if FILE_BOUND < file.len() {
        let len = text::put_word(out, 0, b"too long\n");
        return Page {
            len,
            place: 0,
            last: 0,
        };
    }
    match grounds::check(file) {
        Ok(()) => head_page(file, layout::sets(file), out, work),
        Err(why) => {
            let len = put_refused(out, u32::from(why));
            Page {
                len,
                place: 0,
                last: 0,
            }
        }
    }
}

// The page behind another: the lines of the run from its place on.
pub fn next_page(cat: &[u8], page: Page, out: &mut [u8], work: &mut [u32]) -> Page
    requires place_lt_last { page.place < page.last }
    requires listable { Listable cat.now page.last }
    requires lent { Lent out.old work.old }
    ensures text { Paged cat.now (rest cat.now page.place page.last)
        out.new result }
    ensures onward { page.place < result.place }
    ensures same { result.last ≡ page.last }
{
    let last = page.last;
    let filled = list_filled(cat, page.place, last, RUN_BOUND, work);
    let done = filled.answer.unwrap();
    let place = done.place;
    let end = put_run(out, 0, &filled.run[..done.count as usize]);
    Page {
        len: end,
        place,
        last,
    }
}
