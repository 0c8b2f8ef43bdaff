// The conversion of a supplier's text into a catalogue, by a shape: a catalogue without rows. The shape is checked
// first, then the form of the whole text, then whether it fits the shape, then whether there is room; only then is
// anything written.
// Relies on `grounds` for what stands against the shape, on `elements` for the form of the text and its fit, on `tags`
// for how many rows each table has, on `sheets` for the bytes and on `layout` for the shape. `conversion` has the
// theorems about what it writes and refuses. Called by hosts and programs.
#![tactic(auto)]

ghost use Rattle.std.specs.Prelude.{◌≡◌, length};
ghost use Rattle.model.specs.Catalogue.{tables};
ghost use Rattle.model.specs.Check.{Accepted, check_code};
ghost use Rattle.model.specs.Refusal.{or_else, first_of, code_of};
ghost use Rattle.model.specs.Reply.{convert_reply};
ghost use Rattle.model.specs.Convert.{tags_in, empty_code, many_code, form_code, fit_code, full_code};
ghost use Rattle.model.specs.Convert.{convert_meaning, converted_output};
ghost use Rattle.tags.specs.Counts.{Counts};

use elements::document;
use layout::rows;
use model::{ROWS, Refusal, TABLES};
use sheets::{size, write};
use tags::count_rows;

// 21: a table of the shape has rows.
fn check_empty(shape: &[u8]) -> Result<(), Refusal>
    ensures { code_of result ≡ first_of (tables shape.now) 0 (empty_code shape.now) }
{
    let n = u32::from(layout::tables(shape));
    for table in 0..n {
        if rows(shape, table) != 0 {
            return Err(Refusal::UnfitText);
        }
    }
    Ok(())
}

// 22: a table has too many rows.
fn check_counts(shape: &[u8], text: &[u8], counts: &[usize; TABLES]) -> Result<(), Refusal>
    requires { Accepted shape.now × Counts (tags_in text.now) counts.now }
    ensures { code_of result ≡ first_of (tables shape.now) 0 (many_code (tags_in text.now)) }
{
    for table in 0..layout::tables(shape) as usize {
        if ROWS < counts[table] {
            return Err(Refusal::NoRoom);
        }
    }
    Ok(())
}

// 1 to 7 on the shape, then 20 and 21 on the text.
fn check_text(shape: &[u8], text: &[u8]) -> Result<(), Refusal>
    ensures { code_of result
        ≡ or_else (check_code shape.now)
        (or_else (form_code text.now) (fit_code shape.now text.now)) }
{
    grounds::check(shape)?;
    if !document(text, shape, false) {
        return Err(Refusal::BadText);
    }
    check_empty(shape)?;
    if !document(text, shape, true) {
        return Err(Refusal::UnfitText);
    }
    Ok(())
}

// 22: a table has too many rows, or there is no room for so many bytes.
fn check_room(
    shape: &[u8],
    text: &[u8],
    counts: &[usize; TABLES],
    room: usize,
) -> Result<(), Refusal>
    requires { Accepted shape.now × Counts (tags_in text.now) counts.now }
    ensures { code_of result ≡ full_code shape.now text.now room }
{
    check_counts(shape, text, counts)?;
    if room < size(shape, counts) {
        return Err(Refusal::NoRoom);
    }
    Ok(())
}

// Writes the catalogue of a text by a shape to the start of the output: how many bytes, or why not. A refusal writes
// nothing.
pub fn convert(shape: &[u8], text: &[u8], out: &mut [u8]) -> Result<u32, Refusal>
    ensures result_value { convert_reply result
        ≡ convert_meaning shape.now text.now (length out.old) }
    ensures out_after { out.new ≡ converted_output shape.now text.now out.old }
{
    check_text(shape, text)?;
    let counts = count_rows(text);
    check_room(shape, text, &counts, out.len())?;
    let bytes = size(shape, &counts) as u32;
    write(shape, text, &counts, out);
    Ok(bytes)
}
