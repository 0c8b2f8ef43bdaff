// Not for callers: the tables of a converted text, written into a lent output, and how many bytes they take.
// Relies on `tags` and `attributes` for the rows of the text, on `layout` for the shape, on `file` for numbers in a
// file and on the definitions of `model`; its laws on those of `encoding` and `standing`. Called by `convert`.
#![tactic(auto)]

ghost use Rattle.std.specs.Prelude.{◌+◌, ◌*◌, ◌≤◌, ◌<◌, ◌^◌, ◌≡◌, ◌++◌, length, get_or, take, drop};
ghost use Rattle.std.proofs.lemmas.List.Edits.{sets};
ghost use Rattle.columns.specs.Bound.{column_bound};
ghost use Rattle.model.specs.Bounds.{table_bound, row_bound, missing};
ghost use Rattle.model.specs.Catalogue.{tables as tables_of, columns as columns_of};
ghost use Rattle.model.specs.Check.{Accepted};
ghost use Rattle.model.specs.Encode.{codes_of, head_of, row_of, trailer_of, rows_bytes, table_bytes, tables_bytes};
ghost use Rattle.model.specs.Forest.{codes_from};
ghost use Rattle.model.specs.Form.{cells_in};
ghost use Rattle.model.specs.Convert.{tags_in, count_of, rows_from, table_from, contents_from, converted};
ghost use Rattle.tags.specs.Counts.{Counts};
ghost use Rattle.sheets.specs.Put.{Put};
ghost use Rattle.standing.specs.Tags.{up_of};
ghost use Rattle.sheets.specs.Sheets.{seen_after, bytes_for, table_room, size_in, starts_in, file_size, Few};

use attributes::COLUMNS;
use file::{put_u16, put_u32};
use model::{NO_PARENT, TABLES};

// The number that stands for 'no row' above the root.
const NO_ROW: usize = NO_PARENT as usize;

// Writes codes.
fn put_codes(out: &mut [u8], at: usize, codes: &[u32])
    requires { at + 4 * length codes.now ≤ length out.old }
    ensures { out.new ≡ sets out.old at (codes_of codes.now) }
{
    for k in 0..codes.len() {
        put_u32(out, at + 4 * k, codes[k] as usize);
    }
}

// Writes a row: its parent row, and n codes of the tag whose attributes stand from p on.
fn put_row(out: &mut [u8], at: usize, up: usize, s: &[u8], p: usize, n: usize)
    requires { (n ≤ column_bound) × (at + (2 + 4 * n) ≤ length out.old) }
    ensures { out.new
        ≡ sets out.old at (row_of up (codes_from n 0 (cells_in (drop p s.now)))) }
{
    let mut codes = [0u32; COLUMNS];
    attributes::read_codes(s, p, &mut codes);
    put_u16(out, at, up);
    put_codes(out, at + 2, &codes[..n]);
}

// Writes the row of a tag of table n, whose attributes stand from p on, where that is the table: where the next goes.
fn put_tag(
    out: &mut [u8],
    to: usize,
    up: usize,
    s: &[u8],
    p: usize,
    n: u32,
    table: u32,
    columns: usize,
) -> usize
    requires { (columns ≤ column_bound)
        × (to + length (bytes_for columns table up n (cells_in (drop p s.now))) ≤ length out.old) }
    ensures { Put out.old to (bytes_for columns table up n (cells_in (drop p s.now)))
        out.new result }
{
    if n != table {
        return to;
    }
    put_row(out, to, up, s, p, columns);
    to + 2 + 4 * columns
}

// The parent row of a row, by how many rows of the parent table stand before it.
fn up_of(table: u32, seen: usize) -> usize
    ensures { result ≡ up_of table seen }
{
    if table == 0 {
        return NO_ROW;
    }
    seen.saturating_sub(1)
}

// How many rows of the parent table stand before what follows a tag of table n.
fn seen_after(above: u32, table: u32, n: u32, seen: usize) -> usize
    requires { seen + 1 < 2 ^ 64 }
    ensures { result ≡ seen_after above table n seen }
{
    if n == table {
        return seen;
    }
    if n == above {
        return seen + 1;
    }
    seen
}

// Writes the rows of a table of so many columns, whose parent table is `above`: the position behind them.
fn put_rows(out: &mut [u8], at: usize, s: &[u8], table: u32, above: u32, columns: usize) -> usize
    requires { (table < missing) × (above < missing) × (columns ≤ column_bound)
        × (at + length (rows_bytes (rows_from columns above table 0 (tags_in s.now))) ≤ length out.old) }
    ensures { Put out.old at (rows_bytes (rows_from columns above table 0 (tags_in s.now)))
        out.new result }
{
    let mut to = at;
    let mut seen: usize = 0;
    let mut p = 0;
    while let Some(number) = tags::next_tag(s, p) {
        let n = attributes::number_at(s, number);
        to = put_tag(out, to, up_of(table, seen), s, number, n, table, columns);
        seen = seen_after(above, table, n, seen);
        p = number;
    }
    to
}

// Writes a table's first 6 bytes.
fn put_head(out: &mut [u8], at: usize, columns: usize, parent: usize, rows: usize)
    requires { at + 6 ≤ length out.old }
    ensures { out.new ≡ sets out.old at (head_of columns parent rows) }
{
    put_u16(out, at, columns);
    put_u16(out, at + 2, parent);
    put_u16(out, at + 4, rows);
}

// Writes a table of the shape with its rows, of which there are `count`: the position behind it.
fn put_table(out: &mut [u8], at: usize, shape: &[u8], s: &[u8], table: u32, count: usize) -> usize
    requires { (table < table_bound) × (columns_of shape.now table ≤ column_bound)
        × (count ≡ count_of table (tags_in s.now))
        × (at + length (table_bytes (table_from shape.now (tags_in s.now) table)) ≤ length out.old) }
    ensures { Put out.old at
        (table_bytes (table_from shape.now (tags_in s.now) table)) out.new result }
{
    let columns = layout::columns(shape, table) as usize;
    let above = layout::parent(shape, table);
    put_head(out, at, columns, above as usize, count);
    put_rows(out, at + 6, s, table, above as u32, columns)
}

// Writes all tables from the start on: the position behind them.
fn put_tables(out: &mut [u8], shape: &[u8], s: &[u8], counts: &[usize; TABLES]) -> usize
    requires { Accepted shape.now × Counts (tags_in s.now) counts.now
        × (length (tables_bytes (contents_from shape.now (tags_in s.now) (tables_of shape.now) 0))
        ≤ length out.old) }
    ensures { Put out.old 0
        (tables_bytes (contents_from shape.now (tags_in s.now) (tables_of shape.now) 0))
        out.new result }
{
    let mut at: usize = 0;
    for table in 0..layout::tables(shape) as u32 {
        at = put_table(out, at, shape, s, table, counts[table as usize]);
    }
    at
}

// The bytes of a table of the shape, by the counts.
fn size_of(shape: &[u8], counts: &[usize; TABLES], table: u32) -> usize
    requires { (table < table_bound) × (get_or counts.now table 0 ≤ row_bound) }
    ensures is { result ≡ size_in shape.now counts.now table }
    ensures small { result ≤ table_room }
{
    let columns = layout::columns(shape, table) as usize;
    6 + counts[table as usize] * (2 + 4 * columns)
}

// Writes where each table starts.
fn put_starts(out: &mut [u8], at: usize, shape: &[u8], counts: &[usize; TABLES])
    requires { Accepted shape.now × Few shape.now counts.now
        × (at + 4 * tables_of shape.now ≤ length out.old) }
    ensures { out.new ≡ sets out.old at
        (codes_of (starts_in shape.now counts.now (tables_of shape.now) 0 0)) }
{
    let mut start: usize = 0;
    for table in 0..layout::tables(shape) as u32 {
        put_u32(out, at + 4 * table as usize, start);
        start += size_of(shape, counts, table);
    }
}

// Writes the trailer.
fn put_trailer(out: &mut [u8], at: usize, shape: &[u8], counts: &[usize; TABLES])
    requires { Accepted shape.now × Few shape.now counts.now
        × (at + (4 * tables_of shape.now + 6) ≤ length out.old) }
    ensures { out.new ≡ sets out.old at
        (trailer_of (starts_in shape.now counts.now (tables_of shape.now) 0 0)
        (tables_of shape.now) at) }
{
    let n = layout::tables(shape) as usize;
    put_starts(out, at, shape, counts);
    put_u16(out, at + 4 * n, n);
    put_u32(out, at + 4 * n + 2, at);
}

// The bytes of the file of a shape with so many rows in each table.
pub fn size(shape: &[u8], counts: &[usize; TABLES]) -> usize
    requires { Accepted shape.now × Few shape.now counts.now }
    ensures { result ≡ file_size shape.now counts.now }
{
    let n = layout::tables(shape) as u32;
    let mut sum: usize = 0;
    for table in 0..n {
        sum += size_of(shape, counts, table);
    }
    sum + 4 * n as usize + 6
}

// Writes the catalogue of a text by a shape to the start of the output; no other byte changes.
pub fn write(shape: &[u8], text: &[u8], counts: &[usize; TABLES], out: &mut [u8])
    requires { Accepted shape.now × Counts (tags_in text.now) counts.now × Few shape.now counts.now
        × (length (converted shape.now text.now) ≤ length out.old) }
    ensures { out.new ≡ converted shape.now text.now
        ++ drop (length (converted shape.now text.now)) out.old }
{
    let end = put_tables(out, shape, text, counts);
    put_trailer(out, end, shape, counts);
}
