// Not for callers: the grounds against a file: refusals 1 to 7, one function for each, tried in the stated order.
// Relies on `layout` and `file` for what stands where and on the definitions of `model`.
// Called by `catalogue`, `question`, `steps`, `verify`, `convert` and `pages`.
#![tactic(auto)]

ghost use Rattle.std.specs.Prelude.{◌≡◌};
ghost use Rattle.columns.specs.Test.{if_eq, if_lt};
ghost use Rattle.model.specs.Bounds.{no_parent};
ghost use Rattle.model.specs.Bytes.{u16_at};
ghost use Rattle.model.specs.Refusal.{number, first_of, code_of};
ghost use Rattle.model.specs.declared.Refusal.TheVariants.{BadParentRow};
ghost use Rattle.model.specs.Catalogue.{tables as tables_of, rows as rows_of};
ghost use Rattle.model.specs.Check.{size_code, trailer_code, start_of, head_code, bound_code, parent_code, width_code};
ghost use Rattle.model.specs.Check.{extent_code, row_code, table_code, left_code, check_code};

use columns::COLUMN_BOUND;
use layout::{columns, parent, row_at, rows, table_at, table_end, tables, trailer, visible};
use model::{NO_PARENT, ROW_BOUND, Refusal, TABLES};

// The bytes of the smallest file: `smallest_file` of the definitions.
const SMALLEST_FILE: usize = 16;

// 1: the file is shorter than the smallest one.
#[tactic(auto, using(crate::proofs::First::tests), unfolding(model::specs::Check::size_code))]
fn check_size(cat: &[u8]) -> Result<(), Refusal>
    ensures { code_of result ≡ size_code cat.now }
{
    if cat.len() < SMALLEST_FILE {
        return Err(Refusal::FileTooShort);
    }
    Ok(())
}

// 2: no table or too many, or the trailer does not end the file.
#[tactic(auto, using(crate::proofs::First::tests), unfolding(model::specs::Check::trailer_code))]
fn check_trailer(cat: &[u8]) -> Result<(), Refusal>
    ensures { code_of result ≡ trailer_code cat.now }
{
    let n = usize::from(tables(cat));
    if n == 0 {
        return Err(Refusal::BadTrailer);
    }
    if TABLES < n {
        return Err(Refusal::BadTrailer);
    }
    let end = trailer(cat) as usize;
    if end + 4 * n + 6 == cat.len() {
        return Ok(());
    }
    Err(Refusal::BadTrailer)
}

// Where a table must start: at 0, or at the end of the one before.
fn start_of(cat: &[u8], table: u32) -> usize
    ensures { result ≡ start_of cat.now table }
{
    if table == 0 {
        return 0;
    }
    table_end(cat, table - 1)
}

// 3: the table's offset is not there, or its first 6 bytes pass the trailer's first byte.
#[tactic(auto, using(crate::proofs::First::tests), unfolding(model::specs::Check::head_code))]
fn check_head(cat: &[u8], table: u32) -> Result<(), Refusal>
    ensures { code_of result ≡ head_code cat.now table }
{
    let at = table_at(cat, table) as usize;
    if at != start_of(cat, table) {
        return Err(Refusal::BadExtent);
    }
    let end = trailer(cat) as usize;
    if at + 6 <= end {
        return Ok(());
    }
    Err(Refusal::BadExtent)
}

// 4: too many columns or rows.
#[tactic(auto, using(crate::proofs::First::tests), unfolding(model::specs::Check::bound_code))]
fn check_bounds(cat: &[u8], table: u32) -> Result<(), Refusal>
    ensures { code_of result ≡ bound_code cat.now table }
{
    let c = u32::from(columns(cat, table));
    if COLUMN_BOUND < c {
        return Err(Refusal::TableTooLarge);
    }
    let n = u32::from(rows(cat, table));
    if ROW_BOUND < n {
        return Err(Refusal::TableTooLarge);
    }
    Ok(())
}

// 5: the root has a parent table, or another's is not a lower-numbered one.
#[tactic(auto, using(crate::proofs::First::tests), unfolding(model::specs::Check::parent_code))]
fn check_parent(cat: &[u8], table: u32) -> Result<(), Refusal>
    ensures { code_of result ≡ parent_code cat.now table }
{
    let up = parent(cat, table);
    if table == 0 {
        if up == NO_PARENT {
            return Ok(());
        }
        return Err(Refusal::BadParentTable);
    }
    if u32::from(up) < table {
        return Ok(());
    }
    Err(Refusal::BadParentTable)
}

// 6: too many visible columns.
#[tactic(auto, using(crate::proofs::First::tests), unfolding(model::specs::Check::width_code))]
fn check_width(cat: &[u8], table: u32) -> Result<(), Refusal>
    ensures { code_of result ≡ width_code cat.now table }
{
    if COLUMN_BOUND < visible(cat, table) {
        return Err(Refusal::TooManyVisible);
    }
    Ok(())
}

// 3: the rows pass the trailer's first byte.
#[tactic(auto, using(crate::proofs::First::tests), unfolding(model::specs::Check::extent_code))]
fn check_extent(cat: &[u8], table: u32) -> Result<(), Refusal>
    ensures { code_of result ≡ extent_code cat.now table }
{
    let end = trailer(cat) as usize;
    if table_end(cat, table) <= end {
        return Ok(());
    }
    Err(Refusal::BadExtent)
}

// The parent row of the row that starts at a position: the number that `file::u16_at` reads there, by one test where
// both bytes are there. Of a check most is this, once for each row.
#[tactic(auto, unfolding(model::specs::Bytes::u16_at))]
fn parent_row(cat: &[u8], at: usize) -> u16
    ensures { result ≡ u16_at cat.now at }
{
    if at < cat.len().saturating_sub(1) {
        return u16::from_le_bytes([cat[at], cat[at + 1]]);
    }
    file::u16_at(cat, at)
}

// 7: a row of the root has a parent row, or another's is not below the parent table's rows. It is written out where it is
// called: the loop over rows is then one for the root and one for the other tables, and shorter.
#[inline(always)]
#[tactic(auto, using(crate::proofs::First::tests))]
fn check_row(table: u32, up: u16, above: u16) -> Result<(), Refusal>
    ensures { code_of result
        ≡ if_eq table 0 (if_eq up no_parent 0 (number BadParentRow)) (if_lt up above 0 (number BadParentRow)) }
{
    if table == 0 {
        if up == NO_PARENT {
            return Ok(());
        }
        return Err(Refusal::BadParentRow);
    }
    if up < above {
        return Ok(());
    }
    Err(Refusal::BadParentRow)
}

// 7 for the first row of a table that is not sound.
fn check_rows(cat: &[u8], table: u32) -> Result<(), Refusal>
    ensures { code_of result ≡ first_of (rows_of cat.now table) 0 (row_code cat.now table) }
{
    let first = row_at(cat, table, 0);
    let width = 2 + 4 * columns(cat, table) as usize;
    let above = rows(cat, u32::from(parent(cat, table)));
    for k in 0..rows(cat, table) as usize {
        check_row(table, parent_row(cat, first + k * width), above)?;
    }
    Ok(())
}

// One table: offset and 6 bytes, then 4, 5, 6, the rows' extent, and each row.
#[tactic(auto, using(model::proofs::Codes::tries), unfolding(model::specs::Check::table_code))]
fn check_table(cat: &[u8], table: u32) -> Result<(), Refusal>
    ensures { code_of result ≡ table_code cat.now table }
{
    check_head(cat, table)?;
    check_bounds(cat, table)?;
    check_parent(cat, table)?;
    check_width(cat, table)?;
    check_extent(cat, table)?;
    check_rows(cat, table)
}

// The ground against the first table that is not sound.
fn check_tables(cat: &[u8]) -> Result<(), Refusal>
    ensures { code_of result ≡ first_of (tables_of cat.now) 0 (table_code cat.now) }
{
    for table in 0..u32::from(tables(cat)) {
        check_table(cat, table)?;
    }
    Ok(())
}

// 3: bytes are left after the last table.
fn check_left(cat: &[u8]) -> Result<(), Refusal>
    ensures { code_of result ≡ left_code cat.now }
{
    let last = u32::from(tables(cat).saturating_sub(1));
    let end = trailer(cat) as usize;
    if table_end(cat, last) == end {
        return Ok(());
    }
    Err(Refusal::BadExtent)
}

// The first ground against the catalogue: 1 and 2, then table by table, then left bytes.
#[tactic(auto, using(model::proofs::Codes::tries), unfolding(model::specs::Check::check_code))]
pub fn check(cat: &[u8]) -> Result<(), Refusal>
    ensures { code_of result ≡ check_code cat.now }
{
    check_size(cat)?;
    check_trailer(cat)?;
    check_tables(cat)?;
    check_left(cat)
}
