// Not for callers: what stands where in a catalogue, for any bytes and any numbers of tables, rows and columns.
// Nothing is parsed into a state of its own. And a table of an accepted catalogue as a target (`Target`).
// Relies on `file` for numbers in a file and on the definitions of `model`. Called by `grounds`, `catalogue` and all
// that ask a catalogue.
#![tactic(auto)]

ghost use Rattle.std.specs.Prelude.{◌≡◌, ◌+◌, ◌*◌, ◌^◌, ◌<◌};
ghost use Rattle.model.specs.Catalogue.{tables as tables_of, trailer as trailer_of, table_at, columns as columns_of};
ghost use Rattle.model.specs.Catalogue.{parent as parent_of, rows as rows_of, row_at, table_end};
ghost use Rattle.model.specs.Catalogue.{visible as visible_of, inherited as inherited_of, sets as sets_of};
ghost use Rattle.model.specs.Check.{Accepted};

mod target;

use bits::power;
use model::TABLE_BOUND;
pub use target::Target;

// How many tables the trailer names.
#[tactic(auto, unfolding(model::specs::Catalogue::tables))]
pub fn tables(cat: &[u8]) -> u16
    ensures { result ≡ tables_of cat.now }
{
    file::u16_at(cat, cat.len().saturating_sub(6))
}

// Where the trailer starts.
#[tactic(auto, unfolding(model::specs::Catalogue::trailer))]
pub fn trailer(cat: &[u8]) -> u32
    ensures { result ≡ trailer_of cat.now }
{
    file::u32_at(cat, cat.len().saturating_sub(4))
}

// Where a table starts.
#[tactic(auto, unfolding(model::specs::Catalogue::table_at))]
pub fn table_at(cat: &[u8], table: u32) -> u32
    ensures { result ≡ table_at cat.now table }
{
    file::u32_at(cat, trailer(cat) as usize + 4 * table as usize)
}

// How many columns a table has.
#[tactic(auto, unfolding(model::specs::Catalogue::columns))]
pub fn columns(cat: &[u8], table: u32) -> u16
    ensures { result ≡ columns_of cat.now table }
{
    file::u16_at(cat, table_at(cat, table) as usize)
}

// The parent table of a table.
#[tactic(auto, unfolding(model::specs::Catalogue::parent))]
pub fn parent(cat: &[u8], table: u32) -> u16
    ensures { result ≡ parent_of cat.now table }
{
    file::u16_at(cat, table_at(cat, table) as usize + 2)
}

// How many rows a table has.
#[tactic(auto, unfolding(model::specs::Catalogue::rows))]
pub fn rows(cat: &[u8], table: u32) -> u16
    ensures { result ≡ rows_of cat.now table }
{
    file::u16_at(cat, table_at(cat, table) as usize + 4)
}

// Where row k of a table starts.
#[tactic(auto, using(crate::proofs::Where::product_small), unfolding(model::specs::Catalogue::row_at))]
pub fn row_at(cat: &[u8], table: u32, k: u32) -> usize
    ensures is { result ≡ row_at cat.now table k }
    ensures small { result < 2 ^ 60 }
{
    let at = table_at(cat, table) as usize;
    let c = columns(cat, table) as usize;
    at + 6 + k as usize * (2 + 4 * c)
}

// The first byte after a table's rows.
#[tactic(auto, unfolding(model::specs::Catalogue::table_end))]
pub fn table_end(cat: &[u8], table: u32) -> usize
    ensures is { result ≡ table_end cat.now table }
    ensures small { result < 2 ^ 60 }
{
    row_at(cat, table, u32::from(rows(cat, table)))
}

// How many columns are visible in a table.
#[tactic(auto, using(crate::proofs::Where::climbs), unfolding(model::specs::Catalogue::visible))]
pub fn visible(cat: &[u8], table: u32) -> u32
    ensures { result ≡ visible_of cat.now table }
{
    let mut sum = 0;
    let mut at = table;
    for _ in 0..TABLE_BOUND {
        sum += u32::from(columns(cat, at));
        if at == 0 {
            return sum;
        }
        at = u32::from(parent(cat, at));
    }
    sum
}

// How many of them its ancestors have.
#[tactic(auto, unfolding(model::specs::Catalogue::inherited))]
pub fn inherited(cat: &[u8], table: u32) -> u32
    ensures { result ≡ inherited_of cat.now table }
{
    visible(cat, table).saturating_sub(u32::from(columns(cat, table)))
}

// The sets over all targets of an accepted catalogue.
#[tactic(auto, using(crate::proofs::Where::summed), unfolding(model::specs::Catalogue::sets))]
pub fn sets(cat: &[u8]) -> u32
    requires { Accepted cat.now }
    ensures { result ≡ sets_of cat.now }
{
    let mut sum = 0;
    for target in 0..u32::from(tables(cat)) {
        sum += power(visible(cat, target));
    }
    sum
}
