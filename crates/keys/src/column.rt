// The keys of one member: of a column of a table, for the rows of a target that lead there. Each row gets a word,
// equal exactly where two rows agree, and the rows are grouped by their words.
ghost use Rattle.std.specs.Prelude.{ℕ, ◌+◌, ◌-◌, ◌*◌, ◌≤◌, ◌<◌, ◌≡◌, length, get_or};
ghost use Rattle.columns.specs.Bound.{column_bound};
ghost use Rattle.model.specs.Bounds.{row_bound};
ghost use Rattle.leaders.specs.Keys.{keys_size};
ghost use Rattle.filled.specs.Filled.{Filled};
ghost use Rattle.keys.specs.Column.{cell_word, AgreeWords};

use climb::code_at;
use leaders::{ROWS, SIZE};
use model::MISSING;

// The word that row x is compared by: its code, and beyond all codes the row itself where the cell is missing.
fn word_of(code: u32, x: u16) -> u64
    ensures { result ≡ cell_word code x }
{
    if code == MISSING {
        return MISSING as u64 + 1 + x as u64;
    }
    code as u64
}

// The words of the rows.
pub fn fill_words(
    cat: &[u8],
    from: usize,
    width: usize,
    reached: &[u16; ROWS],
    end: usize,
    words: &mut [u64; ROWS],
)
    requires end_le_row_bound { (end ≤ row_bound) × (length words.old ≡ row_bound) }
    requires by_index { (q : ℕ) → q < end → from + get_or reached.now q 0 * width + 4 ≤ length cat.now }
    ensures { AgreeWords cat.now from width reached.now end words.new }
{
    for q in 0..end {
        let x = reached[q];
        words[q] = word_of(code_at(cat, from + x as usize * width), x);
    }
}

// Copies the leaders of one member into its place.
pub fn put_keys(k: usize, end: usize, leaders: &[u16; ROWS], keys: &mut [u16; SIZE])
    requires { (k < column_bound) × (end ≤ row_bound) × (length keys.old ≡ keys_size) }
    ensures { Filled (k * row_bound) (k * row_bound + end)
        (λ (i : ℕ). get_or leaders.now (i - k * row_bound) 0) keys.old keys.new }
{
    let at = k * ROWS;
    keys[at..at + end].copy_from_slice(&leaders[..end]);
}
