// Which agree sets occur: a flag for each, which is true exactly if some pair of rows has it.
ghost use Rattle.std.specs.Prelude.{◌≤◌};
ghost use Rattle.model.specs.Bounds.{row_bound};
ghost use Rattle.scan.specs.SeenSets.{SetNoted, LineNoted, Blank, SeenSets};

use crate::SETS;
use classes::{BYTES, number};
use leaders::{ROWS, RowKeys};
use lines::line_of;

// Notes an agree set. Most are noted already, and a test takes less time than a store.
fn note(seen: &mut [bool; SETS], s: u16)
    ensures { SetNoted s seen.old seen.new }
{
    let at = s as usize;
    if !seen[at] {
        seen[at] = true;
    }
}

// Notes the agree sets of a line.
fn note_line(seen: &mut [bool; SETS], line: &[u16; ROWS], from: usize, end: usize)
    requires { (from ≤ end) × (end ≤ row_bound) }
    ensures { LineNoted line.now from end seen.old seen.new }
{
    for q in from..end {
        note(seen, line[q]);
    }
}

// Notes the agree sets of all pairs of rows.
pub fn occurring(keys: RowKeys, seen: &mut [bool; SETS])
    requires { Blank seen.old }
    ensures { SeenSets keys.entry.keys.now keys.entry.members keys.entry.rows seen.new }
{
    let end = keys.rows;
    let mut bytes = [0u8; BYTES];
    let few = number(keys, &mut bytes);
    let mut low = [0u8; ROWS];
    let mut high = [0u8; ROWS];
    let mut line = [0u16; ROWS];
    for x in 0..end {
        line_of(keys, &bytes, few, x, &mut low, &mut high, &mut line);
        note_line(seen, &line, x + 1, end);
    }
}
