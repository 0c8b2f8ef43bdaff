// What each agree set that occurs breaks: the words of the table of broken rights, before they are closed.
ghost use Rattle.std.specs.Prelude.{ℕ, suc, ◌-◌, ◌^◌, ◌≤◌, ◌<◌, length};
ghost use Rattle.columns.specs.Bound.{column_bound};
ghost use Rattle.model.specs.View.{View};
ghost use Rattle.table.specs.Words.{word};
ghost use Rattle.table.specs.Broken.{Scanned};
ghost use Rattle.leaders.specs.Table.{KeyedBy};
ghost use Rattle.filled.specs.Filled.{Filled};
ghost use Rattle.scan.specs.SeenSets.{broken_word};

use crate::SETS;
use crate::pairs::occurring;
use bits::power;
use leaders::RowKeys;

// Writes what each agree set that is seen breaks.
fn write_broken(seen: &[bool; SETS], n: u32, words: &mut [u32])
    requires { (n ≤ column_bound) × (2 ^ n ≤ length words.old) }
    ensures { Filled 0 (2 ^ n) (broken_word seen.now n) words.old words.new }
{
    let all = power(n + 1) - 1;
    for s in 0..power(n) {
        words[s as usize] = if seen[s as usize] { all - s } else { 0 };
    }
}

// The words of the view that the keys are laid for, not yet closed: at each agree set that occurs the rights that are
// not in it. No word has a bit above that of the row.
pub fn write(keys: RowKeys, words: &mut [u32])
    requires { 2 ^ keys.members ≤ length words.old }
    ensures { ((s : ℕ) → s < 2 ^ keys.entry.members → word words.new s < 2 ^ suc keys.entry.members)
        × ((v : View) → KeyedBy v keys.entry → Scanned v words.new) }
{
    let mut seen = [false; SETS];
    occurring(keys, &mut seen);
    write_broken(&seen, keys.members, words);
}
