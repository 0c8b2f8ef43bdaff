// Lists of three entries by their bytes: the first of the entries packed, and the file of a list.
ghost use Rattle.std.specs.Prelude.{◌≤◌, ◌≡◌, length, take};
ghost use Rattle.model.specs.Reply.{pack_reply};
ghost use Rattle.model.specs.Packing.{pack_meaning, output_after};

use model::{Entry, Refusal};
use text::put_word;

// Three entries, each with the target, the right side and the left side.
pub type List = [[u8; 4]; 3];

fn entry([target, right, low, high]: [u8; 4]) -> Entry {
    Entry {
        target,
        right,
        left: u16::from_le_bytes([low, high]),
    }
}

// Packs the first k of three entries.
fn pack_first(entries: [Entry; 3], k: usize, out: &mut [u8]) -> Result<usize, Refusal>
    requires { k ≤ 3 }
    ensures { (pack_reply result ≡ pack_meaning (take k entries) (length out.old))
        × (out.new ≡ output_after (take k entries) out.old) }
{
    packed::pack(&entries[..k], out)
}

// The same, of entries by their bytes, into an output of N bytes, all 7 before: the answer and the output.
pub fn pack_list<const N: usize>(list: List, k: usize) -> (Result<usize, Refusal>, [u8; N])
    requires { k ≤ 3 }
{
    let mut out = [7u8; N];
    let answer = pack_first(list.map(entry), k, &mut out);
    (answer, out)
}

// The file of a list: its bytes and a trailer.
pub fn file_of(list: List, count: u32, distance: u32) -> [u8; 20] {
    let mut file = [0u8; 20];
    let mut at = put_word(&mut file, 0, list.as_flattened());
    at = put_word(&mut file, at, &count.to_le_bytes());
    put_word(&mut file, at, &distance.to_le_bytes());
    file
}
