// Not for callers: rows grouped by one word each. The leader of a row is the lowest row with the same word; it is
// found in chains of the leaders so far, one chain for each value of a hash of the words, and words are compared
// exactly.
// Relies on the definitions and laws of `leaders` and on a law of `filled`. Called by `keys` and `partition`.
#![tactic(auto)]

ghost use Rattle.std.specs.Prelude.{◌+◌, ◌≤◌, ◌<◌, ◌≡◌, get_or, length};
ghost use Rattle.model.specs.Bounds.{row_bound};
ghost use Rattle.leaders.specs.Keys.{first_same};
ghost use Rattle.grouping.specs.Chains.{chains, chain_of, LastIn, LinkedBelow, Chained, Placed};
ghost use Rattle.grouping.specs.Grouped.{Grouped};

use leaders::ROWS;

// How many chains there are.
const CHAINS: usize = 8192;

// The chain of a word. The shape `one-chain` of the benchmark has these numbers too.
fn chain(w: u64) -> usize
    ensures { (result ≡ chain_of w) × (result < chains) }
{
    let low = w % 4294967296;
    let high = w >> 32;
    ((low * 2246822519 + high * 1640531527) >> 19) as usize % CHAINS
}

// The leader of row q, in a chain of the leaders before it, or q itself. A place in a chain is one more than a row,
// and 0 is the end.
fn leader(words: &[u64; ROWS], links: &[u16; ROWS], head: u16, q: usize) -> usize
    requires q_lt_row_bound { q < row_bound }
    requires last_in { LastIn words.now q (chain_of (get_or words.now q 0)) head }
    requires linked_below { LinkedBelow words.now q links.now }
    ensures { result ≡ first_same words.now q }
{
    let w = words[q];
    let mut c = head as usize;
    while c != 0 {
        if words[c - 1] == w {
            return c - 1;
        }
        c = links[c - 1] as usize;
    }
    q
}

// Gives row q its leader, and puts it at the head of its chain if it leads itself. It answers whether it does.
fn place(
    words: &[u64; ROWS],
    q: usize,
    heads: &mut [u16; CHAINS],
    links: &mut [u16; ROWS],
    leaders: &mut [u16; ROWS],
) -> bool
    requires q_lt_row_bound { q < row_bound }
    requires chained { Chained words.now q heads.old links.old }
    requires leaders_len { length leaders.old ≡ row_bound }
    ensures { Placed words.now q heads.new links.new leaders.old
        leaders.new result }
{
    let h = chain(words[q]);
    let p = leader(words, links, heads[h], q);
    leaders[q] = p as u16;
    if p != q {
        return false;
    }
    links[q] = heads[h];
    heads[h] = q as u16 + 1;
    true
}

// The leaders of the rows before the end. It answers whether every one of them leads itself.
pub fn group(words: &[u64; ROWS], end: usize, leaders: &mut [u16; ROWS]) -> bool
    requires end_le_row_bound { end ≤ row_bound }
    requires leaders_len { length leaders.old ≡ row_bound }
    ensures { Grouped words.now end leaders.new result }
{
    let mut heads = [0u16; CHAINS];
    let mut links = [0u16; ROWS];
    let mut alone = true;
    for q in 0..end {
        alone &= place(words, q, &mut heads, &mut links, leaders);
    }
    alone
}
