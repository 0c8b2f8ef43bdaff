// Not for callers: the zeroing of the work words, which answers and refusal 13 have in common.
// Relies on nothing. Called by `dependency` and `steps`.
#![tactic(auto)]

ghost use Rattle.std.specs.Prelude.{◌≡◌, length, replicate};

// Every work word is 0 afterwards, however many were lent.
pub fn zero_words(work: &mut [u32])
    ensures { work.new ≡ replicate (length work.old) 0 }
{
    work.fill(0);
}
