// Not for callers: powers of two for the crates that set and test bits of a word, each of which shows that its bit is
// in the word.
// Relies on nothing. Called by `columns`, `layout`, the crates of the engine, and those above it that tell bits.
#![tactic(auto)]

ghost use Rattle.std.specs.Prelude.{◌<◌, ◌^◌, ◌≡◌};

// The number whose one bit is bit k.
pub fn power(k: u32) -> u32
    requires { k < 32 }
    ensures { result ≡ 2 ^ k }
{
    1 << k
}
