// Not for callers: evidence records read from bytes, one and a run of them, and the sides that a target allows. And
// laws: that the tests of specs/Evidence.antt and specs/Verify.antt of `model` say what stands beside them in words,
// that records are read back from their bytes, and how a function is shown to answer true exactly if something holds.
// Relies on the definitions of `model`, on `file` for numbers in a file and on `bits` for powers of two. Called by
// `records`, `marks`, `soundness`, `coverage` and `verify`; its laws are cited by these and by `acceptance`.
#![tactic(auto)]

ghost use Rattle.std.specs.Prelude.{◌<◌, ◌≡◌, true, ◌↔◌};
ghost use Rattle.model.specs.Evidence.{record_at};
ghost use Rattle.evidence.specs.Sides.{SidesFit};

mod run;

use bits::power;
use file::{byte_at, u16_at};
use model::{Evidence, ROW};
pub use run::EvidenceRecords;

// The record whose bytes begin at a position; a byte past the end reads as 0.
pub fn record_at(bytes: &[u8], at: usize) -> Evidence
    ensures { result ≡ record_at bytes.now at }
{
    if bytes.len() <= at {
        return Evidence {
            target: 0,
            right: 0,
            set: 0,
            first: 0,
            second: 0,
        };
    }
    Evidence {
        target: byte_at(bytes, at),
        right: byte_at(bytes, at + 1),
        set: u16_at(bytes, at + 2),
        first: u16_at(bytes, at + 4),
        second: u16_at(bytes, at + 6),
    }
}

// 9 and 10: does a target with n visible columns, the first `low` of them inherited, allow a set and a right?
pub fn sides_fit(n: u32, low: u32, set: u32, right: u32) -> bool
    requires { n < 32 }
    ensures { (result ≡ true) ↔ SidesFit n low set right }
{
    set < power(n) && (right == ROW || (low <= right && right < n))
}
