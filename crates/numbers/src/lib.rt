// Not for callers: the number that an answer goes back to C as, a refusal as its number made negative.
// Relies on the answers and replies of `model`. Called by `host`.
#![tactic(auto)]

ghost use Rattle.std.specs.Prelude.{ℕ, ◌<◌, ◌^◌, ◌≡◌, neg_ℤ, pos, negsuc};
ghost use Rattle.model.specs.Refusal.{number as number_of_refusal};
ghost use Rattle.model.specs.Reply.{list_reply, pack_reply, entries_reply};
ghost use Rattle.numbers.specs.Number.{number_of, value_or, list_seen};

use model::{Progress, Refusal};

// A refusal's number made negative.
pub fn negative(r: Refusal) -> i32
    ensures { result ≡ neg_ℤ (pos (number_of_refusal r)) }
{
    -(u32::from(r) as i32)
}

// The number of bytes that packing wrote, or of entries that reading read.
pub fn count_number(answer: Result<usize, Refusal>) -> i64
    requires { value_or 0 0 (pack_reply answer) < 2 ^ 63 }
    ensures packed { result ≡ number_of 0 (pack_reply answer) }
    ensures read { result ≡ number_of 0 (entries_reply answer) }
{
    match answer {
        Ok(n) => n as i64,
        Err(why) => i64::from(negative(why)),
    }
}

// A listing's answer as a number, the entry count; the place reached and the sets passed are written only with an
// answer.
pub fn list_number(answer: Result<Progress, Refusal>, reached: &mut u32, passed: &mut u32) -> i64
    ensures { (list_seen result reached.new passed.new ≡ list_reply answer)
        × ((n : ℕ) → result ≡ negsuc n
        → (reached.new ≡ reached.old) × (passed.new ≡ passed.old)) }
{
    match answer {
        Ok(l) => {
            *reached = l.place;
            *passed = l.passed;
            i64::from(l.count)
        }
        Err(r) => i64::from(negative(r)),
    }
}
