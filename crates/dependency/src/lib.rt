// The technician's two questions about a dependency: does it hold, and if not, which is the first pair of rows that
// breaks it?
// Relies on `question` for what stands against a question, on `refusals` for the work words, on `keys` for the keys of
// the members that a question looks at, on `partition` and `search`, which answer it from keys alone, and on `layout`
// for rows and columns. Called by hosts and programs.
#![tactic(auto)]

ghost use Rattle.std.specs.Prelude.{◌≡◌, length};
ghost use Rattle.model.specs.Question.{question_code, ask_meaning, pair_meaning};
ghost use Rattle.model.specs.Reply.{ask_reply, pair_reply, words_after};

mod keyed;

use keyed::{breaking_pair, holds};
use model::{Refusal, RowPair};
use refusals::zero_words;

// Does the left side give the right side in the target table? Every work word is 0 after an answer, and none is altered
// by a refusal.
pub fn ask(
    cat: &[u8],
    target: u32,
    left: u32,
    right: u32,
    work: &mut [u32],
) -> Result<bool, Refusal>
    ensures result_value { ask_reply result ≡ ask_meaning cat.now target left right (length work.old) }
    ensures work_after { work.new
        ≡ words_after (question_code cat.now target left right (length work.old))
        work.old }
{
    question::check(cat, target, left, right, work.len())?;
    zero_words(work);
    Ok(holds(cat, target, left, right))
}

// The first breaking pair (lowest first row, then lowest second row), or 'none' where the dependency holds. The work
// words as above. The two calls stay two, as C has them: they share every line but the last.
pub fn pair(
    cat: &[u8],
    target: u32,
    left: u32,
    right: u32,
    work: &mut [u32],
) -> Result<Option<RowPair>, Refusal>
    ensures result_value { pair_reply result ≡ pair_meaning cat.now target left right (length work.old) }
    ensures work_after { work.new
        ≡ words_after (question_code cat.now target left right (length work.old))
        work.old }
{
    question::check(cat, target, left, right, work.len())?;
    zero_words(work);
    Ok(breaking_pair(cat, target, left, right))
}
