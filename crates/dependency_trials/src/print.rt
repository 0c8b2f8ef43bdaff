// One trial: both calls on the same question, and what they answered on a line: the reply of `ask`, how many work
// words were 0 after it, and the same of `pair`. All work words are 7 before each call, and there is one more than is
// ever lent.
use dependency::{ask, pair};
use model::Refusal;
use std::io;
use trial_kit::print_answer;

// A trial's name, and its question: the catalogue, the target, the left side and the right side.
pub type Case<'a> = (&'a str, &'a [u8], u32, u32, u32);

// What a call on so many of the work words answers, as the closure prints it, and how many of all words are 0
// afterwards.
fn print_call<T: Drop, C: FnOnce(&mut [u32]) -> Result<T, Refusal>, P: FnOnce(T) -> io::Result<()>>(
    rt: &impl Print,
    words: usize,
    call: C,
    print: P,
) -> io::Result<()>
    requires called { C.IsAlwaysCallable call }
    requires printed { P.IsAlwaysCallable print }
{
    let mut work = [7u32; 16385];
    let lent = words.min(work.len());
    print!(rt; " ")?;
    print_answer(rt, call(&mut work[..lent]), print)?;
    print!(rt; " {}", work.iter().filter(|word| **word == 0).count())
}

pub fn trial_on(rt: &impl Print, case: Case<'_>, words: usize) -> io::Result<()> {
    let (name, cat, target, left, right) = case;
    print!(rt; "{name}")?;
    print_call(
        rt,
        words,
        |work| ask(cat, target, left, right, work),
        |holds| print!(rt; "{}", if holds { "holds" } else { "breaks" }),
    )?;
    print_call(
        rt,
        words,
        |work| pair(cat, target, left, right, work),
        |pair| match pair {
            Some(rows) => print!(rt; "{} {}", rows.first, rows.second),
            None => print!(rt; "none"),
        },
    )?;
    println!(rt; "")
}

// The same on as many work words as a call needs.
pub fn trial(rt: &impl Print, case: Case<'_>) -> io::Result<()> {
    trial_on(rt, case, 16384)
}
