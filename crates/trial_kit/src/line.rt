// What a call answered, on a line.
use model::{Entry, Progress, Refusal};
use std::io;

// What a call gives, as the closure prints it, or `refused` and the number of the refusal.
pub fn print_answer<T: Drop, F: FnOnce(T) -> io::Result<()>>(
    rt: &impl Print,
    answer: Result<T, Refusal>,
    print: F,
) -> io::Result<()>
    requires { F.IsAlwaysCallable print }
{
    match answer {
        Ok(given) => print(given),
        Err(why) => print!(rt; "refused {}", u32::from(why)),
    }
}

// What a listing call answered.
pub fn print_listed(rt: &impl Print, answer: Result<Progress, Refusal>) -> io::Result<()> {
    print_answer(
        rt,
        answer,
        |p| print!(rt; "listed {} {} {}", p.place, p.passed, p.count),
    )
}

// The entries of a run that such an answer counts; none by a refusal.
pub fn listed(answer: Result<Progress, Refusal>, run: &[Entry]) -> &[Entry] {
    let count = answer.map_or(0, |p| p.count as usize);
    &run[..count.min(run.len())]
}

// An entry behind a comma and a space.
pub fn print_entry(rt: &impl Print, e: Entry) -> io::Result<()> {
    let mut out = [0u8; 32];
    let n = text::put_entry(&mut out, 0, e);
    print!(rt; ", ")?;
    text::write(&mut io::writer(rt), &out, n)?;
    Ok(())
}
