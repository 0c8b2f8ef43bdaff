// What is read of a packed list, on a line; and a reading, entry by entry: the one function of the program that keeps
// a `Reader`.
use model::{Opened, Refusal};
use std::io;
use trial_kit::{print_answer, print_entry};

// What opening answered, and how many bytes stand in front.
pub fn print_opened(
    rt: &impl Print,
    answer: Result<Opened, Refusal>,
    front: &[u8],
) -> io::Result<()> {
    print_answer(
        rt,
        answer,
        |o| print!(rt; "opened {} front {}", o.entries, o.front),
    )?;
    print!(rt; ", in front {}", front.len())
}

// What a reading of a file begins with, and what it answers in so many steps: entries, then 'end'.
pub fn print_steps(rt: &impl Print, file: &[u8], steps: u32) -> io::Result<()> {
    let mut r = packed::start(file);
    print_opened(rt, packed::opened(r), packed::front_of(r))?;
    for _ in 0..steps {
        match packed::next(r) {
            Some(e) => print_entry(rt, e)?,
            None => print!(rt; ", end")?,
        }
        r = packed::advance(r);
    }
    println!(rt; "")
}
