// One trial: a text by a shape, mostly the album's, on an output, and what came back on a line.
use convert::convert;
use std::io;
use trial_kit::print_answer;

// The album's two tables without rows.
pub const SHAPE: [u8; 26] = [
    1, 0, 255, 255, 0, 0, 2, 0, 0, 0, 0, 0, 0, 0, 0, 0, 6, 0, 0, 0, 2, 0, 12, 0, 0, 0,
];

// What the call answered, behind a colon.
pub fn print_converted(
    rt: &impl Print,
    shape: &[u8],
    text: &[u8],
    out: &mut [u8],
) -> io::Result<()> {
    print!(rt; ": ")?;
    print_answer(
        rt,
        convert(shape, text, out),
        |bytes| print!(rt; "converted {bytes}"),
    )
}

// The same behind a name, to the end of the line.
pub fn trial(
    rt: &impl Print,
    name: &str,
    shape: &[u8],
    text: &[u8],
    out: &mut [u8],
) -> io::Result<()> {
    print!(rt; "{name}")?;
    print_converted(rt, shape, text, out)?;
    println!(rt; "")
}
