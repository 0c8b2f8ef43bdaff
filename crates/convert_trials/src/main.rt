// Runs texts of the supplier's kind through the compiled call: each fine point of their form; the album's text cut at
// every byte, and on outputs that just fit and are one byte short; other shapes; 16 and 17 rows in each other; 4,096
// and 4,097 rows. It prints what came back, and of the album also what stands in the output.
#![tactic(auto)]

mod bounds;
mod fine;
mod large;
mod print;

use bounds::{cuts, no_output, outputs, shapes};
use fine::TEXTS;
use large::{deep, many};
use print::{SHAPE, trial};
use std::io;

fn main(rt: HostRuntime) -> io::Result<()> {
    for (name, text) in TEXTS {
        trial(&rt, name, &SHAPE, text, &mut [7; 100])?;
    }
    cuts(&rt)?;
    outputs(&rt)?;
    no_output(&rt)?;
    shapes(&rt)?;
    deep(&rt, 16)?;
    deep(&rt, 17)?;
    many(&rt, 4096)?;
    many(&rt, 4097)
}
