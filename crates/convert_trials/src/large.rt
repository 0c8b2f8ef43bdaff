// Texts with rows that stand deep in each other, and with many rows, written into lent bytes.
use crate::print::print_converted;
use std::io::{self, Cursor, Write};
use trial_kit::EMPTY;

// What a cursor has written.
fn written<const N: usize>(text: &Cursor<[u8; N]>) -> &[u8] {
    let bytes = text.get_ref();
    &bytes[..N.min(text.position() as usize)]
}

// So many rows of the tables from 0 on, each in the one before, by a shape of 16 tables of one column, each under the
// one before.
pub fn deep(rt: &impl Print, rows: u32) -> io::Result<()> {
    let mut text = Cursor::new([0u8; 200]);
    write!(text, "<catalogue>")?;
    for table in 0..rows {
        write!(text, "<t{table}>")?;
    }
    for table in (0..rows).rev() {
        write!(text, "</t{table}>")?;
    }
    write!(text, "</catalogue>")?;
    let mut shape = [0u8; 166];
    let shape = trial_kit::deep(&mut shape, 16, 0);
    print!(rt; "depth {rows}")?;
    print_converted(rt, shape, written(&text), &mut [7; 300])?;
    println!(rt; "")
}

// So many rows of one table without columns, on an output with room for 4,097.
pub fn many(rt: &impl Print, rows: u32) -> io::Result<()> {
    let mut text = Cursor::new([0u8; 20508]);
    write!(text, "<catalogue>")?;
    for _ in 0..rows {
        write!(text, "<t0/>")?;
    }
    write!(text, "</catalogue>")?;
    print!(rt; "rows {rows}")?;
    print_converted(rt, &EMPTY, written(&text), &mut [7; 8210])?;
    println!(rt; "")
}
