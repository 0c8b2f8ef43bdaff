// The album's text cut at every byte and on outputs around the catalogue's length, and texts by other shapes.
use crate::print::{SHAPE, print_converted, trial};
use convert::convert;
use model::Refusal;
use std::io;
use trial_kit::ALBUM;

// The album as a text.
const TEXT: [u8; 153] = *b"<catalogue>
 <t0 c0='5'><t1 c0='1' c1='7'/></t0>
 <t0 c0=\"5\"><t1 c1=\"7\" c0=\"3\"></t1></t0>
 <t0><t1 c0='1' c1='8'/> <t1 c0='2' c1='8'/></t0>
</catalogue>
";

// A text that fits every shape, and one that is not of the form.
const FIT: &[u8] = b"<catalogue/>";

const BAD: &[u8] = b"<catalogue>5</catalogue>";

// Is a text refused by 20?
fn is_bad(text: &[u8]) -> bool {
    matches!(convert(&SHAPE, text, &mut [7; 100]), Err(Refusal::BadText))
}

// The album's text cut at every byte. Only the front that lacks no more than the last line feed is of the form.
pub fn cuts(rt: &impl Print) -> io::Result<()> {
    let bad = (0..TEXT.len())
        .filter(|n| TEXT.get(..*n).is_some_and(is_bad))
        .count();
    println!(rt; "cut at every byte: refused 20 for {bad} of {}", TEXT.len())
}

// The album's text on an output: how many bytes of it are the album's then, and how many behind these are 7, as all
// were before.
fn trial_output(rt: &impl Print, out: &mut [u8]) -> io::Result<()> {
    print!(rt; "output of {}", out.len())?;
    print_converted(rt, &SHAPE, &TEXT, out)?;
    let written = out.iter().zip(&ALBUM).take_while(|(a, b)| a == b).count();
    let unwritten = out.iter().skip(written).take_while(|x| **x == 7).count();
    println!(rt; ", {written} bytes of the album and {unwritten} of 7")
}

// On outputs that are longer, just fit, and are one byte short.
pub fn outputs(rt: &impl Print) -> io::Result<()> {
    trial_output(rt, &mut [7; 85])?;
    trial_output(rt, &mut [7; 84])?;
    trial_output(rt, &mut [7; 83])
}

// On an output of no byte: 20 before 21 before 22.
pub fn no_output(rt: &impl Print) -> io::Result<()> {
    for (name, text) in [
        (
            "bad text on no output",
            &b"<catalogue><t2/>5</catalogue>"[..],
        ),
        ("unfit text on no output", b"<catalogue><t2/></catalogue>"),
        ("fit text on no output", FIT),
    ] {
        trial(rt, name, &SHAPE, text, &mut [])?;
    }
    Ok(())
}

// 1 to 7 on the shape, then 20 on the text, and 21 where the shape has rows. The stray row is the album's first row of
// table 1, under row 3 of the 3 rows of table 0.
pub fn shapes(rt: &impl Print) -> io::Result<()> {
    let mut stray = ALBUM;
    stray[30] = 3;
    for (name, shape, text) in [
        ("shape of 15 bytes", &SHAPE[..15], FIT),
        ("shape of 15 bytes, bad text", &SHAPE[..15], BAD),
        ("shape without its last byte, bad text", &SHAPE[..25], BAD),
        ("shape with a stray row, bad text", &stray, BAD),
        ("shape with rows, bad text", &ALBUM, BAD),
        ("shape with rows", &ALBUM, FIT),
    ] {
        trial(rt, name, shape, text, &mut [7; 100])?;
    }
    Ok(())
}
