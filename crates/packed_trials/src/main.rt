// Runs packing, opening and the part in front on lists of 0, 1 and 3 entries, alone and behind the album's 84 bytes,
// on outputs that just fit and are one byte short, and on lists damaged in every way that 14 and 15 name, at the
// first, a middle and the last entry; and reads lists entry by entry (`reading`). It prints what came back: of a
// refused file the refusal, no byte in front and no entry.
#![tactic(auto)]

mod pack;
mod reading;

ghost use Rattle.std.specs.Prelude.{◌≤◌};

use pack::{List, file_of, pack_list};
use reading::{print_opened, print_steps};
use std::io;
use text::{put_byte, put_word};
use trial_kit::{ALBUM, print_answer};

// The album's listing: {0} gives column 2; {0, 1} and {1, 2} give the row.
const LISTING: List = [[1, 2, 1, 0], [1, 255, 3, 0], [1, 255, 6, 0]];

// What is said of lists of three entries, and the lists.
const LISTS: [(&str, &[List]); 6] = [
    (
        "target over 15",
        &[
            [[16, 2, 1, 0], [1, 255, 3, 0], [1, 255, 6, 0]],
            [[1, 2, 1, 0], [16, 255, 3, 0], [16, 255, 6, 0]],
            [[1, 2, 1, 0], [1, 255, 3, 0], [16, 255, 6, 0]],
        ],
    ),
    (
        "right 16, 254",
        &[
            [[1, 16, 1, 0], [1, 255, 3, 0], [1, 255, 6, 0]],
            [[1, 2, 1, 0], [1, 254, 3, 0], [1, 255, 6, 0]],
            [[1, 2, 1, 0], [1, 255, 3, 0], [1, 16, 6, 0]],
        ],
    ),
    (
        "right in left",
        &[
            [[1, 0, 1, 0], [1, 255, 3, 0], [1, 255, 6, 0]],
            [[1, 2, 1, 0], [1, 1, 3, 0], [1, 255, 6, 0]],
            [[1, 2, 1, 0], [1, 255, 3, 0], [1, 2, 6, 0]],
        ],
    ),
    (
        "equal to the one before",
        &[
            [[1, 255, 3, 0], [1, 255, 3, 0], [1, 255, 6, 0]],
            [[1, 2, 1, 0], [1, 255, 6, 0], [1, 255, 6, 0]],
        ],
    ),
    (
        "before the one before: by target, size, number, right",
        &[
            [[2, 2, 1, 0], [1, 255, 3, 0], [1, 255, 6, 0]],
            [[1, 2, 1, 0], [1, 255, 3, 0], [1, 255, 4, 0]],
            [[1, 2, 1, 0], [1, 255, 6, 0], [1, 255, 3, 0]],
            [[1, 2, 1, 0], [1, 255, 3, 0], [1, 2, 3, 0]],
        ],
    ),
    (
        "in order: 4 before 3, a column before the row, target 15, right 15",
        &[
            [[1, 255, 4, 0], [1, 2, 3, 0], [1, 255, 3, 0]],
            [[0, 15, 0, 0], [0, 255, 0, 0], [15, 255, 0, 0]],
        ],
    ),
];

// Opens a file, and counts the bytes of the part in front, to the end of the line.
fn read(rt: &impl Print, file: &[u8]) -> io::Result<()> {
    print_opened(rt, packed::open(file), packed::front(file))?;
    println!(rt; "")
}

// The first k entries of a list, packed into an output of so many bytes.
fn print_packed<const N: usize>(rt: &impl Print, list: List, k: usize) -> io::Result<[u8; N]>
    requires { k ≤ 3 }
{
    let (answer, out) = pack_list(list, k);
    print_answer(rt, answer, |bytes| print!(rt; "packed {bytes}"))?;
    Ok(out)
}

// The same of the album's listing, with the output to the end of the line.
fn print_listing<const N: usize>(rt: &impl Print, k: usize) -> io::Result<[u8; N]>
    requires { k ≤ 3 }
{
    let out = print_packed::<N>(rt, LISTING, k)?;
    for byte in out {
        print!(rt; " {byte}")?;
    }
    println!(rt; "")?;
    Ok(out)
}

// Lists of 0, 1 and 3 entries, each packed into an output that is longer, just fits, and is one byte short; and read.
fn sizes(rt: &impl Print) -> io::Result<()> {
    print_listing::<10>(rt, 0)?;
    let none = print_listing::<8>(rt, 0)?;
    print_listing::<7>(rt, 0)?;
    read(rt, &none)?;
    print_listing::<14>(rt, 1)?;
    let one = print_listing::<12>(rt, 1)?;
    print_listing::<11>(rt, 1)?;
    read(rt, &one)?;
    print_listing::<22>(rt, 3)?;
    let three = print_listing::<20>(rt, 3)?;
    print_listing::<19>(rt, 3)?;
    read(rt, &three)
}

// The album's listing behind the album, the same with a target of 16, and a list of none behind the album.
fn behind(rt: &impl Print) -> io::Result<()> {
    let mut file = [0u8; 104];
    put_word(&mut file, 0, &ALBUM);
    put_word(&mut file, 84, &file_of(LISTING, 3, 20));
    read(rt, &file)?;
    put_byte(&mut file, 84, 16);
    read(rt, &file)?;
    let mut other = [0u8; 92];
    put_word(&mut other, 0, &ALBUM);
    put_byte(&mut other, 88, 8);
    read(rt, &other)
}

// 15 at the first, the middle and the last entry: three entries, packed, and read as a list that was not packed by
// `pack`.
fn bad_entries(rt: &impl Print) -> io::Result<()> {
    for (name, lists) in LISTS {
        println!(rt; "{name}")?;
        for list in lists {
            print_packed::<20>(rt, *list, 3)?;
            print!(rt; "; ")?;
            read(rt, &file_of(*list, 3, 20))?;
        }
    }
    Ok(())
}

// 14: no byte at all, under 8 bytes, a distance that is not 4k + 8 (with the count that fits it there are two
// entries, and four bytes in front), and one above the length.
fn no_lists(rt: &impl Print) -> io::Result<()> {
    println!(rt; "no list")?;
    read(rt, &[])?;
    read(rt, &[1, 0, 255, 255, 2])?;
    read(rt, &[7; 7])?;
    read(rt, &file_of(LISTING, 3, 16))?;
    read(rt, &file_of(LISTING, 2, 16))?;
    read(rt, &file_of(LISTING, 4, 24))
}

// Readings to the end and one step past it: of none, of three, of three behind the album, of the same with a last
// target of 16, and of seven bytes. A refused list gives no entry, though its first ones are good.
fn readings(rt: &impl Print) -> io::Result<()> {
    println!(rt; "readings")?;
    let (_, none) = pack_list::<8>(LISTING, 0);
    print_steps(rt, &none, 2)?;
    let (_, three) = pack_list::<20>(LISTING, 3);
    print_steps(rt, &three, 5)?;
    let mut file = [0u8; 104];
    put_word(&mut file, 0, &ALBUM);
    put_word(&mut file, 84, &three);
    print_steps(rt, &file, 5)?;
    put_byte(&mut file, 92, 16);
    print_steps(rt, &file, 2)?;
    print_steps(rt, &ALBUM[..7], 2)
}

fn main(rt: HostRuntime) -> io::Result<()> {
    sizes(&rt)?;
    behind(&rt)?;
    bad_entries(&rt)?;
    no_lists(&rt)?;
    readings(&rt)
}
