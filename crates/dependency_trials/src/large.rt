// Trials on large catalogues, written into lent bytes.
use crate::print::trial;
use std::io;
use trial_kit::{coded, deep, flat};

// Tables of 16 columns: the name, how many rows, the left side and the right side. The first column is a key, and the
// others are not.
const FLAT: [(&str, u32, u32, u32); 7] = [
    ("no row", 0, 0, 255),
    ("one row", 1, 0, 255),
    ("4096 rows, the key", 4096, 1, 255),
    ("4096 rows, every column but the key", 4096, 65534, 255),
    ("4096 rows, bit 15", 4096, 32768, 1),
    ("4096 rows, bit 16", 4096, 65536, 255),
    ("4097 rows", 4097, 1, 255),
];

// Sixteen tables of one column, each the parent of the next, with 4,096 rows: only the root's column tells rows apart.
const DEEP: [(&str, u32); 2] = [
    ("16 tables, the key", 1),
    ("16 tables, every column but the key", 65534),
];

// Tables of 16 columns and 4,096 rows, of which two have the code of another in the first column: pairs of a row and
// its code.
const RECODED: [(&str, [(u32, u32); 2]); 5] = [
    ("4096 rows, the first and the last", [(4095, 0), (4095, 0)]),
    ("4096 rows, the last two", [(4095, 4094), (4095, 4094)]),
    ("4096 rows, a pair around another", [(4000, 50), (200, 100)]),
    ("4096 rows, a pair before another", [(100, 50), (4000, 200)]),
    ("4096 rows, three alike", [(300, 50), (200, 50)]),
];

pub fn large_tables(rt: &impl Print) -> io::Result<()> {
    let mut bytes = [0u8; 393382];
    for (name, rows, left, right) in FLAT {
        trial(rt, (name, flat(&mut bytes, 16, rows), 0, left, right))?;
    }
    for (name, left) in DEEP {
        trial(rt, (name, deep(&mut bytes, 16, 4096), 15, left, 255))?;
    }
    Ok(())
}

pub fn first_pairs(rt: &impl Print) -> io::Result<()> {
    let mut bytes = [0u8; 270418];
    for (name, [one, other]) in RECODED {
        let code = |k| if k == one.0 {
            one.1
        } else if k == other.0 {
            other.1
        } else {
            k
        };
        let cat = coded(&mut bytes, 16, 4096, code);
        trial(rt, (name, cat, 0, 1, 255))?;
    }
    Ok(())
}
