// What a reader must believe: the declared types of every public call and, in specs/, the definitions of the
// catalogue, of agreement, dependencies and keys, of the full listing and its calls, of the packed list, of the check
// by evidence, of the supplier's text and of the listing program's. The laws about them stand in proofs/.
// Relies on `columns` for sets of columns and their order. Every other crate cites it.
#![tactic(auto)]

ghost use Rattle.std.specs.Prelude.{◌≡◌};
ghost use Rattle.model.specs.Refusal.{number, Numbered};

// The bounds, once in code; specs/Bounds.antt has the same numbers in the definitions. The bound on columns is
// `columns::COLUMN_BOUND`.
pub const TABLE_BOUND: u32 = 16;

pub const ROW_BOUND: u32 = 4096;

// The same bounds as the lengths of arrays: how many tables and rows there is room for.
pub const TABLES: usize = TABLE_BOUND as usize;

pub const ROWS: usize = ROW_BOUND as usize;

pub const WORK_BOUND: usize = 16384;

// How many bytes the listing program reads at most.
pub const FILE_BOUND: usize = 32768;

// The number that stands for 'no table' and 'no row' above the root: `no_parent` of specs/Bounds.antt.
pub const NO_PARENT: u16 = 65535;

// The code of a missing cell.
pub const MISSING: u32 = 4294967295;

// The right side that stands for the row itself.
pub const ROW: u32 = 255;

// The bytes of an entry in a packed list, and those of the list's trailer: `entry_bytes` of specs/Entries.antt and
// `trailer_bytes` of specs/Packing.antt.
pub const ENTRY_BYTES: usize = 4;

pub const TRAILER_BYTES: usize = 8;

// The bytes of an evidence record: `evidence_bytes` of specs/Evidence.antt.
pub const EVIDENCE_BYTES: usize = 8;

// An entry of a listing: in the target table, the left side gives the right side. Laid out as in C, so that hosts can
// lend runs of them.
#[repr(C)]
#[derive(Clone, Copy, PartialEq, Eq)]
pub struct Entry {
    pub target: u8,
    pub right: u8,
    pub left: u16,
}

// An evidence record: two rows of the target, said to agree on the set and disagree on the right side. It travels as
// bytes.
#[derive(Clone, Copy)]
pub struct Evidence {
    pub target: u8,
    pub right: u8,
    pub set: u16,
    pub first: u16,
    pub second: u16,
}

// Why a call is refused: each with the document's number; `number` of specs/Refusal.antt has the same.
#[derive(Clone, Copy)]
pub enum Refusal {
    FileTooShort = 1,
    BadTrailer = 2,
    BadExtent = 3,
    TableTooLarge = 4,
    BadParentTable = 5,
    TooManyVisible = 6,
    BadParentRow = 7,
    UnknownTable = 8,
    UnknownColumn = 9,
    UnknownRight = 10,
    TooFewWords = 11,
    PastTheEnd = 12,
    RunTooShort = 13,
    NoList = 14,
    BadEntry = 15,
    OutputTooShort = 16,
    FalseRecord = 17,
    UnsoundEntry = 18,
    UncoveredSet = 19,
    BadText = 20,
    UnfitText = 21,
    NoRoom = 22,
}

// The document's number of a refusal.
impl From<Refusal> for u32 {
    ghost from_gives = { λ why n. n ≡ number why };

    fn from(why: Refusal) -> u32 {
        why as u32
    }
}

// A number that no refusal has.
#[derive(Clone, Copy)]
pub struct NotARefusal(pub u32);

// The refusal that has a number.
impl TryFrom<u32> for Refusal {
    type Error = NotARefusal;

    ghost try_from_gives = { Numbered };

    fn try_from(code: u32) -> Result<Refusal, NotARefusal> {
        match code {
            1 => Ok(Refusal::FileTooShort),
            2 => Ok(Refusal::BadTrailer),
            3 => Ok(Refusal::BadExtent),
            4 => Ok(Refusal::TableTooLarge),
            5 => Ok(Refusal::BadParentTable),
            6 => Ok(Refusal::TooManyVisible),
            7 => Ok(Refusal::BadParentRow),
            8 => Ok(Refusal::UnknownTable),
            9 => Ok(Refusal::UnknownColumn),
            10 => Ok(Refusal::UnknownRight),
            11 => Ok(Refusal::TooFewWords),
            12 => Ok(Refusal::PastTheEnd),
            13 => Ok(Refusal::RunTooShort),
            14 => Ok(Refusal::NoList),
            15 => Ok(Refusal::BadEntry),
            16 => Ok(Refusal::OutputTooShort),
            17 => Ok(Refusal::FalseRecord),
            18 => Ok(Refusal::UnsoundEntry),
            19 => Ok(Refusal::UncoveredSet),
            20 => Ok(Refusal::BadText),
            21 => Ok(Refusal::UnfitText),
            22 => Ok(Refusal::NoRoom),
            _ => Err(NotARefusal(code)),
        }
    }
}

// What checking a catalogue answers: how many tables, and how many sets over all targets.
#[derive(Clone, Copy)]
pub struct Checked {
    pub tables: u32,
    pub sets: u32,
}

// The first pair of rows that breaks a dependency, the lower row first.
#[derive(Clone, Copy)]
pub struct RowPair {
    pub first: u32,
    pub second: u32,
}

// What a listing call answers: the next place, how many sets it passed and how many entries it wrote.
#[derive(Clone, Copy)]
pub struct Progress {
    pub place: u32,
    pub passed: u32,
    pub count: u32,
}

// A packed list that may be read: how many entries it has, and how many bytes stand in front of it.
#[derive(Clone, Copy)]
pub struct Opened {
    pub entries: u32,
    pub front: usize,
}

// What the check of a packed list by evidence answers: how many entries and how many records were accepted.
#[derive(Clone, Copy)]
pub struct Verified {
    pub entries: u32,
    pub records: usize,
}
