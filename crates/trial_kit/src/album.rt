// Small catalogues, as their bytes.
// The album catalogue.
pub const ALBUM: [u8; 84] = [
    1, 0, 255, 255, 3, 0, 255, 255, 5, 0, 0, 0, 255, 255, 5, 0, 0, 0, 255, 255, 255, 255, 255, 255,
    2, 0, 0, 0, 4, 0, 0, 0, 1, 0, 0, 0, 7, 0, 0, 0, 1, 0, 3, 0, 0, 0, 7, 0, 0, 0, 2, 0, 1, 0, 0, 0,
    8, 0, 0, 0, 2, 0, 2, 0, 0, 0, 8, 0, 0, 0, 0, 0, 0, 0, 24, 0, 0, 0, 2, 0, 70, 0, 0, 0,
];

// One table with no columns and no rows, which is the smallest file.
pub const EMPTY: [u8; 16] = [0, 0, 255, 255, 0, 0, 0, 0, 0, 0, 1, 0, 6, 0, 0, 0];

// One row with a missing cell.
pub const LONE: [u8; 22] = [
    1, 0, 255, 255, 1, 0, 255, 255, 255, 255, 255, 255, 0, 0, 0, 0, 1, 0, 12, 0, 0, 0,
];

// Two rows, both cells missing.
pub const MISSING_TWICE: [u8; 28] = [
    1, 0, 255, 255, 2, 0, 255, 255, 255, 255, 255, 255, 255, 255, 255, 255, 255, 255, 0, 0, 0, 0,
    1, 0, 18, 0, 0, 0,
];

// Two equal rows under one parent row.
pub const EQUAL: [u8; 44] = [
    1, 0, 255, 255, 1, 0, 255, 255, 5, 0, 0, 0, 1, 0, 0, 0, 2, 0, 0, 0, 7, 0, 0, 0, 0, 0, 7, 0, 0,
    0, 0, 0, 0, 0, 12, 0, 0, 0, 2, 0, 30, 0, 0, 0,
];

// Three tables, each the parent of the next; a missing cell in the root.
pub const THREE: [u8; 84] = [
    1, 0, 255, 255, 2, 0, 255, 255, 5, 0, 0, 0, 255, 255, 255, 255, 255, 255, 1, 0, 0, 0, 3, 0, 0,
    0, 1, 0, 0, 0, 1, 0, 2, 0, 0, 0, 1, 0, 3, 0, 0, 0, 1, 0, 1, 0, 3, 0, 0, 0, 9, 0, 0, 0, 1, 0, 9,
    0, 0, 0, 2, 0, 9, 0, 0, 0, 0, 0, 0, 0, 18, 0, 0, 0, 42, 0, 0, 0, 3, 0, 66, 0, 0, 0,
];

// Two columns and six rows: the first column doesn't give the second among the rows 0, 4 and 5, nor among the rows 1
// and 2.
pub const GROUPS: [u8; 76] = [
    2, 0, 255, 255, 6, 0, 255, 255, 1, 0, 0, 0, 1, 0, 0, 0, 255, 255, 2, 0, 0, 0, 1, 0, 0, 0, 255,
    255, 2, 0, 0, 0, 2, 0, 0, 0, 255, 255, 3, 0, 0, 0, 1, 0, 0, 0, 255, 255, 1, 0, 0, 0, 2, 0, 0,
    0, 255, 255, 1, 0, 0, 0, 3, 0, 0, 0, 0, 0, 0, 0, 1, 0, 66, 0, 0, 0,
];

// Three columns and three rows: the first column is a key, and so are the other two together.
pub const TWO_KEYS: [u8; 58] = [
    3, 0, 255, 255, 3, 0, 255, 255, 1, 0, 0, 0, 1, 0, 0, 0, 1, 0, 0, 0, 255, 255, 2, 0, 0, 0, 1, 0,
    0, 0, 2, 0, 0, 0, 255, 255, 3, 0, 0, 0, 2, 0, 0, 0, 1, 0, 0, 0, 0, 0, 0, 0, 1, 0, 48, 0, 0, 0,
];
