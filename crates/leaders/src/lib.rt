// Not for callers: leaders and keys of rows, as definitions and laws over any view, and keys as a value. The leader of a row
// on a left side is the lowest row that agrees with it there, and the key of a row on a member is its leader on that
// member alone. Where agreement is an equivalence, two rows agree exactly if their leaders, or their keys, are equal:
// above the keys nothing looks at codes, missing cells or ancestor rows.
// Relies on the definitions of `model` and `table`. Cited by `grouping`, `keys`, `partition`, `search`, `dependency`,
// `classes`, `lines`, `scan`, `rights`, `records` and `soundness`.
#![tactic(auto)]

mod row_keys;

pub use model::ROWS;
pub use row_keys::RowKeys;

// How many keys there is room for: `keys_size` is the same number in the definitions.
pub const SIZE: usize = columns::COLUMN_BOUND as usize * ROWS;
