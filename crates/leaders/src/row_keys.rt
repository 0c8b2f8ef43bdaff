// Keys with the members and the rows that they are laid for.
ghost use Rattle.std.specs.Prelude.{◌≤◌};
ghost use Rattle.columns.specs.Bound.{column_bound};
ghost use Rattle.model.specs.Bounds.{row_bound};

use crate::{ROWS, SIZE};
use model::ROW;

// The keys, of so many members and rows. That these are within the bounds is part of the type.
#[derive(Clone, Copy)]
pub struct RowKeys<'a> {
    pub keys: &'a [u16; SIZE],
    pub members: u32,
    pub rows: usize,
    pub ghost few: { members ≤ column_bound },
    pub ghost short: { rows ≤ row_bound },
}

impl<'a> RowKeys<'a> {
    ghost use Rattle.std.specs.Prelude.{◌<◌, ◌≡◌};
    ghost use Rattle.model.specs.Bounds.{row};
    ghost use Rattle.model.specs.View.{agree_right};
    ghost use Rattle.leaders.specs.Keys.{key_at};
    ghost use Rattle.leaders.specs.Table.{view_by};

    // The key of a row on a member.
    pub fn key(self, member: u32, q: usize) -> u16
        requires { (member < column_bound) × (q < row_bound) }
        ensures { result ≡ key_at self.entry.keys.now member q }
    {
        self.keys[member as usize * ROWS + q]
    }

    // Do two rows agree on a right side: on a member, or as the same row?
    pub fn agree_right(self, right: u32, p: usize, q: usize) -> bool
        requires { (p < row_bound) × (q < row_bound) × ((right ≡ row → ⊥) → right < column_bound) }
        ensures { result ≡ agree_right (view_by self.entry) right p q }
    {
        if right == ROW {
            return p == q;
        }
        self.key(right, p) == self.key(right, q)
    }
}
