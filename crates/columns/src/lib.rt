// Sets of columns, by value, and their listing order: by size, then by number. Every method goes by the members
// alone: bits at or above the bound count for nothing.
// Relies on `bits` for powers of two. Called by every crate that speaks of left sides.
#![tactic(auto)]

ghost use Rattle.std.specs.Prelude.{suc, ◌≤◌, ◌<◌, ◌≡◌, get_or, length};
ghost use Rattle.columns.specs.Bound.{column_bound};
ghost use Rattle.columns.specs.Set.{bit, member_of, members_of, member_count, subset_of, without_of, full_of};
ghost use Rattle.columns.specs.Order.{precedes_of, next_of, at_of, of_size};
ghost use Rattle.columns.specs.Counts.{Counts, CountsUpTo};

use bits::power;

// The bound on visible columns; `column_bound` of specs/Bound.antt is the same number in the definitions.
pub const COLUMN_BOUND: u32 = 16;

// How many sizes a set can have, and how many numbers of columns there are: from 0 to the bound.
const SIZES: usize = COLUMN_BOUND as usize + 1;

// All columns below the bound, as a number.
const COLUMNS: u32 = (1 << COLUMN_BOUND) - 1;

// Column k is a member if k is below the bound and bit k is 1.
#[derive(Clone, Copy)]
pub struct ColumnSet {
    pub bits: u32,
}

// Bit k of x.
fn bit(x: u32, k: u32) -> u32
    requires { k < 32 }
    ensures { result ≡ bit x k }
{
    (x >> k) & 1
}

// The members of x alone, without the bits at or above the bound.
fn members(x: u32) -> u32
    ensures { result ≡ members_of x }
{
    x & COLUMNS
}

impl ColumnSet {
    // The empty set.
    pub const EMPTY: ColumnSet = ColumnSet { bits: 0 };

    // The empty set, with a contract.
    pub fn empty() -> ColumnSet
        ensures { result.bits ≡ 0 }
    {
        ColumnSet::EMPTY
    }

    // The full set of n columns; 'none' for n over the bound.
    pub fn full(n: u32) -> Option<ColumnSet>
        ensures { result ≡ full_of n }
    {
        if COLUMN_BOUND < n {
            return None;
        }
        Some(ColumnSet { bits: power(n) - 1 })
    }

    // Is column k a member? A column at or above the bound is none.
    pub fn member(self, k: u32) -> bool
        ensures { result ≡ member_of self.bits k }
    {
        if COLUMN_BOUND <= k {
            return false;
        }
        bit(self.bits, k) == 1
    }

    // How many members.
    pub fn size(self) -> u32
        ensures { result ≡ member_count self.bits }
    {
        let bits = self.bits;
        let x = members(bits);
        u32::count_ones(x)
    }

    // The set without column k.
    pub fn without(self, k: u32) -> ColumnSet
        ensures { result.bits ≡ without_of (members_of self.bits) k }
    {
        let bits = self.bits;
        let x = members(bits);
        if !self.member(k) {
            return ColumnSet { bits: x };
        }
        ColumnSet { bits: x - power(k) }
    }

    // Is every member of this set a member of the other?
    pub fn within(self, other: ColumnSet) -> bool
        ensures { result ≡ subset_of self.bits other.bits }
    {
        let a = self.bits;
        let b = other.bits;
        let x = members(a);
        let y = members(b);
        x & y == x
    }

    // Does this set stand before the other in listing order?
    pub fn precedes(self, other: ColumnSet) -> bool
        ensures { result ≡ precedes_of (members_of self.bits) (members_of other.bits) }
    {
        let a = self.bits;
        let b = other.bits;
        let x = members(a);
        let y = members(b);
        (u32::count_ones(x), x) < (u32::count_ones(y), y)
    }

    // The next set of n columns in listing order: 'none' after the full set, for a set with a member at or above n,
    // and for n over the bound. The highest one of the lowest run of ones moves up by a bit, and the others of that
    // run go down to the end. Where no bit is free above, the next size begins.
    pub fn next(self, n: u32) -> Option<ColumnSet>
        ensures { result ≡ next_of n (members_of self.bits) }
    {
        if COLUMN_BOUND < n {
            return None;
        }
        let bits = self.bits;
        let x = members(bits);
        let end = power(n);
        if end <= x {
            return None;
        }
        let s = u32::count_ones(x);
        if 0 < x {
            let r = x + power(u32::trailing_zeros(x));
            if r < end {
                let low = power(s - u32::count_ones(r)) - 1;
                return Some(ColumnSet { bits: r + low });
            }
        }
        if s < n {
            return Some(ColumnSet {
                bits: power(s + 1) - 1,
            });
        }
        None
    }

    // The set at an index of the listing order of n columns: 'none' at or past 2^n, and for n over the bound.
    // It passes whole sizes, then looks inside one.
    pub fn at(n: u32, index: u32) -> Option<ColumnSet>
        ensures { result ≡ at_of n index }
    {
        if COLUMN_BOUND < n {
            return None;
        }
        let mut rows = [[0; SIZES]; SIZES];
        count_sets(&mut rows, n);
        let mut left = index;
        for k in 0..=n {
            let c = rows[n as usize][k as usize];
            if left < c {
                return Some(ColumnSet {
                    bits: of_size_at(&rows, n, k, left),
                });
            }
            left -= c;
        }
        None
    }
}

// The set at an index of the sets of n columns with k members, by the rows of Pascal's numbers. From the last column
// down: first stand the sets without it, then those with it.
fn of_size_at(rows: &[[u32; SIZES]; SIZES], n: u32, k: u32, index: u32) -> u32
    requires { (n ≤ column_bound) × CountsUpTo n rows.now × (index < length (of_size n k)) }
    ensures { result ≡ get_or (of_size n k) index 0 }
{
    let mut size = k;
    let mut left = index;
    let mut set = 0;
    for m in (0..n).rev() {
        let c = rows[m as usize][size as usize];
        if c <= left {
            left -= c;
            size -= 1;
            set += power(m);
        }
    }
    set
}

// Puts into the rows how many sets there are of each size: Pascal's numbers, a row for each number of columns up to n.
fn count_sets(rows: &mut [[u32; SIZES]; SIZES], n: u32)
    requires { (n ≤ column_bound) × (length rows.old ≡ suc column_bound) }
    ensures { CountsUpTo n rows.new }
{
    let none = of_no_column();
    rows[0] = none;
    for i in 0..n {
        let row = rows[i as usize];
        rows[i as usize + 1] = with_a_column(row, i);
    }
}

// The row of no column: there is the empty set alone.
fn of_no_column() -> [u32; SIZES]
    ensures { Counts 0 result }
{
    let mut row = [0; SIZES];
    row[0] = 1;
    row
}

// From the row of n columns to the row of n + 1: to the sets of a size without the new column come those of one size
// less, with it.
fn with_a_column(before: [u32; SIZES], n: u32) -> [u32; SIZES]
    requires { (n < column_bound) × Counts n before }
    ensures { Counts (suc n) result }
{
    let mut row = before;
    for k in (1..SIZES).rev() {
        row[k] += row[k - 1];
    }
    row
}
