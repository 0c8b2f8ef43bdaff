// The set at every index, for every number of columns up to the bound and one more, against the next sets.
use columns::ColumnSet;
use std::io;

// Is this the set at an index?
fn is_at(n: u32, index: u32, set: ColumnSet) -> bool {
    ColumnSet::at(n, index).is_some_and(|found| found.bits == set.bits)
}

// From the empty set on to the last one: at how many indices from 0 on does the set stand that the walk reaches?
fn same(n: u32) -> u32 {
    let mut set = ColumnSet::EMPTY;
    for index in 0..65536 {
        if !is_at(n, index, set) {
            return index;
        }
        match set.next(n) {
            Some(next) => set = next,
            None => return index + 1,
        }
    }
    65536
}

// Every number of columns up to the bound, and one more: how many sets there are, and whether none stands behind them.
pub fn trial_sets(rt: &impl Print) -> io::Result<()> {
    for n in 0..=17 {
        let count = same(n);
        print!(rt; "columns {n}: sets {count}")?;
        if ColumnSet::at(n, count).is_none() {
            print!(rt; " and no more")?;
        }
        println!(rt; "")?;
    }
    Ok(())
}
