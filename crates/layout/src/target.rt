// A table of an accepted catalogue, as the target of a question or a listing.
ghost use Rattle.std.specs.Prelude.{◌<◌};
ghost use Rattle.model.specs.Catalogue.{tables};
ghost use Rattle.model.specs.Check.{Accepted};

// The catalogue and the table's number. That the catalogue is accepted and has the table is part of the type, so a
// function that takes a target requires neither.
#[derive(Clone, Copy)]
pub struct Target<'a> {
    pub cat: &'a [u8],
    pub table: u32,
    pub ghost accepted: { Accepted cat.now },
    pub ghost known: { table < tables cat.now },
}

impl<'a> Target<'a> {
    ghost use Rattle.std.specs.Prelude.{◌≤◌, ◌≡◌};
    ghost use Rattle.columns.specs.Bound.{column_bound};
    ghost use Rattle.model.specs.Bounds.{row_bound};
    ghost use Rattle.layout.specs.Targets.{members_in, inherited_in, rows_in};

    // How many members its left sides are taken from: its visible columns.
    pub fn members(self) -> u32
        ensures is { result ≡ members_in self.entry }
        ensures few { result ≤ column_bound }
    {
        crate::visible(self.cat, self.table)
    }

    // How many of them its ancestors have.
    pub fn inherited(self) -> u32
        ensures is { result ≡ inherited_in self.entry }
        ensures few { result ≤ members_in self.entry }
    {
        crate::inherited(self.cat, self.table)
    }

    // How many rows it has.
    pub fn rows(self) -> usize
        ensures is { result ≡ rows_in self.entry }
        ensures few { result ≤ row_bound }
    {
        usize::from(crate::rows(self.cat, self.table))
    }
}
