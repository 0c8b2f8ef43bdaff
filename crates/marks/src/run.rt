// The entries of a packed list as they stand in a file, one behind the other, and each by its index.
ghost use Rattle.std.specs.Prelude.{◌+◌, ◌*◌, ◌≤◌, length};
ghost use Rattle.model.specs.Entries.{entry_bytes};

use entries::entry_from;
use model::{ENTRY_BYTES, Entry};

// So many entries from a position of the file on.
#[derive(Clone, Copy)]
pub struct PackedEntries<'a> {
    pub file: &'a [u8],
    pub first: usize,
    pub count: u32,
    pub ghost inside: { first + entry_bytes * count ≤ length file.now },
}

impl<'a> PackedEntries<'a> {
    ghost use Rattle.std.specs.Prelude.{◌<◌, ◌≡◌};
    ghost use Rattle.marks.specs.Run.{entry_of};

    // Where the entry begins.
    pub fn place(self, i: u32) -> usize
        requires { i < self.count }
        ensures { result ≡ self.entry.first + entry_bytes * i }
    {
        self.first + ENTRY_BYTES * i as usize
    }

    pub fn entry(self, i: u32) -> Entry
        requires { i < self.count }
        ensures { result ≡ entry_of self.entry i }
    {
        entry_from(self.file, self.place(i))
    }
}
