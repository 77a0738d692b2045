//! What a record keeps of a volume: keys, the places of their sectors, and the pointers from the one to the other.
ghost use Rattle.std.specs.Prelude.{◌≡◌, ◌==◌};

use crate::Group;

/// A block of a volume, or a page of its map. Level 0 is the volume's blocks, by address; a page of level L
/// and index i, L being 1 to 3, holds the pointers of the keys of level L - 1 with the indexes 64i to 64i + 63
/// (docs/FORMATS.md, "Map pages").
#[derive(Clone, Copy, Debug, PartialEq, Eq, PartialOrd, Ord)]
pub struct Key {
    pub level: u32,
    pub index: u64,
}

/// Where a key's sector is: the place of its top in the pool's list of tops, counted from 0, and the data
/// sector, which is the same on each member of that top.
#[derive(Clone, Copy, Debug, PartialEq, Eq, PartialOrd, Ord)]
pub struct Place {
    pub top: u32,
    pub sector: u64,
}

/// Where a key's bytes stand, the group in which they were written, and their SHA-256. A pointer of birth 0 is
/// a hole: nothing was ever written there, it reads as zeros, and its place and its sum are zeros too.
#[derive(Clone, Copy, Debug, PartialEq, Eq)]
pub struct Pointer {
    pub birth: Group,
    pub place: Place,
    pub sum: [u8; 32],
}

impl Pointer {
    /// Nothing was written here.
    pub const HOLE: Pointer = Pointer {
        birth: Group(0),
        place: Place { top: 0, sector: 0 },
        sum: [0; 32],
    };

    pub fn is_hole(&self) -> bool
        ensures { result ≡ (self.now.birth.0 == 0) }
    {
        self.birth.0 == 0
    }
}
