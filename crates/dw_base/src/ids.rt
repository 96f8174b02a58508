//! Ids: the place, counted from 0, at which a table or a unit keeps what they name.

ghost use Rattle.std.specs.Prelude.{◌≡◌, ◌+◌, ◌<◌, ◌≤◌};

/// A unit of a `UnitTable`.
#[derive(Clone, Copy, PartialEq, Eq, Hash)]
pub struct UnitId(pub usize);

impl UnitId {
    /// The id of what stands at this index.
    pub const fn new(index: usize) -> UnitId
        ensures { result.0 ≡ index }
    {
        UnitId(index)
    }

    /// The index of what the id names.
    pub const fn index(self) -> usize
        ensures { result ≡ self.0 }
    {
        self.0
    }
}

/// An entry of a unit.
#[derive(Clone, Copy, PartialEq, Eq, Hash)]
pub struct UnitEntryId(pub usize);

impl UnitEntryId {
    /// The id of what stands at this index.
    pub const fn new(index: usize) -> UnitEntryId
        ensures { result.0 ≡ index }
    {
        UnitEntryId(index)
    }

    /// The index of what the id names.
    pub const fn index(self) -> usize
        ensures { result ≡ self.0 }
    {
        self.0
    }
}

/// A string of a `StringTable`.
#[derive(Clone, Copy, PartialEq, Eq, Hash)]
pub struct StringId(pub usize);

impl StringId {
    /// The id of what stands at this index.
    pub const fn new(index: usize) -> StringId
        ensures { result.0 ≡ index }
    {
        StringId(index)
    }

    /// The index of what the id names.
    pub const fn index(self) -> usize
        ensures { result ≡ self.0 }
    {
        self.0
    }
}

/// A string of a `LineStringTable`.
#[derive(Clone, Copy, PartialEq, Eq, Hash)]
pub struct LineStringId(pub usize);

impl LineStringId {
    /// The id of what stands at this index.
    pub const fn new(index: usize) -> LineStringId
        ensures { result.0 ≡ index }
    {
        LineStringId(index)
    }

    /// The index of what the id names.
    pub const fn index(self) -> usize
        ensures { result ≡ self.0 }
    {
        self.0
    }
}

/// A file of a line program.
#[derive(Clone, Copy, PartialEq, Eq, Hash)]
pub struct FileId(pub usize);

impl FileId {
    /// The id of what stands at this index.
    pub const fn new(index: usize) -> FileId
        ensures { result.0 ≡ index }
    {
        FileId(index)
    }

    /// The index of what the id names.
    pub const fn index(self) -> usize
        ensures { result ≡ self.0 }
    {
        self.0
    }

    /// The number of the file in a line program of this version: counted from 0 in version 5, and
    /// from 1 below (6.2.4).
    pub fn raw(self, version: u16) -> u64
        requires { version ≤ 4 → self.0 < usize.MAX }
        ensures old { version ≤ 4 → result ≡ self.0 + 1 }
        ensures new { 4 < version → result ≡ self.0 }
    {
        if version <= 4 {
            self.0 as u64 + 1
        } else {
            self.0 as u64
        }
    }
}

/// A directory of a line program.
#[derive(Clone, Copy, PartialEq, Eq, Hash)]
pub struct DirectoryId(pub usize);

impl DirectoryId {
    /// The id of what stands at this index.
    pub const fn new(index: usize) -> DirectoryId
        ensures { result.0 ≡ index }
    {
        DirectoryId(index)
    }

    /// The index of what the id names.
    pub const fn index(self) -> usize
        ensures { result ≡ self.0 }
    {
        self.0
    }
}

/// A list of a `RangeListTable`.
#[derive(Clone, Copy, PartialEq, Eq, Hash)]
pub struct RangeListId(pub usize);

impl RangeListId {
    /// The id of what stands at this index.
    pub const fn new(index: usize) -> RangeListId
        ensures { result.0 ≡ index }
    {
        RangeListId(index)
    }

    /// The index of what the id names.
    pub const fn index(self) -> usize
        ensures { result ≡ self.0 }
    {
        self.0
    }
}

/// A list of a `LocationListTable`.
#[derive(Clone, Copy, PartialEq, Eq, Hash)]
pub struct LocationListId(pub usize);

impl LocationListId {
    /// The id of what stands at this index.
    pub const fn new(index: usize) -> LocationListId
        ensures { result.0 ≡ index }
    {
        LocationListId(index)
    }

    /// The index of what the id names.
    pub const fn index(self) -> usize
        ensures { result ≡ self.0 }
    {
        self.0
    }
}

/// A common information entry of a `FrameTable`.
#[derive(Clone, Copy, PartialEq, Eq, Hash)]
pub struct CieId(pub usize);

impl CieId {
    /// The id of what stands at this index.
    pub const fn new(index: usize) -> CieId
        ensures { result.0 ≡ index }
    {
        CieId(index)
    }

    /// The index of what the id names.
    pub const fn index(self) -> usize
        ensures { result ≡ self.0 }
    {
        self.0
    }
}
