//! Offsets: places in sections and in units, in bytes from their begin.

/// A place in `.debug_abbrev`.
#[derive(Clone, Copy, PartialEq, Eq, Hash)]
pub struct DebugAbbrevOffset(pub usize);

/// A place in `.debug_info`.
#[derive(Clone, Copy, PartialEq, Eq, PartialOrd, Ord, Hash)]
pub struct DebugInfoOffset(pub usize);

/// A place in `.debug_line`.
#[derive(Clone, Copy, PartialEq, Eq, Hash)]
pub struct DebugLineOffset(pub usize);

/// A place in `.debug_line_str`.
#[derive(Clone, Copy, PartialEq, Eq, Hash)]
pub struct DebugLineStrOffset(pub usize);

/// A place in `.debug_str`.
#[derive(Clone, Copy, PartialEq, Eq, Hash)]
pub struct DebugStrOffset(pub usize);

/// A place in `.debug_macinfo`.
#[derive(Clone, Copy, PartialEq, Eq, Hash)]
pub struct DebugMacinfoOffset(pub usize);

/// A place in `.debug_macro`.
#[derive(Clone, Copy, PartialEq, Eq, Hash)]
pub struct DebugMacroOffset(pub usize);

/// A place in `.debug_frame`.
#[derive(Clone, Copy, PartialEq, Eq, Hash)]
pub struct DebugFrameOffset(pub usize);

/// A place in `.eh_frame`.
#[derive(Clone, Copy, PartialEq, Eq, Hash)]
pub struct EhFrameOffset(pub usize);

/// A place in `.debug_ranges` or `.debug_rnglists`.
#[derive(Clone, Copy, PartialEq, Eq, Hash)]
pub struct RangeListsOffset(pub usize);

/// A place in `.debug_loc` or `.debug_loclists`.
#[derive(Clone, Copy, PartialEq, Eq, Hash)]
pub struct LocationListsOffset(pub usize);

/// A place in a unit, from the begin of its header.
#[derive(Clone, Copy, PartialEq, Eq, PartialOrd, Ord, Hash)]
pub struct UnitOffset(pub usize);

/// A place in `.debug_info`, from the section's begin.
#[derive(Clone, Copy, PartialEq, Eq, PartialOrd, Ord, Hash)]
pub struct UnitSectionOffset(pub usize);

/// The signature of a type unit (7.32).
#[derive(Clone, Copy, PartialEq, Eq, Hash)]
pub struct DebugTypeSignature(pub u64);

/// The id that a skeleton unit and its split unit share (7.3.5.3).
#[derive(Clone, Copy, PartialEq, Eq, Hash)]
pub struct DwoId(pub u64);
