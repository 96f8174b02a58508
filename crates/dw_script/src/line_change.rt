//! What a line of a script asks of one unit's line program.

use dw_base::Address;
use dw_ends::HexBytes;

/// A change of a unit's line program (DWARF 5, 6.2). Offsets are counted in bytes from the address
/// of their sequence.
#[derive(Drop)]
pub enum LineChange<'a> {
    /// A new line program, with this working directory.
    New(LineText<'a>),
    /// A directory.
    AddDirectory(LineText<'a>),
    /// A file of the directory at an index.
    AddFile {
        name: LineText<'a>,
        directory: usize,
    },
    /// A sequence that begins at an address, or at address 0 where none is given.
    BeginSequence(Option<Address>),
    /// A row: the line and the column of the file at an index, at an offset.
    AddRow {
        offset: u64,
        file: usize,
        line: u64,
        column: u64,
    },
    /// The end of the sequence, at the offset past its last instruction.
    EndSequence {
        offset: u64,
    },
}

/// The name of a directory or a file of a line program (DWARF 5, 6.2.4.1).
#[derive(Drop)]
pub enum LineText<'a> {
    /// The name's bytes.
    String(HexBytes<'a>),
    /// A string of `.debug_str`, by its index.
    StringRef(usize),
    /// A string of `.debug_line_str`, by its index.
    LineStringRef(usize),
}
