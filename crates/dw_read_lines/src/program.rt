//! Line programs in `.debug_line` (DWARF 5, 6.2).

ghost use Rattle.std.specs.Prelude.{◌≡◌, IfOk, IfErr, Ok, Err};
ghost use Rattle.dw_read.specs.Reading.{left};
ghost use Rattle.dw_read_lines.specs.LineHeaders.{lines_at_place};
ghost use Rattle.dw_read_lines.specs.LineHeaderViews.{lines_of, IsInOrder};

use crate::header::LineProgramHeader;
use crate::reading::read_header;
use dw_base::DebugLineOffset;
use dw_read::{ReadResult, Reader};
use dw_read_units::Dwarf;

/// A line program whose header was read, and whose instructions weren't yet.
///
/// ```
/// let program = IncompleteLineProgram::new(&dwarf, offset, 8)?;
/// let mut instructions = program.header().instructions();
/// ```
#[derive(Drop)]
pub struct IncompleteLineProgram<R: Reader> {
    pub(crate) header: LineProgramHeader<R>,
}

impl<R: Reader> IncompleteLineProgram<R> {
    /// Reads the header of the program at an offset of `.debug_line`. Up to version 4 it doesn't
    /// tell how many bytes an address has: that is `address_size`.
    pub fn new(
        dwarf: &Dwarf<R>,
        offset: DebugLineOffset,
        address_size: u8,
    ) -> ReadResult<IncompleteLineProgram<R>>
        ensures ok { IfOk result (λ p. lines_at_place
            (R.reading dwarf.now.debug_line).is_big address_size offset.0
            (left (R.reading dwarf.now.debug_line)) ≡ Ok (lines_of R.reading p.header)) }
        ensures order { IfOk result (λ p.
            IsInOrder R.reading (R.reading dwarf.now.debug_line).is_big p.header) }
        ensures offset { IfOk result (λ p. p.header.offset ≡ offset) }
        ensures err { IfErr result (λ e. lines_at_place
            (R.reading dwarf.now.debug_line).is_big address_size offset.0
            (left (R.reading dwarf.now.debug_line)) ≡ Err e) }
    {
        let mut input = dwarf.debug_line.duplicate();
        input.skip(offset.0)?;
        let header = read_header(&mut input, offset, address_size)?;
        Ok(IncompleteLineProgram { header })
    }

    /// What the header tells.
    pub fn header(&self) -> &LineProgramHeader<R>
        ensures { result.now ≡ self.now.header }
    {
        &self.header
    }
}
