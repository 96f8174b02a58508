//! The line program of a unit that is converted.

ghost use Rattle.std.specs.Prelude.{◌≡◌, ◌⊎◌, IfOk, IfErr, IfSome, MatchOption};
ghost use Rattle.dw_sources.specs.declared.convert_error.ConvertError.TheVariants.{NoMemory};
ghost use Rattle.dw_convert_lines.specs.HeaderImages.{IsWritable};
ghost use Rattle.dw_convert_lines.specs.Views.{tables, converting};
ghost use Rattle.dw_dwarf.specs.Converters.{KeepsLoans};
ghost use Rattle.dw_dwarf.specs.UnitPrograms.{BeginsLines, HasNoLines, RefusesLines, unit_of_lines};

use crate::convert::convert_unit::ConvertUnit;
use dw_base::{Encoding, LineEncoding};
use dw_convert_lines::{ConvertLineProgram, read_line_program};
use dw_read::Reader;
use dw_read_lines::IncompleteLineProgram;
use dw_read_units::UnitRef;
use dw_sources::ConvertResult;
use dw_strings::{LineStringTable, StringTable};
use std::alloc::Global;

impl<'a, R: Reader> ConvertUnit<'a, R> {
    /// Begins to convert the line program of the unit, or of its skeleton where there is one, as
    /// `Dwarf::read_line_program` does: None tells that the unit has none. An encoding or
    /// parameters that aren't given are those that were read (DWARF 5, 6.2.4). It is refused as
    /// that is, and as `Read` where the header can't be read.
    ///
    /// ```
    /// if let Some(program) = unit.read_line_program(None, None)? {
    ///     let (program, files) = program.convert(&constant)?;
    ///     unit.set_line_program(program, files);
    /// }
    /// ```
    pub fn read_line_program(
        &mut self,
        encoding: Option<Encoding>,
        line_encoding: Option<LineEncoding>,
    ) -> ConvertResult<Option<ConvertLineProgram<'a, R>>>
        requires { IfSome line_encoding IsWritable }
        ensures ok { IfOk result (λ o. MatchOption o
            (HasNoLines (unit_of_lines self.old.read_skeleton_unit self.old.read_unit)
            (tables self.old.strings.now self.old.line_strings.now)
            (tables self.new.strings.now self.new.line_strings.now))
            (λ c. BeginsLines R.reading
            (unit_of_lines self.old.read_skeleton_unit self.old.read_unit) encoding line_encoding
            c.read (tables self.old.strings.now self.old.line_strings.now)
            (converting c.program c.files.items self.new.strings.now self.new.line_strings.now))) }
        ensures err { IfErr result (λ e. (e ≡ NoMemory) ⊎ RefusesLines R.reading
            (unit_of_lines self.old.read_skeleton_unit self.old.read_unit) encoding line_encoding
            (tables self.old.strings.now self.old.line_strings.now) e) }
        ensures same { KeepsLoans self.old self.new }
        ensures others { self.new ≡ record self.old
            { strings = self.new.strings; line_strings = self.new.line_strings } }
    {
        let read_unit = self.read_skeleton_unit.unwrap_or(self.read_unit);
        begin_lines(
            self.alloc,
            read_unit,
            encoding,
            line_encoding,
            self.line_strings,
            self.strings,
        )
    }
}

/// Begins to convert the line program of a unit, if it has one.
fn begin_lines<'a, R: Reader>(
    alloc: Global,
    read_unit: UnitRef<'a, R>,
    encoding: Option<Encoding>,
    line_encoding: Option<LineEncoding>,
    line_strings: &mut LineStringTable,
    strings: &mut StringTable,
) -> ConvertResult<Option<ConvertLineProgram<'a, R>>>
    requires { IfSome line_encoding IsWritable }
    ensures ok { IfOk result (λ o. MatchOption o
        (HasNoLines read_unit.entry (tables strings.old line_strings.old)
        (tables strings.new line_strings.new))
        (λ c. BeginsLines R.reading read_unit.entry encoding line_encoding c.read
        (tables strings.old line_strings.old)
        (converting c.program c.files.items strings.new line_strings.new))) }
    ensures err { IfErr result (λ e. (e ≡ NoMemory) ⊎ RefusesLines R.reading read_unit.entry
        encoding line_encoding (tables strings.old line_strings.old) e) }
{
    let Some(offset) = read_unit.unit.line_program else {
        return Ok(None);
    };
    let size = read_unit.encoding().address_size;
    let program = IncompleteLineProgram::new(read_unit.dwarf, offset, size)?;
    let begun = read_line_program(
        alloc,
        read_unit.dwarf,
        program,
        encoding,
        line_encoding,
        line_strings,
        strings,
    )?;
    Ok(Some(begun))
}
