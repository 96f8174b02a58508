//! The line program of a unit.

ghost use Rattle.std.specs.Prelude.{◌⊎◌, ◌≡◌, Ok, Err, IfOk, IfErr};
ghost use Rattle.dw_sources.specs.declared.convert_error.ConvertError.TheVariants.{NoMemory};
ghost use Rattle.dw_convert_lines.specs.Views.{tables};
ghost use Rattle.dw_dwarf.specs.ConvertedPrograms.{ConvertsProgram, RefusesProgram};

use dw_base::{Address, FileId};
use dw_convert_lines::convert_line_program;
use dw_read::Reader;
use dw_read_lines::IncompleteLineProgram;
use dw_read_units::UnitRef;
use dw_sources::ConvertResult;
use dw_strings::{LineStringTable, StringTable};
use dw_unit::{LineProgram, Unit};
use std::alloc::Global;

/// Converts the line program of a unit, if it has one, as it was read (DWARF 5, 6.2), and answers
/// the ids of its files by the numbers that were read.
pub(crate) fn convert_program<R: Reader, F: Fn(u64) -> Option<Address>>(
    alloc: Global,
    read: UnitRef<'_, R>,
    line_strings: &mut LineStringTable,
    strings: &mut StringTable,
    convert_address: &F,
) -> ConvertResult<(LineProgram, Vec<FileId>)>
    requires { F.IsAlwaysCallable convert_address.now }
    ensures ok { IfOk result (λ x. ConvertsProgram R.reading (F.post convert_address.now) read.entry
        (tables strings.old line_strings.old) x.0 x.1.items
        (tables strings.new line_strings.new)) }
    ensures err { IfErr result (λ e. (e ≡ NoMemory) ⊎ RefusesProgram R.reading
        (F.post convert_address.now) read.entry (tables strings.old line_strings.old) e) }
{
    let Some(offset) = read.unit.line_program else {
        return Ok((LineProgram::none(), Vec::new(alloc)));
    };
    let size = read.encoding().address_size;
    let program = IncompleteLineProgram::new(read.dwarf, offset, size)?;
    convert_line_program(
        alloc,
        read.dwarf,
        &program,
        None,
        None,
        line_strings,
        strings,
        convert_address,
    )
}

/// Gives a unit another line program.
pub(crate) fn set_program(unit: &mut Unit, program: LineProgram)
    ensures { unit.new ≡ record unit.old { line_program = program } }
{
    unit.line_program = program;
}
