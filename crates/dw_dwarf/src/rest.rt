//! What stands behind the units: line programs of no unit, and strings.

ghost use Rattle.std.specs.Prelude.{◌≤◌, OnOk, IfErr};
ghost use Rattle.dw_writer.specs.Meaning.{IsSameWriter};
ghost use Rattle.dw_writer.specs.Sections.{fault_sum};
ghost use Rattle.dw_line.specs.LinePrograms.{line_program_size, line_program_text};
ghost use Rattle.dw_line.specs.Parts.{NoCause, Refused, sizes, texts};
ghost use Rattle.dw_tree.specs.Causes.{Because, Is};
ghost use Rattle.dw_tree.specs.Elsewhere.{AppendsBehind};
ghost use Rattle.dw_dwarf.specs.Valid.{programs_fail};
ghost use Rattle.dw_dwarf.specs.Written.{AddsPrograms, AddsStrings, RestHasRisen, KeepsAllButRest};

use dw_base::Result;
use dw_line::LineProgram;
use dw_strings::{LineStringTable, StringTable};
use dw_writer::{DebugLine, Sections, Writer};

/// Writes line programs one behind another, each for a unit of its own encoding.
fn write_line_programs<W: Writer>(
    programs: &[LineProgram],
    line_strings: &LineStringTable,
    strings: &StringTable,
    w: &mut DebugLine<W>,
) -> Result<()>
    ensures ok { OnOk result
        (AppendsBehind (W.meaning w.old.0) (W.meaning w.new.0)
        (sizes line_program_size programs.now)
        (texts (line_program_text strings.now line_strings.now) programs.now)) }
    ensures sound { OnOk result
        (NoCause (programs_fail line_strings.now strings.now (W.meaning w.old.0).is_plain
        programs.now)) }
    ensures err { IfErr result
        (Refused (W.meaning w.old.0) (W.meaning w.new.0)
        (programs_fail line_strings.now strings.now (W.meaning w.old.0).is_plain
        programs.now)) }
    ensures same { IsSameWriter (W.meaning w.old.0) (W.meaning w.new.0) }
{
    for program in programs {
        program.write(w, program.encoding(), line_strings, strings)?;
    }
    Ok(())
}

/// Writes line programs of no unit behind those of units, and the strings into their sections.
pub(crate) fn write_rest<W: Writer>(
    programs: &[LineProgram],
    line_strings: &LineStringTable,
    strings: &StringTable,
    sections: &mut Sections<W>,
) -> Result<()>
    ensures lines { OnOk result
        (AddsPrograms W.meaning sections.old sections.new line_strings.now strings.now
        programs.now) }
    ensures strings { OnOk result
        (AddsStrings W.meaning sections.old sections.new line_strings.now strings.now) }
    ensures sound { OnOk result
        (NoCause (programs_fail line_strings.now strings.now
        (W.meaning sections.old.debug_line.0).is_plain programs.now)) }
    ensures err { IfErr result
        (Because (RestHasRisen W.meaning sections.old sections.new)
        (Is (programs_fail line_strings.now strings.now
        (W.meaning sections.old.debug_line.0).is_plain programs.now))) }
    ensures others { KeepsAllButRest sections.old sections.new }
    ensures faults { fault_sum W.meaning sections.old ≤ fault_sum W.meaning sections.new }
{
    write_line_programs(programs, line_strings, strings, &mut sections.debug_line)?;
    line_strings.write(&mut sections.debug_line_str)?;
    strings.write(&mut sections.debug_str)
}
