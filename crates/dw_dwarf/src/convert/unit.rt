//! One unit.

ghost use Rattle.std.specs.Prelude.{◌⊎◌, ◌≡◌, IfErr, OnOk};
ghost use Rattle.dw_sources.specs.declared.convert_error.ConvertError.TheVariants.{NoMemory};
ghost use Rattle.dw_convert_lines.specs.Views.{tables};
ghost use Rattle.dw_entry_ids.specs.KeptRows.{keep_of};
ghost use Rattle.dw_dwarf.specs.ConvertedUnit.{ConvertsWithFiles, RefusesUnit};
ghost use Rattle.dw_dwarf.specs.ConvertSteps.{CanConvert};
ghost use Rattle.dw_dwarf.specs.Skeletons.{first_of};

use crate::convert::entries::convert_rows;
use crate::convert::program::{convert_program, set_program};
use crate::convert::skeleton::{Skeleton, first_of, lines_of};
use dw_base::{Address, FileId};
use dw_convert::ConvertDebugInfoRef;
use dw_entry_ids::Kept;
use dw_read::Reader;
use dw_read_units::UnitRef;
use dw_sources::ConvertResult;
use dw_strings::{LineStringTable, StringTable};
use dw_unit::Unit;
use std::alloc::Global;

/// Converts a unit: its line program first, since its entries name the program's files, whose ids
/// by the numbers that were read come into `files`. Then its entries that are kept. A unit that was
/// split off has its skeleton's line program.
pub(crate) fn convert_unit<'r, R: Reader, C: ConvertDebugInfoRef, F: Fn(u64) -> Option<Address>>(
    alloc: Global,
    read: UnitRef<'r, R>,
    kept: &Kept,
    skeleton: Option<Skeleton<'r, R>>,
    unit: &mut Unit,
    files: &mut Vec<FileId>,
    strings: &mut StringTable,
    line_strings: &mut LineStringTable,
    convert_address: &F,
    refs: &C,
) -> ConvertResult<()>
    requires callable { F.IsAlwaysCallable convert_address.now }
    requires ready { CanConvert (first_of skeleton) (keep_of kept.now) R.reading read unit.old }
    ensures ok { OnOk result (ConvertsWithFiles skeleton.entry (keep_of kept.now) R.reading
        (F.post convert_address.now) (C.entries refs.now) (C.infos refs.now) read.entry
        unit.old (tables strings.old line_strings.old)
        unit.new (tables strings.new line_strings.new) files.new.items) }
    ensures err { IfErr result (λ e. (e ≡ NoMemory)
        ⊎ RefusesUnit skeleton.entry (keep_of kept.now) R.reading
        (F.post convert_address.now) (C.entries refs.now) (C.infos refs.now) read.entry
        unit.old (tables strings.old line_strings.old) e) }
{
    let lines = lines_of(skeleton, read);
    let (program, ids) = convert_program(alloc, lines, line_strings, strings, convert_address)?;
    set_program(unit, program);
    *files = ids;
    convert_rows(
        alloc,
        read,
        kept,
        first_of(skeleton),
        files.as_slice(),
        unit,
        strings,
        line_strings,
        convert_address,
        refs,
    )
}
