//! Line programs while they are converted.

ghost use Rattle.std.specs.Prelude.{◌≡◌, ◌⊎◌, true, IfOk, IfErr, IfSome, Ok, Err};
ghost use Rattle.dw_line.specs.LinePrograms.{file_count_of};
ghost use Rattle.dw_sources.specs.declared.convert_error.ConvertError.TheVariants.{NoMemory};
ghost use Rattle.dw_convert_lines.specs.HeaderImages.{IsWritable};
ghost use Rattle.dw_convert_lines.specs.ReadPrograms.{ProgramOutcome, RowsOutcome, LinesOutcome};
ghost use Rattle.dw_convert_lines.specs.RowImages.{AreFiles};
ghost use Rattle.dw_convert_lines.specs.RowOutcomes.{IsBegun, IsFresh, is_fresh};
ghost use Rattle.dw_convert_lines.specs.Views.{texts_of, tables, converting};

use crate::header::{convert_header, target_encoding};
use crate::rows::convert_rows;
use dw_base::{Address, Encoding, FileId, LineEncoding};
use dw_line::LineProgram;
use dw_read::Reader;
use dw_read_lines::{IncompleteLineProgram, LineProgramHeader};
use dw_read_units::Dwarf;
use dw_sources::ConvertResult;
use dw_strings::{LineStringTable, StringTable};
use std::alloc::Global;

/// A line program that was read, and the one that it becomes: this has the directories and files
/// of the other, and no sequences yet.
#[derive(Drop)]
pub struct ConvertLineProgram<'a, R: Reader> {
    pub(crate) dwarf: &'a Dwarf<R>,
    pub(crate) read: IncompleteLineProgram<R>,
    pub(crate) program: LineProgram,
    /// The ids of the files by the numbers that were read.
    pub(crate) files: Vec<FileId>,
    ghost fresh: { is_fresh program.program ≡ true },
    ghost numbered: { AreFiles read.header.encoding.encoding.version files.items
        (file_count_of program.program) },
}

/// Begins to convert a program that was read: its parameters, directories and files.
pub(crate) fn begin_program<R: Reader>(
    alloc: Global,
    dwarf: &Dwarf<R>,
    program: &IncompleteLineProgram<R>,
    encoding: Option<Encoding>,
    line_encoding: Option<LineEncoding>,
    line_strings: &mut LineStringTable,
    strings: &mut StringTable,
) -> ConvertResult<(LineProgram, Vec<FileId>)>
    requires { IfSome line_encoding IsWritable }
    ensures ok { IfOk result (λ x. ProgramOutcome R.reading (texts_of R.reading dwarf.now)
        program.now encoding line_encoding (tables strings.old line_strings.old)
        (Ok (converting x.0 x.1.items strings.new line_strings.new))) }
    ensures begun { IfOk result
        (λ x. IsBegun program.now.header.encoding.encoding.version x.0 x.1.items) }
    ensures err { IfErr result (λ e. (e ≡ NoMemory) ⊎ ProgramOutcome R.reading
        (texts_of R.reading dwarf.now) program.now encoding line_encoding
        (tables strings.old line_strings.old) (Err e)) }
{
    let header = program.header();
    let target = encoding.unwrap_or(header.encoding());
    let parameters = target_encoding(header.line_encoding(), header.opcode_base(), line_encoding)?;
    convert_header(
        alloc,
        dwarf,
        header,
        target,
        parameters,
        line_strings,
        strings,
    )
}

/// Begins to convert a program that was read, by its parameters, directories and files. An encoding
/// or parameters that aren't given are those that were read. Names keep their form, and the
/// strings that they lead to go into the tables; for a target below version 5 they become strings
/// in the program itself, and checksums and texts are dropped. Refused are parameters that no
/// program here has, forms that names, numbers and checksums don't have, and empty names below
/// version 5 as `UnsupportedLineProgram`, a file in a directory that isn't there as
/// `InvalidDirectoryIndex`, as version 5 without directories. A description of directories or files
/// is `UnsupportedLineProgram`, before any of its entries is read, where a value would stand in it
/// (`DW_FORM_implicit_const`), where two of its parts tell the same content that is known, or where
/// entries follow that have no path (DWARF 5, 6.2.4 and 6.2.4.1).
///
/// ```
/// let program = IncompleteLineProgram::new(&dwarf, offset, 8)?;
/// let converting = read_line_program(alloc, &dwarf, program, None, None, lines, strings)?;
/// let (program, files) = converting.convert(&|address| Some(Address::Constant(address)))?;
/// ```
pub fn read_line_program<'a, R: Reader>(
    alloc: Global,
    dwarf: &'a Dwarf<R>,
    program: IncompleteLineProgram<R>,
    encoding: Option<Encoding>,
    line_encoding: Option<LineEncoding>,
    line_strings: &mut LineStringTable,
    strings: &mut StringTable,
) -> ConvertResult<ConvertLineProgram<'a, R>>
    requires { IfSome line_encoding IsWritable }
    ensures ok { IfOk result (λ c. ProgramOutcome R.reading (texts_of R.reading dwarf.now)
        program encoding line_encoding (tables strings.old line_strings.old)
        (Ok (converting c.program c.files.items strings.new line_strings.new))) }
    // The sequences that are added later are those of the program that was read.
    ensures read { IfOk result (λ c. c.read ≡ program) }
    ensures err { IfErr result (λ e. (e ≡ NoMemory) ⊎ ProgramOutcome R.reading
        (texts_of R.reading dwarf.now) program encoding line_encoding
        (tables strings.old line_strings.old) (Err e)) }
{
    let (target, files) = begin_program(
        alloc,
        dwarf,
        &program,
        encoding,
        line_encoding,
        line_strings,
        strings,
    )?;
    Ok(ConvertLineProgram {
        dwarf,
        read: program,
        program: target,
        files,
    })
}

impl<R: Reader> ConvertLineProgram<'_, R> {
    /// Adds the sequences that the line machine reads behind the header, each at what the caller
    /// makes of the address that is set last before its first row, and answers the program with the
    /// ids of its files by the numbers that were read; up to version 4 the first of these, of the
    /// number 0, stands for none. Rows count their offsets from the address that was read.
    ///
    /// Refused are an address of which the caller makes nothing as `InvalidAddress`, a row of a
    /// file that isn't in the list as `InvalidFileIndex`, a sum of the machine that falls below 0
    /// or passes 64 bits as `IntegerOverflow`, and as `UnsupportedLineProgram` an instruction that
    /// defines a file, an offset that falls or is no multiple of the target's minimum instruction
    /// length, and a sequence that isn't ended (DWARF 5, 6.2.5).
    pub fn convert<F: Fn(u64) -> Option<Address>>(
        self,
        convert_address: &F,
    ) -> ConvertResult<(LineProgram, Vec<FileId>)>
        requires { F.IsAlwaysCallable convert_address.now }
        ensures ok { IfOk result (λ x. RowsOutcome R.reading (F.post convert_address.now)
            self.entry.read.header self.entry.files.items self.entry.program (Ok x.0)) }
        ensures files { IfOk result (λ x. x.1 ≡ self.entry.files) }
        ensures err { IfErr result (λ e. (e ≡ NoMemory) ⊎ RowsOutcome R.reading
            (F.post convert_address.now) self.entry.read.header self.entry.files.items
            self.entry.program (Err e)) }
    {
        let ConvertLineProgram {
            read,
            program,
            files,
            ..
        } = self;
        with_rows(read.header(), program, files, convert_address)
    }
}

/// A program, whose files have these ids by the numbers that were read, with the sequences that the
/// instructions behind a header show.
fn with_rows<R: Reader, F: Fn(u64) -> Option<Address>>(
    header: &LineProgramHeader<R>,
    mut program: LineProgram,
    files: Vec<FileId>,
    convert_address: &F,
) -> ConvertResult<(LineProgram, Vec<FileId>)>
    requires callable { F.IsAlwaysCallable convert_address.now }
    requires fresh { IsFresh program }
    requires files { AreFiles header.now.encoding.encoding.version files.items
        (file_count_of program.program) }
    ensures ok { IfOk result (λ x. RowsOutcome R.reading (F.post convert_address.now) header.now
        files.items program (Ok x.0)) }
    ensures files { IfOk result (λ x. x.1 ≡ files) }
    ensures err { IfErr result (λ e. (e ≡ NoMemory) ⊎ RowsOutcome R.reading
        (F.post convert_address.now) header.now files.items program (Err e)) }
{
    // With a `?`, what is owned here is dropped on more paths, which take longer to prove.
    match convert_rows(header, files.as_slice(), &mut program, convert_address) {
        Ok(()) => Ok((program, files)),
        Err(why) => Err(why),
    }
}

/// Converts a program that was read as a whole, as `read_line_program` and then
/// `ConvertLineProgram::convert` do, and tells the tables that the names went into.
pub fn convert_line_program<R: Reader, F: Fn(u64) -> Option<Address>>(
    alloc: Global,
    dwarf: &Dwarf<R>,
    program: &IncompleteLineProgram<R>,
    encoding: Option<Encoding>,
    line_encoding: Option<LineEncoding>,
    line_strings: &mut LineStringTable,
    strings: &mut StringTable,
    convert_address: &F,
) -> ConvertResult<(LineProgram, Vec<FileId>)>
    requires parameters { IfSome line_encoding IsWritable }
    requires callable { F.IsAlwaysCallable convert_address.now }
    ensures ok { IfOk result (λ x. LinesOutcome R.reading (F.post convert_address.now) program.now
        (texts_of R.reading dwarf.now) encoding line_encoding
        (tables strings.old line_strings.old)
        (Ok (converting x.0 x.1.items strings.new line_strings.new))) }
    ensures err { IfErr result (λ e. (e ≡ NoMemory) ⊎ LinesOutcome R.reading
        (F.post convert_address.now) program.now (texts_of R.reading dwarf.now) encoding
        line_encoding (tables strings.old line_strings.old) (Err e)) }
{
    let (target, files) = begin_program(
        alloc,
        dwarf,
        program,
        encoding,
        line_encoding,
        line_strings,
        strings,
    )?;
    with_rows(program.header(), target, files, convert_address)
}
