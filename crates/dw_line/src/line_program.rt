//! Line programs.

ghost use Rattle.std.specs.Prelude.{◌≡◌, ◌≢◌, ◌<◌, ◌≤◌, ◌%◌, ◌≤ℤ◌, ◌<ℤ◌, ◌+ℤ◌, pos, [], length, is_none, Some, IsSome, IsOk, OnOk, OnErr, IfOk, IfErr, IsTrue, IsFalse, ◌↔◌};
ghost use Rattle.std.specs.Borrow.{sem};
ghost use Rattle.dw_base.specs.declared.error.Error.TheVariants.{NoMemory};
ghost use Rattle.dw_writer.specs.Meaning.{IsTidy, IsSameWriter, Appends};
ghost use Rattle.dw_writer.specs.Causes.{BytesRefused};
ghost use Rattle.dw_line.specs.Lends.{LendsRow};
ghost use Rattle.dw_line.specs.Shows.{ShowsSequences, ShowsTables};
ghost use Rattle.dw_line.specs.LinePrograms.{no_line_program, encoding_of, line_encoding_of, is_in_sequence, directories_of, files_of, file_count_of, last_offset_of, sequences_of, IsInfo, changed, begun, generated, line_program_size, line_program_text, line_program_fails};
ghost use Rattle.dw_line.specs.LineRows.{first_line_row};
ghost use Rattle.dw_line.specs.Names.{no_info, IsName};
ghost use Rattle.dw_line.specs.Parts.{KeepsFront, NoCause, Refused};
ghost use Rattle.dw_line.specs.ProgramTexts.{directory_index, with_directory, entry_of, file_index, with_file, with_end};
ghost use Rattle.dw_line.specs.declared.line_string.LineString.TheVariants.{String};

use crate::line_string::{FileInfo, LineString};
use crate::program::Program;
use crate::row::LineRow;
use dw_base::{
    Address, DebugLineOffset, DirectoryId, Encoding, Error, FileId, Format, LineEncoding, Result,
};
use dw_strings::{LineStringTable, StringTable};
use dw_writer::{DebugLine, Writer};
use std::alloc::Global;
use std::marker::Model;

/// A line program: the directories and files of a unit, and for sequences of addresses the lines
/// of the source that they come from (DWARF 5, 6.2).
///
/// ```
/// let mut program = LineProgram::new(alloc, encoding, LineEncoding::default(), working_dir)?;
/// let directory = DirectoryId::new(0);
/// let file = program.add_file(name, directory, None)?;
/// program.begin_sequence(Some(Address::Constant(0x1000)))?;
/// program.row().file = file;
/// program.row().line = 7;
/// program.generate_row()?;
/// program.end_sequence(4)?;
/// ```
#[derive(Drop)]
pub struct LineProgram {
    program: Option<Program>,
    row: LineRow,
}

impl Model for LineProgram {
    ghost use Rattle.dw_line.specs.LinePrograms.{LineProgramValue};

    ghost Value = { LineProgramValue };

    ghost view = { λ p. record { program = p.program; row = p.row } };
}

impl LineProgram {
    ghost use Rattle.std.specs.Prelude.{◌∷◌, false, None};

    /// No line program: none is written for the unit.
    pub fn none() -> LineProgram
        ensures { result ≡ no_line_program }
    {
        LineProgram {
            program: None,
            row: LineRow::first(true),
        }
    }

    /// A program of no files and no sequences, whose first directory is the working directory. The
    /// working directory is written in version 5 alone; below it is that of the unit.
    pub fn new(
        alloc: Global,
        encoding: Encoding,
        line_encoding: LineEncoding,
        working_dir: LineString,
    ) -> Result<LineProgram>
        requires operations { line_encoding.maximum_operations_per_instruction ≡ 1 }
        requires positive { 0 < line_encoding.minimum_instruction_length }
        requires base { line_encoding.line_base ≤ℤ pos 0 }
        requires range { pos 0 <ℤ (line_encoding.line_base +ℤ pos line_encoding.line_range) }
        requires text { IsName working_dir }
        ensures ok { IfOk result (λ p. p ≡ record {
          program = Some (record {
            encoding = encoding;
            line_encoding = line_encoding;
            directories = working_dir ∷ [];
            files = [];
            sequences = [];
            in_sequence = false;
            address = None;
            rows = [];
          });
          row = first_line_row line_encoding.default_is_stmt;
        }) }
        ensures err { IfErr result (λ e. e ≡ NoMemory) }
    {
        let row = LineRow::first(line_encoding.default_is_stmt);
        let program = Program::new(alloc, encoding, line_encoding, working_dir)?;
        Ok(LineProgram {
            program: Some(program),
            row,
        })
    }

    /// Tells that this is no line program.
    pub fn is_none(&self) -> bool
        ensures { result ≡ is_none self.now.program }
    {
        self.program.is_none()
    }

    /// Tells that no sequence was begun.
    pub fn is_empty(&self) -> bool
        ensures { IsTrue result ↔ (sequences_of self.now.program ≡ []) }
    {
        match &self.program {
            Some(program) => program.sequence_count() == 0 && !program.in_sequence(),
            None => true,
        }
    }

    /// The encoding; where there is no program, one that no unit has.
    pub fn encoding(&self) -> Encoding
        ensures { result ≡ encoding_of self.now.program }
    {
        match &self.program {
            Some(program) => program.encoding(),
            None => Encoding {
                address_size: 0,
                format: Format::Dwarf32,
                version: 2,
            },
        }
    }

    /// The parameters of the line machine, of which offsets have to be multiples of the minimum
    /// instruction length.
    pub fn line_encoding(&self) -> LineEncoding
        ensures { result ≡ line_encoding_of self.now.program }
    {
        match &self.program {
            Some(program) => program.line_encoding(),
            None => LineEncoding::default(),
        }
    }

    /// Tells that a sequence was begun and not ended.
    pub fn in_sequence(&self) -> bool
        ensures { result ≡ is_in_sequence self.now.program }
    {
        match &self.program {
            Some(program) => program.in_sequence(),
            None => false,
        }
    }

    /// How many directories there are, with the working directory.
    pub fn directory_count(&self) -> usize
        ensures { result ≡ length (directories_of self.now.program) }
    {
        match &self.program {
            Some(program) => program.directory_count(),
            None => 0,
        }
    }

    /// How many files there are.
    pub fn file_count(&self) -> usize
        ensures { result ≡ file_count_of self.now.program }
    {
        match &self.program {
            Some(program) => program.file_count(),
            None => 0,
        }
    }

    /// The address offset of this sequence's last row, or 0 before its first one.
    pub fn last_offset(&self) -> u64
        ensures { result ≡ last_offset_of self.now.program }
    {
        match &self.program {
            Some(program) => program.last_offset(),
            None => 0,
        }
    }

    /// The id of a directory, which is added if none equals it. Up to version 4 an empty name would
    /// close the list of directories.
    pub fn add_directory(&mut self, directory: LineString) -> Result<DirectoryId>
        requires there { IsSome self.old.program }
        requires text { IsName directory }
        requires named { (encoding_of self.old.program).version ≤ 4 → directory ≢ String [] }
        ensures id { IfOk result
            (λ id. id.0 ≡ directory_index (directories_of self.old.program) directory) }
        ensures ok { OnOk result (self.new ≡ changed (with_directory directory) self.old) }
        ensures err { IfErr result (λ e. e ≡ NoMemory) }
        ensures kept { OnErr result (self.new ≡ self.old) }
    {
        match &mut self.program {
            Some(program) => program.add_directory(directory),
            None => unreachable!(),
        }
    }

    /// The id of a file, which is added if none has its name and its directory. What is told of a
    /// file replaces what was told before.
    pub fn add_file(
        &mut self,
        file: LineString,
        directory: DirectoryId,
        info: Option<FileInfo>,
    ) -> Result<FileId>
        requires there { IsSome self.old.program }
        requires text { IsName file }
        requires named { (encoding_of self.old.program).version ≤ 4 → file ≢ String [] }
        requires directory { directory.0 < length (directories_of self.old.program) }
        requires source { IsInfo info }
        ensures ok { OnOk result (self.new ≡ changed (with_file file directory info) self.old) }
        ensures id { IfOk result (λ id. id.0 ≡ file_index (files_of self.old.program)
            (entry_of file directory no_info)) }
        ensures err { IfErr result (λ e. e ≡ NoMemory) }
        ensures kept { OnErr result (self.new ≡ self.old) }
    {
        match &mut self.program {
            Some(program) => program.add_file(file, directory, info),
            None => unreachable!(),
        }
    }

    /// Begins a sequence at an address, or at address 0 where none is given. No memory is taken.
    pub fn begin_sequence(&mut self, address: Option<Address>) -> Result<()>
        requires there { IsSome self.old.program }
        requires closed { IsFalse (is_in_sequence self.old.program) }
        ensures ok { self.new ≡ begun address self.old }
        ensures done { IsOk result }
    {
        match &mut self.program {
            Some(program) => {
                self.row = LineRow::first(program.line_encoding().default_is_stmt);
                program.begin_sequence(address);
                Ok(())
            }
            None => unreachable!(),
        }
    }

    /// The next row, to be changed.
    pub fn row(&mut self) -> &mut LineRow
        requires { IsTrue (is_in_sequence self.old.program) }
        ensures* lends { sem 𝓛 (LendsRow self.entry result) }
        ensures value { result.now ≡ self.old.row }
    {
        &mut self.row
    }

    /// Adds the next row to the sequence. Its discriminator and its marks are cleared then, and the
    /// rest stays for the row after it.
    pub fn generate_row(&mut self) -> Result<()>
        requires open { IsTrue (is_in_sequence self.old.program) }
        requires file { self.old.row.file.0 < file_count_of self.old.program }
        requires order { last_offset_of self.old.program ≤ self.old.row.address_offset }
        requires multiple { self.old.row.address_offset %
            (line_encoding_of self.old.program).minimum_instruction_length ≡ 0 }
        ensures ok { OnOk result (self.new ≡ generated self.old) }
        ensures err { IfErr result (λ e. e ≡ NoMemory) }
        ensures kept { OnErr result (self.new ≡ self.old) }
    {
        let row = self.row;
        match &mut self.program {
            Some(program) => program.generate_row(row)?,
            None => unreachable!(),
        }
        self.row = row.next();
        Ok(())
    }

    /// Ends the sequence at an address offset, that past its last instruction.
    pub fn end_sequence(&mut self, address_offset: u64) -> Result<()>
        requires open { IsTrue (is_in_sequence self.old.program) }
        requires order { last_offset_of self.old.program ≤ address_offset }
        requires multiple { address_offset %
            (line_encoding_of self.old.program).minimum_instruction_length ≡ 0 }
        ensures ok { OnOk result (self.new ≡ changed (with_end address_offset) self.old) }
        ensures err { IfErr result (λ e. e ≡ NoMemory) }
        ensures kept { OnErr result (self.new ≡ self.old) }
    {
        match &mut self.program {
            Some(program) => program.end_sequence(address_offset),
            None => unreachable!(),
        }
    }

    /// Writes the program for a unit of an encoding behind what `.debug_line` holds (DWARF 5, 6.2),
    /// and returns its place, in bytes from the section's begin.
    ///
    /// Refused before a byte is written as `IncompatibleLineProgramEncoding` where there is no
    /// program, its format or address size isn't the unit's, or one of the two alone is of version
    /// 5, as `UnsupportedVersion` and `UnsupportedWordSize` where its version or address size has
    /// no spelling, as `NeedVersion` for checksums and texts below version 5, and as
    /// `LineStringFormMismatch` for names of different forms. Refused while it is written as
    /// `InvalidReference` where a name isn't in its table, as `InvalidAddress` where a sequence
    /// begins at a symbol and the writer records no relocations, as `ValueTooLarge` where an
    /// address, the place of a name or a change of line has no room, as `InitialLengthOverflow`
    /// where a 32-bit program has 0xffff_fff0 bytes or more after its length (7.4), and as
    /// `WriteFault` or `NoMemory`.
    pub fn write<W: Writer>(
        &self,
        w: &mut DebugLine<W>,
        encoding: Encoding,
        line_strings: &LineStringTable,
        strings: &StringTable,
    ) -> Result<DebugLineOffset>
        ensures ok { OnOk result
            (Appends (W.meaning w.old.0) (W.meaning w.new.0) (line_program_size self.now)
            (line_program_text strings.now line_strings.now self.now)) }
        ensures place { IfOk result (λ p. p.0 ≡ (W.meaning w.old.0).size) }
        // A reader of these bytes sees the sequences and their rows.
        ensures rows { OnOk result
            (ShowsSequences (W.meaning w.old.0) (W.meaning w.new.0)
            (sequences_of self.now.program)) }
        // It finds the directories and files, whose names are strings of these tables.
        ensures tables { OnOk result
            (ShowsTables (W.meaning w.old.0) (W.meaning w.new.0) strings.now line_strings.now
            (encoding_of self.now.program).version (directories_of self.now.program)
            (files_of self.now.program)) }
        ensures sound { OnOk result
            (NoCause (line_program_fails strings.now line_strings.now
            (W.meaning w.old.0).is_plain encoding self.now)) }
        ensures err { IfErr result
            (Refused (W.meaning w.old.0) (W.meaning w.new.0)
            (line_program_fails strings.now line_strings.now
            (W.meaning w.old.0).is_plain encoding self.now)) }
        // What can be written is refused for want of memory or by the writer alone.
        ensures complete { (NoCause (line_program_fails strings.now line_strings.now
            (W.meaning w.old.0).is_plain encoding self.now))
            → IfErr result (BytesRefused (W.meaning w.old.0) (W.meaning w.new.0)) }
        ensures same { IsSameWriter (W.meaning w.old.0) (W.meaning w.new.0) }
        // What stood there stays in front, also where the write is refused.
        ensures front { IsTidy (W.meaning w.old.0) →
            KeepsFront (W.meaning w.old.0) (W.meaning w.new.0) }
    {
        match &self.program {
            Some(program) => {
                let offset = w.offset();
                program.write(encoding, line_strings, strings, &mut w.0)?;
                Ok(offset)
            }
            None => Err(Error::IncompatibleLineProgramEncoding),
        }
    }
}
