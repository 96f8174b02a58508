//! The parts of a program that there is.

ghost use Rattle.std.specs.Prelude.{◌≡◌, ◌<◌, ◌≤◌, ◌%◌, ◌≤ℤ◌, pos, [], length, All, OnOk, OnErr, IfOk, IfErr, IfSome, IsTrue, IsFalse};
ghost use Rattle.dw_base.specs.Numbers.{is_width};
ghost use Rattle.dw_base.specs.declared.error.Error.{Error as AnError};
ghost use Rattle.dw_base.specs.declared.error.Error.TheVariants.{NoMemory};
ghost use Rattle.dw_writer.specs.Meaning.{IsTidy, IsSameWriter, Appends};
ghost use Rattle.indexmap.specs.IndexSet.{insert_key, replace_key};
ghost use Rattle.dw_line.specs.FileEqual.{file_eq};
ghost use Rattle.dw_line.specs.LineRows.{last_offset, written_header};
ghost use Rattle.dw_line.specs.SequenceTexts.{AreBuilt};
ghost use Rattle.dw_line.specs.Parts.{KeepsFront, Refused};
ghost use Rattle.dw_line.specs.ProgramTexts.{minimum_length, IsFile, IsLineEncoding, directory_index, with_directory, file_index, entry_of, with_file, with_begin, with_row, with_end, program_sequences, sequences_size, sequences_text, sequences_fail, program_length, program_size, contents_text, contents_fail, program_text, program_fails, HeaderIsWide};
ghost use Rattle.dw_line.specs.Shows.{ShowsSequences, ShowsTables};
ghost use Rattle.dw_line.specs.Names.{no_info, IsName, IsFull};

use crate::accept::{check_encoding, check_forms};
use crate::file::FileEntry;
use crate::header::write_header;
use crate::line_string::{FileInfo, LineString};
use crate::row::LineRow;
use crate::sequence::{LineSequence, write_sequence, write_sequences};
use dw_base::{Address, DirectoryId, Encoding, FileId, LineEncoding, Result};
use dw_strings::{LineStringTable, StringTable};
use dw_writer::Writer;
use indexmap::IndexSet;
use std::alloc::Global;
use std::marker::Model;
use std::mem;

/// A program's parameters, its directories and files, and its sequences.
#[derive(Drop)]
pub(crate) struct Program {
    encoding: Encoding,
    line_encoding: LineEncoding,
    directories: IndexSet<LineString>,
    files: IndexSet<FileEntry>,
    /// The sequences that were ended.
    sequences: Vec<LineSequence>,
    /// Whether a sequence was begun and not ended, with this address and these rows.
    in_sequence: bool,
    address: Option<Address>,
    rows: Vec<LineRow>,
}

impl Model for Program {
    ghost use Rattle.dw_line.specs.ProgramTexts.{ProgramValue, IsProgram};

    ghost Value = { ProgramValue };

    ghost view = { λ p. record {
      encoding = p.encoding;
      line_encoding = p.line_encoding;
      directories = p.directories.keys;
      files = p.files.keys;
      sequences = p.sequences.items;
      in_sequence = p.in_sequence;
      address = p.address;
      rows = p.rows.items;
    } };

    ghost invariant = { λ p. IsProgram p.encoding.version p.line_encoding p.directories.keys
        p.files.keys p.sequences.items p.rows.items };
}

impl Program {
    ghost use Rattle.std.specs.Prelude.{◌∷◌, false, None};

    /// A program of no files and no sequences.
    pub(crate) fn new(
        alloc: Global,
        encoding: Encoding,
        line_encoding: LineEncoding,
        working_dir: LineString,
    ) -> Result<Program>
        requires parameters { IsLineEncoding line_encoding }
        requires name { IsName working_dir }
        ensures ok { IfOk result (λ p. p ≡ record {
          encoding = encoding;
          line_encoding = line_encoding;
          directories = working_dir ∷ [];
          files = [];
          sequences = [];
          in_sequence = false;
          address = None;
          rows = [];
        }) }
        ensures err { IfErr result (λ e. e ≡ NoMemory) }
    {
        let mut directories = IndexSet::new(alloc);
        directories.insert(working_dir)?;
        Ok(Program {
            encoding,
            line_encoding,
            directories,
            files: IndexSet::new(alloc),
            sequences: Vec::new(alloc),
            in_sequence: false,
            address: None,
            rows: Vec::new(alloc),
        })
    }

    pub(crate) fn encoding(&self) -> Encoding
        ensures { result ≡ self.now.encoding }
    {
        self.encoding
    }

    pub(crate) fn line_encoding(&self) -> LineEncoding
        ensures { result ≡ self.now.line_encoding }
    {
        self.line_encoding
    }

    pub(crate) fn in_sequence(&self) -> bool
        ensures { result ≡ self.now.in_sequence }
    {
        self.in_sequence
    }

    pub(crate) fn sequence_count(&self) -> usize
        ensures { result ≡ length self.now.sequences }
    {
        self.sequences.len()
    }

    pub(crate) fn directory_count(&self) -> usize
        ensures { result ≡ length self.now.directories }
    {
        self.directories.len()
    }

    pub(crate) fn file_count(&self) -> usize
        ensures { result ≡ length self.now.files }
    {
        self.files.len()
    }

    /// The offset of the last row, or 0 before the first one.
    pub(crate) fn last_offset(&self) -> u64
        ensures { result ≡ last_offset 0 self.now.rows }
    {
        match self.rows.last() {
            Some(row) => row.address_offset,
            None => 0,
        }
    }

    pub(crate) fn add_directory(&mut self, directory: LineString) -> Result<DirectoryId>
        requires name { IsName directory }
        requires full { self.old.encoding.version ≤ 4 → IsFull directory }
        ensures id { IfOk result (λ id. id.0 ≡ directory_index self.old.directories directory) }
        ensures ok { OnOk result (self.new ≡ with_directory directory self.old) }
        ensures err { IfErr result (λ e. e ≡ NoMemory) }
        ensures kept { OnErr result (self.new ≡ self.old) }
    {
        let (index, _) = self.directories.insert_full(directory)?;
        Ok(DirectoryId::new(index))
    }

    pub(crate) fn add_file(
        &mut self,
        name: LineString,
        directory: DirectoryId,
        info: Option<FileInfo>,
    ) -> Result<FileId>
        requires name { IsName name }
        requires full { self.old.encoding.version ≤ 4 → IsFull name }
        requires text { IfSome info (λ i. IfSome i.source IsName) }
        ensures id { IfOk result
            (λ id. id.0 ≡ file_index self.old.files (entry_of name directory no_info)) }
        ensures ok { OnOk result (self.new ≡ with_file name directory info self.old) }
        ensures err { IfErr result (λ e. e ≡ NoMemory) }
        ensures kept { OnErr result (self.new ≡ self.old) }
    {
        match info {
            Some(info) => self.replace_file(FileEntry::new(name, directory, info)),
            None => self.keep_file(FileEntry::new(name, directory, FileInfo::none())),
        }
    }

    /// The id of a file, which takes the place of one that is the same.
    fn replace_file(&mut self, file: FileEntry) -> Result<FileId>
        requires { IsFile self.old.encoding.version file }
        ensures id { IfOk result (λ id. id.0 ≡ file_index self.old.files file) }
        ensures ok { OnOk result
            (self.new ≡ record self.old { files = replace_key file_eq self.old.files file }) }
        ensures err { IfErr result (λ e. e ≡ NoMemory) }
        ensures kept { OnErr result (self.new ≡ self.old) }
    {
        let (index, _) = self.files.replace_full(file)?;
        Ok(FileId::new(index))
    }

    /// The id of a file, which is added if none is the same.
    fn keep_file(&mut self, file: FileEntry) -> Result<FileId>
        requires { IsFile self.old.encoding.version file }
        ensures id { IfOk result (λ id. id.0 ≡ file_index self.old.files file) }
        ensures ok { OnOk result
            (self.new ≡ record self.old { files = insert_key file_eq self.old.files file }) }
        ensures err { IfErr result (λ e. e ≡ NoMemory) }
        ensures kept { OnErr result (self.new ≡ self.old) }
    {
        let (index, _) = self.files.insert_full(file)?;
        Ok(FileId::new(index))
    }

    pub(crate) fn begin_sequence(&mut self, address: Option<Address>)
        ensures { self.new ≡ with_begin address self.old }
    {
        self.in_sequence = true;
        self.address = address;
        self.rows.clear();
    }

    pub(crate) fn generate_row(&mut self, row: LineRow) -> Result<()>
        requires file { row.file.0 < length self.old.files }
        requires order { last_offset 0 self.old.rows ≤ row.address_offset }
        requires multiple { row.address_offset % minimum_length self.old ≡ 0 }
        ensures ok { OnOk result (self.new ≡ with_row row self.old) }
        ensures err { IfErr result (λ e. e ≡ NoMemory) }
        ensures kept { OnErr result (self.new ≡ self.old) }
    {
        // A set's length is far below the largest number, so the file has one, too.
        prove!(row.file.0 < self.files.len());
        self.rows.push(row)?;
        Ok(())
    }

    pub(crate) fn end_sequence(&mut self, end: u64) -> Result<()>
        requires order { last_offset 0 self.old.rows ≤ end }
        requires multiple { end % minimum_length self.old ≡ 0 }
        ensures ok { OnOk result (self.new ≡ with_end end self.old) }
        ensures err { IfErr result (λ e. e ≡ NoMemory) }
        ensures kept { OnErr result (self.new ≡ self.old) }
    {
        self.sequences.reserve(1)?;
        let none = Vec::new(*self.rows.allocator());
        let rows = mem::replace(&mut self.rows, none);
        self.sequences
            .push(LineSequence::new(self.address, rows, end))?;
        self.in_sequence = false;
        Ok(())
    }

    /// Writes the sequences, the last of which may be open.
    fn write_sequences<W: Writer>(&self, w: &mut W) -> Result<()>
        requires { IsTrue (is_width self.now.encoding.address_size) }
        ensures ok { OnOk result
            (Appends (W.meaning w.old) (W.meaning w.new) (sequences_size self.now)
            (sequences_text self.now)) }
        ensures sound { OnOk result
            ((e : AnError) → IsFalse (sequences_fail (W.meaning w.old).is_plain self.now e)) }
        ensures built { OnOk result
            (AreBuilt (written_header (W.meaning w.old).is_big self.now.line_encoding)
            (program_sequences self.now)) }
        ensures err { IfErr result
            (Refused (W.meaning w.old) (W.meaning w.new)
            (sequences_fail (W.meaning w.old).is_plain self.now)) }
        ensures same { IsSameWriter (W.meaning w.old) (W.meaning w.new) }
        ensures front { KeepsFront (W.meaning w.old) (W.meaning w.new) }
    {
        let sequences = self.sequences.as_slice();
        write_sequences(self.encoding, self.line_encoding, sequences, w)?;
        if self.in_sequence {
            let rows = self.rows.as_slice();
            return write_sequence(
                self.encoding,
                self.line_encoding,
                self.address,
                rows,
                None,
                w,
            );
        }
        Ok(())
    }

    /// Writes what follows the program's length.
    fn write_contents<W: Writer>(
        &self,
        line_strings: &LineStringTable,
        strings: &StringTable,
        w: &mut W,
    ) -> Result<()>
        requires { IsTrue (is_width self.now.encoding.address_size) }
        ensures ok { OnOk result
            (Appends (W.meaning w.old) (W.meaning w.new) (program_length self.now)
            (contents_text strings.now line_strings.now self.now)) }
        ensures sound { OnOk result
            ((e : AnError) → IsFalse (contents_fail strings.now line_strings.now
            (W.meaning w.old).is_plain self.now e)) }
        ensures built { OnOk result
            (AreBuilt (written_header (W.meaning w.old).is_big self.now.line_encoding)
            (program_sequences self.now)) }
        ensures wide { OnOk result
            (HeaderIsWide strings.now line_strings.now (W.meaning w.old).is_big self.now) }
        ensures err { IfErr result
            (Refused (W.meaning w.old) (W.meaning w.new)
            (contents_fail strings.now line_strings.now (W.meaning w.old).is_plain self.now)) }
        ensures same { IsSameWriter (W.meaning w.old) (W.meaning w.new) }
        ensures front { IsTidy (W.meaning w.old) →
            KeepsFront (W.meaning w.old) (W.meaning w.new) }
    {
        let directories = self.directories.as_slice();
        let files = self.files.as_slice();
        write_header(
            self.encoding,
            self.line_encoding,
            strings,
            line_strings,
            directories,
            files,
            w,
        )?;
        self.write_sequences(w)
    }

    /// Writes the program for a unit of an encoding.
    pub(crate) fn write<W: Writer>(
        &self,
        unit: Encoding,
        line_strings: &LineStringTable,
        strings: &StringTable,
        w: &mut W,
    ) -> Result<()>
        ensures ok { OnOk result
            (Appends (W.meaning w.old) (W.meaning w.new) (program_size self.now)
            (program_text strings.now line_strings.now self.now)) }
        ensures sound { OnOk result
            ((e : AnError) → IsFalse (program_fails strings.now line_strings.now
            (W.meaning w.old).is_plain unit self.now e)) }
        ensures rows { OnOk result
            (ShowsSequences (W.meaning w.old) (W.meaning w.new) (program_sequences self.now)) }
        ensures tables { OnOk result
            (ShowsTables (W.meaning w.old) (W.meaning w.new) strings.now line_strings.now
            self.now.encoding.version self.now.directories self.now.files) }
        ensures err { IfErr result
            (Refused (W.meaning w.old) (W.meaning w.new)
            (program_fails strings.now line_strings.now (W.meaning w.old).is_plain unit self.now)) }
        ensures same { IsSameWriter (W.meaning w.old) (W.meaning w.new) }
        ensures front { IsTidy (W.meaning w.old) →
            KeepsFront (W.meaning w.old) (W.meaning w.new) }
    {
        check_encoding(self.encoding, unit)?;
        let directories = self.directories.as_slice();
        let files = self.files.as_slice();
        check_forms(self.encoding.version, directories, files)?;
        let place = w.write_initial_length(self.encoding.format)?;
        let start = w.len();
        self.write_contents(line_strings, strings, w)?;
        let length = (w.len() - start) as u64;
        w.write_initial_length_at(place, length, self.encoding.format)
    }
}
