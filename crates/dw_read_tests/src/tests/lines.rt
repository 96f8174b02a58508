//! Line programs by hand (DWARF 2 to 5, 6.2.4 and 6.2.5).

use crate::tests::sections::{Bytes, NONE, Slice, sections};
use crate::tests::told::{Told, number_of, told};
use dw_base::{DebugLineOffset, Encoding, Format, LineEncoding};
use dw_read::{AttributeValue, ReadResult, Reader};
use dw_read_lines::{
    FileEntry, FileEntryIter, IncompleteLineProgram, LineInstruction, LineInstructions,
    LineProgramHeader,
};

/// The program at an offset of `.debug_line`, with addresses of 4 bytes where it doesn't tell.
pub(crate) fn program(line: &[u8], offset: usize) -> ReadResult<IncompleteLineProgram<Slice<'_>>> {
    let dwarf = sections(&Bytes { line, ..NONE });
    IncompleteLineProgram::new(&dwarf, DebugLineOffset(offset), 4)
}

// Version 2, opcodes special from 10 on: a directory `inc`, a file `a.c` in it with the time 2 and
// the size 3; then an address, a special opcode, an advance and the end of a sequence.
pub(crate) const TWO: &[u8] = b"\x2e\x00\x00\x00\x02\x00\x1b\x00\x00\x00\
    \x01\x01\xfb\x0e\x0a\x00\x01\x01\x01\x01\x00\x00\x00\x01\
    inc\x00\x00a.c\x00\x01\x02\x03\x00\
    \x00\x05\x02\x00\x10\x00\x00\x0a\x02\x05\x00\x01\x01";

// Version 5: a directory at 0 of `.debug_line_str`; a file with a name, the directory 0 in one
// byte, a checksum, and a block of two bytes of content 0x2002, which nobody has given a meaning.
const FIVE: &[u8] = b"\x45\x00\x00\x00\x05\x00\x08\x00\x3d\x00\x00\x00\
    \x01\x01\x01\xfb\x0e\x0d\x00\x01\x01\x01\x01\x00\x00\x00\x01\x00\x00\x01\
    \x01\x01\x1f\x01\x00\x00\x00\x00\
    \x04\x01\x08\x02\x0b\x05\x1e\x82\x40\x0a\x01\
    a.c\x00\x00\x01\x02\x03\x04\x05\x06\x07\x08\x09\x0a\x0b\x0c\x0d\x0e\x0f\x10\x02\xaa\xbb";

/// The name of a directory or a file, its directory, its time, its size and its checksum.
pub(crate) type Entry = (Told, Told, Told, Told, Told);

const UNTOLD: Told = ("", 0);

fn told_or_none(value: &Option<AttributeValue<Slice<'_>>>) -> Told {
    match value {
        Some(value) => told(value),
        None => UNTOLD,
    }
}

fn entry_of(entry: &FileEntry<Slice<'_>>) -> Entry {
    (
        told_or_none(&entry.path_name),
        told_or_none(&entry.directory_index),
        told_or_none(&entry.timestamp),
        told_or_none(&entry.size),
        told_or_none(&entry.md5),
    )
}

/// The next entry.
pub(crate) fn next_entry(entries: &mut FileEntryIter<Slice<'_>>) -> ReadResult<Option<Entry>> {
    match entries.next() {
        Ok(Some(entry)) => Ok(Some(entry_of(&entry))),
        Ok(None) => Ok(None),
        Err(reason) => Err(reason),
    }
}

/// Whether the next entry is this one, and none comes behind it, however often it is asked for.
fn is_alone(entries: &mut FileEntryIter<Slice<'_>>, wanted: &Entry) -> bool {
    next_entry(entries) == Ok(Some(*wanted))
        && next_entry(entries) == Ok(None)
        && next_entry(entries) == Ok(None)
}

/// Whether a program has this one directory, and this one file.
fn has_entries(line: &[u8], directory: &Entry, file: &Entry) -> ReadResult<bool> {
    match program(line, 0) {
        Ok(program) => match program.header().include_directories() {
            Ok(directories) => are_alone(directories, directory, file),
            Err(reason) => Err(reason),
        },
        Err(reason) => Err(reason),
    }
}

/// Whether the directories are this one, and the files behind them that one.
fn are_alone(
    mut directories: FileEntryIter<Slice<'_>>,
    directory: &Entry,
    file: &Entry,
) -> ReadResult<bool> {
    let has_directory = is_alone(&mut directories, directory);
    match directories.file_names() {
        Ok(mut files) => Ok(has_directory && is_alone(&mut files, file)),
        Err(reason) => Err(reason),
    }
}

const DIRECTORY_OF_TWO: Entry = (("string", 0x0069_6e63), UNTOLD, UNTOLD, UNTOLD, UNTOLD);

const FILE_OF_TWO: Entry = (
    ("string", 0x0061_2e63),
    ("udata", 1),
    ("udata", 2),
    ("udata", 3),
    UNTOLD,
);

const DIRECTORY_OF_FIVE: Entry = (("line_str_ref", 0), UNTOLD, UNTOLD, UNTOLD, UNTOLD);

const FILE_OF_FIVE: Entry = (
    ("string", 0x0061_2e63),
    ("data1", 0),
    UNTOLD,
    UNTOLD,
    ("data16", 0x100f_0e0d_0c0b_0a09_0807_0605_0403_0201),
);

#[test]
fn reads_directories_and_files(rt: HostRuntime) {
    let two = has_entries(TWO, &DIRECTORY_OF_TWO, &FILE_OF_TWO);
    let five = has_entries(FIVE, &DIRECTORY_OF_FIVE, &FILE_OF_FIVE);
    assert_eq!(rt; (two, five), (Ok(true), Ok(true)));
}

/// What a header tells: its encoding, its place, the first special opcode, and how its lines are
/// encoded.
fn facts(line: &[u8]) -> ReadResult<(Encoding, DebugLineOffset, u8, LineEncoding)> {
    let program = program(line, 0)?;
    let header = program.header();
    Ok((
        header.encoding(),
        header.offset(),
        header.opcode_base(),
        header.line_encoding(),
    ))
}

#[test]
fn reads_what_headers_tell(rt: HostRuntime) {
    for (line, version, address_size, opcode_base) in [(TWO, 2, 4, 10), (FIVE, 5, 8, 13)] {
        let encoding = Encoding {
            address_size,
            format: Format::Dwarf32,
            version,
        };
        let line_encoding = LineEncoding {
            minimum_instruction_length: 1,
            maximum_operations_per_instruction: 1,
            default_is_stmt: true,
            line_base: -5,
            line_range: 14,
        };
        let wanted = (encoding, DebugLineOffset(0), opcode_base, line_encoding);
        assert!(rt; facts(line) == Ok(wanted), "version {version}");
    }
}

/// What the next instruction is, its operand as a number: of bytes one whose first byte is the
/// highest.
fn next_of<'a>(
    instructions: &mut LineInstructions<Slice<'a>>,
    header: &LineProgramHeader<Slice<'a>>,
) -> ReadResult<Told> {
    let instruction = instructions.next_instruction(header)?;
    Ok(match instruction {
        Some(LineInstruction::SetAddress(address)) => ("address", number_of(address.to_slice())),
        Some(LineInstruction::Special(opcode)) => ("special", opcode as u128),
        Some(LineInstruction::AdvancePc(advance)) => ("advance", advance as u128),
        Some(LineInstruction::EndSequence) => ("end", 0),
        Some(_) => ("other", 0),
        None => UNTOLD,
    })
}

const INSTRUCTIONS: [Told; 6] = [
    ("address", 0x0010_0000),
    ("special", 0),
    ("advance", 5),
    ("end", 0),
    UNTOLD,
    UNTOLD,
];

/// The first instruction of a program that isn't as it should be.
fn first_other(header: &LineProgramHeader<Slice<'_>>) -> Option<usize> {
    let mut instructions = header.instructions();
    for (index, wanted) in INSTRUCTIONS.iter().enumerate() {
        if next_of(&mut instructions, header) != Ok(*wanted) {
            return Some(index);
        }
    }
    None
}

/// The same of the program of these bytes.
fn first_other_of(line: &[u8]) -> ReadResult<Option<usize>> {
    match program(line, 0) {
        Ok(program) => Ok(first_other(program.header())),
        Err(reason) => Err(reason),
    }
}

#[test]
fn reads_instructions_of_lines(rt: HostRuntime) {
    assert!(rt; first_other_of(TWO) == Ok(None));
}
