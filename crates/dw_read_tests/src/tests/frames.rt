//! The entries of three sections, with their bytes by hand (DWARF 5, 6.4.1).

use crate::tests::input::Items;
use crate::tests::sections::{Slice, little};
use dw_base::{DwEhPe, Format, Register, RunTimeEndian};
use dw_read::{EndianSlice, ReadError, ReadResult};
use dw_read_frames::{
    CallFrameInstruction, CallFrameInstructionIter, CfiEntriesIter, CieOrFde,
    CommonInformationEntry, DebugFrame, EhFrame, FrameDescriptionEntry, UnwindSection,
};

// `.debug_frame` in little endian, with addresses of 4 bytes. At 0 a CIE of version 1: factors 1
// and -4, column 8; at 20 an FDE of 32 bytes from 0x1000 on.
pub(crate) const DEBUG_FRAME: &[u8] = b"\x10\x00\x00\x00\xff\xff\xff\xff\x01\x00\x01\x7c\x08\
    \x0c\x04\x04\x88\x01\x00\x00\
    \x10\x00\x00\x00\x00\x00\x00\x00\x00\x10\x00\x00\x20\x00\x00\x00\x42\x0e\x08\x00";

// `.eh_frame` in little endian, with addresses of 8 bytes. At 0 a CIE with all letters, whose
// pointers have four signed bytes that count from their place; at 32 an FDE from 0x10 on, of 64
// bytes; at 56 the length that ends the section, and a byte behind it.
const EH_FRAME: &[u8] = b"\x1c\x00\x00\x00\x00\x00\x00\x00\x01zPLRS\x00\x01\x78\x10\
    \x07\x9b\xec\x00\x00\x00\x1b\x1b\x0c\x07\x08\x90\x01\x00\
    \x14\x00\x00\x00\x24\x00\x00\x00\xe8\xff\xff\xff\x40\x00\x00\x00\
    \x04\xcf\x01\x00\x00\x41\x0e\x10\
    \x00\x00\x00\x00\xff";

// `.debug_frame` in big endian and the 64-bit format. At 0 a CIE of version 4 with addresses of 4
// bytes, factors 4 and -4 and column 128; at 28 an FDE of 32 bytes from 0x1000 on.
const WIDE_FRAME: &[u8] = b"\xff\xff\xff\xff\x00\x00\x00\x00\x00\x00\x00\x10\
    \xff\xff\xff\xff\xff\xff\xff\xff\x04\x00\x04\x00\x04\x7c\x80\x01\
    \xff\xff\xff\xff\x00\x00\x00\x00\x00\x00\x00\x10\
    \x00\x00\x00\x00\x00\x00\x00\x00\x00\x00\x10\x00\x00\x00\x00\x20";

// `.eh_frame` with two CIEs of version 1, with factors 1 and -8 and column 16, at 0 and at 16.
const TWO_CIES: &[u8] = b"\x0c\x00\x00\x00\x00\x00\x00\x00\x01\x00\x01\x78\x10\x00\x00\x00\
    \x0c\x00\x00\x00\x00\x00\x00\x00\x01\x00\x01\x78\x10\x00\x00\x00";

/// An instruction with its first two numbers.
type Told = (&'static str, u64, u64);

fn told(instruction: &CallFrameInstruction<Slice<'_>>) -> Told {
    match instruction {
        CallFrameInstruction::DefCfa { register, offset } => ("DefCfa", register.0 as u64, *offset),
        CallFrameInstruction::DefCfaOffset { offset } => ("DefCfaOffset", *offset, 0),
        CallFrameInstruction::AdvanceLoc { delta } => ("AdvanceLoc", *delta as u64, 0),
        CallFrameInstruction::Offset {
            register,
            factored_offset,
        } => ("Offset", register.0 as u64, *factored_offset),
        CallFrameInstruction::Nop => ("Nop", 0, 0),
        _ => ("other", 0, 0),
    }
}

/// Whether these are all instructions.
fn are_told(mut instructions: CallFrameInstructionIter<Slice<'_>>, wanted: &[Told]) -> bool {
    for told in wanted {
        if !is_next(&mut instructions, told) {
            return false;
        }
    }
    matches!(instructions.next(), Ok(None))
}

fn is_next(instructions: &mut CallFrameInstructionIter<Slice<'_>>, wanted: &Told) -> bool {
    match instructions.next() {
        Ok(Some(instruction)) => told(&instruction) == *wanted,
        _ => false,
    }
}

/// Whether two entries are read, and no more, however often it is asked for.
fn are_two(mut entries: CfiEntriesIter<Slice<'_>>) -> bool {
    for answer in [Ok(true), Ok(true), Ok(false), Ok(false)] {
        if entries.passes() != answer {
            return false;
        }
    }
    true
}

/// The place of a CIE, its version, its size of addresses and its format; its factors and column.
type Common = ((usize, u16, u8, Format), (u64, i64, Register));

/// The personality routine, how the data and the addresses of frames are encoded, and whether the
/// functions are trampolines.
type Pointers = (Option<(DwEhPe, u64)>, Option<DwEhPe>, Option<DwEhPe>, bool);

fn common(cie: &CommonInformationEntry<Slice<'_>>) -> (Common, Pointers) {
    let encoding = cie.encoding();
    let kind = (
        cie.offset(),
        encoding.version,
        encoding.address_size,
        encoding.format,
    );
    let factors = (
        cie.code_alignment_factor(),
        cie.data_alignment_factor(),
        cie.return_address_register(),
    );
    let pointers = (
        cie.personality_with_encoding(),
        cie.lsda_encoding(),
        cie.fde_address_encoding(),
        cie.is_signal_trampoline(),
    );
    ((kind, factors), pointers)
}

/// The place of an FDE and that of its CIE, its addresses and its data.
type Frame = (usize, usize, u64, u64, Option<u64>);

/// What is wanted of the one CIE and the one FDE of a section, each with its instructions.
struct Wanted {
    common: Common,
    pointers: Pointers,
    of_common: &'static [Told],
    frame: Frame,
    of_frame: &'static [Told],
}

/// Whether the first entry of a section is the CIE that is wanted.
fn has_common(mut entries: CfiEntriesIter<Slice<'_>>, wanted: &Wanted) -> bool {
    match entries.next() {
        Ok(Some(CieOrFde::Cie(cie))) => {
            common(&cie) == (wanted.common, wanted.pointers)
                && are_told(cie.instructions(), wanted.of_common)
        }
        _ => false,
    }
}

/// The FDE that the second entry of a section is. Its CIE is handed in.
fn frame<'a>(
    mut entries: CfiEntriesIter<Slice<'a>>,
    cie: CommonInformationEntry<Slice<'a>>,
) -> ReadResult<Option<(usize, FrameDescriptionEntry<Slice<'a>>)>> {
    entries.next()?;
    match entries.next()? {
        Some(CieOrFde::Fde(partial)) => {
            let place = partial.cie_offset();
            Ok(Some((place, partial.parse(cie)?)))
        }
        _ => Ok(None),
    }
}

/// Whether the second entry of a section is the FDE that is wanted.
fn has_frame<'a>(
    entries: CfiEntriesIter<Slice<'a>>,
    cie: ReadResult<CommonInformationEntry<Slice<'a>>>,
    wanted: &Wanted,
) -> bool {
    let Ok(cie) = cie else {
        return false;
    };
    match frame(entries, cie) {
        Ok(Some((cie, fde))) => {
            let told = (
                fde.offset(),
                cie,
                fde.initial_address(),
                fde.len(),
                fde.lsda(),
            );
            told == wanted.frame && are_told(fde.instructions(), wanted.of_frame)
        }
        _ => false,
    }
}

const NOP: Told = ("Nop", 0, 0);

const DEBUG: Wanted = Wanted {
    common: ((0, 1, 4, Format::Dwarf32), (1, -4, Register(8))),
    pointers: (None, None, None, false),
    of_common: &[("DefCfa", 4, 4), ("Offset", 8, 1), NOP, NOP],
    frame: (20, 0, 0x1000, 32, None),
    of_frame: &[("AdvanceLoc", 2, 0), ("DefCfaOffset", 8, 0), NOP],
};

const EH: Wanted = Wanted {
    common: ((0, 1, 8, Format::Dwarf32), (1, -8, Register(16))),
    pointers: (
        Some((DwEhPe(0x9b), 0x100)),
        Some(DwEhPe(0x1b)),
        Some(DwEhPe(0x1b)),
        true,
    ),
    of_common: &[("DefCfa", 7, 8), ("Offset", 16, 1), NOP],
    frame: (32, 0, 0x10, 64, Some(0x200)),
    of_frame: &[("AdvanceLoc", 1, 0), ("DefCfaOffset", 16, 0)],
};

const WIDE: Wanted = Wanted {
    common: ((0, 4, 4, Format::Dwarf64), (4, -4, Register(128))),
    pointers: (None, None, None, false),
    of_common: &[],
    frame: (28, 0, 0x1000, 32, None),
    of_frame: &[],
};

fn has_debug_frame(section: Slice<'_>, size: u8, wanted: &Wanted) -> bool {
    let frames = DebugFrame::new(section, size);
    are_two(frames.entries())
        && has_common(frames.entries(), wanted)
        && has_frame(frames.entries(), frames.cie_from_offset(0), wanted)
}

fn has_eh_frame(section: Slice<'_>, size: u8, wanted: &Wanted) -> bool {
    let frames = EhFrame::new(section, size);
    are_two(frames.entries())
        && has_common(frames.entries(), wanted)
        && has_frame(frames.entries(), frames.cie_from_offset(0), wanted)
}

#[test]
fn reads_the_entries_of_frames(rt: HostRuntime) {
    let wide = EndianSlice::new(WIDE_FRAME, RunTimeEndian::Big);
    let are_read = [
        has_debug_frame(little(DEBUG_FRAME), 4, &DEBUG),
        has_eh_frame(little(EH_FRAME), 8, &EH),
        has_debug_frame(wide, 8, &WIDE),
    ];
    assert_eq!(rt; are_read, [true; 3]);
}

/// The place that the common entry tells which is read at a place of `.eh_frame`.
fn place_at(section: &[u8], place: usize) -> ReadResult<usize> {
    let frames = EhFrame::new(little(section), 8);
    match frames.cie_from_offset(place) {
        Ok(cie) => Ok(cie.offset()),
        Err(reason) => Err(reason),
    }
}

#[test]
fn refuses_a_place_without_a_cie(rt: HostRuntime) {
    for (section, place, wanted) in [
        (EH_FRAME, 0, Ok(0)),
        (TWO_CIES, 16, Ok(16)),
        (EH_FRAME, 32, Err(ReadError::InvalidCiePointer(32))),
        (EH_FRAME, 56, Err(ReadError::InvalidCiePointer(56))),
        (EH_FRAME, EH_FRAME.len() + 1, Err(ReadError::UnexpectedEof)),
    ] {
        assert!(rt; place_at(section, place) == wanted, "at {place}");
    }
}
