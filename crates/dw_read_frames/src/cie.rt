//! Common information entries (DWARF 5, 6.4.1).

ghost use Rattle.std.specs.Prelude.{◌≡◌, IfOk, IfErr, Err};
ghost use Rattle.dw_base.specs.Numbers.{is_width};
ghost use Rattle.dw_read.specs.Reading.{left};
ghost use Rattle.dw_read.specs.Took.{Took};
ghost use Rattle.dw_read_frames.specs.Cies.{fields_read, version_read, sizes_read, register_read};
ghost use Rattle.dw_read_frames.specs.Cies.{is_cie_version, has_byte_register};
ghost use Rattle.dw_read_frames.specs.Augmentations.{said, is_trampoline};
ghost use Rattle.dw_read_frames.specs.Fdes.{address_encoding};
ghost use Rattle.dw_read_frames.specs.InstructionIters.{BeginsInstructions};

use crate::augmentation::{Augmentation, read_augmentation};
use crate::fde::address_encoding;
use crate::head::Head;
use crate::instructions::CallFrameInstructionIter;
use crate::operand::read_register;
use dw_base::{DwEhPe, Encoding, Format, Register};
use dw_read::{ReadError, ReadResult, Reader};

/// What a CIE says before its instructions.
#[derive(Clone, Copy)]
pub(crate) struct CieFields {
    pub(crate) encoding: Encoding,
    pub(crate) augmentation: Option<Augmentation>,
    pub(crate) code_alignment_factor: u64,
    pub(crate) data_alignment_factor: i64,
    pub(crate) return_address_register: Register,
}

/// A common information entry: what the frame descriptions that name it share.
///
/// ```
/// let column = cie.return_address_register();
/// ```
#[derive(Drop)]
pub struct CommonInformationEntry<R: Reader> {
    pub(crate) offset: usize,
    pub(crate) fields: CieFields,
    pub(crate) instructions: R,
}

impl<R: Reader> CommonInformationEntry<R> {
    /// The place of the entry in its section.
    pub fn offset(&self) -> usize
        ensures { result ≡ self.now.offset }
    {
        self.offset
    }

    /// The version, the format, and the bytes of an address.
    pub fn encoding(&self) -> Encoding
        ensures { result ≡ self.now.fields.encoding }
    {
        self.fields.encoding
    }

    /// What advances of the location are multiplied by.
    pub fn code_alignment_factor(&self) -> u64
        ensures { result ≡ self.now.fields.code_alignment_factor }
    {
        self.fields.code_alignment_factor
    }

    /// What factored offsets are multiplied by.
    pub fn data_alignment_factor(&self) -> i64
        ensures { result ≡ self.now.fields.data_alignment_factor }
    {
        self.fields.data_alignment_factor
    }

    /// The column of the return address.
    pub fn return_address_register(&self) -> Register
        ensures { result ≡ self.now.fields.return_address_register }
    {
        self.fields.return_address_register
    }

    /// How FDEs encode the pointer to their data.
    pub fn lsda_encoding(&self) -> Option<DwEhPe>
        ensures { result ≡ said (λ a. a.lsda) self.now.fields.augmentation }
    {
        match self.fields.augmentation {
            Some(augmentation) => augmentation.lsda,
            None => None,
        }
    }

    /// The address of the routine that handles exceptions, behind how it is encoded: an indirect
    /// pointer's is the place at which the address stands.
    pub fn personality_with_encoding(&self) -> Option<(DwEhPe, u64)>
        ensures { result ≡ said (λ a. a.personality) self.now.fields.augmentation }
    {
        match self.fields.augmentation {
            Some(augmentation) => augmentation.personality,
            None => None,
        }
    }

    /// How FDEs encode addresses.
    pub fn fde_address_encoding(&self) -> Option<DwEhPe>
        ensures { result ≡ said (λ a. a.fde_address_encoding) self.now.fields.augmentation }
    {
        match self.fields.augmentation {
            Some(augmentation) => augmentation.fde_address_encoding,
            None => None,
        }
    }

    /// Whether the functions are trampolines of signals.
    pub fn is_signal_trampoline(&self) -> bool
        ensures { result ≡ is_trampoline self.now.fields.augmentation }
    {
        match self.fields.augmentation {
            Some(augmentation) => augmentation.is_signal_trampoline,
            None => false,
        }
    }

    /// The first instructions, which hold for each FDE.
    pub fn instructions(&self) -> CallFrameInstructionIter<R>
        ensures { BeginsInstructions R.reading self.now.instructions
            self.now.fields.encoding.address_size
            (address_encoding self.now.fields.augmentation) result }
    {
        CallFrameInstructionIter {
            input: self.instructions.duplicate(),
            address_size: self.fields.encoding.address_size,
            address_encoding: address_encoding(self.fields.augmentation),
            has_failed: false,
        }
    }
}

/// Reads the CIE that begins so, in a section whose addresses have so many bytes.
pub(crate) fn read_cie<R: Reader>(
    head: Head<R>,
    is_eh: bool,
    size: u8,
) -> ReadResult<CommonInformationEntry<R>>
    ensures offset { IfOk result (λ c. c.offset ≡ head.offset) }
    ensures ok { IfOk result (λ c. Took _ (fields_read is_eh (R.reading head.body).is_big size
        head.format (R.reading head.body).end)
        (R.reading head.body) (R.reading c.instructions) c.fields) }
    ensures err { IfErr result (λ e. fields_read is_eh (R.reading head.body).is_big size
        head.format (R.reading head.body).end (left (R.reading head.body)) ≡ Err e) }
{
    let mut instructions = head.body;
    let fields = read_fields(&mut instructions, is_eh, size, head.format)?;
    Ok(CommonInformationEntry {
        offset: head.offset,
        fields,
        instructions,
    })
}

/// Reads the fields behind a CIE's id.
fn read_fields<R: Reader>(
    input: &mut R,
    is_eh: bool,
    size: u8,
    format: Format,
) -> ReadResult<CieFields>
    ensures ok { IfOk result (Took _ (fields_read is_eh (R.reading input.old).is_big size
        format (R.reading input.old).end)
        (R.reading input.old) (R.reading input.new)) }
    ensures err { IfErr result (λ e. fields_read is_eh (R.reading input.old).is_big size
        format (R.reading input.old).end (left (R.reading input.old)) ≡ Err e) }
{
    let version = read_version(input)?;
    let text = input.read_null_terminated()?;
    let address_size = read_sizes(input, version, size)?;
    let code_alignment_factor = input.read_uleb128()?;
    let data_alignment_factor = input.read_sleb128()?;
    let return_address_register = read_return_register(input, is_eh, version)?;
    let augmentation = read_augmentation(input, address_size, text)?;
    Ok(CieFields {
        encoding: Encoding {
            address_size,
            format,
            version,
        },
        augmentation,
        code_alignment_factor,
        data_alignment_factor,
        return_address_register,
    })
}

/// Reads a CIE's version.
fn read_version<R: Reader>(input: &mut R) -> ReadResult<u16>
    ensures ok { IfOk result (Took _ (version_read (R.reading input.old).is_big)
        (R.reading input.old) (R.reading input.new)) }
    ensures err { IfErr result (λ e. version_read (R.reading input.old).is_big
        (left (R.reading input.old)) ≡ Err e) }
{
    let version = input.read_u8()?;
    if !is_known(version) {
        return Err(ReadError::UnknownVersion(version as u16));
    }
    Ok(version as u16)
}

/// Reads how many bytes addresses have, which stands in version 4 alone.
fn read_sizes<R: Reader>(input: &mut R, version: u16, size: u8) -> ReadResult<u8>
    ensures ok { IfOk result (Took _ (sizes_read (R.reading input.old).is_big version size)
        (R.reading input.old) (R.reading input.new)) }
    ensures err { IfErr result (λ e. sizes_read (R.reading input.old).is_big version size
        (left (R.reading input.old)) ≡ Err e) }
{
    if version != 4 {
        return Ok(size);
    }
    let own = input.read_u8()?;
    if !is_address_size(own) {
        return Err(ReadError::UnsupportedAddressSize(own));
    }
    let segment = input.read_u8()?;
    if segment != 0 {
        return Err(ReadError::UnsupportedSegmentSize(segment));
    }
    Ok(own)
}

/// Reads the column of the return address.
fn read_return_register<R: Reader>(input: &mut R, is_eh: bool, version: u16) -> ReadResult<Register>
    ensures ok { IfOk result (λ r. Took _
        (register_read is_eh (R.reading input.old).is_big version)
        (R.reading input.old) (R.reading input.new) r.0) }
    ensures err { IfErr result (λ e. register_read is_eh (R.reading input.old).is_big version
        (left (R.reading input.old)) ≡ Err e) }
{
    if has_byte_register(is_eh, version) {
        let number = input.read_u8()?;
        return Ok(Register(number as u16));
    }
    let register = read_register(input)?;
    Ok(register)
}

/// Whether there are CIEs of a version.
fn is_known(version: u8) -> bool
    ensures { result ≡ is_cie_version version }
{
    matches!(version, 1 | 3 | 4)
}

/// Whether addresses of so many bytes are there.
fn is_address_size(size: u8) -> bool
    ensures { result ≡ is_width size }
{
    matches!(size, 1 | 2 | 4 | 8)
}

/// Whether the column of the return address has one byte.
fn has_byte_register(is_eh: bool, version: u16) -> bool
    ensures { result ≡ has_byte_register is_eh version }
{
    !is_eh && version == 1
}
