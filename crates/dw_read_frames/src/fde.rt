//! Frame description entries (DWARF 5, 6.4.1).

ghost use Rattle.std.specs.Prelude.{◌≡◌, IfOk, IfErr, Err, unwrap_or};
ghost use Rattle.dw_read.specs.Reading.{left};
ghost use Rattle.dw_read.specs.Took.{Took};
ghost use Rattle.dw_read_frames.specs.Fdes.{fde_read, lsda_read, pointed_read, address_encoding};
ghost use Rattle.dw_read_frames.specs.InstructionIters.{BeginsInstructions};

use crate::augmentation::Augmentation;
use crate::cie::{CieFields, CommonInformationEntry};
use crate::entries::PartialFrameDescriptionEntry;
use crate::instructions::CallFrameInstructionIter;
use crate::pointer::{read_data, read_pointer};
use dw_base::DwEhPe;
use dw_base::constants::DW_EH_PE_absptr;
use dw_read::{ReadResult, Reader};

/// What an FDE says before its instructions.
#[derive(Clone, Copy)]
pub(crate) struct FdeFields {
    pub(crate) initial_address: u64,
    pub(crate) length: u64,
    pub(crate) lsda: Option<u64>,
}

/// A frame description: how the frames of one function are unwound.
///
/// ```
/// let fde = partial.parse(cie)?;
/// let begin = fde.initial_address();
/// ```
#[derive(Drop)]
pub struct FrameDescriptionEntry<R: Reader> {
    pub(crate) offset: usize,
    pub(crate) cie: CommonInformationEntry<R>,
    pub(crate) fields: FdeFields,
    pub(crate) instructions: R,
}

impl<R: Reader> PartialFrameDescriptionEntry<R> {
    /// The frame description, which belongs to a CIE: the one at `cie_offset`.
    pub fn parse(self, cie: CommonInformationEntry<R>) -> ReadResult<FrameDescriptionEntry<R>>
        ensures offset { IfOk result (λ f. f.offset ≡ self.offset) }
        ensures cie { IfOk result (λ f. f.cie ≡ cie) }
        ensures ok { IfOk result (λ f. Took _ (fde_read (R.reading self.body).is_big
            cie.fields (R.reading self.body).end)
            (R.reading self.body) (R.reading f.instructions) f.fields) }
        ensures err { IfErr result (λ e. fde_read (R.reading self.body).is_big
            cie.fields (R.reading self.body).end (left (R.reading self.body)) ≡ Err e) }
    {
        let mut instructions = self.body;
        let fields = read_fde(&mut instructions, cie.fields)?;
        Ok(FrameDescriptionEntry {
            offset: self.offset,
            cie,
            fields,
            instructions,
        })
    }
}

impl<R: Reader> FrameDescriptionEntry<R> {
    /// The place of the entry in its section.
    pub fn offset(&self) -> usize
        ensures { result ≡ self.now.offset }
    {
        self.offset
    }

    /// The CIE that the entry belongs to.
    pub fn cie(&self) -> &CommonInformationEntry<R>
        ensures { result.now ≡ self.now.cie }
    {
        &self.cie
    }

    /// The function's first address.
    pub fn initial_address(&self) -> u64
        ensures { result ≡ self.now.fields.initial_address }
    {
        self.fields.initial_address
    }

    /// The bytes of the function.
    pub fn len(&self) -> u64
        ensures { result ≡ self.now.fields.length }
    {
        self.fields.length
    }

    /// The address of data for the function that handles exceptions.
    pub fn lsda(&self) -> Option<u64>
        ensures { result ≡ self.now.fields.lsda }
    {
        self.fields.lsda
    }

    /// The instructions of the function.
    pub fn instructions(&self) -> CallFrameInstructionIter<R>
        ensures { BeginsInstructions R.reading self.now.instructions
            self.now.cie.fields.encoding.address_size
            (address_encoding self.now.cie.fields.augmentation) result }
    {
        CallFrameInstructionIter {
            input: self.instructions.duplicate(),
            address_size: self.cie.fields.encoding.address_size,
            address_encoding: address_encoding(self.cie.fields.augmentation),
            has_failed: false,
        }
    }
}

/// Reads what stands behind the place of an FDE's CIE.
fn read_fde<R: Reader>(input: &mut R, cie: CieFields) -> ReadResult<FdeFields>
    ensures ok { IfOk result (Took _ (fde_read (R.reading input.old).is_big cie
        (R.reading input.old).end)
        (R.reading input.old) (R.reading input.new)) }
    ensures err { IfErr result (λ e. fde_read (R.reading input.old).is_big cie
        (R.reading input.old).end (left (R.reading input.old)) ≡ Err e) }
{
    let size = cie.encoding.address_size;
    let encoding = address_encoding(cie.augmentation);
    let initial_address = read_pointer(input, size, encoding)?;
    let length = read_data(input, size, encoding)?;
    let lsda = read_lsda(input, size, cie.augmentation)?;
    Ok(FdeFields {
        initial_address,
        length,
        lsda,
    })
}

/// Reads the augmentation of an FDE, by that of its CIE.
fn read_lsda<R: Reader>(
    input: &mut R,
    size: u8,
    augmentation: Option<Augmentation>,
) -> ReadResult<Option<u64>>
    ensures ok { IfOk result (Took _ (lsda_read (R.reading input.old).is_big size augmentation
        (R.reading input.old).end)
        (R.reading input.old) (R.reading input.new)) }
    ensures err { IfErr result (λ e. lsda_read (R.reading input.old).is_big size augmentation
        (R.reading input.old).end (left (R.reading input.old)) ≡ Err e) }
{
    let Some(known) = augmentation else {
        return Ok(None);
    };
    let length = input.read_uleb128()?;
    let mut data = input.split(length as usize)?;
    let lsda = read_pointed(&mut data, size, known.lsda)?;
    Ok(lsda)
}

/// Reads a pointer, where there is an encoding for it.
fn read_pointed<R: Reader>(
    input: &mut R,
    size: u8,
    encoding: Option<DwEhPe>,
) -> ReadResult<Option<u64>>
    ensures ok { IfOk result (Took _ (pointed_read (R.reading input.old).is_big size encoding
        (R.reading input.old).end)
        (R.reading input.old) (R.reading input.new)) }
    ensures err { IfErr result (λ e. pointed_read (R.reading input.old).is_big size encoding
        (R.reading input.old).end (left (R.reading input.old)) ≡ Err e) }
{
    let Some(known) = encoding else {
        return Ok(None);
    };
    let pointer = read_pointer(input, size, known)?;
    Ok(Some(pointer))
}

/// How the addresses of FDEs are encoded, by the augmentation of their CIE.
pub(crate) fn address_encoding(augmentation: Option<Augmentation>) -> DwEhPe
    ensures { result ≡ address_encoding augmentation }
{
    match augmentation {
        Some(augmentation) => augmentation.fde_address_encoding.unwrap_or(DW_EH_PE_absptr),
        None => DW_EH_PE_absptr,
    }
}
