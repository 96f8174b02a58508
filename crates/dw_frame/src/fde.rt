//! Frame description entries (DWARF 5, 6.4.1).

ghost use Rattle.std.specs.Prelude.{◌≡◌, ◌≤◌, ◌<◌, ◌^◌, [], ◌∷◌, ◌++◌, None, IfSome, OnOk, OnErr, IfOk, IfErr};
ghost use Rattle.dw_base.specs.declared.error.Error.TheVariants.{NoMemory};
ghost use Rattle.dw_frame.specs.Parts.{only_if, Puts};
ghost use Rattle.dw_frame.specs.Entries.{counted};
ghost use Rattle.dw_frame_instructions.specs.Programs.{a_step};
ghost use Rattle.dw_frame.specs.ReadCies.{IsShort};
ghost use Rattle.dw_frame.specs.Reading.{IsRanged};
ghost use Rattle.dw_frame.specs.Cies.{is_augmented};
ghost use Rattle.dw_frame.specs.Fdes.{cie_offset, cie_pointer, encoded_range, plain_range, range_part, lsda_part, fde_contents, fde_part};

use crate::cie::{CommonInformationEntry, tell_width};
use crate::entry::{OpenBlock, OpenEntry};
use crate::kind::FrameKind;
use dw_base::{Address, DwEhPe, Error, Format, Result, SectionId};
use dw_frame_instructions::{CallFrameInstruction, Step, copy_steps, write_steps};
use dw_writer::Writer;
use std::alloc::Global;

/// The frames of one function: where it lies, and how the rules of its CIE change along it
/// (DWARF 5, 6.4.1).
///
/// ```
/// let mut fde = FrameDescriptionEntry::new(alloc, Address::Constant(0x1000), 0x10);
/// fde.add_instruction(4, CallFrameInstruction::CfaOffset(16))?;
/// ```
#[derive(PartialEq, Eq, Drop)]
pub struct FrameDescriptionEntry {
    address: Address,
    length: u32,
    /// The area of data that the function has for its language.
    pub lsda: Option<Address>,
    steps: Vec<Step>,
}

impl FrameDescriptionEntry {
    /// The entry of a function that begins at an address and has so many bytes, without
    /// instructions.
    pub fn new(alloc: Global, address: Address, length: u32) -> FrameDescriptionEntry
        ensures address { result.address ≡ address }
        ensures length { result.length ≡ length }
        ensures lsda { result.lsda ≡ None }
        ensures steps { result.steps.items ≡ [] }
    {
        FrameDescriptionEntry {
            address,
            length,
            lsda: None,
            steps: Vec::new(alloc),
        }
    }

    /// Adds an instruction that holds from an offset on, in bytes from the function's begin.
    /// Offsets have to rise or stay as instructions are added, by multiples of the factor of code
    /// offsets: others are refused when they are written.
    pub fn add_instruction(&mut self, offset: u32, instruction: CallFrameInstruction) -> Result<()>
        ensures ok { OnOk result
            (self.new.steps.items ≡ self.old.steps.items ++ a_step offset instruction ∷ []) }
        ensures err { IfErr result (λ e. e ≡ NoMemory) }
        ensures kept { OnErr result (self.new.steps.items ≡ self.old.steps.items) }
        ensures others { self.new ≡ record self.old { steps = self.new.steps } }
    {
        self.steps.push(Step {
            offset,
            instruction,
        })?;
        Ok(())
    }

    /// Writes the entry behind its CIE, which stands at this place.
    pub(crate) fn write<W: Writer>(
        &self,
        w: &mut W,
        kind: FrameKind,
        cie_at: usize,
        cie: &CommonInformationEntry,
    ) -> Result<()>
        requires { cie_at ≤ (W.meaning w.old).size }
        ensures part { Puts result (W.meaning w.old) (W.meaning w.new)
            (fde_part kind cie_at cie.now self.now) }
        ensures ranged { OnOk result (IsRanged self.now) }
    {
        tell_widths(self.address, self.length, self.lsda);
        if cie.lsda_encoding.is_some() != self.lsda.is_some() {
            return Err(Error::LsdaMismatch);
        }
        let entry = OpenEntry::open(w, cie.encoding)?;
        self.write_contents(w, kind, cie_at, cie)?;
        entry.close(w)
    }

    fn write_contents<W: Writer>(
        &self,
        w: &mut W,
        kind: FrameKind,
        cie_at: usize,
        cie: &CommonInformationEntry,
    ) -> Result<()>
        requires { cie_at ≤ (W.meaning w.old).size }
        ensures { Puts result (W.meaning w.old) (W.meaning w.new)
            (fde_contents kind cie_at cie.now self.now) }
    {
        write_cie_pointer(w, kind, cie.encoding.format, cie_at)?;
        self.write_range(w, cie)?;
        self.write_block(w, cie)?;
        write_steps(
            self.steps.as_slice(),
            w,
            cie.encoding,
            cie.code_alignment_factor,
            cie.data_alignment_factor,
        )
    }

    /// Writes where the function begins, and how many bytes it has.
    fn write_range<W: Writer>(&self, w: &mut W, cie: &CommonInformationEntry) -> Result<()>
        ensures { Puts result (W.meaning w.old) (W.meaning w.new) (range_part cie.now self.now) }
    {
        let size = cie.encoding.address_size;
        if cie.has_encoding() {
            self.write_encoded_range(w, cie.fde_address_encoding, size)
        } else {
            self.write_plain_range(w, size)
        }
    }

    fn write_encoded_range<W: Writer>(&self, w: &mut W, encoding: DwEhPe, size: u8) -> Result<()>
        ensures { Puts result (W.meaning w.old) (W.meaning w.new)
            (encoded_range size encoding.0 self.now) }
    {
        w.write_eh_pointer(self.address, encoding, size)?;
        w.write_eh_pointer_data(u64::from(self.length), encoding.format(), size)
    }

    fn write_plain_range<W: Writer>(&self, w: &mut W, size: u8) -> Result<()>
        ensures { Puts result (W.meaning w.old) (W.meaning w.new) (plain_range size self.now) }
    {
        w.write_address(self.address, size)?;
        w.write_udata(u64::from(self.length), size)
    }

    /// Writes the data that the CIE announces, behind its length.
    fn write_block<W: Writer>(&self, w: &mut W, cie: &CommonInformationEntry) -> Result<()>
        ensures { Puts result (W.meaning w.old) (W.meaning w.new)
            (only_if (is_augmented cie.now) (counted
            (lsda_part cie.now.encoding.address_size cie.now.lsda_encoding self.now.lsda))) }
    {
        if !cie.is_augmented() {
            return Ok(());
        }
        let block = OpenBlock::open(w)?;
        self.write_lsda(w, cie)?;
        block.close(w)
    }

    fn write_lsda<W: Writer>(&self, w: &mut W, cie: &CommonInformationEntry) -> Result<()>
        ensures { Puts result (W.meaning w.old) (W.meaning w.new)
            (lsda_part cie.now.encoding.address_size cie.now.lsda_encoding self.now.lsda) }
    {
        let Some(encoding) = cie.lsda_encoding else {
            return Ok(());
        };
        let Some(address) = self.lsda else {
            return Ok(());
        };
        w.write_eh_pointer(address, encoding, cie.encoding.address_size)
    }

    /// A second entry that equals this one.
    pub fn try_clone(&self) -> Result<FrameDescriptionEntry>
        ensures ok { IfOk result (λ copy. copy.steps.items ≡ self.now.steps.items) }
        ensures others { IfOk result (λ copy. copy ≡ record self.now { steps = copy.steps }) }
        ensures err { IfErr result (λ e. e ≡ NoMemory) }
    {
        let alloc = *self.steps.allocator();
        let steps = copy_steps(alloc, self.steps.as_slice())?;
        Ok(FrameDescriptionEntry {
            address: self.address,
            length: self.length,
            lsda: self.lsda,
            steps,
        })
    }
}

/// Writes where the CIE stands: its offset in `.debug_frame`, or how far it stands before this
/// field in `.eh_frame`.
fn write_cie_pointer<W: Writer>(
    w: &mut W,
    kind: FrameKind,
    format: Format,
    cie_at: usize,
) -> Result<()>
    requires { cie_at ≤ (W.meaning w.old).size }
    ensures { Puts result (W.meaning w.old) (W.meaning w.new) (cie_pointer kind format cie_at) }
{
    match kind {
        FrameKind::Debug => write_cie_offset(w, format, cie_at),
        FrameKind::Eh => {
            let distance = w.len() - cie_at;
            w.write_udata(distance as u64, 4)
        }
    }
}

/// Writes the offset of a CIE. The one that is the id of CIEs would make its FDE a CIE for readers.
pub(crate) fn write_cie_offset<W: Writer>(w: &mut W, format: Format, cie_at: usize) -> Result<()>
    ensures { Puts result (W.meaning w.old) (W.meaning w.new) (cie_offset format cie_at) }
{
    if cie_at as u64 == FrameKind::Debug.cie_number(format) {
        return Err(Error::ValueTooLarge);
    }
    w.write_offset(cie_at, SectionId::DebugFrame, format.word_size())
}

/// The numbers of an FDE have the widths of their types, which laws over all numbers have to be
/// told. Nothing is done.
fn tell_widths(address: Address, size: u32, lsda: Option<Address>)
    ensures address { IsShort address }
    ensures size { size < 2 ^ 64 }
    ensures lsda { IfSome lsda IsShort }
{
    let _size = u64::from(size);
    tell_width(address);
    match lsda {
        Some(lsda) => tell_width(lsda),
        None => (),
    }
}
