//! Common information entries (DWARF 5, 6.4.1).

ghost use Rattle.std.specs.Prelude.{◌≡◌, ◌<◌, ◌^◌, ◌↔◌, [], ◌∷◌, ◌++◌, None, false, IsTrue, IfSome, OnOk, OnErr, IfOk, IfErr};
ghost use Rattle.dw_base.specs.declared.error.Error.TheVariants.{NoMemory};
ghost use Rattle.dw_base.specs.declared.constants.TheConstants.{DW_EH_PE_absptr};
ghost use Rattle.dw_base.specs.Leb128.{fits_i64};
ghost use Rattle.dw_frame.specs.ReadCies.{IsShort, IsRangedCie};
ghost use Rattle.dw_frame_instructions.specs.Causes.{never, Writes};
ghost use Rattle.dw_frame.specs.Parts.{only_if, Puts};
ghost use Rattle.dw_frame.specs.Entries.{counted};
ghost use Rattle.dw_frame.specs.Cies.{IsSameCie, is_augmented, has_encoding, byte_if, letters, encoding_if, sizes, version_part, register_part, personality_part, cie_data, cie_head, cie_measures, cie_contents, cie_part};

use crate::entry::{OpenBlock, OpenEntry};
use crate::kind::FrameKind;
use dw_base::constants::DW_EH_PE_absptr;
use dw_base::{Address, DwEhPe, Encoding, Error, Register, Result};
use dw_frame_instructions::{CallFrameInstruction, copy_instructions, write_instructions};
use dw_writer::Writer;
use std::alloc::Global;

/// What the frames of several functions have in common: the factors of offsets, the column of the
/// return address, the instructions that hold at each function's begin, and how pointers are
/// encoded (DWARF 5, 6.4.1; Linux Standard Base Core 5.0, 10.6.1.1).
///
/// ```
/// let encoding = Encoding { address_size: 8, format: Format::Dwarf32, version: 1 };
/// let mut cie = CommonInformationEntry::new(alloc, encoding, 1, -8, Register(16));
/// cie.add_instruction(CallFrameInstruction::Cfa(Register(7), 8))?;
/// ```
#[derive(PartialEq, Eq, Hash, Drop)]
pub struct CommonInformationEntry {
    pub(crate) encoding: Encoding,
    pub(crate) code_alignment_factor: u8,
    pub(crate) data_alignment_factor: i8,
    return_address_register: Register,
    /// The function that handles exceptions, and the encoding of the pointer to it.
    pub personality: Option<(DwEhPe, Address)>,
    /// The encoding of the pointers to the areas of data that the FDEs have for their languages.
    pub lsda_encoding: Option<DwEhPe>,
    /// The encoding of the addresses of the FDEs.
    pub fde_address_encoding: DwEhPe,
    /// Whether the functions are trampolines of signal handlers.
    pub signal_trampoline: bool,
    instructions: Vec<CallFrameInstruction>,
}

impl CommonInformationEntry {
    /// An entry without instructions, whose addresses are absolute pointers.
    pub fn new(
        alloc: Global,
        encoding: Encoding,
        code_alignment_factor: u8,
        data_alignment_factor: i8,
        return_address_register: Register,
    ) -> CommonInformationEntry
        ensures encoding { result.encoding ≡ encoding }
        ensures code { result.code_alignment_factor ≡ code_alignment_factor }
        ensures data { result.data_alignment_factor ≡ data_alignment_factor }
        ensures register { result.return_address_register ≡ return_address_register }
        ensures personality { result.personality ≡ None }
        ensures lsda { result.lsda_encoding ≡ None }
        ensures addresses { result.fde_address_encoding ≡ DW_EH_PE_absptr }
        ensures signal { result.signal_trampoline ≡ false }
        ensures instructions { result.instructions.items ≡ [] }
    {
        CommonInformationEntry {
            encoding,
            code_alignment_factor,
            data_alignment_factor,
            return_address_register,
            personality: None,
            lsda_encoding: None,
            fde_address_encoding: DW_EH_PE_absptr,
            signal_trampoline: false,
            instructions: Vec::new(alloc),
        }
    }

    /// Adds an instruction that holds at the begin of each function.
    pub fn add_instruction(&mut self, instruction: CallFrameInstruction) -> Result<()>
        ensures ok { OnOk result
            (self.new.instructions.items ≡ self.old.instructions.items ++ instruction ∷ []) }
        ensures err { IfErr result (λ e. e ≡ NoMemory) }
        ensures kept { OnErr result
            (self.new.instructions.items ≡ self.old.instructions.items) }
        ensures others { self.new ≡ record self.old { instructions = self.new.instructions } }
    {
        self.instructions.push(instruction)?;
        Ok(())
    }

    /// Whether it has anything beyond DWARF's own fields.
    pub(crate) fn is_augmented(&self) -> bool
        ensures { result ≡ is_augmented self.now }
    {
        self.lsda_encoding.is_some()
            || self.personality.is_some()
            || self.has_encoding()
            || self.signal_trampoline
    }

    /// Whether the addresses of its FDEs are encoded in another way than as absolute pointers.
    pub(crate) fn has_encoding(&self) -> bool
        ensures { result ≡ has_encoding self.now }
    {
        self.fde_address_encoding.0 != DW_EH_PE_absptr.0
    }

    /// Writes the entry, and returns its place.
    pub(crate) fn write<W: Writer>(&self, w: &mut W, kind: FrameKind) -> Result<usize>
        ensures part { Puts result (W.meaning w.old) (W.meaning w.new) (cie_part kind self.now) }
        ensures place { IfOk result (λ p. p ≡ (W.meaning w.old).size) }
    {
        let place = w.len();
        let entry = OpenEntry::open(w, self.encoding)?;
        self.write_contents(w, kind)?;
        entry.close(w)?;
        Ok(place)
    }

    fn write_contents<W: Writer>(&self, w: &mut W, kind: FrameKind) -> Result<()>
        ensures { Puts result (W.meaning w.old) (W.meaning w.new) (cie_contents kind self.now) }
    {
        self.write_head(w, kind)?;
        self.write_measures(w, kind)?;
        self.write_block(w)?;
        let instructions = self.instructions.as_slice();
        write_instructions(instructions, w, self.encoding, self.data_alignment_factor)
    }

    /// Writes what stands before the factors.
    fn write_head<W: Writer>(&self, w: &mut W, kind: FrameKind) -> Result<()>
        ensures { Puts result (W.meaning w.old) (W.meaning w.new) (cie_head kind self.now) }
    {
        w.write(kind.cie_id(self.encoding.format))?;
        write_version(w, kind, self.encoding.version)?;
        self.write_letters(w)?;
        write_sizes(w, self.encoding)
    }

    /// Writes the augmentation string.
    fn write_letters<W: Writer>(&self, w: &mut W) -> Result<()>
        ensures { Writes result (W.meaning w.old) (W.meaning w.new) (letters self.now) never }
    {
        write_byte_if(w, self.is_augmented(), b'z')?;
        write_byte_if(w, self.lsda_encoding.is_some(), b'L')?;
        write_byte_if(w, self.personality.is_some(), b'P')?;
        write_byte_if(w, self.has_encoding(), b'R')?;
        write_byte_if(w, self.signal_trampoline, b'S')?;
        w.write(&[0])
    }

    /// Writes the factors and the column of the return address.
    fn write_measures<W: Writer>(&self, w: &mut W, kind: FrameKind) -> Result<()>
        ensures { Puts result (W.meaning w.old) (W.meaning w.new) (cie_measures kind self.now) }
    {
        w.write_uleb128(u64::from(self.code_alignment_factor))?;
        w.write_sleb128(i64::from(self.data_alignment_factor))?;
        write_register(w, kind, self.encoding.version, self.return_address_register)
    }

    /// Writes what the augmentation string announces, behind its length.
    fn write_block<W: Writer>(&self, w: &mut W) -> Result<()>
        ensures { Puts result (W.meaning w.old) (W.meaning w.new)
            (only_if (is_augmented self.now) (counted (cie_data self.now))) }
    {
        if !self.is_augmented() {
            return Ok(());
        }
        let block = OpenBlock::open(w)?;
        self.write_data(w)?;
        block.close(w)
    }

    fn write_data<W: Writer>(&self, w: &mut W) -> Result<()>
        ensures { Puts result (W.meaning w.old) (W.meaning w.new) (cie_data self.now) }
    {
        write_encoding(w, self.lsda_encoding)?;
        self.write_personality(w)?;
        write_byte_if(w, self.has_encoding(), self.fde_address_encoding.0)
    }

    fn write_personality<W: Writer>(&self, w: &mut W) -> Result<()>
        ensures { Puts result (W.meaning w.old) (W.meaning w.new)
            (personality_part self.now.encoding.address_size self.now.personality) }
    {
        match self.personality {
            None => Ok(()),
            Some((encoding, address)) => {
                w.write(&[encoding.0])?;
                w.write_eh_pointer(address, encoding, self.encoding.address_size)
            }
        }
    }

    /// Its numbers have the widths of their types, which laws over all numbers have to be told.
    /// Nothing is done.
    pub(crate) fn tell_widths(&self)
        ensures { IsRangedCie self.now }
    {
        tell_numbers(
            self.code_alignment_factor,
            self.data_alignment_factor,
            self.return_address_register,
        );
        tell_personality(self.personality);
    }

    /// Tells that another entry is the same in each field and in each instruction.
    pub fn is_same(&self, other: &CommonInformationEntry) -> bool
        ensures eq { result ≡ ⟦<CommonInformationEntry as PartialEq>⟧.eq self.now other.now }
        ensures value { IsTrue result ↔ IsSameCie self.now other.now }
    {
        self == other
    }

    /// A second entry that equals this one.
    pub fn try_clone(&self) -> Result<CommonInformationEntry>
        ensures ok { IfOk result
            (λ copy. copy.instructions.items ≡ self.now.instructions.items) }
        ensures others { IfOk result
            (λ copy. copy ≡ record self.now { instructions = copy.instructions }) }
        ensures err { IfErr result (λ e. e ≡ NoMemory) }
    {
        let alloc = *self.instructions.allocator();
        let instructions = copy_instructions(alloc, self.instructions.as_slice())?;
        Ok(CommonInformationEntry {
            encoding: self.encoding,
            code_alignment_factor: self.code_alignment_factor,
            data_alignment_factor: self.data_alignment_factor,
            return_address_register: self.return_address_register,
            personality: self.personality,
            lsda_encoding: self.lsda_encoding,
            fde_address_encoding: self.fde_address_encoding,
            signal_trampoline: self.signal_trampoline,
            instructions,
        })
    }
}

/// Writes the version, if the section knows it.
fn write_version<W: Writer>(w: &mut W, kind: FrameKind, version: u16) -> Result<()>
    ensures { Puts result (W.meaning w.old) (W.meaning w.new) (version_part kind version) }
{
    if !kind.knows(version) {
        return Err(Error::UnsupportedVersion(version));
    }
    w.write(&[version as u8])
}

/// Writes the bytes of an address and of a segment selector, which there is none of, from version 4
/// on.
fn write_sizes<W: Writer>(w: &mut W, encoding: Encoding) -> Result<()>
    ensures { Writes result (W.meaning w.old) (W.meaning w.new)
        (sizes encoding.version encoding.address_size) never }
{
    if encoding.version != 4 {
        return Ok(());
    }
    w.write(&[encoding.address_size, 0])
}

/// Writes the column of the return address, which has one byte in version 1 of `.debug_frame`.
fn write_register<W: Writer>(
    w: &mut W,
    kind: FrameKind,
    version: u16,
    register: Register,
) -> Result<()>
    ensures { Puts result (W.meaning w.old) (W.meaning w.new)
        (register_part kind version register.0) }
{
    let column = u64::from(register.0);
    if kind.has_byte_register(version) {
        w.write_udata(column, 1)
    } else {
        w.write_uleb128(column)
    }
}

/// Writes the encoding of a pointer that there may be.
fn write_encoding<W: Writer>(w: &mut W, encoding: Option<DwEhPe>) -> Result<()>
    ensures { Writes result (W.meaning w.old) (W.meaning w.new) (encoding_if encoding) never }
{
    match encoding {
        None => Ok(()),
        Some(encoding) => w.write(&[encoding.0]),
    }
}

/// Writes a byte where something holds.
fn write_byte_if<W: Writer>(w: &mut W, holds: bool, byte: u8) -> Result<()>
    ensures { Writes result (W.meaning w.old) (W.meaning w.new) (byte_if holds byte) never }
{
    if !holds {
        return Ok(());
    }
    w.write(&[byte])
}

/// The numbers of a CIE have the widths of their types.
fn tell_numbers(code_factor: u8, data_factor: i8, register: Register)
    ensures code { code_factor < 2 ^ 64 }
    ensures signed { IsTrue (fits_i64 data_factor) }
    ensures register { register.0 < 2 ^ 64 }
{
    let _numbers = (
        u64::from(code_factor),
        i64::from(data_factor),
        u64::from(register.0),
    );
}

fn tell_personality(personality: Option<(DwEhPe, Address)>)
    ensures { IfSome personality (λ p. IsShort p.1) }
{
    match personality {
        Some((_, address)) => tell_width(address),
        None => (),
    }
}

/// The number of an address has 64 bits.
pub(crate) fn tell_width(address: Address)
    ensures { IsShort address }
{
    match address {
        Address::Constant(_) => (),
        Address::Symbol { .. } => (),
    }
}
