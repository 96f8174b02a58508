//! Writers that leave to a linker what hangs on where sections start and on what symbols are.

ghost use Rattle.std.specs.Prelude.{◌≡◌, ◌+◌, ◌^◌, ◌<◌, ◌≤◌, ◌++◌, ◌∷◌, [], length, List, false, true, None, Some, pos, refl, IsTrue, OnOk, OnErr, IfOk, IfErr};
ghost use Rattle.std.specs.Borrow.{sem, Lends};
ghost use Rattle.dw_base.specs.Numbers.{is_width};
ghost use Rattle.dw_base.specs.declared.error.Error.TheVariants.{NoMemory};
ghost use Rattle.dw_writer.specs.Texts.{zeros};
ghost use Rattle.dw_writer.specs.Causes.{NumberRefused, NotAtAll, BytesRefused, PatchRefused, PlaceRefused, KeptOutside, offset_fits};
ghost use Rattle.dw_writer.specs.Meaning.{IsSameWriter, AddsWith, AddsSomeWith, ReplacesWith, ReplacesSomeWith};
ghost use Rattle.dw_writer.specs.Relocating.{relocating, record_at, record_by, never_plain};
ghost use Rattle.dw_writer.specs.declared.relocate.Relocation.{Relocation};

use crate::pointer::record_width;
use crate::writer::Writer;
use dw_base::{Address, DwEhPe, Error, Result, SectionId};

/// A number that a linker puts in: its target's value and the addend are added to what stands in
/// its place.
#[derive(Clone, Copy, PartialEq, Eq)]
pub struct Relocation {
    /// Where the number begins, in bytes from the start of what the writer has written.
    pub offset: usize,
    /// The bytes of the number.
    pub size: u8,
    /// What the linker looks up.
    pub target: RelocationTarget,
    /// What is added to the target's value.
    pub addend: i64,
    /// How a pointer in a table of call frames is encoded. No other number has it.
    pub eh_pe: Option<DwEhPe>,
}

/// What a relocation takes its value from.
#[derive(Clone, Copy, PartialEq, Eq)]
pub enum RelocationTarget {
    /// A symbol, by the number that the writer's user gave it.
    Symbol(usize),
    /// The start of a section.
    Section(SectionId),
}

/// A writer over another, with a list of relocations. It is a `Writer`: each offset into a section
/// and each symbol's address puts zeros in its place and adds one relocation. A constant address is
/// a number, and adds none.
///
/// A call that is refused may leave its relocation behind. Where that found no memory, it has
/// written nothing.
pub trait RelocateWriter {
    /// The writer of the bytes.
    type Writer: Writer;

    ghost inner: { Self → Self.Writer };

    ghost with_inner: { Self → Self.Writer → Self };

    ghost relocations: { Self → List Relocation };

    /// The writer of the bytes.
    fn writer(&self) -> &Self::Writer
        ensures { result.now ≡ inner self.now };

    /// The writer of the bytes.
    fn writer_mut(&mut self) -> &mut Self::Writer
        ensures* lends { sem 𝓛
            (Lends Self.row Self.Writer.row self.entry result (λ w. with_inner self.old w)) }
        ensures value { result.now ≡ inner self.old };

    /// Adds a relocation behind the others.
    fn relocate(&mut self, relocation: Relocation) -> Result<()>
        ensures ok { OnOk result (relocations self.new ≡ relocations self.old ++ relocation ∷ []) }
        ensures kept { OnErr result (relocations self.new ≡ relocations self.old) }
        ensures err { IfErr result (λ e. e ≡ NoMemory) }
        ensures inner { inner self.new ≡ inner self.old };

    ghost inner_with: { (s : Self) (w : Self.Writer) → inner (with_inner s w) ≡ w };

    ghost relocations_with: { (s : Self) (w : Self.Writer) →
        relocations (with_inner s w) ≡ relocations s };
}

impl<T: RelocateWriter> Writer for T {
    type Endian = <T::Writer as Writer>::Endian;

    ghost meaning = { λ s. relocating (T.Writer.meaning (T.inner s)) (T.relocations s) };

    fn endian(&self) -> <T::Writer as Writer>::Endian {
        self.writer().endian()
    }

    fn len(&self) -> usize {
        self.writer().len()
    }

    fn write(&mut self, bytes: &[u8]) -> Result<()> {
        self.writer_mut().write(bytes)
    }

    fn write_at(&mut self, offset: usize, bytes: &[u8]) -> Result<()> {
        self.writer_mut().write_at(offset, bytes)
    }

    fn write_offset(&mut self, val: usize, section: SectionId, size: u8) -> Result<()> {
        let addend = offset_addend(val, size)?;
        add_relocated(self, size, RelocationTarget::Section(section), addend, None)
    }

    fn write_offset_at(
        &mut self,
        offset: usize,
        val: usize,
        section: SectionId,
        size: u8,
    ) -> Result<()> {
        let addend = offset_addend(val, size)?;
        patch_relocated(
            self,
            offset,
            size,
            RelocationTarget::Section(section),
            addend,
        )
    }

    fn write_address(&mut self, address: Address, size: u8) -> Result<()> {
        match address {
            Address::Constant(val) => self.writer_mut().write_udata(val, size),
            Address::Symbol { symbol, addend } => {
                check_width(size)?;
                add_relocated(self, size, RelocationTarget::Symbol(symbol), addend, None)
            }
        }
    }

    fn write_symbol_pointer(
        &mut self,
        symbol: usize,
        addend: i64,
        eh_pe: DwEhPe,
        size: u8,
    ) -> Result<()> {
        let width = record_width(eh_pe, size)?;
        check_width(width)?;
        let target = RelocationTarget::Symbol(symbol);
        add_relocated(self, width, target, addend, Some(eh_pe))
    }

    ghost plain_records_nothing = { λ w plain. never_plain plain };
}

/// Adds zeros for a number that a linker puts in, and the relocation before them.
fn add_relocated<T: RelocateWriter>(
    w: &mut T,
    size: u8,
    target: RelocationTarget,
    addend: i64,
    eh_pe: Option<DwEhPe>,
) -> Result<()>
    requires { IsTrue (is_width size) }
    ensures ok { OnOk result
        (AddsWith (relocating (T.Writer.meaning (T.inner w.old)) (T.relocations w.old))
        (relocating (T.Writer.meaning (T.inner w.new)) (T.relocations w.new)) (zeros size)
        (record_by eh_pe (T.Writer.meaning (T.inner w.old)).size size target addend)) }
    ensures partly { AddsSomeWith
        (relocating (T.Writer.meaning (T.inner w.old)) (T.relocations w.old))
        (relocating (T.Writer.meaning (T.inner w.new)) (T.relocations w.new)) (zeros size)
        (record_by eh_pe (T.Writer.meaning (T.inner w.old)).size size target addend) }
    ensures err { IfErr result
        (BytesRefused (relocating (T.Writer.meaning (T.inner w.old)) (T.relocations w.old))
        (relocating (T.Writer.meaning (T.inner w.new)) (T.relocations w.new))) }
    ensures same { IsSameWriter
        (relocating (T.Writer.meaning (T.inner w.old)) (T.relocations w.old))
        (relocating (T.Writer.meaning (T.inner w.new)) (T.relocations w.new)) }
{
    let offset = w.writer().len();
    w.relocate(Relocation {
        offset,
        size,
        target,
        addend,
        eh_pe,
    })?;
    w.writer_mut().write(zero_bytes(size))
}

/// Writes zeros for a number that a linker puts in over the bytes from a place on, and the
/// relocation before them.
fn patch_relocated<T: RelocateWriter>(
    w: &mut T,
    offset: usize,
    size: u8,
    target: RelocationTarget,
    addend: i64,
) -> Result<()>
    requires { IsTrue (is_width size) }
    ensures ok { OnOk result
        (ReplacesWith (relocating (T.Writer.meaning (T.inner w.old)) (T.relocations w.old))
        (relocating (T.Writer.meaning (T.inner w.new)) (T.relocations w.new)) offset (zeros size)
        (record_at offset size target addend)) }
    ensures partly { OnErr result
        (ReplacesSomeWith (relocating (T.Writer.meaning (T.inner w.old)) (T.relocations w.old))
        (relocating (T.Writer.meaning (T.inner w.new)) (T.relocations w.new)) offset (zeros size)
        (record_at offset size target addend)) }
    ensures err { IfErr result
        (PatchRefused (relocating (T.Writer.meaning (T.inner w.old)) (T.relocations w.old))
        (relocating (T.Writer.meaning (T.inner w.new)) (T.relocations w.new)) offset size) }
    ensures outside { IfErr result
        (KeptOutside (relocating (T.Writer.meaning (T.inner w.old)) (T.relocations w.old))
        (relocating (T.Writer.meaning (T.inner w.new)) (T.relocations w.new))) }
    ensures same { IsSameWriter
        (relocating (T.Writer.meaning (T.inner w.old)) (T.relocations w.old))
        (relocating (T.Writer.meaning (T.inner w.new)) (T.relocations w.new)) }
{
    check_place(w.writer().len(), offset, size)?;
    w.relocate(Relocation {
        offset,
        size,
        target,
        addend,
        eh_pe: None,
    })?;
    w.writer_mut().write_at(offset, zero_bytes(size))
}

/// So many zeros.
fn zero_bytes(size: u8) -> &'static [u8]
    requires { IsTrue (is_width size) }
    ensures { result.now ≡ zeros size }
{
    match size {
        1 => &[0],
        2 => &[0, 0],
        4 => &[0, 0, 0, 0],
        8 => &[0, 0, 0, 0, 0, 0, 0, 0],
        _ => unreachable!(),
    }
}

fn check_width(size: u8) -> Result<()>
    ensures width { OnOk result (IsTrue (is_width size)) }
    ensures err { IfErr result (NumberRefused size true NotAtAll) }
{
    match size {
        1 | 2 | 4 | 8 => Ok(()),
        _ => Err(Error::UnsupportedWordSize(size)),
    }
}

/// An offset as the addend of a relocation, which has a sign.
fn offset_addend(val: usize, size: u8) -> Result<i64>
    ensures fits { OnOk result (IsTrue (is_width size) × IsTrue (offset_fits false size val)) }
    ensures ok { IfOk result (λ addend. addend ≡ pos val) }
    ensures err { IfErr result (NumberRefused size (offset_fits false size val) NotAtAll) }
{
    check_width(size)?;
    if val > i64::MAX as usize {
        return Err(Error::ValueTooLarge);
    }
    Ok(val as i64)
}

/// Whether so many bytes have room from a place on.
fn check_place(len: usize, offset: usize, size: u8) -> Result<()>
    ensures within { OnOk result (offset + size ≤ len) }
    ensures err { IfErr result (PlaceRefused len offset size) }
{
    if offset > len {
        return Err(Error::OffsetOutOfBounds);
    }
    if size as usize > len - offset {
        return Err(Error::LengthOutOfBounds);
    }
    Ok(())
}
