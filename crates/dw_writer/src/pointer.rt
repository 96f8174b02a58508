//! How the pointers of call frame tables are laid out (Linux Standard Base Core 5.0, 10.5.1).

ghost use Rattle.std.specs.Prelude.{◌≡◌, Some, None, MatchResult};
ghost use Rattle.dw_base.specs.Pointers.{format_of, pointer_width};
ghost use Rattle.dw_writer.specs.Pointers.{layout_by, counted};
ghost use Rattle.dw_writer.specs.Causes.{EncodingRefused};

use dw_base::constants::{
    DW_EH_PE_absptr, DW_EH_PE_pcrel, DW_EH_PE_sdata2, DW_EH_PE_sdata4, DW_EH_PE_sdata8,
    DW_EH_PE_sleb128, DW_EH_PE_udata2, DW_EH_PE_udata4, DW_EH_PE_udata8, DW_EH_PE_uleb128,
};
use dw_base::{DwEhPe, Error, Result};

/// How the number of a pointer is laid out.
#[derive(Clone, Copy)]
pub enum PointerLayout {
    Uleb128,
    Sleb128,
    /// An unsigned number in so many bytes.
    Unsigned(u8),
    /// A signed number in so many bytes.
    Signed(u8),
}

/// The layout of a pointer's format, where an address has `size` bytes.
pub fn layout_of(format: DwEhPe, size: u8) -> Result<PointerLayout>
    ensures { MatchResult result (λ layout. layout_by size format.0 ≡ Some layout)
        (λ e. EncodingRefused format.0 e × (layout_by size format.0 ≡ None)) }
{
    let layout = if format.0 == DW_EH_PE_absptr.0 {
        PointerLayout::Unsigned(size)
    } else if format.0 == DW_EH_PE_uleb128.0 {
        PointerLayout::Uleb128
    } else if format.0 == DW_EH_PE_udata2.0 {
        PointerLayout::Unsigned(2)
    } else if format.0 == DW_EH_PE_udata4.0 {
        PointerLayout::Unsigned(4)
    } else if format.0 == DW_EH_PE_udata8.0 {
        PointerLayout::Unsigned(8)
    } else if format.0 == DW_EH_PE_sleb128.0 {
        PointerLayout::Sleb128
    } else if format.0 == DW_EH_PE_sdata2.0 {
        PointerLayout::Signed(2)
    } else if format.0 == DW_EH_PE_sdata4.0 {
        PointerLayout::Signed(4)
    } else if format.0 == DW_EH_PE_sdata8.0 {
        PointerLayout::Signed(8)
    } else {
        return Err(Error::UnsupportedPointerEncoding(format));
    };
    Ok(layout)
}

/// The number that a pointer to an address holds at a place: what it counts from is taken off.
pub fn counted_from(address: u64, eh_pe: DwEhPe, place: usize) -> Result<u64>
    ensures { MatchResult result (λ n. counted eh_pe.0 place address ≡ Some n)
        (λ e. EncodingRefused eh_pe.0 e × (counted eh_pe.0 place address ≡ None)) }
{
    let application = eh_pe.application().0;
    if application == DW_EH_PE_absptr.0 {
        return Ok(address);
    }
    if application == DW_EH_PE_pcrel.0 {
        return Ok(address.wrapping_sub(place as u64));
    }
    Err(Error::UnsupportedPointerEncoding(eh_pe))
}

/// The bytes of a pointer that a linker puts in.
pub fn record_width(eh_pe: DwEhPe, size: u8) -> Result<u8>
    ensures { MatchResult result (λ w. pointer_width size (format_of eh_pe.0) ≡ Some w)
        (λ e. EncodingRefused eh_pe.0 e × (pointer_width size (format_of eh_pe.0) ≡ None)) }
{
    match layout_of(eh_pe.format(), size) {
        Ok(PointerLayout::Unsigned(width)) => Ok(width),
        Ok(PointerLayout::Signed(width)) => Ok(width),
        _ => Err(Error::UnsupportedPointerEncoding(eh_pe)),
    }
}
