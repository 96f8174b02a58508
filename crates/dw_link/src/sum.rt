//! What a sum puts in the bytes of a relocation (Linux Standard Base Core 5.0, 10.5.1, where it is
//! a pointer of a call frame table).

ghost use Rattle.std.specs.Prelude.{◌≡◌, ◌↔◌, ◌||◌, true, ◌==◌, if◌then◌else◌, IsTrue};
ghost use Rattle.std.specs.Option.{ForSome};
ghost use Rattle.dw_base.specs.Numbers.{is_width, fits};
ghost use Rattle.dw_base.specs.Pointers.{pointer_width, distance, application_of, from_zero, from_place, is_signed};
ghost use Rattle.dw_writer.specs.Texts.{num_text, int_text};
ghost use Rattle.dw_writer.specs.Pointers.{signed_text, address_of, pointer_text};
ghost use Rattle.dw_writer.specs.SignedNumbers.{signed_fits, twos_complement};
ghost use Rattle.dw_writer.specs.Resolved.{sum_text};
ghost use Rattle.dw_link.specs.Faults.{is_linkable, is_width_of};
ghost use Rattle.dw_link.specs.Bits.{AreBitsOf};

use dw_base::DwEhPe;
use dw_base::constants::{
    DW_EH_PE_absptr, DW_EH_PE_pcrel, DW_EH_PE_sdata2, DW_EH_PE_sdata4, DW_EH_PE_sdata8,
    DW_EH_PE_sleb128, DW_EH_PE_udata2, DW_EH_PE_udata4, DW_EH_PE_udata8,
};

/// Whether a pointer of so many bytes by this encoding can be linked: it counts from zero or from
/// its own place, and its format has this width.
pub fn is_linkable(eh_pe: DwEhPe, size: u8) -> bool
    ensures { result ≡ is_linkable size eh_pe.0 }
{
    is_counted(eh_pe.application().0) && has_width(eh_pe.format().0, size)
}

fn is_counted(application: u8) -> bool
    ensures { result ≡ ((application == from_zero) || (application == from_place)) }
{
    application == DW_EH_PE_absptr.0 || application == DW_EH_PE_pcrel.0
}

/// Whether a format has so many bytes; that of an address has any.
fn has_width(format: u8, size: u8) -> bool
    ensures { result ≡ is_width_of size (pointer_width size format) }
{
    if format == DW_EH_PE_absptr.0 {
        return true;
    }
    if format == DW_EH_PE_udata2.0 || format == DW_EH_PE_sdata2.0 {
        return size == 2;
    }
    if format == DW_EH_PE_udata4.0 || format == DW_EH_PE_sdata4.0 {
        return size == 4;
    }
    if format == DW_EH_PE_udata8.0 || format == DW_EH_PE_sdata8.0 {
        return size == 8;
    }
    false
}

/// The bits that a sum puts in its `size` bytes, if it fits them. By a pointer's encoding that is
/// how far it stands behind what the encoding counts from, which may be the place.
pub fn bits_of_sum(sum: i128, size: u8, eh_pe: Option<DwEhPe>, place: usize) -> Option<u64>
    requires width { IsTrue (is_width size) }
    requires encoding { ForSome eh_pe (λ encoding. IsTrue (is_linkable size encoding.0)) }
    ensures { AreBitsOf size (λ big. sum_text big size place true eh_pe sum) result }
{
    match eh_pe {
        None => unsigned_bits(sum, size),
        Some(eh_pe) => pointer_bits(address_of(sum)?, eh_pe, size, place),
    }
}

/// The sum, if it fits so many bytes.
fn unsigned_bits(sum: i128, size: u8) -> Option<u64>
    requires { IsTrue (is_width size) }
    ensures { AreBitsOf size (λ big. int_text big size sum) result }
{
    let number = address_of(sum)?;
    fitting(number, size)
}

/// The sum as an address of 64 bits, if it is one.
fn address_of(sum: i128) -> Option<u64>
    ensures { result ≡ address_of sum }
{
    if sum < 0 || sum > 0xffff_ffff_ffff_ffff {
        return None;
    }
    Some(sum as u64)
}

/// The bits of a pointer to an address, if they fit so many bytes.
fn pointer_bits(address: u64, eh_pe: DwEhPe, size: u8, place: usize) -> Option<u64>
    requires width { IsTrue (is_width size) }
    requires encoding { IsTrue (is_linkable size eh_pe.0) }
    ensures { AreBitsOf size (λ big. pointer_text big size eh_pe.0 place address) result }
{
    let number = counted(address, eh_pe, place);
    if is_signed(eh_pe.format().0) {
        signed_bits(number.cast_signed(), size)
    } else {
        fitting(number, size)
    }
}

fn is_signed(format: u8) -> bool
    ensures { result ≡ is_signed format }
{
    format == DW_EH_PE_sleb128.0
        || format == DW_EH_PE_sdata2.0
        || format == DW_EH_PE_sdata4.0
        || format == DW_EH_PE_sdata8.0
}

/// How far an address stands behind what the encoding counts from, modulo 2^64.
fn counted(address: u64, eh_pe: DwEhPe, place: usize) -> u64
    ensures { result ≡ (if application_of eh_pe.0 == from_place then distance place address
        else address) }
{
    if eh_pe.application().0 == DW_EH_PE_pcrel.0 {
        address.wrapping_sub(place as u64)
    } else {
        address
    }
}

/// The number, if it fits so many bytes.
fn fitting(number: u64, size: u8) -> Option<u64>
    requires { IsTrue (is_width size) }
    ensures { AreBitsOf size (λ big. num_text big size number) result }
{
    if fits(number, size) {
        Some(number)
    } else {
        None
    }
}

fn fits(number: u64, size: u8) -> bool
    requires { IsTrue (is_width size) }
    ensures { IsTrue result ↔ IsTrue (fits size number) }
{
    match size {
        1 => number <= 0xff,
        2 => number <= 0xffff,
        4 => number <= 0xffff_ffff,
        _ => true,
    }
}

/// The bits of a signed number in two's complement, if it fits so many bytes.
fn signed_bits(number: i64, size: u8) -> Option<u64>
    requires { IsTrue (is_width size) }
    ensures { AreBitsOf size (λ big. signed_text big size number) result }
{
    if signed_fits(number, size) {
        Some(low_bits(number, size))
    } else {
        None
    }
}

fn signed_fits(number: i64, size: u8) -> bool
    requires { IsTrue (is_width size) }
    ensures { IsTrue result ↔ IsTrue (signed_fits size number) }
{
    match size {
        1 => -0x80 <= number && number <= 0x7f,
        2 => -0x8000 <= number && number <= 0x7fff,
        4 => -0x8000_0000 <= number && number <= 0x7fff_ffff,
        _ => true,
    }
}

/// The unsigned number with the same bytes as a signed one.
fn low_bits(number: i64, size: u8) -> u64
    requires width { IsTrue (is_width size) }
    requires fits { IsTrue (signed_fits size number) }
    ensures value { result ≡ twos_complement size number }
    ensures fits { IsTrue (fits size result) }
{
    let bits = number.cast_unsigned();
    match size {
        1 => bits % 0x100,
        2 => bits % 0x1_0000,
        4 => bits % 0x1_0000_0000,
        _ => bits,
    }
}
