//! How the operands of attributes are laid out, by their forms (DWARF 5, 7.5.5 and 7.5.6).

ghost use Rattle.std.specs.Prelude.{◌≡◌, ◌≤◌, IfSome};
ghost use Rattle.dw_base.specs.Forms.{kind_of, info_place_of};
ghost use Rattle.dw_read.specs.Took.{option_of};
ghost use Rattle.dw_read.specs.Kinds.{kind_in_grammar, width_of};

use dw_base::constants::*;
use dw_base::{DwForm, Encoding};

/// How an operand is laid out.
#[derive(Clone, Copy)]
pub(crate) enum Kind {
    /// No bytes at all.
    Empty,
    /// A number of so many bytes.
    Fixed(u8),
    /// A number of sixteen bytes.
    Wide,
    Uleb,
    Sleb,
    /// Bytes after their length, which is a number of so many bytes.
    Block(u8),
    /// Bytes after their length in ULEB.
    UlebBlock,
    /// Bytes that a zero closes.
    Zeroed,
    /// A form, and its operand.
    Indirect,
}

/// The layout of a form's operand, or None for an unknown form.
pub(crate) fn kind_of(encoding: Encoding, form: DwForm) -> Option<Kind>
    requires { encoding.address_size ≤ 8 }
    ensures is { option_of kind_in_grammar result ≡ kind_of encoding form.0 }
    ensures narrow { IfSome result (λ k. width_of k ≤ 8) }
{
    let word = encoding.format.word_size();
    let place = info_place_size(encoding);
    let kind = match form {
        DW_FORM_addr => Kind::Fixed(encoding.address_size),
        DW_FORM_block1 => Kind::Block(1),
        DW_FORM_block2 => Kind::Block(2),
        DW_FORM_block4 => Kind::Block(4),
        DW_FORM_block | DW_FORM_exprloc => Kind::UlebBlock,
        DW_FORM_data1 | DW_FORM_flag | DW_FORM_ref1 | DW_FORM_strx1 | DW_FORM_addrx1 => Kind::Fixed(
            1,
        ),
        DW_FORM_data2 | DW_FORM_ref2 | DW_FORM_strx2 | DW_FORM_addrx2 => Kind::Fixed(2),
        DW_FORM_strx3 | DW_FORM_addrx3 => Kind::Fixed(3),
        DW_FORM_data4 | DW_FORM_ref4 | DW_FORM_ref_sup4 | DW_FORM_strx4 | DW_FORM_addrx4 =>
            Kind::Fixed(4),
        DW_FORM_data8 | DW_FORM_ref8 | DW_FORM_ref_sup8 | DW_FORM_ref_sig8 => Kind::Fixed(8),
        DW_FORM_data16 => Kind::Wide,
        DW_FORM_string => Kind::Zeroed,
        DW_FORM_sdata => Kind::Sleb,
        DW_FORM_udata | DW_FORM_ref_udata | DW_FORM_strx | DW_FORM_addrx => Kind::Uleb,
        DW_FORM_loclistx | DW_FORM_rnglistx => Kind::Uleb,
        DW_FORM_strp | DW_FORM_sec_offset | DW_FORM_strp_sup | DW_FORM_line_strp => Kind::Fixed(
            word,
        ),
        DW_FORM_ref_addr => Kind::Fixed(place),
        DW_FORM_indirect => Kind::Indirect,
        DW_FORM_flag_present | DW_FORM_implicit_const => Kind::Empty,
        _ => return None,
    };
    Some(kind)
}

/// The bytes of a place in `.debug_info`: in version 2 those of an address (DWARF 2, 7.5.4).
fn info_place_size(encoding: Encoding) -> u8
    ensures { result ≡ info_place_of encoding }
{
    if encoding.version == 2 {
        encoding.address_size
    } else {
        encoding.format.word_size()
    }
}
