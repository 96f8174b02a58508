//! The kinds of an attribute's value.

ghost use Rattle.std.specs.Prelude.{◌≡◌};
ghost use Rattle.dw_script_fields.specs.Kinds.{kind_of};

use crate::table::find_name;

/// The kind of a value, which says what the line's other fields are.
#[derive(Clone, Copy)]
pub(crate) enum Kind {
    Address,
    Block,
    Data1,
    Data2,
    Data4,
    Data16,
    Sdata,
    ImplicitConst,
    Exprloc,
    Flag,
    FlagPresent,
    DebugInfoRef,
    String,
    RangeListsBase,
    LocationListsBase,
    LineProgramRef,
    FileIndex,
    Language,
    Number(NumberKind),
    Place(PlaceKind),
    Constant(ConstantKind),
}

/// The kind of a number of 64 bits.
#[derive(Clone, Copy)]
pub(crate) enum NumberKind {
    Data8,
    Udata,
    UnitRef,
    DebugTypesRef,
    StringRef,
    LineStringRef,
    RangeListRef,
    LocationListRef,
    AddressClass,
}

/// The kind of a place in another section, or in one of the supplementary file.
#[derive(Clone, Copy)]
pub(crate) enum PlaceKind {
    DebugInfoRefSup,
    DebugMacinfoRef,
    DebugMacroRef,
    DebugStrRefSup,
}

/// The kind of a number of one byte that the standard gives meanings.
#[derive(Clone, Copy)]
pub(crate) enum ConstantKind {
    Encoding,
    DecimalSign,
    Endianity,
    Accessibility,
    Visibility,
    Virtuality,
    IdentifierCase,
    CallingConvention,
    Inline,
    Ordering,
}

// A look-up goes through the table in order, so the kinds that come most often stand first.
const KINDS: [(&[u8], Kind); 41] = [
    (b"string", Kind::String),
    (b"unit_ref", Kind::Number(NumberKind::UnitRef)),
    (b"str_ref", Kind::Number(NumberKind::StringRef)),
    (b"data1", Kind::Data1),
    (b"udata", Kind::Number(NumberKind::Udata)),
    (b"data2", Kind::Data2),
    (b"file_index", Kind::FileIndex),
    (b"exprloc", Kind::Exprloc),
    (b"data8", Kind::Number(NumberKind::Data8)),
    (b"address", Kind::Address),
    (b"flag_present", Kind::FlagPresent),
    (b"flag", Kind::Flag),
    (b"loc_ref", Kind::Number(NumberKind::LocationListRef)),
    (b"info_ref", Kind::DebugInfoRef),
    (b"data4", Kind::Data4),
    (b"encoding", Kind::Constant(ConstantKind::Encoding)),
    (b"block", Kind::Block),
    (b"data16", Kind::Data16),
    (b"sdata", Kind::Sdata),
    (b"implicit_const", Kind::ImplicitConst),
    (b"info_ref_sup", Kind::Place(PlaceKind::DebugInfoRefSup)),
    (b"macinfo_ref", Kind::Place(PlaceKind::DebugMacinfoRef)),
    (b"macro_ref", Kind::Place(PlaceKind::DebugMacroRef)),
    (b"types_ref", Kind::Number(NumberKind::DebugTypesRef)),
    (b"str_ref_sup", Kind::Place(PlaceKind::DebugStrRefSup)),
    (b"line_program_ref", Kind::LineProgramRef),
    (b"loc_base", Kind::LocationListsBase),
    (b"range_ref", Kind::Number(NumberKind::RangeListRef)),
    (b"range_base", Kind::RangeListsBase),
    (b"line_str_ref", Kind::Number(NumberKind::LineStringRef)),
    (b"decimal_sign", Kind::Constant(ConstantKind::DecimalSign)),
    (b"endianity", Kind::Constant(ConstantKind::Endianity)),
    (
        b"accessibility",
        Kind::Constant(ConstantKind::Accessibility),
    ),
    (b"visibility", Kind::Constant(ConstantKind::Visibility)),
    (b"virtuality", Kind::Constant(ConstantKind::Virtuality)),
    (b"language", Kind::Language),
    (b"address_class", Kind::Number(NumberKind::AddressClass)),
    (
        b"identifier_case",
        Kind::Constant(ConstantKind::IdentifierCase),
    ),
    (
        b"calling_convention",
        Kind::Constant(ConstantKind::CallingConvention),
    ),
    (b"inline", Kind::Constant(ConstantKind::Inline)),
    (b"ordering", Kind::Constant(ConstantKind::Ordering)),
];

impl Kind {
    /// The kind that a field spells.
    pub(crate) fn read(field: &[u8]) -> Option<Kind>
        ensures { result ≡ kind_of field.now }
    {
        find_name(&KINDS, field)
    }
}
