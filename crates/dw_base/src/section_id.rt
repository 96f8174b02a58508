//! The sections of DWARF.

ghost use Rattle.std.specs.Prelude.{◌≡◌};
ghost use Rattle.dw_base.specs.SectionName.{section_name};

/// A section. The first eleven are written, in this order; the others are only read or named by
/// offsets.
#[derive(Clone, Copy, Debug, PartialEq, Eq, Hash)]
pub enum SectionId {
    DebugAbbrev,
    DebugStr,
    DebugLineStr,
    DebugLine,
    DebugRanges,
    DebugRngLists,
    DebugLoc,
    DebugLocLists,
    DebugInfo,
    DebugFrame,
    EhFrame,
    DebugAddr,
    DebugStrOffsets,
    DebugMacinfo,
    DebugMacro,
    DebugAranges,
}

impl SectionId {
    /// The section's name in an ELF file.
    pub fn name(self) -> &'static str
        ensures { result.now ≡ section_name self }
    {
        match self {
            SectionId::DebugAbbrev => ".debug_abbrev",
            SectionId::DebugStr => ".debug_str",
            SectionId::DebugLineStr => ".debug_line_str",
            SectionId::DebugLine => ".debug_line",
            SectionId::DebugRanges => ".debug_ranges",
            SectionId::DebugRngLists => ".debug_rnglists",
            SectionId::DebugLoc => ".debug_loc",
            SectionId::DebugLocLists => ".debug_loclists",
            SectionId::DebugInfo => ".debug_info",
            SectionId::DebugFrame => ".debug_frame",
            SectionId::EhFrame => ".eh_frame",
            SectionId::DebugAddr => ".debug_addr",
            SectionId::DebugStrOffsets => ".debug_str_offsets",
            SectionId::DebugMacinfo => ".debug_macinfo",
            SectionId::DebugMacro => ".debug_macro",
            SectionId::DebugAranges => ".debug_aranges",
        }
    }
}
