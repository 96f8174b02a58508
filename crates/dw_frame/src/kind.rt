//! The two sections of call frames.

ghost use Rattle.std.specs.Prelude.{◌≡◌};
ghost use Rattle.dw_frame.specs.Cies.{cie_id, cie_number, is_known, has_byte_register};

use dw_base::Format;

/// Which section is written.
#[derive(Clone, Copy)]
pub enum FrameKind {
    /// `.debug_frame`, for debuggers (DWARF 5, 6.4.1).
    Debug,
    /// `.eh_frame`, for unwinding at run time (Linux Standard Base Core 5.0, 10.6).
    Eh,
}

impl FrameKind {
    /// What tells a CIE from an FDE.
    pub fn cie_id(self, format: Format) -> &'static [u8]
        ensures { result.now ≡ cie_id self format }
    {
        match self {
            FrameKind::Debug => match format {
                Format::Dwarf32 => &[0xff, 0xff, 0xff, 0xff],
                Format::Dwarf64 => &[0xff, 0xff, 0xff, 0xff, 0xff, 0xff, 0xff, 0xff],
            },
            FrameKind::Eh => &[0, 0, 0, 0],
        }
    }

    /// The number that a reader finds there.
    pub fn cie_number(self, format: Format) -> u64
        ensures { result ≡ cie_number self format }
    {
        match self {
            FrameKind::Debug => match format {
                Format::Dwarf32 => u64::from(u32::MAX),
                Format::Dwarf64 => u64::MAX,
            },
            FrameKind::Eh => 0,
        }
    }

    /// Whether the section has CIEs of a version.
    pub fn knows(self, version: u16) -> bool
        ensures { result ≡ is_known self version }
    {
        match self {
            FrameKind::Debug => version == 1 || version == 3 || version == 4,
            FrameKind::Eh => version == 1,
        }
    }

    /// Whether the column of the return address has one byte.
    pub fn has_byte_register(self, version: u16) -> bool
        ensures { result ≡ has_byte_register self version }
    {
        match self {
            FrameKind::Debug => version == 1,
            FrameKind::Eh => false,
        }
    }
}
