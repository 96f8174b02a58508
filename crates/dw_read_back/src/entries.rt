//! Entries of call frame sections (DWARF 5, 6.4.1; Linux Standard Base Core 5.0, 10.6.1).

ghost use Rattle.dw_frame.specs.declared.cie.CommonInformationEntry.{CommonInformationEntry};
ghost use Rattle.dw_frame.specs.declared.fde.FrameDescriptionEntry.{FrameDescriptionEntry};
ghost use Rattle.dw_frame.specs.declared.kind.FrameKind.{FrameKind};
ghost use Rattle.dw_read_back.specs.Entries.{CieReadsBack, FdeReadsBack};

/// Whatever stands behind the bytes of a common entry that is written, the reader's grammar reads
/// them as an entry with its fields and its instructions, and leaves what stands behind.
pub fn cies_read_back()
    ensures { (kind : FrameKind) → (cie : CommonInformationEntry) → CieReadsBack kind cie }
{}

/// Whatever stands behind the bytes of a function's entry that is written, the reader's grammar
/// reads them as an entry that leads to the place of its common one, and by fields that are those
/// of its common one as its address, its length, its data and its instructions.
pub fn fdes_read_back()
    ensures { (kind : FrameKind) → (cie : CommonInformationEntry) →
        (fde : FrameDescriptionEntry) → FdeReadsBack kind cie fde }
{}
