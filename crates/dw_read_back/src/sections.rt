//! Whole sections of call frames (DWARF 5, 6.4.1).

ghost use Rattle.std.specs.Prelude.{List};
ghost use Rattle.dw_base.specs.declared.ids.CieId.{CieId};
ghost use Rattle.dw_frame.specs.declared.cie.CommonInformationEntry.{CommonInformationEntry};
ghost use Rattle.dw_frame.specs.declared.fde.FrameDescriptionEntry.{FrameDescriptionEntry};
ghost use Rattle.dw_frame.specs.declared.kind.FrameKind.{FrameKind};
ghost use Rattle.dw_read_back.specs.Sections.{SectionFindsAll, SectionIsWalked, SectionReadsBack};

/// A section that holds a table and nothing else is read by the reader's grammar to its last byte
/// as the entries of the table, one right behind another: each function's entry leads to the place
/// where its common one was read, and is read by the fields of that.
pub fn sections_read_back()
    ensures frames { (kind : FrameKind) → (cies : List CommonInformationEntry) →
        (fdes : List (CieId × FrameDescriptionEntry)) → SectionReadsBack kind cies fdes }
    // A reader that goes from entry to entry comes to its end.
    ensures walked { (kind : FrameKind) → (cies : List CommonInformationEntry) →
        (fdes : List (CieId × FrameDescriptionEntry)) → SectionIsWalked kind cies fdes }
    // At the place that an FDE leads to, it finds the CIE.
    ensures found { (kind : FrameKind) → (cies : List CommonInformationEntry) →
        (fdes : List (CieId × FrameDescriptionEntry)) → SectionFindsAll kind cies fdes }
{}
