//! Call frames of `.debug_frame` and `.eh_frame`: built and written here, and read by `read`.

pub use dw_base::CieId;
pub use dw_frame::{
    CallFrameInstruction, CommonInformationEntry, FrameDescriptionEntry, FrameTable,
};

/// Call frames that are read.
pub mod read {
    pub use dw_read_frames::{
        CallFrameInstruction, CallFrameInstructionIter, CfiEntriesIter, CieOrFde,
        CommonInformationEntry, DebugFrame, EhFrame, FrameDescriptionEntry,
        PartialFrameDescriptionEntry, UnwindSection,
    };
}
