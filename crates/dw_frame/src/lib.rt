//! Call frames: how a debugger or an unwinder finds the frame of a function's caller and what its
//! registers held (DWARF 5, 6.4).
#![tactic(auto)]

mod cie;
mod convert;
mod convert_cie;
mod convert_fde;
mod convert_instruction;
mod entry;
mod fde;
mod kind;
mod places;
mod table;

pub use cie::CommonInformationEntry;
pub use dw_frame_instructions::CallFrameInstruction;
pub use fde::FrameDescriptionEntry;
pub use table::FrameTable;
