//! Reads the sections of call frames, `.debug_frame` and `.eh_frame` (DWARF 5, 6.4).
#![tactic(auto)]

mod augmentation;
mod cie;
mod entries;
mod fde;
mod frame_rules;
mod head;
mod instruction;
mod instructions;
mod locations;
mod operand;
mod pointer;
mod register_rules;
mod section;

pub use cie::CommonInformationEntry;
pub use entries::{CfiEntriesIter, CieOrFde, PartialFrameDescriptionEntry};
pub use fde::FrameDescriptionEntry;
pub use instruction::CallFrameInstruction;
pub use instructions::CallFrameInstructionIter;
pub use section::{DebugFrame, EhFrame, UnwindSection};
