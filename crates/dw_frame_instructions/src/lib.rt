//! Call frame programs: the instructions that tell how the rules change by which an unwinder finds
//! the registers of a caller, and how they are spelled (DWARF 5, 6.4.2).
#![tactic(auto)]

mod advance;
mod factor;
mod instruction;
mod operand;
mod program;
mod spelling;

pub use instruction::CallFrameInstruction;
pub use program::{Step, copy_instructions, copy_steps, write_instructions, write_steps};
