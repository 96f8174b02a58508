//! Frame description entries as they were read, and what they become (DWARF 5, 6.4.1).

ghost use Rattle.std.specs.Prelude.{◌≡◌, ◌⊎◌, ◌+◌, [], ◌++◌, OnOk, IfOk, IfErr};
ghost use Rattle.dw_read.specs.Reading.{left};
ghost use Rattle.dw_read_frames.specs.InstructionViews.{instruction_of};
ghost use Rattle.dw_sources.specs.declared.convert_error.ConvertError.TheVariants.{NoMemory};
ghost use Rattle.dw_frame.specs.ConvertInstructions.{in_u32};
ghost use Rattle.dw_frame.specs.ConvertPrograms.{advance, steps_at};
ghost use Rattle.dw_frame.specs.ConvertEntries.{PointerOutcome, IsFdeHead, RefusesFdeHead, IsFde, RefusesFde};
ghost use Rattle.dw_frame.specs.ConvertViews.{fde_terms};

use crate::convert_cie::converted;
use crate::convert_instruction::{convert_instruction, in_u32};
use crate::fde::FrameDescriptionEntry;
use dw_base::Address;
use dw_frame_instructions::CallFrameInstruction;
use dw_read::Reader;
use dw_read_frames::{CallFrameInstruction as ReadInstruction, FrameDescriptionEntry as ReadFde};
use dw_sources::{ConvertError, ConvertResult};
use std::alloc::Global;

/// Converts an FDE with its instructions, each at the offset to which the advances before it lead.
pub(crate) fn convert_fde<R: Reader, F: Fn(u64) -> Option<Address>>(
    alloc: Global,
    read: &ReadFde<R>,
    convert_address: &F,
) -> ConvertResult<FrameDescriptionEntry>
    requires { F.IsAlwaysCallable convert_address.now }
    ensures ok { IfOk result (IsFde (F.post convert_address.now) (fde_terms R.reading read.now)
        (left (R.reading read.now.instructions)) read.now.fields) }
    ensures err { IfErr result (λ e. (e ≡ NoMemory) ⊎ RefusesFde (F.post convert_address.now)
        (fde_terms R.reading read.now) (left (R.reading read.now.instructions))
        read.now.fields e) }
{
    let mut fde = convert_head(alloc, read, convert_address)?;
    let encoding = read.cie().encoding();
    let code_factor = read.cie().code_alignment_factor();
    let factor = read.cie().data_alignment_factor();
    let mut instructions = read.instructions();
    let mut offset = 0;
    'instructions: while let Some(instruction) = instructions.next()? {
        offset = moved(offset, &instruction, code_factor)?;
        let kept = convert_instruction(alloc, instruction, encoding, factor, convert_address)?;
        keep(&mut fde, offset, kept)?;
    }
    Ok(fde)
}

/// Adds what is kept of an instruction at an offset.
fn keep(
    fde: &mut FrameDescriptionEntry,
    offset: u32,
    kept: Option<CallFrameInstruction>,
) -> ConvertResult<()>
    ensures ok { OnOk result
        (fde.new.steps.items ≡ fde.old.steps.items ++ steps_at offset kept) }
    ensures others { fde.new ≡ record fde.old { steps = fde.new.steps } }
    ensures err { IfErr result (λ e. e ≡ NoMemory) }
{
    let Some(instruction) = kept else {
        return Ok(());
    };
    match fde.add_instruction(offset, instruction) {
        Ok(()) => Ok(()),
        Err(_) => Err(ConvertError::NoMemory),
    }
}

/// Converts what an FDE says before its instructions.
fn convert_head<R: Reader, F: Fn(u64) -> Option<Address>>(
    alloc: Global,
    read: &ReadFde<R>,
    convert_address: &F,
) -> ConvertResult<FrameDescriptionEntry>
    requires { F.IsAlwaysCallable convert_address.now }
    ensures ok { IfOk result (IsFdeHead (F.post convert_address.now) read.now.fields) }
    ensures steps { IfOk result (λ f. f.steps.items ≡ []) }
    ensures err { IfErr result (RefusesFdeHead (F.post convert_address.now) read.now.fields) }
{
    let address = converted(read.initial_address(), convert_address)?;
    let length = in_u32(read.len())?;
    let lsda = convert_pointer(read.lsda(), convert_address)?;
    let mut fde = FrameDescriptionEntry::new(alloc, address, length);
    fde.lsda = lsda;
    Ok(fde)
}

/// What the caller makes of the address of data that there may be.
fn convert_pointer<F: Fn(u64) -> Option<Address>>(
    pointer: Option<u64>,
    convert_address: &F,
) -> ConvertResult<Option<Address>>
    requires { F.IsAlwaysCallable convert_address.now }
    ensures { PointerOutcome (F.post convert_address.now) pointer result }
{
    let Some(address) = pointer else {
        return Ok(None);
    };
    let address = converted(address, convert_address)?;
    Ok(Some(address))
}

/// The offset behind an instruction, which has 32 bits.
fn moved<R: Reader>(
    offset: u32,
    instruction: &ReadInstruction<R>,
    factor: u64,
) -> ConvertResult<u32>
    ensures { result ≡ in_u32
        (offset + advance factor (instruction_of R.reading instruction.now)) }
{
    let ReadInstruction::AdvanceLoc { delta } = instruction else {
        return Ok(offset);
    };
    let Some(way) = u64::from(*delta).checked_mul(factor) else {
        return Err(ConvertError::IntegerOverflow);
    };
    let Some(place) = u64::from(offset).checked_add(way) else {
        return Err(ConvertError::IntegerOverflow);
    };
    in_u32(place)
}
