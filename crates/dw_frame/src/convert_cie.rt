//! Common information entries as they were read, and what they become (DWARF 5, 6.4.1).

ghost use Rattle.std.specs.Prelude.{◌≡◌, ◌⊎◌, [], ◌++◌, option_to_list, OnOk, IfOk, IfErr};
ghost use Rattle.dw_read.specs.Reading.{left};
ghost use Rattle.dw_sources.specs.declared.convert_error.ConvertError.TheVariants.{NoMemory};
ghost use Rattle.dw_convert.specs.Outcomes.{AddressOutcome};
ghost use Rattle.dw_frame.specs.ConvertEntries.{in_i8, in_u8, PersonalityOutcome, IsCieHead, RefusesCieHead, IsCie, RefusesCie};
ghost use Rattle.dw_frame.specs.ConvertViews.{cie_terms};

use crate::cie::CommonInformationEntry;
use crate::convert_instruction::convert_instruction;
use dw_base::constants::DW_EH_PE_absptr;
use dw_base::{Address, DwEhPe};
use dw_frame_instructions::CallFrameInstruction;
use dw_read::Reader;
use dw_read_frames::CommonInformationEntry as ReadCie;
use dw_sources::{ConvertError, ConvertResult};
use std::alloc::Global;

/// Converts a CIE with its instructions. Those that only move on or pad are left out.
pub(crate) fn convert_cie<R: Reader, F: Fn(u64) -> Option<Address>>(
    alloc: Global,
    read: &ReadCie<R>,
    convert_address: &F,
) -> ConvertResult<CommonInformationEntry>
    requires { F.IsAlwaysCallable convert_address.now }
    ensures ok { IfOk result (IsCie (F.post convert_address.now) (cie_terms R.reading read.now)
        (left (R.reading read.now.instructions))) }
    ensures err { IfErr result (λ e. (e ≡ NoMemory) ⊎ RefusesCie (F.post convert_address.now)
        (cie_terms R.reading read.now) (left (R.reading read.now.instructions)) e) }
{
    let mut cie = convert_head(alloc, read, convert_address)?;
    let encoding = read.encoding();
    let factor = read.data_alignment_factor();
    let mut instructions = read.instructions();
    'instructions: while let Some(instruction) = instructions.next()? {
        let kept = convert_instruction(alloc, instruction, encoding, factor, convert_address)?;
        keep(&mut cie, kept)?;
    }
    Ok(cie)
}

/// Adds what is kept of an instruction.
fn keep(cie: &mut CommonInformationEntry, kept: Option<CallFrameInstruction>) -> ConvertResult<()>
    ensures ok { OnOk result (cie.new.instructions.items
        ≡ cie.old.instructions.items ++ option_to_list kept) }
    ensures others { cie.new ≡ record cie.old { instructions = cie.new.instructions } }
    ensures err { IfErr result (λ e. e ≡ NoMemory) }
{
    let Some(instruction) = kept else {
        return Ok(());
    };
    match cie.add_instruction(instruction) {
        Ok(()) => Ok(()),
        Err(_) => Err(ConvertError::NoMemory),
    }
}

/// Converts what a CIE says before its instructions.
fn convert_head<R: Reader, F: Fn(u64) -> Option<Address>>(
    alloc: Global,
    read: &ReadCie<R>,
    convert_address: &F,
) -> ConvertResult<CommonInformationEntry>
    requires { F.IsAlwaysCallable convert_address.now }
    ensures ok { IfOk result
        (IsCieHead (F.post convert_address.now) read.now.fields) }
    ensures instructions { IfOk result (λ c. c.instructions.items ≡ []) }
    ensures err { IfErr result
        (RefusesCieHead (F.post convert_address.now) read.now.fields) }
{
    let code_factor = in_u8(read.code_alignment_factor())?;
    let data_factor = in_i8(read.data_alignment_factor())?;
    let register = read.return_address_register();
    let encoding = read.encoding();
    let personality = convert_personality(read.personality_with_encoding(), convert_address)?;
    let mut cie = CommonInformationEntry::new(alloc, encoding, code_factor, data_factor, register);
    cie.personality = personality;
    cie.lsda_encoding = read.lsda_encoding();
    cie.fde_address_encoding = read.fde_address_encoding().unwrap_or(DW_EH_PE_absptr);
    cie.signal_trampoline = read.is_signal_trampoline();
    Ok(cie)
}

/// What the caller makes of the address of the routine that handles exceptions.
fn convert_personality<F: Fn(u64) -> Option<Address>>(
    personality: Option<(DwEhPe, u64)>,
    convert_address: &F,
) -> ConvertResult<Option<(DwEhPe, Address)>>
    requires { F.IsAlwaysCallable convert_address.now }
    ensures { PersonalityOutcome (F.post convert_address.now) personality result }
{
    let Some((encoding, address)) = personality else {
        return Ok(None);
    };
    let address = converted(address, convert_address)?;
    Ok(Some((encoding, address)))
}

/// What the caller makes of an address.
pub(crate) fn converted<F: Fn(u64) -> Option<Address>>(
    address: u64,
    convert_address: &F,
) -> ConvertResult<Address>
    requires { F.IsAlwaysCallable convert_address.now }
    ensures { AddressOutcome (F.post convert_address.now) address result }
{
    match convert_address(address) {
        Some(converted) => Ok(converted),
        None => Err(ConvertError::InvalidAddress),
    }
}

/// A factor of code offsets, which has one byte.
fn in_u8(factor: u64) -> ConvertResult<u8>
    ensures { result ≡ in_u8 factor }
{
    match u8::try_from(factor) {
        Ok(factor) => Ok(factor),
        Err(_) => Err(ConvertError::IntegerOverflow),
    }
}

/// A factor of data offsets, which has one byte.
fn in_i8(factor: i64) -> ConvertResult<i8>
    ensures { result ≡ in_i8 factor }
{
    match i8::try_from(factor) {
        Ok(factor) => Ok(factor),
        Err(_) => Err(ConvertError::IntegerOverflow),
    }
}
