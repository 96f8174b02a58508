//! Tables of entries, made of plans that stand in tables of cases.

mod conversions;
mod instructions;
mod linked_frames;
mod linked_sets;
mod returning;
mod rules;
mod sections;

use dw_base::constants::DW_EH_PE_absptr;
use dw_base::{Address, DwEhPe, Encoding, Format, Register, Result, RunTimeEndian, SectionId};
use dw_frame::{CommonInformationEntry, FrameDescriptionEntry, FrameTable};
use dw_writer::{DebugFrame, EhFrame, EndianVec};
use rules::Rule;
use std::alloc::Global;

/// A CIE, and an FDE that leads to it.
#[derive(Clone, Copy)]
struct Plan<'a> {
    encoding: Encoding,
    code_factor: u8,
    data_factor: i8,
    register: Register,
    personality: Option<(DwEhPe, Address)>,
    lsda_encoding: Option<DwEhPe>,
    fde_address_encoding: DwEhPe,
    signal_trampoline: bool,
    cie: &'a [Rule],
    address: Address,
    length: u32,
    lsda: Option<Address>,
    fde: &'a [(u32, Rule)],
}

const ENCODING: Encoding = Encoding {
    address_size: 8,
    format: Format::Dwarf32,
    version: 1,
};

/// An FDE at 0x1000, of 16 bytes.
const PLAIN: Plan<'static> = Plan {
    encoding: ENCODING,
    code_factor: 1,
    data_factor: 8,
    register: Register(16),
    personality: None,
    lsda_encoding: None,
    fde_address_encoding: DW_EH_PE_absptr,
    signal_trampoline: false,
    cie: &[],
    address: Address::Constant(0x1000),
    length: 0x10,
    lsda: None,
    fde: &[],
};

/// Adds instructions to a CIE.
fn instruct(alloc: Global, cie: &mut CommonInformationEntry, rules: &[Rule]) -> Result<()> {
    for rule in rules {
        cie.add_instruction(rule.instruction(alloc)?)?;
    }
    Ok(())
}

/// A copy of the CIE of a plan.
fn cie_of(alloc: Global, plan: &Plan<'_>) -> Result<CommonInformationEntry> {
    let mut cie = CommonInformationEntry::new(
        alloc,
        plan.encoding,
        plan.code_factor,
        plan.data_factor,
        plan.register,
    );
    cie.personality = plan.personality;
    cie.lsda_encoding = plan.lsda_encoding;
    cie.fde_address_encoding = plan.fde_address_encoding;
    cie.signal_trampoline = plan.signal_trampoline;
    instruct(alloc, &mut cie, plan.cie)?;
    cie.try_clone()
}

/// Adds instructions to an FDE, at their offsets.
fn move_on(alloc: Global, fde: &mut FrameDescriptionEntry, rules: &[(u32, Rule)]) -> Result<()> {
    for (offset, rule) in rules {
        fde.add_instruction(*offset, rule.instruction(alloc)?)?;
    }
    Ok(())
}

/// A copy of the FDE of a plan.
fn fde_of(alloc: Global, plan: &Plan<'_>) -> Result<FrameDescriptionEntry> {
    let mut fde = FrameDescriptionEntry::new(alloc, plan.address, plan.length);
    fde.lsda = plan.lsda;
    move_on(alloc, &mut fde, plan.fde)?;
    fde.try_clone()
}

fn add(alloc: Global, frames: &mut FrameTable, plan: &Plan<'_>) -> Result<()> {
    let cie = frames.add_cie(cie_of(alloc, plan)?)?;
    frames.add_fde(cie, fde_of(alloc, plan)?)
}

fn add_all(alloc: Global, frames: &mut FrameTable, plans: &[Plan<'_>]) -> Result<()> {
    for plan in plans {
        add(alloc, frames, plan)?;
    }
    Ok(())
}

/// `.eh_frame`, or else `.debug_frame`, that holds a table.
fn write(
    alloc: Global,
    frames: &FrameTable,
    id: SectionId,
    endian: RunTimeEndian,
) -> Result<EndianVec<RunTimeEndian>> {
    if id == SectionId::EhFrame {
        let mut section = EhFrame(EndianVec::new(alloc, endian));
        frames.write_eh_frame(&mut section)?;
        Ok(section.0)
    } else {
        let mut section = DebugFrame(EndianVec::new(alloc, endian));
        frames.write_debug_frame(&mut section)?;
        Ok(section.0)
    }
}

/// What a section holds of a table.
fn section_of(
    alloc: Global,
    plans: &[Plan<'_>],
    id: SectionId,
) -> Result<EndianVec<RunTimeEndian>> {
    let mut frames = FrameTable::new(alloc);
    add_all(alloc, &mut frames, plans)?;
    write(alloc, &frames, id, RunTimeEndian::Little)
}

/// Whether a table is written as these bytes.
fn is_section(
    alloc: Global,
    frames: &FrameTable,
    id: SectionId,
    endian: RunTimeEndian,
    bytes: &[u8],
) -> Result<bool> {
    let section = write(alloc, frames, id, endian)?;
    Ok(section.slice() == bytes)
}

/// `.debug_frame` of the plain table.
const SMALL: &[u8] = &[
    0x0c, 0, 0, 0, 0xff, 0xff, 0xff, 0xff, 0x01, 0x00, 0x01, 0x08, 0x10, 0, 0, 0, //
    0x14, 0, 0, 0, 0, 0, 0, 0, 0x00, 0x10, 0, 0, 0, 0, 0, 0, 0x10, 0, 0, 0, 0, 0, 0, 0,
];
