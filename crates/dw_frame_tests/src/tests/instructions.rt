//! Instructions up to the limits of their operands and of their spellings. The bytes are taken from
//! the tables of the standard (DWARF 5, 6.4.2 and 7.24).

use super::rules::{Body, Rule};
use super::{PLAIN, Plan, section_of};
use dw_base::{Error, Result, SectionId};
use std::alloc::Global;

/// Whether an entry of a section has these instructions at a place, and then no more than padding.
fn has_instructions(bytes: &[u8], entry: usize, at: usize, instructions: &[u8]) -> bool {
    // The entry's first byte is the lowest of the length that follows its field of four bytes.
    let length = bytes.get(entry).copied().unwrap_or(0) as usize;
    let end = entry.saturating_add(4).saturating_add(length);
    let found = bytes.get(at..end).unwrap_or(&[]);
    match found.strip_prefix(instructions) {
        Some(padding) => [0; 8].starts_with(padding),
        None => false,
    }
}

/// Whether a CIE spells these instructions as these bytes.
fn is_spelled(alloc: Global, data_factor: i8, cie: &[Rule], bytes: &[u8]) -> Result<bool> {
    let plan = Plan {
        data_factor,
        cie,
        ..PLAIN
    };
    // The factor takes a byte, or two where it has more than seven bits.
    let at = if data_factor < -64 || data_factor > 63 {
        14
    } else {
        13
    };
    let section = section_of(alloc, &[plan], SectionId::DebugFrame)?;
    Ok(has_instructions(section.slice(), 0, at, bytes))
}

/// Factors of data offsets and instructions, with their bytes, or why they are refused.
const SPELLED: &[(i8, &[Rule], Result<bool>, &[u8])] = &[
    // Rules of the frame.
    (-8, &[Rule::Cfa(7, 8)], Ok(true), &[0x0c, 0x07, 0x08]),
    (-8, &[Rule::Cfa(7, -16)], Ok(true), &[0x12, 0x07, 0x02]),
    (
        -8,
        &[Rule::Cfa(u16::MAX, i32::MAX)],
        Ok(true),
        &[0x0c, 0xff, 0xff, 0x03, 0xff, 0xff, 0xff, 0xff, 0x07],
    ),
    (-8, &[Rule::CfaRegister(7)], Ok(true), &[0x0d, 0x07]),
    (
        0,
        &[Rule::CfaRegister(u16::MAX)],
        Ok(true),
        &[0x0d, 0xff, 0xff, 0x03],
    ),
    (-8, &[Rule::CfaOffset(128)], Ok(true), &[0x0e, 0x80, 0x01]),
    (8, &[Rule::CfaOffset(-16)], Ok(true), &[0x13, 0x7e]),
    (
        1,
        &[Rule::CfaOffset(i32::MIN)],
        Ok(true),
        &[0x13, 0x80, 0x80, 0x80, 0x80, 0x78],
    ),
    // Rules of registers.
    (0, &[Rule::Restore(0)], Ok(true), &[0xc0]),
    (-8, &[Rule::Restore(63)], Ok(true), &[0xff]),
    (-8, &[Rule::Restore(64)], Ok(true), &[0x06, 0x40]),
    (
        0,
        &[Rule::Restore(u16::MAX)],
        Ok(true),
        &[0x06, 0xff, 0xff, 0x03],
    ),
    (1, &[Rule::Offset(0, 0)], Ok(true), &[0x80, 0x00]),
    (-8, &[Rule::Offset(63, -16)], Ok(true), &[0xbf, 0x02]),
    (-8, &[Rule::Offset(64, -16)], Ok(true), &[0x05, 0x40, 0x02]),
    (-8, &[Rule::Offset(63, 16)], Ok(true), &[0x11, 0x3f, 0x7e]),
    (-8, &[Rule::Offset(64, 16)], Ok(true), &[0x11, 0x40, 0x7e]),
    (
        -128,
        &[Rule::Offset(63, i32::MIN)],
        Ok(true),
        &[0xbf, 0x80, 0x80, 0x80, 0x08],
    ),
    (-8, &[Rule::ValOffset(1, -8)], Ok(true), &[0x14, 0x01, 0x01]),
    (-8, &[Rule::ValOffset(1, 8)], Ok(true), &[0x15, 0x01, 0x7f]),
    (
        1,
        &[Rule::ValOffset(64, i32::MIN)],
        Ok(true),
        &[0x15, 0x40, 0x80, 0x80, 0x80, 0x80, 0x78],
    ),
    (1, &[Rule::Undefined(128)], Ok(true), &[0x07, 0x80, 0x01]),
    (1, &[Rule::SameValue(1)], Ok(true), &[0x08, 0x01]),
    (1, &[Rule::Register(1, 2)], Ok(true), &[0x09, 0x01, 0x02]),
    // States and sizes.
    (0, &[Rule::RememberState], Ok(true), &[0x0a]),
    (0, &[Rule::RestoreState], Ok(true), &[0x0b]),
    (0, &[Rule::NegateRaState], Ok(true), &[0x2d]),
    (0, &[Rule::ArgsSize(16)], Ok(true), &[0x2e, 0x10]),
    (
        0,
        &[Rule::ArgsSize(u32::MAX)],
        Ok(true),
        &[0x2e, 0xff, 0xff, 0xff, 0xff, 0x0f],
    ),
    // Expressions.
    (
        0,
        &[Rule::ValExpression(3, Body::Offset)],
        Ok(true),
        &[0x16, 0x03, 0x02, 0x77, 0x08],
    ),
    (
        0,
        &[Rule::CfaExpression(Body::Offset)],
        Ok(true),
        &[0x0f, 0x02, 0x77, 0x08],
    ),
    (
        0,
        &[Rule::Expression(64, Body::Empty)],
        Ok(true),
        &[0x10, 0x40, 0x00],
    ),
    // Offsets that are no multiples of the factor, or whose quotient doesn't fit.
    (
        -1,
        &[Rule::CfaOffset(i32::MIN)],
        Err(Error::InvalidFrameDataOffset(i32::MIN)),
        &[],
    ),
    (
        0,
        &[Rule::Offset(1, 8)],
        Err(Error::InvalidFrameDataOffset(8)),
        &[],
    ),
    (
        -8,
        &[Rule::ValOffset(1, -7)],
        Err(Error::InvalidFrameDataOffset(-7)),
        &[],
    ),
    // Expressions that name entries, or a branch of which leads nowhere.
    (
        1,
        &[Rule::CfaExpression(Body::Convert)],
        Err(Error::UnsupportedCfiExpressionReference),
        &[],
    ),
    (
        1,
        &[Rule::CfaExpression(Body::Call)],
        Err(Error::InvalidReference),
        &[],
    ),
    (
        1,
        &[Rule::CfaExpression(Body::Skip)],
        Err(Error::UnsetBranchTarget),
        &[],
    ),
];

/// The table, behind a function so that no proof but this one's looks into it.
fn spelled() -> &'static [(i8, &'static [Rule], Result<bool>, &'static [u8])] {
    SPELLED
}

#[test]
fn spells_instructions(rt: HostRuntime) {
    for (number, case) in spelled().iter().enumerate() {
        let (data_factor, instructions, wanted, bytes) = *case;
        let answer = is_spelled(rt.alloc(), data_factor, instructions, bytes);
        assert_eq!(rt; (number, answer), (number, wanted));
    }
}

/// Whether an FDE that remembers its state at some offsets has these instructions.
fn advances(alloc: Global, code_factor: u8, fde: &[(u32, Rule)], bytes: &[u8]) -> Result<bool> {
    let plan = Plan {
        code_factor,
        fde,
        ..PLAIN
    };
    let section = section_of(alloc, &[plan], SectionId::DebugFrame)?;
    // The CIE takes 16 bytes, and what stands before the instructions of the FDE 24.
    Ok(has_instructions(section.slice(), 16, 40, bytes))
}

/// The state is remembered at these offsets.
macro_rules! at {
    ($($offset:expr),*) => {
        &[$(($offset, Rule::RememberState)),*]
    };
}

/// Factors of code offsets and what holds at offsets, with the instructions, or why they are
/// refused.
const ADVANCES: &[(u8, &[(u32, Rule)], Result<bool>, &[u8])] = &[
    // The ways are 0x3f, 0x40, 0xff, 0x100, 0xffff and 0x10000, and then none.
    (
        1,
        at![0x3f, 0x7f, 0x17e, 0x27e, 0x1_027d, 0x2_027d, 0x2_027d],
        Ok(true),
        &[
            0x7f, 0x0a, 0x02, 0x40, 0x0a, 0x02, 0xff, 0x0a, 0x03, 0x00, 0x01, 0x0a, 0x03, 0xff,
            0xff, 0x0a, 0x04, 0x00, 0x00, 0x01, 0x00, 0x0a, 0x0a,
        ],
    ),
    (
        2,
        at![22, 152, 666, 131740],
        Ok(true),
        &[
            0x4b, 0x0a, 0x02, 0x41, 0x0a, 0x03, 0x01, 0x01, 0x0a, 0x04, 0x01, 0x00, 0x01, 0x00,
            0x0a,
        ],
    ),
    (1, at![4, 3], Err(Error::InvalidFrameCodeOffset(3)), &[]),
    (4, at![4, 6], Err(Error::InvalidFrameCodeOffset(6)), &[]),
    (0, at![0, 1], Err(Error::InvalidFrameCodeOffset(1)), &[]),
];

fn advancing() -> &'static [(u8, &'static [(u32, Rule)], Result<bool>, &'static [u8])] {
    ADVANCES
}

#[test]
fn advances_by_each_width(rt: HostRuntime) {
    for (number, case) in advancing().iter().enumerate() {
        let (code_factor, fde, wanted, bytes) = *case;
        let answer = advances(rt.alloc(), code_factor, fde, bytes);
        assert_eq!(rt; (number, answer), (number, wanted));
    }
}
