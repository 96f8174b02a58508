//! One unit alone.

ghost use Rattle.dw_writer.specs.Sections.{NoFixups};

use crate::building::{Call, How, Value, make_calls};
use crate::plans::{ROOT_INFO, ROOT_TABLE, Told, VERSION_4, VERSION_5};
use crate::units::holds;
use crate::writing::{Written, drop};
use dw_base::constants::{DW_AT_low_pc, DW_AT_type, DW_TAG_base_type};
use dw_dwarf::{
    Address, DebugInfoRef, DwarfUnit, Encoding, Error, Range, Result, UnitEntryId, UnitId,
};
use std::alloc::Global;

/// The encoding of a unit, and the calls that make it.
pub(crate) type Alone = (Encoding, &'static [Call]);

const FIRST_ROOT: DebugInfoRef = DebugInfoRef::Entry(UnitId(0), UnitEntryId(0));

/// The root begins at the address 0, which is no base.
const AT_0: Call = Call::Put(
    How::Set,
    0,
    DW_AT_low_pc,
    Value::Address(Address::Constant(0)),
);

const AT_1: Call = Call::Put(
    How::Set,
    0,
    DW_AT_low_pc,
    Value::Address(Address::Constant(1)),
);

const PAIR: Range = Range::OffsetPair { begin: 6, end: 7 };

const ENDS: Range = Range::StartEnd {
    begin: Address::Constant(6),
    end: Address::Constant(7),
};

const LENGTH: Range = Range::StartLength {
    begin: Address::Constant(6),
    length: 1,
};

const MISSING: Option<Error> = Some(Error::MissingBaseAddress);

const UNEXPECTED: Option<Error> = Some(Error::UnexpectedBaseAddress);

/// Units with why they are refused. A unit alone has no number, so that a reference by the place in
/// `.debug_info` can't even name its own root. Up to version 4 the pairs of a list count from the
/// root's first address, where it isn't 0, and whole addresses want none (DWARF 4, 2.6.2 and
/// 2.17.3).
const ROWS: &[(Alone, Option<Error>)] = &[
    ((VERSION_5, &[]), None),
    (
        (
            VERSION_5,
            &[
                Call::Add(0, DW_TAG_base_type),
                Call::Put(How::Set, 1, DW_AT_type, Value::InfoRef(FIRST_ROOT)),
            ],
        ),
        Some(Error::InvalidReference),
    ),
    // No attribute names the list.
    (
        (VERSION_5, &[Call::Locate(LENGTH, Some(FIRST_ROOT))]),
        Some(Error::InvalidReference),
    ),
    ((VERSION_4, &[Call::List(PAIR)]), MISSING),
    ((VERSION_4, &[AT_0, Call::List(PAIR)]), MISSING),
    ((VERSION_4, &[AT_1, Call::List(PAIR)]), None),
    ((VERSION_4, &[Call::List(ENDS)]), None),
    ((VERSION_4, &[AT_0, Call::List(ENDS)]), None),
    ((VERSION_4, &[AT_1, Call::List(ENDS)]), UNEXPECTED),
    ((VERSION_4, &[Call::List(LENGTH)]), None),
    ((VERSION_4, &[AT_0, Call::List(LENGTH)]), None),
    ((VERSION_4, &[AT_1, Call::List(LENGTH)]), UNEXPECTED),
    ((VERSION_4, &[Call::Locate(PAIR, None)]), MISSING),
    ((VERSION_4, &[AT_0, Call::Locate(PAIR, None)]), MISSING),
    ((VERSION_4, &[AT_1, Call::Locate(PAIR, None)]), None),
    ((VERSION_4, &[Call::Locate(ENDS, None)]), None),
    ((VERSION_4, &[AT_0, Call::Locate(ENDS, None)]), None),
    ((VERSION_4, &[AT_1, Call::Locate(ENDS, None)]), UNEXPECTED),
    ((VERSION_4, &[Call::Locate(LENGTH, None)]), None),
    ((VERSION_4, &[AT_0, Call::Locate(LENGTH, None)]), None),
    ((VERSION_4, &[AT_1, Call::Locate(LENGTH, None)]), UNEXPECTED),
];

/// The table, into which no other proof looks.
pub(crate) fn rows() -> &'static [(Alone, Option<Error>)] {
    ROWS
}

/// Makes calls of a unit, and writes it. One that is refused isn't marked written.
fn write_called(
    alloc: Global,
    calls: &[Call],
    dwarf: &mut DwarfUnit,
    sections: &mut Written,
) -> Result<Told>
    requires { NoFixups sections.old }
{
    make_calls(alloc, &mut dwarf.unit, calls)?;
    if dwarf.unit.is_written() {
        return Err(Error::InvalidReference);
    }
    let refusal = dwarf.write(sections).err();
    Ok((refusal, dwarf.unit.is_written() == refusal.is_none()))
}

/// Writes a new unit. One that no call changed has its root alone.
pub(crate) fn write_alone(alloc: Global, job: Alone, sections: &mut Written) -> Result<Told>
    requires { NoFixups sections.old }
{
    let (encoding, calls) = job;
    let (refusal, is_marked) = write_new(alloc, encoding, calls, sections)?;
    let is_root = !calls.is_empty() || holds(sections, Some((ROOT_INFO, ROOT_TABLE)));
    Ok((refusal, is_marked && is_root))
}

/// Writes a new unit that these calls make.
fn write_new(
    alloc: Global,
    encoding: Encoding,
    calls: &[Call],
    sections: &mut Written,
) -> Result<Told>
    requires { NoFixups sections.old }
{
    match DwarfUnit::new(alloc, encoding) {
        Ok(mut dwarf) => {
            let told = write_called(alloc, calls, &mut dwarf, sections);
            drop(dwarf);
            told
        }
        Err(error) => Err(error),
    }
}
