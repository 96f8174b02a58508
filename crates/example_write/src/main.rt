//! A first program: the debugging information of `int x;`, built, written, and printed in hex.
#![tactic(auto)]

ghost use Rattle.std.specs.Prelude.{◌≡◌, false};

use dw_dwarf::constants::*;
use dw_dwarf::{
    AttributeValue, Bytes, Dwarf, Encoding, EndianVec, EntryMut, Format, LineProgram, LittleEndian,
    Result, Sections, Unit,
};
use std::alloc::Global;

fn describe_int(alloc: Global, entry: &mut EntryMut<'_>) -> Result<()> {
    let name = Bytes::new(alloc, b"int")?;
    entry.set(DW_AT_name, AttributeValue::String(name))?;
    entry.set(DW_AT_encoding, AttributeValue::Data1(0x05))?; // with a sign
    entry.set(DW_AT_byte_size, AttributeValue::Data1(4))
}

/// Adds `int` and `x` to a unit that has its root alone.
fn add_x(alloc: Global, unit: &mut Unit) -> Result<()>
    requires new { unit.old.reserved ≡ 1 }
    requires not_freed { unit.old.is_freed ≡ false }
{
    let int = unit.add(unit.root(), DW_TAG_base_type)?;
    let x = unit.add(unit.root(), DW_TAG_variable)?;
    let mut entry = unit.get_mut(x);
    entry.set(DW_AT_name, AttributeValue::String(Bytes::new(alloc, b"x")?))?;
    entry.set(DW_AT_type, AttributeValue::UnitRef(int))?;
    describe_int(alloc, &mut unit.get_mut(int))
}

fn unit_of_x(alloc: Global) -> Result<Unit> {
    let encoding = Encoding {
        address_size: 8,
        format: Format::Dwarf32,
        version: 5,
    };
    let mut unit = Unit::new(alloc, encoding, LineProgram::none())?;
    add_x(alloc, &mut unit).and(Ok(unit))
}

type Written = Sections<EndianVec<LittleEndian>>;

/// Builds the unit, and writes it.
fn write(alloc: Global, dwarf: &mut Dwarf, sections: &mut Written) -> Result<()> {
    dwarf.units.add(unit_of_x(alloc)?)?;
    dwarf.write(sections)
}

/// Prints a section: its name, how many bytes it has, and these in hex.
fn print_section(rt: &impl Print, alloc: Global, name: &str, bytes: &[u8]) -> anyhow::Result<()> {
    let digits = hex::encode(alloc, bytes)?;
    println!(rt; "{name} {} {digits}", bytes.len())?;
    Ok(())
}

/// Prints the sections that aren't empty.
fn print(rt: &impl Print, alloc: Global, sections: &Written) -> anyhow::Result<()> {
    print_section(rt, alloc, ".debug_abbrev", sections.debug_abbrev.0.slice())?;
    print_section(rt, alloc, ".debug_info", sections.debug_info.0.slice())
}

fn main(rt: HostRuntime) -> anyhow::Result<()> {
    let mut sections = Sections::new(rt.alloc(), EndianVec::new(rt.alloc(), LittleEndian))?;
    let mut dwarf = Dwarf::new(rt.alloc());
    match write(rt.alloc(), &mut dwarf, &mut sections) {
        Ok(()) => print(&rt, rt.alloc(), &sections),
        Err(error) => Err(error.into()),
    }
}
