//! Writing over new sections.

ghost use Rattle.std.specs.Prelude.{◌≡◌, ◌≢◌, true, false, All, map, IfOk, IfErr};
ghost use Rattle.dw_base.specs.Order.{is_big_of};
ghost use Rattle.dw_base.specs.declared.error.Error.TheVariants.{NoMemory};
ghost use Rattle.dw_dwarf.specs.DwarfValue.{dwarf_in};
ghost use Rattle.dw_dwarf.specs.Valid.{AreUnwritten, IsValid};
ghost use Rattle.dw_dwarf.specs.Written.{HoldsDwarf, orders_of, one_order};
ghost use Rattle.dw_dwarf.specs.Left.{IsLeft};
ghost use Rattle.dw_link.specs.Linked.{AreLeft};
ghost use Rattle.dw_link.specs.Sets.{parts_of, sets_of};
ghost use Rattle.dw_program.specs.Faults.{HasFault};
ghost use Rattle.dw_program.specs.Linked.{AreValidSets, IsFirstSetFault};
ghost use Rattle.dw_program.specs.SetParts.{AreSets, IsSet};

use dw_base::{Result, RunTimeEndian};
use dw_dwarf::Dwarf;
use dw_writer::{EndianVec, RelocVec, Sections, Writer};
use std::alloc::Global;

/// Writes into sections in memory that nothing was written into before.
pub(crate) fn write_new(
    alloc: Global,
    endian: RunTimeEndian,
    dwarf: &mut Dwarf,
) -> Result<Sections<EndianVec<RunTimeEndian>>>
    requires { AreUnwritten (dwarf_in dwarf.old) }
    ensures valid { IfOk result (λ _. IsValid true (dwarf_in dwarf.old)) }
    ensures orders { IfOk result (λ s.
        orders_of ⟦<EndianVec<RunTimeEndian> as Writer>⟧.meaning s
        ≡ one_order (is_big_of endian)) }
    ensures holds { IfOk result (λ s.
        HoldsDwarf ⟦<EndianVec<RunTimeEndian> as Writer>⟧.meaning s (dwarf_in dwarf.old)) }
    ensures err { IfErr result (λ e. e ≢ NoMemory → HasFault true (dwarf_in dwarf.old) e) }
{
    let mut sections = Sections::new(alloc, EndianVec::new(alloc, endian))?;
    dwarf.write(&mut sections)?;
    Ok(sections)
}

/// Writes each into sections of its own, with relocations for a linker.
pub(crate) fn write_sets(
    alloc: Global,
    endian: RunTimeEndian,
    dwarfs: Vec<Dwarf>,
) -> Result<Vec<Sections<RelocVec<RunTimeEndian>>>>
    requires { All AreUnwritten (map dwarf_in dwarfs.items) }
    ensures valid { IfOk result (λ _. AreValidSets (map dwarf_in dwarfs.items)) }
    ensures left { IfOk result (λ sets.
        AreLeft ⟦<RelocVec<RunTimeEndian> as Writer>⟧.meaning (is_big_of endian) sets.items
        (map dwarf_in dwarfs.items)) }
    ensures parts { IfOk result (λ sets.
        AreSets (is_big_of endian)
        (sets_of ⟦<RelocVec<RunTimeEndian> as Writer>⟧.meaning sets.items)
        (map dwarf_in dwarfs.items)) }
    ensures err { IfErr result (λ e. e ≢ NoMemory → IsFirstSetFault (map dwarf_in dwarfs.items) e) }
{
    let mut sets = Vec::new(alloc);
    for mut dwarf in dwarfs {
        sets.push(write_set(alloc, endian, &mut dwarf)?)?;
    }
    Ok(sets)
}

/// Writes into sections that nothing was written into before, with relocations for a linker.
fn write_set(
    alloc: Global,
    endian: RunTimeEndian,
    dwarf: &mut Dwarf,
) -> Result<Sections<RelocVec<RunTimeEndian>>>
    requires { AreUnwritten (dwarf_in dwarf.old) }
    ensures valid { IfOk result (λ _. IsValid false (dwarf_in dwarf.old)) }
    ensures left { IfOk result (λ set. IsLeft ⟦<RelocVec<RunTimeEndian> as Writer>⟧.meaning
        (is_big_of endian) set (dwarf_in dwarf.old)) }
    ensures parts { IfOk result (λ set. IsSet (is_big_of endian)
        (parts_of ⟦<RelocVec<RunTimeEndian> as Writer>⟧.meaning set) (dwarf_in dwarf.old)) }
    ensures err { IfErr result (λ e. e ≢ NoMemory → HasFault false (dwarf_in dwarf.old) e) }
{
    let mut sections = Sections::new(alloc, RelocVec::new(alloc, endian))?;
    dwarf.write(&mut sections)?;
    Ok(sections)
}
