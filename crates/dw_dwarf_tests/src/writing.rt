//! New sections and a new `Dwarf`, and what jobs write of the one into the others.

ghost use Rattle.dw_writer.specs.Sections.{NoFixups};

use crate::alone::{Alone, write_alone};
use crate::converting::{Conversion, write_converted};
use crate::failing::write_failing;
use crate::filling::fill_in;
use crate::filtering::{Filtering, Way, write_filtered};
use crate::freeing::{Freeing, write_freed};
use crate::line_programs::{Program, write_program};
use crate::plans::Told;
use crate::splitting::{Splitting, write_split};
use crate::table_files::write_file;
use crate::units::{Units, write_units};
use dw_dwarf::{Dwarf, Error, Result, RunTimeEndian, Sections};
use dw_writer::FaultVec;
use std::alloc::Global;

/// Sections in memory.
pub(crate) type Written = Sections<FaultVec<RunTimeEndian>>;

/// What is written.
#[derive(Clone, Copy)]
pub(crate) enum Job {
    Units(&'static Units),
    Alone(Alone),
    Program(Program),
    Conversion(Conversion),
    Filtering(RunTimeEndian, Way, Filtering),
    Splitting(RunTimeEndian, Splitting),
    Freeing(&'static Freeing),
    /// The file of a number of `table_files`.
    File(usize),
    /// What `filling` writes step by step.
    Filling,
    /// The file of `failing`.
    Failing,
}

/// Drops a value. What owns much is handed on to be dropped, so that its owner's proof doesn't go
/// through all that it owns.
pub(crate) fn drop<T: Drop>(_value: T) {}

/// Writes a `Dwarf`, and tells why it is refused.
pub(crate) fn refusal(dwarf: &mut Dwarf, sections: &mut Written) -> Option<Error> {
    dwarf.write(sections).err()
}

/// Writes a `Dwarf` that a job fills into sections without fixups.
fn write_into(alloc: Global, job: Job, dwarf: &mut Dwarf, sections: &mut Written) -> Result<Told>
    requires { NoFixups sections.old }
{
    match job {
        Job::Units(units) => write_units(alloc, units, sections),
        Job::Alone(alone) => write_alone(alloc, alone, sections),
        Job::Program(program) => write_program(program, dwarf, sections),
        Job::Conversion(conversion) => write_converted(alloc, conversion, dwarf, sections),
        Job::Filtering(endian, way, row) => write_filtered(alloc, endian, way, row, sections),
        Job::Splitting(endian, row) => write_split(alloc, endian, row, dwarf, sections),
        Job::Freeing(job) => write_freed(job, dwarf, sections),
        Job::File(file) => write_file(alloc, file, dwarf, sections),
        Job::Filling => fill_in(alloc, dwarf, sections),
        Job::Failing => write_failing(alloc, dwarf, sections),
    }
}

/// Writes into new sections of a byte order. The calls with these numbers fail in each of them.
pub(crate) fn write(
    alloc: Global,
    endian: RunTimeEndian,
    failing: Vec<u64>,
    job: Job,
) -> Result<Told> {
    let mut sections = Sections::new(alloc, FaultVec::new(alloc, endian, failing))?;
    let mut dwarf = Dwarf::new(alloc);
    let told = write_into(alloc, job, &mut dwarf, &mut sections);
    drop(dwarf);
    drop(sections);
    told
}
