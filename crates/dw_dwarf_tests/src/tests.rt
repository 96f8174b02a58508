//! Whether what is written is as its tables have it.

use crate::filtering::Way;
use crate::table_files::{FILES, endian};
use crate::writing::{Job, write};
use crate::{alone, converting, filtering, freeing, line_programs, splitting, units};
use dw_dwarf::{Error, RunTimeEndian};
use std::alloc::Global;

const LITTLE: RunTimeEndian = RunTimeEndian::Little;

/// Tells whether a job is refused so, or not at all, and all else is as it is to be then.
fn is_answered(alloc: Global, endian: RunTimeEndian, job: Job, refusal: Option<Error>) -> bool {
    write(alloc, endian, Vec::new(alloc), job) == Ok((refusal, true))
}

#[test]
fn writes_units_behind_others(rt: HostRuntime) {
    for (name, row, refusal) in units::rows() {
        let is_so = is_answered(rt.alloc(), LITTLE, Job::Units(row), *refusal);
        assert!(rt; is_so, "{name}");
    }
}

#[test]
fn writes_units_alone(rt: HostRuntime) {
    for (number, (row, refusal)) in alone::rows().iter().enumerate() {
        let is_so = is_answered(rt.alloc(), LITTLE, Job::Alone(*row), *refusal);
        assert!(rt; is_so, "{number}");
    }
}

/// A place in `.debug_info` is open until the unit's table is written. A unit that gave its entries
/// up keeps its places, so that a later one is led there. No line program has no place of its own.
#[test]
fn fills_in_what_a_unit_leaves_open(rt: HostRuntime) {
    let refusal = Some(Error::IncompatibleLineProgramEncoding);
    assert!(rt; is_answered(rt.alloc(), LITTLE, Job::Filling, refusal));
}

#[test]
fn writes_what_it_converts(rt: HostRuntime) {
    for (name, row) in converting::rows() {
        let is_so = is_answered(rt.alloc(), LITTLE, Job::Conversion(*row), None);
        assert!(rt; is_so, "{name}");
    }
}

#[test]
fn writes_units_as_it_converts_them(rt: HostRuntime) {
    for (name, row, refusal) in freeing::rows() {
        let is_so = is_answered(rt.alloc(), LITTLE, Job::Freeing(row), *refusal);
        assert!(rt; is_so, "{name}");
    }
}

/// Tells whether what is written under the filter of a row is what the row wants.
fn is_filtered(alloc: Global, row: &filtering::Row) -> bool {
    let (_, endian, filtering) = *row;
    is_answered(
        alloc,
        endian,
        Job::Filtering(endian, Way::AtOnce, filtering),
        None,
    ) && is_answered(
        alloc,
        endian,
        Job::Filtering(endian, Way::UnitByUnit, filtering),
        None,
    )
}

/// The name of the first row of a table that is written otherwise.
fn first_missed(alloc: Global, rows: &'static [filtering::Row]) -> Option<&'static str> {
    for row in rows {
        if !is_filtered(alloc, row) {
            return Some(row.0);
        }
    }
    None
}

#[test]
fn writes_what_a_filter_keeps(rt: HostRuntime) {
    for rows in filtering::tables() {
        let missed = first_missed(rt.alloc(), rows);
        assert!(rt; missed.is_none(), "{}", missed.unwrap_or(""));
    }
}

/// The name of the first row of a table of split units that is written otherwise.
fn first_split_missed(alloc: Global, rows: &'static [splitting::Row]) -> Option<&'static str> {
    for row in rows {
        let (name, endian, splitting) = *row;
        if !is_answered(alloc, endian, Job::Splitting(endian, splitting), None) {
            return Some(name);
        }
    }
    None
}

#[test]
fn writes_split_units_that_it_puts_back(rt: HostRuntime) {
    for rows in splitting::tables() {
        let missed = first_split_missed(rt.alloc(), rows);
        assert!(rt; missed.is_none(), "{}", missed.unwrap_or(""));
    }
}

#[test]
fn writes_programs_that_it_converts(rt: HostRuntime) {
    for (name, row) in line_programs::rows() {
        let is_so = is_answered(rt.alloc(), LITTLE, Job::Program(*row), None);
        assert!(rt; is_so, "{name}");
    }
}

#[test]
fn reads_and_converts_back(rt: HostRuntime) {
    for file in 0..FILES {
        let is_so = is_answered(rt.alloc(), endian(file), Job::File(file), None);
        assert!(rt; is_so, "{file}");
    }
}

/// Jobs that are tried with each call failing in turn, and what is told of them beside the fault:
/// of the file that its units are left as they may be then, of units that are written as soon as
/// they are converted that not all is as it is to be.
const FAULTY: [(&str, Job, bool); 2] = [
    ("a file", Job::Failing, true),
    (
        "units that are converted",
        Job::Freeing(freeing::EACH_WRITTEN),
        false,
    ),
];

/// Whether a job writes all where the calls of these numbers fail, or else a fault is told, and
/// this beside it.
fn is_written(alloc: Global, failing: Vec<u64>, job: Job, at_fault: bool) -> Option<bool> {
    match write(alloc, LITTLE, failing, job) {
        Ok((None, true)) => Some(true),
        Ok((Some(Error::WriteFault), told)) if told == at_fault => Some(false),
        _ => None,
    }
}

/// The same where one call fails.
fn is_written_in_spite(alloc: Global, call: u64, job: Job, at_fault: bool) -> Option<bool> {
    match vec![in alloc; call] {
        Ok(failing) => is_written(alloc, failing, job, at_fault),
        Err(_) => None,
    }
}

/// The first call without which a job writes all, or the first one that is answered otherwise.
fn first_unneeded(alloc: Global, job: Job, at_fault: bool) -> Result<u64, u64> {
    for call in 0..200 {
        match is_written_in_spite(alloc, call, job, at_fault) {
            Some(true) => return Ok(call),
            Some(false) => {}
            None => return Err(call),
        }
    }
    Err(200)
}

/// Each fault is told, until there is none.
#[test]
fn answers_each_fault(rt: HostRuntime) {
    for (name, job, at_fault) in FAULTY {
        let unneeded = first_unneeded(rt.alloc(), job, at_fault);
        assert!(rt; unneeded.is_ok_and(|call| call > 0), "{name}: {unneeded:?}");
    }
}
