//! Scripts: each line is a call.

ghost use Rattle.std.specs.Prelude.{◌≡◌, ◌≤◌, length, Ok, OnOk, IfOk, IfErr};
ghost use Rattle.dw_script_units.specs.Refused.{RefusedFor};
ghost use Rattle.dw_build.specs.ScriptValue.{script_in};

use dw_base::{Encoding, RunTimeEndian, UnitId};
use dw_dwarf::Dwarf;
use dw_script::{
    Change, Command, HexBytes, LineChange, LocationFields, RangeFields, Reason, lines, parse_line,
};
use dw_script_units::{
    CommandError, add_location_list, add_range_list, apply_change, apply_line_change, index_below,
    text_of,
};
use dw_unit::{LineProgram, Unit};
use std::alloc::Global;
use thiserror::Error as ThisError;

/// The most bytes that a script may have.
pub const SCRIPT_LIMIT: usize = 16_777_216;

/// What a script has built.
///
/// ```
/// let script = read_script(alloc, b"order big\nunit 5 8 32")?;
/// let mut sections = Sections::new(alloc, EndianVec::new(alloc, script.endian))?;
/// ```
#[derive(Drop)]
pub struct Script {
    /// The byte order of the sections.
    pub endian: RunTimeEndian,
    /// The units, their line programs and the strings.
    pub dwarf: Dwarf,
    /// Whether there was a line that isn't passed over.
    pub has_begun: bool,
}

/// The first line that is refused, counted from 1, and why.
///
/// ```
/// if let Err(ScriptError::Refused(refusal)) = read_script(alloc, b"unit 5 8") {
///     println!(rt; "line {}: {}", refusal.line, refusal.reason.text())?;
/// }
/// ```
#[derive(Clone, Copy, Debug, PartialEq, Eq, ThisError)]
#[error("line {line}: {reason}")]
pub struct Refusal {
    pub line: usize,
    pub reason: Reason,
}

/// Why a script wasn't built: a line of it is refused, or memory ran out.
///
/// ```
/// let answer = read_script(alloc, script);
/// let without_memory = matches!(answer, Err(ScriptError::NoMemory));
/// ```
#[derive(Clone, Copy, Debug, PartialEq, Eq, ThisError)]
pub enum ScriptError {
    #[error("{0}")]
    Refused(Refusal),
    #[error("memory ran out")]
    NoMemory,
}

impl Script {
    ghost use Rattle.dw_build.specs.ScriptValue.{empty_script};
    ghost use Rattle.dw_build.specs.Script.{after_command, after_line, AreOpen, RefusedAt};

    // Before the first line.
    pub(crate) fn new(alloc: Global) -> Script
        ensures { script_in result ≡ empty_script }
    {
        Script {
            endian: RunTimeEndian::Little,
            dwarf: Dwarf::new(alloc),
            has_begun: false,
        }
    }

    // Does what a line says, the number-th of the script. Where it is refused the script isn't used
    // again.
    fn read_line(&mut self, alloc: Global, line: &[u8], number: usize) -> Result<(), ScriptError>
        requires { AreOpen self.old.dwarf.units }
        ensures ok { OnOk result
            (after_line (script_in self.old) line.now ≡ Ok (script_in self.new)) }
        ensures err { IfErr result
            (RefusedAt number (after_line (script_in self.old) line.now)) }
    {
        match parse_line(line) {
            Ok(None) => Ok(()),
            Ok(Some(command)) => match self.apply(alloc, command) {
                Ok(()) => Ok(()),
                Err(CommandError::Refused(reason)) => Err(refused(number, reason)),
                Err(CommandError::NoMemory) => Err(ScriptError::NoMemory),
            },
            Err(reason) => Err(refused(number, reason)),
        }
    }

    // Does what a command says; where it is refused the script isn't used again.
    pub(crate) fn apply(&mut self, alloc: Global, command: Command<'_>) -> Result<(), CommandError>
        requires { AreOpen self.old.dwarf.units }
        ensures ok { OnOk result
            (after_command (script_in self.old) command.entry ≡ Ok (script_in self.new)) }
        ensures err { IfErr result (RefusedFor (after_command (script_in self.old) command.entry)) }
    {
        match command {
            Command::Order(endian) => self.set_order(endian),
            Command::Unit(encoding) => self.add_unit(alloc, encoding),
            Command::String(bytes) => self.add_string(alloc, &bytes),
            Command::LineString(bytes) => self.add_line_string(alloc, &bytes),
            Command::Change { unit, change } => self.change_unit(alloc, unit, change),
            Command::Line { unit, change } => self.change_line_program(alloc, unit, change),
            Command::RangeList { unit, ranges } => self.add_range_list(alloc, unit, &ranges),
            Command::LocationList { unit, locations } => {
                self.add_location_list(alloc, unit, &locations)
            }
        }
    }

    fn set_order(&mut self, endian: RunTimeEndian) -> Result<(), CommandError>
        ensures ok { OnOk result
            (after_command (script_in self.old) (Command.Order endian)
            ≡ Ok (script_in self.new)) }
        ensures err { IfErr result
            (RefusedFor (after_command (script_in self.old) (Command.Order endian))) }
    {
        if self.has_begun {
            return Err(CommandError::Refused(Reason::OrderNotFirst));
        }
        self.endian = endian;
        self.has_begun = true;
        Ok(())
    }

    fn add_unit(&mut self, alloc: Global, encoding: Encoding) -> Result<(), CommandError>
        ensures ok { OnOk result
            (after_command (script_in self.old) (Command.Unit encoding)
            ≡ Ok (script_in self.new)) }
        ensures err { IfErr result
            (RefusedFor (after_command (script_in self.old) (Command.Unit encoding))) }
    {
        self.has_begun = true;
        let unit = Unit::new(alloc, encoding, LineProgram::none()).map_err(
            |_| CommandError::NoMemory,
        )?;
        match self.dwarf.units.add(unit) {
            Ok(_) => Ok(()),
            Err(_) => Err(CommandError::NoMemory),
        }
    }

    fn add_string(&mut self, alloc: Global, bytes: &HexBytes<'_>) -> Result<(), CommandError>
        ensures ok { OnOk result
            (after_command (script_in self.old) (Command.String bytes.now)
            ≡ Ok (script_in self.new)) }
        ensures err { IfErr result
            (RefusedFor (after_command (script_in self.old) (Command.String bytes.now))) }
    {
        self.has_begun = true;
        let text = text_of(alloc, bytes)?;
        match self.dwarf.strings.add(text.as_slice()) {
            Ok(_) => Ok(()),
            Err(_) => Err(CommandError::NoMemory),
        }
    }

    fn add_line_string(&mut self, alloc: Global, bytes: &HexBytes<'_>) -> Result<(), CommandError>
        ensures ok { OnOk result
            (after_command (script_in self.old) (Command.LineString bytes.now)
            ≡ Ok (script_in self.new)) }
        ensures err { IfErr result
            (RefusedFor (after_command (script_in self.old) (Command.LineString bytes.now))) }
    {
        self.has_begun = true;
        let text = text_of(alloc, bytes)?;
        match self.dwarf.line_strings.add(text.as_slice()) {
            Ok(_) => Ok(()),
            Err(_) => Err(CommandError::NoMemory),
        }
    }

    fn change_unit(
        &mut self,
        alloc: Global,
        unit: u64,
        change: Change<'_>,
    ) -> Result<(), CommandError>
        requires { AreOpen self.old.dwarf.units }
        ensures ok { OnOk result
            (after_command (script_in self.old) (Command.Change unit change.entry)
            ≡ Ok (script_in self.new)) }
        ensures err { IfErr result
            (RefusedFor (after_command (script_in self.old) (Command.Change unit change.entry))) }
    {
        self.has_begun = true;
        let index = index_below(unit, self.dwarf.units.count(), Reason::NoSuchUnit)?;
        let unit = self.dwarf.units.get_mut(UnitId::new(index));
        apply_change(alloc, unit, change)
    }

    fn change_line_program(
        &mut self,
        alloc: Global,
        unit: u64,
        change: LineChange<'_>,
    ) -> Result<(), CommandError>
        requires { AreOpen self.old.dwarf.units }
        ensures ok { OnOk result
            (after_command (script_in self.old) (Command.Line unit change.entry)
            ≡ Ok (script_in self.new)) }
        ensures err { IfErr result
            (RefusedFor (after_command (script_in self.old) (Command.Line unit change.entry))) }
    {
        self.has_begun = true;
        let index = index_below(unit, self.dwarf.units.count(), Reason::NoSuchUnit)?;
        let unit = self.dwarf.units.get_mut(UnitId::new(index));
        apply_line_change(alloc, unit, change)
    }

    fn add_range_list(
        &mut self,
        alloc: Global,
        unit: u64,
        ranges: &RangeFields<'_>,
    ) -> Result<(), CommandError>
        ensures ok { OnOk result
            (after_command (script_in self.old) (Command.RangeList unit ranges.now)
            ≡ Ok (script_in self.new)) }
        ensures err { IfErr result
            (RefusedFor (after_command (script_in self.old) (Command.RangeList unit ranges.now))) }
    {
        self.has_begun = true;
        let index = index_below(unit, self.dwarf.units.count(), Reason::NoSuchUnit)?;
        let unit = self.dwarf.units.get_mut(UnitId::new(index));
        add_range_list(alloc, unit, ranges)
    }

    fn add_location_list(
        &mut self,
        alloc: Global,
        unit: u64,
        locations: &LocationFields<'_>,
    ) -> Result<(), CommandError>
        ensures ok { OnOk result
            (after_command (script_in self.old) (Command.LocationList unit locations.now)
            ≡ Ok (script_in self.new)) }
        ensures err { IfErr result (RefusedFor
            (after_command (script_in self.old) (Command.LocationList unit locations.now))) }
    {
        self.has_begun = true;
        let index = index_below(unit, self.dwarf.units.count(), Reason::NoSuchUnit)?;
        let unit = self.dwarf.units.get_mut(UnitId::new(index));
        add_location_list(alloc, unit, locations)
    }
}

pub(crate) fn refused(line: usize, reason: Reason) -> ScriptError
    ensures { result ≡ ScriptError.Refused (record { line = line; reason = reason }) }
{
    ScriptError::Refused(Refusal { line, reason })
}

ghost use Rattle.dw_build.specs.Script.{script, RefusedWhole};

/// Builds what the lines of a script say, one after another, up to the first that is refused:
/// `Refused` tells it, counted from 1, with its reason. A script has at most `SCRIPT_LIMIT` bytes.
pub fn read_script(alloc: Global, bytes: &[u8]) -> Result<Script, ScriptError>
    requires { length bytes.now ≤ SCRIPT_LIMIT }
    ensures ok { IfOk result (λ s. script bytes.now ≡ Ok (script_in s)) }
    ensures err { IfErr result (RefusedWhole (script bytes.now)) }
{
    let mut script = Script::new(alloc);
    let mut number = 0;
    for line in lines(bytes) {
        number += 1;
        script.read_line(alloc, line, number)?;
    }
    Ok(script)
}
