//! Scripts of the command `link`: several sets of units, which come to be linked, and symbols.

ghost use Rattle.std.specs.Prelude.{◌≡◌, ◌≤◌, [], ◌∷◌, ◌++◌, length, Ok, OnOk, IfOk, IfErr};
ghost use Rattle.dw_build.specs.Script.{AreOpen, RefusedAt, RefusedWhole};
ghost use Rattle.dw_build.specs.Sets.{after_link_command, after_link_line, after_next, after_symbol, sets};
ghost use Rattle.dw_build.specs.SetsValue.{all_sets, begun_in, empty_begun, sets_in};
ghost use Rattle.dw_script_units.specs.Refused.{RefusedFor};

use crate::script::{SCRIPT_LIMIT, Script, ScriptError, refused};
use dw_base::RunTimeEndian;
use dw_dwarf::Dwarf;
use dw_script::{LinkCommand, Reason, lines, parse_link_line};
use dw_script_units::CommandError;
use std::alloc::{AllocError, Global};
use std::mem;

/// What a script of the command `link` has built.
///
/// ```
/// let sets = read_sets(alloc, b"unit 5 8 32\nnext\nunit 5 8 32")?;
/// let first = &sets.dwarfs[0];
/// ```
#[derive(Drop)]
pub struct Sets {
    /// The byte order of all sections.
    pub endian: RunTimeEndian,
    /// The sets in their order, at least one.
    pub dwarfs: Vec<Dwarf>,
    /// The values of symbols, by their numbers.
    pub symbols: Vec<u64>,
}

// What lines have built so far: the sets that are whole, and the one that was begun last. Its byte
// order is that of all, and it has begun where any line was read.
#[derive(Drop)]
struct BegunSets {
    whole: Vec<Dwarf>,
    last: Script,
    symbols: Vec<u64>,
}

impl BegunSets {
    ghost use Rattle.dw_build.specs.declared.script.ScriptError.TheVariants.{NoMemory};

    // Before the first line.
    fn new(alloc: Global) -> BegunSets
        ensures { begun_in result ≡ empty_begun }
    {
        BegunSets {
            whole: Vec::new(alloc),
            last: Script::new(alloc),
            symbols: Vec::new(alloc),
        }
    }

    // Does what a line says, the number-th of the script. Where it is refused the sets aren't used
    // again.
    fn read_line(&mut self, alloc: Global, line: &[u8], number: usize) -> Result<(), ScriptError>
        requires { AreOpen self.old.last.dwarf.units }
        ensures ok { OnOk result
            (after_link_line (begun_in self.old) line.now ≡ Ok (begun_in self.new)) }
        ensures err { IfErr result
            (RefusedAt number (after_link_line (begun_in self.old) line.now)) }
    {
        match parse_link_line(line) {
            Ok(None) => Ok(()),
            Ok(Some(command)) => match self.apply(alloc, command) {
                Ok(()) => Ok(()),
                Err(CommandError::Refused(reason)) => Err(refused(number, reason)),
                Err(CommandError::NoMemory) => Err(ScriptError::NoMemory),
            },
            Err(reason) => Err(refused(number, reason)),
        }
    }

    fn apply(&mut self, alloc: Global, command: LinkCommand<'_>) -> Result<(), CommandError>
        requires { AreOpen self.old.last.dwarf.units }
        ensures ok { OnOk result
            (after_link_command (begun_in self.old) command.entry ≡ Ok (begun_in self.new)) }
        ensures err { IfErr result
            (RefusedFor (after_link_command (begun_in self.old) command.entry)) }
    {
        match command {
            LinkCommand::Next => self.begin_next(alloc),
            LinkCommand::Symbol { number, value } => self.add_symbol(number, value),
            LinkCommand::Script(command) => self.last.apply(alloc, command),
        }
    }

    fn begin_next(&mut self, alloc: Global) -> Result<(), CommandError>
        ensures ok { OnOk result (begun_in self.new ≡ after_next (begun_in self.old)) }
        ensures err { IfErr result (λ e. e ≡ CommandError.NoMemory) }
    {
        let next = Script {
            endian: self.last.endian,
            dwarf: Dwarf::new(alloc),
            has_begun: true,
        };
        let whole = mem::replace(&mut self.last, next);
        push_set(&mut self.whole, whole.dwarf).map_err(|_| CommandError::NoMemory)
    }

    fn add_symbol(&mut self, number: u64, value: u64) -> Result<(), CommandError>
        ensures ok { OnOk result
            (after_symbol number value (begun_in self.old) ≡ Ok (begun_in self.new)) }
        ensures err { IfErr result (RefusedFor (after_symbol number value (begun_in self.old))) }
    {
        if number != self.symbols.len() as u64 {
            return Err(CommandError::Refused(Reason::BadSymbol));
        }
        self.symbols
            .push(value)
            .map_err(|_| CommandError::NoMemory)?;
        self.last.has_begun = true;
        Ok(())
    }

    // All sets, the one that was begun last as the last of them.
    fn end(self) -> Result<Sets, ScriptError>
        ensures ok { IfOk result (λ s. sets_in s ≡ all_sets (begun_in self)) }
        ensures err { IfErr result (λ e. e ≡ NoMemory) }
    {
        let BegunSets {
            whole,
            last,
            symbols,
        } = self;
        let Script {
            endian,
            dwarf,
            has_begun: _,
        } = last;
        let mut dwarfs = whole;
        push_set(&mut dwarfs, dwarf).map_err(|_| ScriptError::NoMemory)?;
        Ok(Sets {
            endian,
            dwarfs,
            symbols,
        })
    }
}

// Adds a set behind the others; one that is refused is dropped here.
fn push_set(sets: &mut Vec<Dwarf>, set: Dwarf) -> Result<(), AllocError>
    ensures { OnOk result (sets.new.items ≡ sets.old.items ++ set ∷ []) }
{
    sets.push(set)?;
    Ok(())
}

/// Builds what the lines of a script of the command `link` say, one after another, up to the first
/// that is refused: `Refused` tells it, counted from 1, with its reason. Beside the lines of
/// scripts there are `next`, which begins the next set, and `symbol`, whose number is that of the
/// symbols before it. Units, entries and strings are counted in their set, and `order`, which
/// stands before all other lines, is for all sets. A script has at most `SCRIPT_LIMIT` bytes.
pub fn read_sets(alloc: Global, bytes: &[u8]) -> Result<Sets, ScriptError>
    requires { length bytes.now ≤ SCRIPT_LIMIT }
    ensures ok { IfOk result (λ s. sets bytes.now ≡ Ok (sets_in s)) }
    ensures err { IfErr result (RefusedWhole (sets bytes.now)) }
{
    let mut begun = BegunSets::new(alloc);
    let mut number = 0;
    for line in lines(bytes) {
        number += 1;
        begun.read_line(alloc, line, number)?;
    }
    begun.end()
}
