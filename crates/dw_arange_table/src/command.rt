//! The words of the command line.

ghost use Rattle.std.specs.Prelude.{◌≡◌, map, string_bytes};
ghost use Rattle.dw_arange_table.specs.Commands.{command_of, find_of};

use dw_ends::number;

/// What the words ask for.
#[derive(Clone, Copy)]
pub(crate) enum Command {
    /// The section that is made of the units.
    Table,
    /// The units that have this address.
    Find(u64),
}

impl Command {
    /// The command that the words are.
    pub(crate) fn of(words: &Vec<String>) -> Option<Command>
        ensures { result ≡ command_of (map string_bytes words.now.items) }
    {
        match words.as_slice() {
            [word] if word.as_str() == "table" => Some(Command::Table),
            [word, field] if word.as_str() == "find" => Command::find(field.as_bytes()),
            _ => None,
        }
    }

    // The command that finds the address which a field spells.
    fn find(field: &[u8]) -> Option<Command>
        ensures { result ≡ find_of field.now }
    {
        match number(field) {
            Some(address) => Some(Command::Find(address)),
            None => None,
        }
    }
}
