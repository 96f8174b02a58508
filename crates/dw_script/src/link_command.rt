//! What a line of the command `link` asks for.

use crate::command::Command;

/// One line's request, where a script builds several sets of sections that are linked.
#[derive(Drop)]
pub enum LinkCommand<'a> {
    /// The next set begins.
    Next,
    /// The value of a symbol, whose number is that of the symbols before it.
    Symbol { number: u64, value: u64 },
    /// What a line of a script asks for, in the set that was begun last.
    Script(Command<'a>),
}
