//! What is said on standard error where nothing else tells why a program ended.

ghost use Rattle.std.specs.Prelude.{◌≡◌, ◌≤◌, OnOk, IsErrOf};
ghost use Rattle.dw_base.specs.Faults.{HasRisen};
ghost use Rattle.dw_ends.specs.Ends.{TakesPrefix, with_after};
ghost use Rattle.dw_ends.specs.StatusLines.{status_line};

use crate::sink::{Sink, SinkError};
use crate::transfer::write_all;

/// The line for an exit status with which standard output gets no text that tells the cause: 4 to
/// 6, and 8 where the words of the command line couldn't be had. Other statuses have none.
pub fn status_line(status: u8) -> &'static str
    ensures { result.now ≡ status_line status }
{
    match status {
        4 => "the input can't be read\n",
        5 => "the output can't be written\n",
        6 => "memory ran out\n",
        8 => "the words of the command line can't be had\n",
        _ => "",
    }
}

/// Writes that line, as `write_all` does: where it is refused, a front of it may have been taken.
pub fn tell_status<E: Sink>(status: u8, errors: &mut E) -> Result<(), SinkError>
    ensures ok { OnOk result ((E.intake errors.new).taken
        ≡ with_after (E.intake errors.old).taken (status_line status)) }
    ensures told { TakesPrefix (E.intake errors.old).taken (E.intake errors.new).taken
        (status_line status) }
    ensures failed { IsErrOf result SinkError.Failed →
        HasRisen (E.intake errors.old).faults (E.intake errors.new).faults }
    ensures faults { (E.intake errors.old).faults ≤ (E.intake errors.new).faults }
{
    write_all(errors, status_line(status).as_bytes())
}
