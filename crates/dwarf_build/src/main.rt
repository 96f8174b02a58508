//! Builds DWARF from a script, one file or several that are linked, or converts that of a listing,
//! and lists it; or generates it, and tells how much it is. All that it does is `dw_program`'s.
#![tactic(auto)]

ghost use Rattle.std.specs.Prelude.{◌≡◌, ◌⊎◌, IfErr};

use dw_program::run::end;
use dw_program::{Status, StdinSource, StdoutSink};
use std::env;
use std::io::{self, ErrorKind};
use std::process::ExitCode;

/// The words of the command line couldn't be had, for another cause than memory.
const NO_WORDS: u8 = 8;

// The words after the program's name, or the exit status. Where one isn't UTF-8 there are none, as
// it is no command.
fn words(rt: &HostRuntime) -> Result<Vec<String>, u8>
    ensures { IfErr result (λ status. (status ≡ 6) ⊎ (status ≡ 8)) }
{
    match env::args(rt) {
        Ok(args) => {
            let mut words = Vec::new(rt.alloc());
            for word in args.skip(1) {
                words.push(word).map_err(|_| Status::NoMemory.code())?;
            }
            Ok(words)
        }
        Err(error) => match error.kind() {
            ErrorKind::InvalidData => Ok(Vec::new(rt.alloc())),
            ErrorKind::OutOfMemory => Err(Status::NoMemory.code()),
            _ => Err(NO_WORDS),
        },
    }
}

fn main(rt: HostRuntime) -> ExitCode {
    let mut source = StdinSource::new(rt.reader());
    let mut sink = StdoutSink::new(io::writer(&rt));
    let stderr = rt.stderr();
    let mut errors = StdoutSink::new(io::writer(&stderr));
    end(rt.alloc(), words(&rt), &mut source, &mut sink, &mut errors)
}
