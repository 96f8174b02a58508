//! Makes the address ranges of the units of a listing, and prints their section or the units that
//! have an address. All that it does is `dw_arange_table`'s.
#![tactic(auto)]

ghost use Rattle.std.specs.Prelude.{◌≡◌, ◌⊎◌, IfErr};

use dw_arange_table::{Status, end};
use dw_ends::{StdinSource, StdoutSink};
use std::env;
use std::io::{self, ErrorKind};
use std::process::ExitCode;

/// The words of the command line couldn't be had, for another cause than memory.
const NO_WORDS: u8 = 8;

// The words after the program's name, or the exit status. Where one isn't UTF-8 there are none, as
// it is no command.
fn words(rt: &HostRuntime) -> Result<Vec<String>, u8>
    ensures { IfErr result (λ status. (status ≡ 6) ⊎ (status ≡ 8)) }
{
    match env::args(rt) {
        Ok(args) => {
            let mut words = Vec::new(rt.alloc());
            for word in args.skip(1) {
                words.push(word).map_err(|_| Status::NoMemory.code())?;
            }
            Ok(words)
        }
        Err(error) => match error.kind() {
            ErrorKind::InvalidData => Ok(Vec::new(rt.alloc())),
            ErrorKind::OutOfMemory => Err(Status::NoMemory.code()),
            _ => Err(NO_WORDS),
        },
    }
}

fn main(rt: HostRuntime) -> ExitCode {
    let mut source = StdinSource::new(rt.reader());
    let mut sink = StdoutSink::new(io::writer(&rt));
    let stderr = rt.stderr();
    let mut errors = StdoutSink::new(io::writer(&stderr));
    end(rt.alloc(), words(&rt), &mut source, &mut sink, &mut errors)
}
