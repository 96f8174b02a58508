//! Removes from the units of a listing what describes dead code, and prints the listing of what is
//! left. All that it does is `dw_live_code`'s.
#![tactic(auto)]

ghost use Rattle.std.specs.Prelude.{◌≡◌, ◌⊎◌, IfErr};

use dw_ends::{StdinSource, StdoutSink};
use dw_live_code::{Status, end};
use std::alloc::Global;
use std::env;
use std::io::{self, ErrorKind};
use std::process::ExitCode;

/// The words of the command line couldn't be had, for another cause than memory.
const NO_WORDS: u8 = 8;

// The words after the program's name, or the exit status. Where one isn't UTF-8 an empty word
// stands for them, since there are some.
fn words(rt: &HostRuntime) -> Result<Vec<String>, u8>
    ensures { IfErr result (λ status. (status ≡ 6) ⊎ (status ≡ 8)) }
{
    match env::args(rt) {
        Ok(args) => {
            let mut words = Vec::new(rt.alloc());
            for word in args.skip(1) {
                words.push(word).map_err(|_| Status::NoMemory.code())?;
            }
            Ok(words)
        }
        Err(error) => match error.kind() {
            ErrorKind::InvalidData => some_word(rt.alloc()),
            ErrorKind::OutOfMemory => Err(Status::NoMemory.code()),
            _ => Err(NO_WORDS),
        },
    }
}

// An empty word.
fn some_word(alloc: Global) -> Result<Vec<String>, u8>
    ensures { IfErr result (λ status. (status ≡ 6) ⊎ (status ≡ 8)) }
{
    let mut words = Vec::new(alloc);
    match words.push(String::new(alloc)) {
        Ok(()) => Ok(words),
        Err(_) => Err(Status::NoMemory.code()),
    }
}

fn main(rt: HostRuntime) -> ExitCode {
    let mut source = StdinSource::new(rt.reader());
    let mut sink = StdoutSink::new(io::writer(&rt));
    let stderr = rt.stderr();
    let mut errors = StdoutSink::new(io::writer(&stderr));
    end(rt.alloc(), words(&rt), &mut source, &mut sink, &mut errors)
}
