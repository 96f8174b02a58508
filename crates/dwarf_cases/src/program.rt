//! The programs that are run.

use crate::text::Text;
use crate::words::parts;
use dw_arange_table::run as make_aranges;
use dw_live_code::run as prune;
use dw_program::run::run as build;
use dw_program::{SliceSource, VecSink};
use std::alloc::{AllocError, Global};

/// Whose words a command is.
#[derive(Clone, Copy)]
enum Program {
    DwarfBuild,
    DwAranges,
    DwPrune,
}

/// Runs a command over an input, and appends the status that its program ends with and all that it
/// prints.
pub fn push_run(
    alloc: Global,
    shown: &mut Text,
    command: &str,
    input: Result<Vec<u8>, AllocError>,
) {
    let (program, words) = program_of(command);
    match (words_of(alloc, words), input) {
        (Ok(words), Ok(input)) => push_ended(alloc, shown, program, &words, input.as_slice()),
        _ => shown.push("no memory\n"),
    }
}

/// The program of a command, and the words that it is run with.
fn program_of(command: &str) -> (Program, &str) {
    match parts(command) {
        ("aranges", words) => (Program::DwAranges, words),
        ("prune", words) => (Program::DwPrune, words),
        _ => (Program::DwarfBuild, command),
    }
}

/// Runs a program over these words and an input.
fn push_ended(
    alloc: Global,
    shown: &mut Text,
    program: Program,
    words: &Vec<String>,
    input: &[u8],
) {
    let mut sink = VecSink::new(alloc);
    let mut source = SliceSource::new(input);
    let status = match program {
        Program::DwarfBuild => build(alloc, words, &mut source, &mut sink),
        Program::DwAranges => make_aranges(alloc, words, &mut source, &mut sink),
        Program::DwPrune => prune(alloc, words, &mut source, &mut sink),
    };
    shown.push_made(format!(in alloc; "status {status}\n"));
    shown.push_made(String::from_utf8_lossy(alloc, sink.slice()));
}

/// The words of a command line.
fn words_of(alloc: Global, text: &str) -> Result<Vec<String>, AllocError> {
    let mut words = Vec::new(alloc);
    for word in text.split_whitespace() {
        words.push(String::from_str(alloc, word)?)?;
    }
    Ok(words)
}
