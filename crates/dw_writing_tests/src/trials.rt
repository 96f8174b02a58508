//! Writers of each kind, and what they are tried for. One function makes them, since each type of
//! writer costs proofs wherever it is named.

ghost use Rattle.std.specs.Prelude.{◌≡◌, IfOk};

use crate::owned::drop;
use crate::section_tests::{OfSections, sections_pass};
use crate::writer_calls::{Answer, Answered, Held, Left, answers, first_wrong, leaves};
use dw_base::{BigEndian, LittleEndian, Result, RunTimeEndian};
use dw_writer::{EndianVec, FaultVec, RelocVec, Sections, Writer};
use std::alloc::{AllocError, Global};

/// Calls of a writer, those of a copy that is made behind the first ones, and what each has then.
#[derive(Drop)]
pub struct Fork {
    pub before: &'static [Answer],
    pub own: Answered,
    pub copied: Answered,
}

/// What a writer is tried for.
#[derive(Drop)]
pub enum Trial {
    Leaves(Left),
    Answers(Answered),
    Forks(Fork),
    /// New sections, which each begin as its clone.
    Sections(OfSections),
}

/// A kind of writers.
#[derive(Clone, Copy)]
pub enum Kind {
    Plain(RunTimeEndian),
    /// Those whose order is chosen when the program is built.
    Big,
    Little,
    Relocating(RunTimeEndian),
    /// Of its calls that write, those with these numbers fail.
    Failing(RunTimeEndian, &'static [u64]),
}

/// A copy under a bound, which promises that clones are the same writers.
fn copy_of<W: Writer + Clone>(w: &W) -> std::result::Result<W, AllocError>
    requires { (s n : W) → W.is_clone s n → W.meaning n ≡ W.meaning s }
    ensures { IfOk result (λ n. W.meaning n ≡ W.meaning w.now) }
{
    w.clone()
}

/// Tells that a writer and its copy answer what they should, and get their own bytes and records.
fn forks<W: Writer + Clone + Held>(w: &mut W, fork: &Fork) -> Result<bool>
    requires { (s n : W) → W.is_clone s n → W.meaning n ≡ W.meaning s }
{
    let before = first_wrong(w, fork.before);
    match copy_of(w) {
        Ok(mut copy) => {
            let own = answers(w, &fork.own);
            let copied = answers(&mut copy, &fork.copied);
            Ok(before.is_none() && own && copied)
        }
        Err(error) => Err(error.into()),
    }
}

/// Tells that new sections pass a trial.
fn new_sections_pass<W: Writer + Clone + Held>(
    alloc: Global,
    section: W,
    trial: &OfSections,
) -> Result<bool>
    requires { (s n : W) → W.is_clone s n → W.meaning n ≡ W.meaning s }
{
    match Sections::new(alloc, section) {
        Ok(mut sections) => {
            let is_passed = sections_pass(&mut sections, trial);
            drop(sections);
            Ok(is_passed)
        }
        Err(error) => Err(error),
    }
}

/// Tells that a writer passes a trial.
fn passes<W: Writer + Clone + Held>(alloc: Global, mut w: W, trial: &Trial) -> Result<bool>
    requires { (s n : W) → W.is_clone s n → W.meaning n ≡ W.meaning s }
{
    match trial {
        Trial::Leaves(left) => Ok(leaves(&mut w, left)),
        Trial::Answers(wanted) => Ok(answers(&mut w, wanted)),
        Trial::Forks(fork) => forks(&mut w, fork),
        Trial::Sections(trial) => new_sections_pass(alloc, w, trial),
    }
}

/// The numbers of calls.
fn numbers(alloc: Global, calls: &[u64]) -> Result<Vec<u64>> {
    let mut numbers = Vec::new(alloc);
    match numbers.extend_from_slice(calls) {
        Ok(()) => Ok(numbers),
        Err(error) => Err(error.into()),
    }
}

/// Tells that a new writer of a kind passes a trial.
pub fn pass_over(alloc: Global, kind: Kind, trial: &Trial) -> Result<bool> {
    match kind {
        Kind::Plain(order) => passes(alloc, EndianVec::new(alloc, order), trial),
        Kind::Big => passes(alloc, EndianVec::new(alloc, BigEndian), trial),
        Kind::Little => passes(alloc, EndianVec::new(alloc, LittleEndian), trial),
        Kind::Relocating(order) => passes(alloc, RelocVec::new(alloc, order), trial),
        Kind::Failing(order, calls) => match numbers(alloc, calls) {
            Ok(calls) => passes(alloc, FaultVec::new(alloc, order, calls), trial),
            Err(error) => Err(error),
        },
    }
}
