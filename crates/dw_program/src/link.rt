//! The command `link`.

ghost use Rattle.std.specs.Prelude.{◌≡◌, ◌≢◌, ◌≤◌, length, All, IfOk};
ghost use Rattle.dw_base.specs.Order.{is_big_of};
ghost use Rattle.dw_link.specs.Linked.{AreLeft};
ghost use Rattle.dw_link.specs.Sets.{sets_of};
ghost use Rattle.dw_link.specs.declared.error.LinkError.TheVariants.{NoMemory};
ghost use Rattle.dw_build.specs.Script.{AreOpen};
ghost use Rattle.dw_build.specs.SetsValue.{SetsValue, sets_in};
ghost use Rattle.dw_program.specs.Answers.{SaysOfBytes, SaysOfSets};
ghost use Rattle.dw_program.specs.Linked.{AreValidSets};
ghost use Rattle.dw_program.specs.SetParts.{AreSets};
ghost use Rattle.dw_program.specs.Texts.{link_refused_text};
ghost use Rattle.dw_program.specs.declared.command.Reading.TheVariants.{Link as LinkCommand};

use crate::answer::{Answer, answer_listed, answer_refusal, answer_refused, answer_write_refusal};
use crate::status::Status;
use crate::write::write_sets;
use dw_base::RunTimeEndian;
use dw_build::{SCRIPT_LIMIT, ScriptError, Sets, read_sets};
use dw_link::{LinkError, link};
use dw_writer::{RelocVec, Sections, Writer};
use std::alloc::{AllocError, Global};

// Builds the sets of the script, writes them with relocations, and links what was written.
pub(crate) fn link_script(alloc: Global, bytes: &[u8]) -> Result<Answer, AllocError>
    requires { length bytes.now ≤ SCRIPT_LIMIT }
    ensures { IfOk result (λ a. SaysOfBytes LinkCommand bytes.now a.status a.text.items) }
{
    match read_sets(alloc, bytes) {
        Ok(sets) => link_sets(alloc, sets),
        Err(ScriptError::Refused(found)) => answer_refusal(alloc, found),
        Err(ScriptError::NoMemory) => Err(AllocError),
    }
}

// Writes the sets with relocations, and links what was written.
fn link_sets(alloc: Global, sets: Sets) -> Result<Answer, AllocError>
    requires { All (λ d. AreOpen d.units) (sets_in sets).dwarfs }
    ensures { IfOk result (λ a. SaysOfSets (sets_in sets) a.status a.text.items) }
{
    let Sets {
        endian,
        dwarfs,
        symbols,
    } = sets;
    match write_sets(alloc, endian, dwarfs) {
        Ok(written) => join_sets(alloc, endian, &written, &symbols),
        Err(error) => answer_write_refusal(alloc, error),
    }
}

// Joins the sections that writing a script's sets has left, and lists the joined ones.
fn join_sets(
    alloc: Global,
    endian: RunTimeEndian,
    sets: &Vec<Sections<RelocVec<RunTimeEndian>>>,
    symbols: &Vec<u64>,
) -> Result<Answer, AllocError>
    ensures { IfOk result (λ a. (s : SetsValue) → s.endian ≡ endian
        → s.symbols ≡ symbols.now.items → AreValidSets s.dwarfs
        → AreLeft ⟦<RelocVec<RunTimeEndian> as Writer>⟧.meaning (is_big_of endian)
        sets.now.items s.dwarfs
        → AreSets (is_big_of endian)
        (sets_of ⟦<RelocVec<RunTimeEndian> as Writer>⟧.meaning sets.now.items) s.dwarfs
        → SaysOfSets s a.status a.text.items) }
{
    match link(alloc, endian, sets, symbols) {
        Ok(joined) => answer_listed(alloc, &joined),
        Err(error) => answer_link_refusal(alloc, error),
    }
}

// Why linking was refused. Want of memory is no refusal of what was built.
fn answer_link_refusal(alloc: Global, error: LinkError) -> Result<Answer, AllocError>
    ensures says { IfOk result (λ a.
        (a.status ≡ Status.WriteRefused) × (a.text.items ≡ link_refused_text error)) }
    ensures other { IfOk result (λ _. error ≢ NoMemory) }
{
    if error == LinkError::NoMemory {
        return Err(AllocError);
    }
    answer_refused(alloc, error.name())
}
