//! Tables of call frames, joined to one section.

ghost use Rattle.std.specs.Prelude.{◌≡◌, OnOk, IfOk, IfErr};
ghost use Rattle.dw_base.specs.declared.error.Error.TheVariants.{NoMemory};
ghost use Rattle.dw_writer.specs.Sections.{NoFixups};
ghost use Rattle.dw_link.specs.Outcome.{AllInOrder};
ghost use Rattle.dw_link_frames.specs.declared.error.LinkFrameError.TheVariants.{NoMemory as OutOfMemory};
ghost use Rattle.dw_link_frames.specs.Placed.{kind_of, AreFree, AreValid, AreThere};
ghost use Rattle.dw_link_frames.specs.Written.{IsTaken, AreTaken, IsToldWhole, AreAllTold, IsWrittenSet, AreWritten, TableRefused};
ghost use Rattle.dw_link_frames.specs.Outcome.{LinkTablesRefused, HasText, IsReadAs, OthersAreEmpty, refused_at, TablesRefused, not_linked};

use crate::error::LinkFrameError;
use dw_base::{Endianity, Error};
use dw_frame::FrameTable;
use dw_link::{LinkError, link};
use dw_writer::{EndianVec, RelocVec, Sections, Writer};
use std::alloc::Global;

/// Writes tables of call frames to one section, `.eh_frame` or else `.debug_frame`, one behind
/// another. Addresses of symbols are found by their numbers in `symbols`, and the addend is added.
/// A pointer under `DW_EH_PE_pcrel` counts from where it comes to stand in the section (Linux
/// Standard Base Core 5.0, 10.5.1); one to an address that no symbol stands for is taken as it was
/// written, counted in its own table's part. The other sections stay empty.
///
/// The first table that can't be written is refused as `Write`, by the cause for which a writer
/// that records relocations refuses it in a new section; and what can't be joined, such as a symbol
/// without a value or a pointer that doesn't fit, as `Link`. Want of memory is always `NoMemory`.
///
/// ```
/// let joined = link_tables(alloc, LittleEndian, &tables, true, &symbols)?;
/// let section = joined.eh_frame.0.slice();
/// ```
pub fn link_tables<E: Endianity>(
    alloc: Global,
    endian: E,
    tables: &Vec<FrameTable>,
    eh_frame: bool,
    symbols: &Vec<u64>,
) -> Result<Sections<EndianVec<E>>, LinkFrameError>
    // Where the numbered tables are valid in their places, and no pointer that counts from its
    // place has an address that is known before, the section is theirs.
    ensures text { IfOk result (HasText ⟦<EndianVec<E> as Writer>⟧.meaning (E.is_big endian)
        (kind_of eh_frame) tables.now.items symbols.now.items) }
    // It is read as them to its last byte, each FDE with the CIE that it was built with.
    ensures read { IfOk result (IsReadAs ⟦<EndianVec<E> as Writer>⟧.meaning (E.is_big endian)
        (kind_of eh_frame) tables.now.items symbols.now.items) }
    ensures others { IfOk result
        (OthersAreEmpty ⟦<EndianVec<E> as Writer>⟧.meaning (kind_of eh_frame)) }
    ensures order { IfOk result
        (AllInOrder ⟦<EndianVec<E> as Writer>⟧.meaning (E.is_big endian)) }
    ensures fixups { IfOk result NoFixups }
    ensures sound { OnOk result (AreTaken (kind_of eh_frame) tables.now.items) }
    ensures err { IfErr result (LinkTablesRefused ⟦<RelocVec<E> as Writer>⟧.meaning
        (E.is_big endian) (kind_of eh_frame) tables.now.items symbols.now.items) }
    // What both writers take is refused for want of memory alone,
    ensures complete { AreTaken (kind_of eh_frame) tables.now.items
        → AreFree tables.now.items → AreValid (kind_of eh_frame) symbols.now.items tables.now.items
        → IfErr result (λ error. error ≡ OutOfMemory) }
    // and so is what has a text in its place.
    ensures fitting { AreTaken (kind_of eh_frame) tables.now.items
        → AreThere (kind_of eh_frame) (E.is_big endian) symbols.now.items tables.now.items 0
        → IfErr result (λ error. error ≡ OutOfMemory) }
{
    let sets = write_tables(alloc, endian, tables.as_slice(), eh_frame)?;
    match link(alloc, endian, &sets, symbols) {
        Ok(joined) => Ok(joined),
        Err(error) => Err(not_linked(error)),
    }
}

/// The error of sets that aren't joined.
fn not_linked(error: LinkError) -> LinkFrameError
    ensures { result ≡ not_linked error }
{
    match error {
        LinkError::NoMemory => LinkFrameError::NoMemory,
        error => LinkFrameError::Link(error),
    }
}

/// A set of sections for each table.
fn write_tables<E: Endianity>(
    alloc: Global,
    endian: E,
    tables: &[FrameTable],
    eh_frame: bool,
) -> Result<Vec<Sections<RelocVec<E>>>, LinkFrameError>
    ensures ok { IfOk result (λ sets. AreWritten ⟦<RelocVec<E> as Writer>⟧.meaning
        (E.is_big endian) (kind_of eh_frame) tables.now sets.items) }
    ensures sound { OnOk result (AreTaken (kind_of eh_frame) tables.now) }
    ensures told { OnOk result (AreAllTold (kind_of eh_frame) tables.now) }
    ensures err { IfErr result (TablesRefused (kind_of eh_frame) tables.now) }
    ensures complete { AreTaken (kind_of eh_frame) tables.now
        → IfErr result (λ error. error ≡ OutOfMemory) }
{
    let mut sets = Vec::new(alloc);
    'each: for (number, table) in tables.iter().enumerate() {
        match write_table(alloc, endian, table, eh_frame) {
            Ok(set) => sets.push(set)?,
            Err(error) => return Err(refused(number, error)),
        }
    }
    Ok(sets)
}

/// The error of a table that isn't written.
fn refused(set: usize, error: Error) -> LinkFrameError
    ensures { result ≡ refused_at set error }
{
    match error {
        Error::NoMemory => LinkFrameError::NoMemory,
        error => LinkFrameError::Write { set, error },
    }
}

/// New sections with a table in the one of its kind.
fn write_table<E: Endianity>(
    alloc: Global,
    endian: E,
    table: &FrameTable,
    eh_frame: bool,
) -> dw_base::Result<Sections<RelocVec<E>>>
    ensures ok { IfOk result (IsWrittenSet ⟦<RelocVec<E> as Writer>⟧.meaning (E.is_big endian)
        (kind_of eh_frame) table.now) }
    ensures sound { OnOk result (IsTaken (kind_of eh_frame) table.now) }
    ensures told { OnOk result (IsToldWhole (kind_of eh_frame) table.now) }
    ensures err { IfErr result (TableRefused (kind_of eh_frame) table.now) }
    ensures complete { IsTaken (kind_of eh_frame) table.now
        → IfErr result (λ error. error ≡ NoMemory) }
{
    let mut set = Sections::new(alloc, RelocVec::new(alloc, endian))?;
    if eh_frame {
        table.write_eh_frame(&mut set.eh_frame)?;
    } else {
        table.write_debug_frame(&mut set.debug_frame)?;
    }
    Ok(set)
}
