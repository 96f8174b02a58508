//! How the call frames of a file are written.

ghost use Rattle.std.specs.Prelude.{◌≡◌, ◌<◌, length, IsTrue, Some, OnOk, IfOk, IfErr};
ghost use Rattle.dw_expr.specs.Places.{Refused};
ghost use Rattle.dw_writer.specs.Causes.{BytesRefused};
ghost use Rattle.dw_frame.specs.declared.kind.FrameKind.TheVariants.{Debug, Eh};
ghost use Rattle.dw_frame_instructions.specs.Causes.{IsNone};
ghost use Rattle.dw_frame.specs.Owners.{have_cies};
ghost use Rattle.dw_frame_instructions.specs.Pieces.{IsWritten};
ghost use Rattle.dw_frame.specs.Parts.{Puts};
ghost use Rattle.dw_frame.specs.Places.{known, AreBefore};
ghost use Rattle.dw_frame.specs.Tables.{new_cie, frame, frames_part, no_places, place_at, with_place, frames_at, causes_of};
ghost use Rattle.dw_frame.specs.Reading.{IsTold, AreTold};
ghost use Rattle.dw_frame.specs.ReadTables.{HoldsAlone, ShowsTable, ReadsTable};

use super::FrameTable;
use crate::cie::CommonInformationEntry;
use crate::fde::FrameDescriptionEntry;
use crate::kind::FrameKind;
use crate::places::CiePlaces;
use dw_base::{CieId, Result};
use dw_writer::{DebugFrame, EhFrame, Writer};
use std::alloc::Global;

impl FrameTable {
    /// Writes the entries of functions in their order, each common entry just before the first
    /// that was built with it (DWARF 5, 6.4.1). Common entries that none was built with aren't
    /// written.
    ///
    /// Refused are versions of common entries but 1, 3 and 4, as `UnsupportedVersion`, and
    /// addresses that haven't 1, 2, 4 or 8 bytes, as `UnsupportedWordSize`; offsets that fall or
    /// that a factor doesn't divide, as `InvalidFrameCodeOffset` and `InvalidFrameDataOffset`; data
    /// for a language without an encoding of its pointer, or the reverse, as `LsdaMismatch`;
    /// encodings that the writer has no pointer of, as `UnsupportedPointerEncoding`; expressions
    /// that name entries, as `UnsupportedCfiExpressionReference` or `InvalidReference`, and
    /// branches without a target, as `UnsetBranchTarget`; symbols over a plain writer, as
    /// `InvalidAddress`; numbers that don't fit, as `ValueTooLarge`, an offset of a CIE among them
    /// that is the id of CIEs; and 32-bit entries that are too long, as `InitialLengthOverflow`.
    pub fn write_debug_frame<W: Writer>(&self, w: &mut DebugFrame<W>) -> Result<()>
        ensures ok { OnOk result (IsWritten (W.meaning w.old.0) (W.meaning w.new.0)
            (frames_at Debug self.now (W.meaning w.old.0).size).piece) }
        ensures sound { OnOk result (IsNone (causes_of Debug self.now (W.meaning w.old.0))) }
        ensures err { IfErr result (Refused (W.meaning w.old.0) (W.meaning w.new.0)
            (causes_of Debug self.now (W.meaning w.old.0))) }
        // What can be written is refused for want of memory or by the writer alone.
        ensures complete { IsNone (causes_of Debug self.now (W.meaning w.old.0))
            → IfErr result (BytesRefused (W.meaning w.old.0) (W.meaning w.new.0)) }
        // In a section of its own each FDE is read with its addresses, and leads to its CIE.
        ensures read { OnOk result (HoldsAlone (W.meaning w.old.0) (W.meaning w.new.0)
            (ShowsTable Debug (W.meaning w.old.0).is_big self.now)) }
        // There the entries are read one right behind another, and the last ends with the section.
        ensures whole { OnOk result (HoldsAlone (W.meaning w.old.0) (W.meaning w.new.0)
            (ReadsTable Debug (W.meaning w.old.0).is_big self.now)) }
        // Numbers have the widths of their types, and entries the sizes of their texts.
        ensures told { OnOk result (AreTold Debug self.now.cies.keys no_places
            self.now.fdes.items (W.meaning w.old.0).size) }
    {
        self.write(&mut w.0, FrameKind::Debug)
    }

    /// Writes the same for unwinding at run time, with the same refusals but that only version 1 is
    /// there (Linux Standard Base Core 5.0, 10.6). No entry of length zero follows the last.
    pub fn write_eh_frame<W: Writer>(&self, w: &mut EhFrame<W>) -> Result<()>
        ensures ok { OnOk result (IsWritten (W.meaning w.old.0) (W.meaning w.new.0)
            (frames_at Eh self.now (W.meaning w.old.0).size).piece) }
        ensures sound { OnOk result (IsNone (causes_of Eh self.now (W.meaning w.old.0))) }
        ensures err { IfErr result (Refused (W.meaning w.old.0) (W.meaning w.new.0)
            (causes_of Eh self.now (W.meaning w.old.0))) }
        ensures complete { IsNone (causes_of Eh self.now (W.meaning w.old.0))
            → IfErr result (BytesRefused (W.meaning w.old.0) (W.meaning w.new.0)) }
        // In a section of its own each FDE is read with its addresses, and leads to its CIE.
        ensures read { OnOk result (HoldsAlone (W.meaning w.old.0) (W.meaning w.new.0)
            (ShowsTable Eh (W.meaning w.old.0).is_big self.now)) }
        // There the entries are read one right behind another, and the last ends with the section.
        ensures whole { OnOk result (HoldsAlone (W.meaning w.old.0) (W.meaning w.new.0)
            (ReadsTable Eh (W.meaning w.old.0).is_big self.now)) }
        // Numbers have the widths of their types, and entries the sizes of their texts.
        ensures told { OnOk result (AreTold Eh self.now.cies.keys no_places
            self.now.fdes.items (W.meaning w.old.0).size) }
    {
        self.write(&mut w.0, FrameKind::Eh)
    }

    fn write<W: Writer>(&self, w: &mut W, kind: FrameKind) -> Result<()>
        ensures part { Puts result (W.meaning w.old) (W.meaning w.new) (frames_at kind self.now) }
        ensures read { OnOk result (HoldsAlone (W.meaning w.old) (W.meaning w.new)
            (ShowsTable kind (W.meaning w.old).is_big self.now)) }
        ensures whole { OnOk result (HoldsAlone (W.meaning w.old) (W.meaning w.new)
            (ReadsTable kind (W.meaning w.old).is_big self.now)) }
        ensures told { OnOk result (AreTold kind self.now.cies.keys no_places
            self.now.fdes.items (W.meaning w.old).size) }
    {
        let alloc = *self.fdes.allocator();
        write_frames(alloc, self.cies.as_slice(), self.fdes.as_slice(), w, kind)
    }
}

/// Writes entries of functions in their order.
fn write_frames<W: Writer>(
    alloc: Global,
    cies: &[CommonInformationEntry],
    fdes: &[(CieId, FrameDescriptionEntry)],
    w: &mut W,
    kind: FrameKind,
) -> Result<()>
    requires { IsTrue (have_cies (length cies.now) fdes.now) }
    ensures part { Puts result (W.meaning w.old) (W.meaning w.new)
        (frames_part kind cies.now fdes.now) }
    ensures told { OnOk result
        (AreTold kind cies.now no_places fdes.now (W.meaning w.old).size) }
{
    let mut places = CiePlaces::new(alloc, cies.len())?;
    for fde in fdes {
        write_frame(cies, fde, w, kind, &mut places)?;
    }
    Ok(())
}

/// Writes the entry of a function, behind its common one where that isn't written yet.
fn write_frame<W: Writer>(
    cies: &[CommonInformationEntry],
    fde: &(CieId, FrameDescriptionEntry),
    w: &mut W,
    kind: FrameKind,
    places: &mut CiePlaces,
) -> Result<()>
    requires own { fde.now.0.0 < length cies.now }
    requires counted { length places.old.places.items ≡ length cies.now }
    requires behind { AreBefore (known places.old.places.items) (W.meaning w.old).size }
    ensures part { Puts result (W.meaning w.old) (W.meaning w.new)
        (frame kind cies.now (known places.old.places.items) fde.now) }
    ensures places { OnOk result (known places.new.places.items ≡
        with_place fde.now.0.0 (place_at (known places.old.places.items fde.now.0.0)
        (W.meaning w.old).size) (known places.old.places.items)) }
    ensures count { length places.new.places.items ≡ length cies.now }
    ensures before { OnOk result
        (AreBefore (known places.new.places.items) (W.meaning w.new).size) }
    ensures told { OnOk result (IsTold kind cies.now (known places.old.places.items) fde.now
        (W.meaning w.old).size) }
{
    let (id, fde) = fde;
    let cie = &cies[id.index()];
    cie.tell_widths();
    let place = write_new_cie(cie, places.get(*id), w, kind)?;
    places.set(*id, place);
    fde.write(w, kind, place, cie)
}

/// Writes a common entry that isn't written yet, and returns the place where it stands.
fn write_new_cie<W: Writer>(
    cie: &CommonInformationEntry,
    place: Option<usize>,
    w: &mut W,
    kind: FrameKind,
) -> Result<usize>
    ensures part { Puts result (W.meaning w.old) (W.meaning w.new)
        (new_cie kind place (Some cie.now)) }
    ensures place { IfOk result (λ p. p ≡ place_at place (W.meaning w.old).size) }
{
    match place {
        Some(place) => Ok(place),
        None => cie.write(w, kind),
    }
}
