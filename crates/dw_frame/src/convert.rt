//! Tables of call frames from the sections that hold them (DWARF 5, 6.4.1).

ghost use Rattle.std.specs.Prelude.{◌≡◌, ◌⊎◌, [], OnOk, IfOk, IfErr};
ghost use Rattle.dw_sources.specs.declared.convert_error.ConvertError.TheVariants.{NoMemory};
ghost use Rattle.dw_frame.specs.ConvertTables.{RefusesFrame, IsTable, RefusesTable};
ghost use Rattle.dw_frame.specs.ConvertSections.{source, frame_in};
ghost use Rattle.dw_frame.specs.ConvertPairs.{AddsPair, AddsConverted, RefusesConverted, AddsFrame};

use crate::cie::CommonInformationEntry;
use crate::convert_cie::convert_cie;
use crate::convert_fde::convert_fde;
use crate::fde::FrameDescriptionEntry;
use crate::table::FrameTable;
use dw_base::Address;
use dw_read::Reader;
use dw_read_frames::{
    CieOrFde, FrameDescriptionEntry as ReadFde, PartialFrameDescriptionEntry, UnwindSection,
};
use dw_sources::{ConvertError, ConvertResult};
use std::alloc::Global;

impl FrameTable {
    /// The table of a section: its FDEs in their order, each with the CIE to which it leads. CIEs
    /// that are the same are kept once, and those that no FDE uses are left out. Entries are read
    /// up to the section's end, or to the zero length that ends `.eh_frame`. Addresses become what
    /// `convert_address` answers for them.
    ///
    /// Refused are an address without an answer (`InvalidAddress`), an instruction that sets the
    /// location (`UnsupportedCfiInstruction`), what `expression` of dw_convert refuses, and as
    /// `IntegerOverflow` factors of more than 8 bits, and lengths, offsets and sizes of arguments
    /// of more than 32.
    ///
    /// ```
    /// let section = EhFrame::new(reader, 8);
    /// let table = FrameTable::from(alloc, &section, &|a| Some(Address::Constant(a)))?;
    /// ```
    pub fn from<R: Reader, S: UnwindSection<R>, F: Fn(u64) -> Option<Address>>(
        alloc: Global,
        frame: &S,
        convert_address: &F,
    ) -> ConvertResult<FrameTable>
        requires { F.IsAlwaysCallable convert_address.now }
        ensures ok { IfOk result (λ t. IsTable (F.post convert_address.now)
            (source (R.reading (S.reader frame.now)) S.is_eh (S.size frame.now))
            (⟦<CommonInformationEntry as PartialEq>⟧.eq) t.cies.keys t.fdes.items) }
        ensures err { IfErr result (λ e. (e ≡ NoMemory) ⊎ RefusesTable
            (F.post convert_address.now)
            (source (R.reading (S.reader frame.now)) S.is_eh (S.size frame.now)) e) }
    {
        let mut table = FrameTable::new(alloc);
        add_frames(alloc, frame, convert_address, &mut table)?;
        Ok(table)
    }
}

/// Adds the FDEs of a section to a table that has none yet.
fn add_frames<R: Reader, S: UnwindSection<R>, F: Fn(u64) -> Option<Address>>(
    alloc: Global,
    frame: &S,
    convert_address: &F,
    table: &mut FrameTable,
) -> ConvertResult<()>
    requires callable { F.IsAlwaysCallable convert_address.now }
    requires cies { table.old.cies.keys ≡ [] }
    requires fdes { table.old.fdes.items ≡ [] }
    ensures ok { OnOk result (IsTable (F.post convert_address.now)
        (source (R.reading (S.reader frame.now)) S.is_eh (S.size frame.now))
        (⟦<CommonInformationEntry as PartialEq>⟧.eq) table.new.cies.keys table.new.fdes.items) }
    ensures err { IfErr result (λ e. (e ≡ NoMemory) ⊎ RefusesTable
        (F.post convert_address.now)
        (source (R.reading (S.reader frame.now)) S.is_eh (S.size frame.now)) e) }
{
    let mut entries = frame.entries();
    'entries: while let Some(entry) = entries.next()? {
        let CieOrFde::Fde(partial) = entry else {
            continue;
        };
        add_frame(alloc, frame, partial, convert_address, table)?;
    }
    Ok(())
}

/// Reads an FDE by the CIE to which it leads, and adds what both become to a table.
fn add_frame<R: Reader, S: UnwindSection<R>, F: Fn(u64) -> Option<Address>>(
    alloc: Global,
    frame: &S,
    partial: PartialFrameDescriptionEntry<R>,
    convert_address: &F,
    table: &mut FrameTable,
) -> ConvertResult<()>
    requires { F.IsAlwaysCallable convert_address.now }
    ensures ok { OnOk result (AddsFrame (F.post convert_address.now)
        (source (R.reading (S.reader frame.now)) S.is_eh (S.size frame.now))
        (⟦<CommonInformationEntry as PartialEq>⟧.eq)
        (R.reading partial.body).is_big (frame_in R.reading partial) table.old table.new) }
    ensures err { IfErr result (λ e. (e ≡ NoMemory) ⊎ RefusesFrame (F.post convert_address.now)
        (source (R.reading (S.reader frame.now)) S.is_eh (S.size frame.now))
        (R.reading partial.body).is_big (frame_in R.reading partial) e) }
{
    let common = frame.cie_from_offset(partial.cie_offset())?;
    let read = partial.parse(common)?;
    add_converted(alloc, &read, convert_address, table)
}

/// Converts an FDE and its CIE, and adds them to a table.
fn add_converted<R: Reader, F: Fn(u64) -> Option<Address>>(
    alloc: Global,
    read: &ReadFde<R>,
    convert_address: &F,
    table: &mut FrameTable,
) -> ConvertResult<()>
    requires { F.IsAlwaysCallable convert_address.now }
    ensures ok { OnOk result (AddsConverted (F.post convert_address.now) R.reading read.now
        (⟦<CommonInformationEntry as PartialEq>⟧.eq) table.old table.new) }
    ensures err { IfErr result (λ e. (e ≡ NoMemory) ⊎
        RefusesConverted (F.post convert_address.now) R.reading read.now e) }
{
    let cie = convert_cie(alloc, read.cie(), convert_address)?;
    let fde = convert_fde(alloc, read, convert_address)?;
    add_pair(table, cie, fde)
}

/// Adds an FDE to a table, with its CIE.
fn add_pair(
    table: &mut FrameTable,
    cie: CommonInformationEntry,
    fde: FrameDescriptionEntry,
) -> ConvertResult<()>
    ensures ok { OnOk result (AddsPair (⟦<CommonInformationEntry as PartialEq>⟧.eq)
        (cie, fde) table.old table.new) }
    ensures err { IfErr result (λ e. e ≡ NoMemory) }
{
    let Ok(id) = table.add_cie(cie) else {
        return Err(ConvertError::NoMemory);
    };
    match table.add_fde(id, fde) {
        Ok(()) => Ok(()),
        Err(_) => Err(ConvertError::NoMemory),
    }
}
