//! A unit while a filter reads it.

ghost use Rattle.std.specs.Prelude.{◌≡◌, ◌≤◌, ◌+◌, ◌++◌, ◌∷◌, [], List, Option, Some, Err, None, OnOk, OnErr, IfErr};
ghost use Rattle.dw_base.specs.Entries.{Row};
ghost use Rattle.dw_read.specs.UnitHeaders.{IsInside};
ghost use Rattle.dw_read.specs.declared.error.ReadError.{ReadError};
ghost use Rattle.dw_sources.specs.declared.convert_error.ConvertError.{ConvertError};
ghost use Rattle.dw_sources.specs.declared.convert_error.ConvertError.TheVariants.{NoMemory};
ghost use Rattle.dw_filter.specs.FilterUnits.{HasRoot, BeginsUnit, StandsBehind, ReadsEntry};

use crate::attribute_places::add_entry_places;
use crate::operation_places::place_in;
use crate::unit_entry::{FilterUnitEntry, Spot, spot_above};
use dw_base::{UnitOffset, UnitSectionOffset};
use dw_entry_ids::UnitRows;
use dw_read::{DebuggingInformationEntry, ReadError, Reader};
use dw_read_units::{Unit, UnitRef};
use dw_sources::{ConvertError, ConvertResult};
use std::alloc::Global;

/// A unit of which the entries behind the root are read one after the other, and some are required.
/// It counts those that it has handed out.
///
/// ```
/// let mut entry = unit.null_entry();
/// for _ in 0..rows {
///     if !unit.read_entry(&mut entry)? {
///         break;
///     }
///     if entry.read_entry.tag == DW_TAG_subprogram {
///         unit.require_entry(entry.read_entry.offset)?;
///     }
/// }
/// ```
#[derive(Drop)]
pub struct FilterUnit<'a, R: Reader> {
    /// The unit that is read; of a split one, with what its skeleton says of addresses.
    pub read_unit: UnitRef<'a, R>,
    /// The skeleton of a split unit.
    pub read_skeleton_unit: Option<UnitRef<'a, R>>,
    pub(crate) alloc: Global,
    pub(crate) rows: UnitRows<'a, R>,
    /// The entries that were read, by their numbers.
    pub(crate) seen: Vec<Spot>,
    /// What the attributes of the last entry name.
    pub(crate) named: Vec<UnitSectionOffset>,
    /// The error that was answered, if one was.
    pub(crate) error: Option<ConvertError>,
    /// How many entries behind the root were handed out.
    pub(crate) count: &'a mut usize,
    pub(crate) required: &'a mut Vec<UnitSectionOffset>,
}

/// The walk over a unit's entries behind its root, with where the root stands. A unit has one, as
/// `Dwarf::unit` looked.
pub(crate) fn begin<'a, R: Reader>(
    alloc: Global,
    unit: &'a Unit<R>,
) -> ConvertResult<(UnitRows<'a, R>, Vec<Spot>)>
    ensures { (root : Row) (rest : List Row) (fault : Option ReadError) →
        HasRoot R.reading unit.now root rest fault →
        BeginsUnit R.reading unit.now root rest fault result }
{
    let mut rows = UnitRows::new(alloc, unit);
    let mut root = DebuggingInformationEntry::new(alloc);
    let Some(_) = rows.next(&mut root)? else {
        return Err(ReadError::MissingUnitDie.into());
    };
    let mut seen = Vec::new(alloc);
    seen.push((root.offset, root.tag))?;
    Ok((rows, seen))
}

impl<'a, R: Reader> FilterUnit<'a, R> {
    /// No entry, for `read_entry` to read into.
    pub fn null_entry(&self) -> FilterUnitEntry<'a, R>
        ensures read_unit { result.read_unit ≡ self.now.read_unit }
        ensures attributes { result.read_entry.attrs.items ≡ [] }
        ensures parent { result.parent ≡ None }
        ensures parent_tag { result.parent_tag ≡ None }
    {
        FilterUnitEntry::null(self.alloc, self.read_unit)
    }

    /// Reads the next entry behind those that were read, in the order in which they stand, without
    /// the attributes that what is written has of its own, and the location lists that the others
    /// name. Null entries are passed. False tells that the unit's end was reached.
    ///
    /// Refused as `Read`, where the next row or one of these lists can't be read, and as
    /// `NoMemory`. From then on each call answers that error again, and changes nothing.
    pub fn read_entry(&mut self, entry: &mut FilterUnitEntry<'a, R>) -> ConvertResult<bool>
        ensures reads { (front rest : List Row) (fault : Option ReadError) →
            StandsBehind R.reading self.old front rest fault →
            ReadsEntry R.reading self.old front rest fault self.new entry.new result }
        ensures kept { IfErr result (λ e. self.new.error ≡ Some e) }
        ensures again { (e : ConvertError) → self.old.error ≡ Some e →
            (result ≡ Err e) × (self.new ≡ self.old) × (entry.new ≡ entry.old) }
        ensures read_unit { self.new.read_unit ≡ self.old.read_unit }
        ensures skeleton { self.new.read_skeleton_unit ≡ self.old.read_skeleton_unit }
        ensures required { self.new.required ≡ self.old.required }
        ensures same_count { self.new.count.ghost_name ≡ self.old.count.ghost_name }
    {
        if let Some(error) = self.error {
            return Err(error);
        }
        match self.read_next(entry) {
            Ok(is_read) => Ok(is_read),
            Err(error) => {
                self.error = Some(error);
                Err(error)
            }
        }
    }

    /// The same without a look at the error that was answered.
    fn read_next(&mut self, entry: &mut FilterUnitEntry<'a, R>) -> ConvertResult<bool>
        ensures reads { (front rest : List Row) (fault : Option ReadError) →
            StandsBehind R.reading self.old front rest fault →
            ReadsEntry R.reading self.old front rest fault self.new entry.new result }
        ensures others { self.new ≡ record self.old {
          rows = self.new.rows;
          seen = self.new.seen;
          named = self.new.named;
          count = self.new.count;
        } }
        ensures same_count { self.new.count.ghost_name ≡ self.old.count.ghost_name }
    {
        let Some((_, parent)) = self.rows.next(&mut entry.read_entry)? else {
            return Ok(false);
        };
        entry.read_unit = self.read_unit;
        entry.stand_under(spot_above(&self.seen, parent));
        self.seen
            .push((entry.read_entry.offset, entry.read_entry.tag))?;
        entry.leave_out();
        self.named.clear();
        add_entry_places(
            self.alloc,
            self.read_unit,
            &entry.read_entry.attrs,
            &mut self.named,
        )?;
        *self.count = self.count.saturating_add(1);
        Ok(true)
    }

    /// Requires the entry at an offset of the unit. It counts where one that was handed out begins
    /// there. An entry may be required before it is read, and again. Refused for want of memory
    /// alone (`NoMemory`), and then nothing has changed.
    pub fn require_entry(&mut self, offset: UnitOffset) -> ConvertResult<()>
        requires inside { IsInside R.reading self.old.read_unit.unit.now.header offset.0 }
        ensures ok { OnOk result
            (self.old.read_unit.unit.now.header.offset.0
            ≤ (R.reading self.old.read_unit.unit.now.header.body).place →
            self.new.required.now.items ≡ self.old.required.now.items
            ++ record { 0 = self.old.read_unit.unit.now.header.offset.0 + offset.0 } ∷ []) }
        ensures err { IfErr result (λ e. e ≡ NoMemory) }
        ensures unchanged { OnErr result
            (self.new.required.now.items ≡ self.old.required.now.items) }
        ensures same_required { self.new.required.ghost_name ≡ self.old.required.ghost_name }
        ensures others { self.new ≡ record self.old { required = self.new.required } }
    {
        if let Some(place) = place_in(self.read_unit, offset) {
            self.required.push(place)?;
        }
        Ok(())
    }
}
