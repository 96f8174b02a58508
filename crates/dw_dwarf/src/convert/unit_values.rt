//! Values of a unit that is converted.

ghost use Rattle.std.specs.Prelude.{◌≡◌, ◌⊎◌, OnErr, IfOk, IfErr, Ok, Err, Some};
ghost use Rattle.dw_read.specs.Reading.{left};
ghost use Rattle.dw_sources.specs.declared.convert_error.ConvertError.TheVariants.{NoMemory};
ghost use Rattle.dw_convert.specs.Attributes.{IsImage, IsRefused, seen};
ghost use Rattle.dw_convert.specs.Expressions.{ExpressionOutcome};
ghost use Rattle.dw_convert.specs.Files.{file_image};
ghost use Rattle.dw_convert.specs.LocationLists.{IsLocationList, RefusesLocationList};
ghost use Rattle.dw_convert.specs.Lookups.{addresses_in};
ghost use Rattle.dw_convert.specs.RangeLists.{IsRangeList, RefusesRangeList};
ghost use Rattle.dw_dwarf.specs.Converters.{KeepsLoans, entries_in, infos_in, tables_of};

use crate::convert::convert_unit::ConvertUnit;
use dw_base::{Address, FileId, LocationListsOffset, RangeListsOffset};
use dw_convert::{convert_attribute_value, convert_file_index, location_list, range_list};
use dw_entries::AttributeValue;
use dw_expr::Expression;
use dw_lists::{LocationList, RangeList};
use dw_read::{Attribute, Expression as ReadExpression, Reader};
use dw_read_units::UnitRef;
use dw_sources::ConvertResult;

impl<'a, R: Reader> ConvertUnit<'a, R> {
    /// Converts the value of an attribute that was read from a unit, as the function of this name
    /// does. Its strings and lists go into the tables of the unit that is written, and numbers of
    /// files are those of the line program that was set last.
    ///
    /// It is refused as the function is. After an error the tables are as before.
    pub fn convert_attribute_value<F: Fn(u64) -> Option<Address>>(
        &mut self,
        read_unit: UnitRef<'_, R>,
        attr: &Attribute<R>,
        convert_address: &F,
    ) -> ConvertResult<AttributeValue>
        requires { F.IsAlwaysCallable convert_address.now }
        ensures ok { IfOk result (λ v. IsImage R.reading (F.post convert_address.now)
            (entries_in self.old) (infos_in self.old) read_unit.entry self.old.files.items
            (seen R.reading attr.now) (tables_of self.old) v (tables_of self.new)) }
        ensures err { IfErr result (λ e. (e ≡ NoMemory) ⊎ IsRefused R.reading
            (F.post convert_address.now) (entries_in self.old) (infos_in self.old)
            read_unit.entry self.old.files.items (seen R.reading attr.now) e) }
        ensures kept { OnErr result (tables_of self.new ≡ tables_of self.old) }
        ensures same { KeepsLoans self.old self.new }
        ensures others { self.new ≡ record self.old {
          unit = self.new.unit;
          strings = self.new.strings;
          line_strings = self.new.line_strings;
        } }
        // Of the unit that is written only the lists change.
        ensures unit { self.new.unit.now ≡ record self.old.unit.now {
          ranges = self.new.unit.now.ranges;
          locations = self.new.unit.now.locations;
        } }
    {
        let refs = self.given.refs;
        let unit = &mut *self.unit;
        convert_attribute_value(
            self.alloc,
            read_unit,
            self.files.as_slice(),
            attr,
            convert_address,
            &refs,
            self.strings,
            self.line_strings,
            &mut unit.ranges,
            &mut unit.locations,
        )
    }

    /// Converts an expression that was read from a unit, as `expression` does.
    pub fn convert_expression<F: Fn(u64) -> Option<Address>>(
        &self,
        read_unit: UnitRef<'_, R>,
        expression: ReadExpression<R>,
        convert_address: &F,
    ) -> ConvertResult<Expression>
        requires { F.IsAlwaysCallable convert_address.now }
        ensures ok { IfOk result (λ x. ExpressionOutcome (F.post convert_address.now)
            (addresses_in R.reading (Some read_unit.entry)) (entries_in self.now)
            (infos_in self.now) (R.reading expression.0).is_big
            read_unit.entry.unit.now.header.fields.encoding (left (R.reading expression.0))
            (Ok x)) }
        ensures err { IfErr result (λ e. (e ≡ NoMemory) ⊎ ExpressionOutcome
            (F.post convert_address.now) (addresses_in R.reading (Some read_unit.entry))
            (entries_in self.now) (infos_in self.now) (R.reading expression.0).is_big
            read_unit.entry.unit.now.header.fields.encoding (left (R.reading expression.0))
            (Err e)) }
    {
        let encoding = read_unit.encoding();
        dw_convert::expression(
            self.alloc,
            expression,
            encoding,
            Some(read_unit),
            convert_address,
            &self.given.refs,
        )
    }

    /// What the number of a file becomes, by the line program that was set last, as the function of
    /// this name answers it.
    pub fn convert_file_index(
        &self,
        read_unit: UnitRef<'_, R>,
        index: u64,
    ) -> ConvertResult<Option<FileId>>
        ensures { result ≡ file_image read_unit.entry.unit.now.header.fields.encoding.version
            self.now.files.items index }
    {
        convert_file_index(read_unit.encoding().version, self.files.as_slice(), index)
    }

    /// Converts the location list at a place, as `location_list` does.
    pub fn convert_location_list<F: Fn(u64) -> Option<Address>>(
        &self,
        read_unit: UnitRef<'_, R>,
        offset: LocationListsOffset,
        convert_address: &F,
    ) -> ConvertResult<LocationList>
        requires { F.IsAlwaysCallable convert_address.now }
        ensures ok { IfOk result (IsLocationList R.reading (F.post convert_address.now)
            (entries_in self.now) (infos_in self.now) read_unit.entry offset.0) }
        ensures err { IfErr result (λ e. (e ≡ NoMemory) ⊎ RefusesLocationList R.reading
            (F.post convert_address.now) (entries_in self.now) (infos_in self.now) read_unit.entry
            offset.0 e) }
    {
        let refs = self.given.refs;
        location_list(self.alloc, read_unit, offset, convert_address, &refs)
    }

    /// Converts the range list at a place, as `range_list` does.
    pub fn convert_range_list<F: Fn(u64) -> Option<Address>>(
        &self,
        read_unit: UnitRef<'_, R>,
        offset: RangeListsOffset,
        convert_address: &F,
    ) -> ConvertResult<RangeList>
        requires { F.IsAlwaysCallable convert_address.now }
        ensures ok { IfOk result (IsRangeList R.reading (F.post convert_address.now)
            read_unit.entry offset.0) }
        ensures err { IfErr result (λ e. (e ≡ NoMemory) ⊎ RefusesRangeList R.reading
            (F.post convert_address.now) read_unit.entry offset.0 e) }
    {
        range_list(self.alloc, read_unit, offset, convert_address)
    }
}
