//! What a value becomes before strings and lists have their ids.

ghost use Rattle.std.specs.Prelude.{◌≡◌, IfOk, IfErr, OnErr};
ghost use Rattle.dw_base.specs.Spellable.{IsText};
ghost use Rattle.dw_sources.specs.declared.convert_error.ConvertError.TheVariants.{NoMemory};
ghost use Rattle.dw_convert.specs.Images.{image_of, HoldsText};
ghost use Rattle.dw_convert.specs.Tables.{tables, stored, Means};

use dw_entries::AttributeValue;
use dw_lists::{LocationList, LocationListTable, RangeList, RangeListTable};
use dw_read::Reader;
use dw_sources::{ConvertError, ConvertResult};
use dw_strings::{LineStringTable, StringTable};

/// What a value becomes: a value that names nothing in a table, or a string or a list that goes
/// into one.
#[derive(Drop)]
pub(crate) enum Image<R: Reader> {
    Value(AttributeValue),
    /// A string of `.debug_str`.
    String(R),
    /// A string of `.debug_line_str`.
    LineString(R),
    Ranges(RangeList),
    Locations(LocationList),
}

/// Puts what goes into a table there, and answers the value that names it.
pub(crate) fn store<R: Reader>(
    image: Image<R>,
    strings: &mut StringTable,
    line_strings: &mut LineStringTable,
    ranges: &mut RangeListTable,
    locations: &mut LocationListTable,
) -> ConvertResult<AttributeValue>
    requires { HoldsText (image_of R.reading image) }
    ensures ok { IfOk result (λ v. stored
        (tables strings.old line_strings.old ranges.old locations.old) (image_of R.reading image)
        ≡ (v, tables strings.new line_strings.new ranges.new locations.new)) }
    ensures named { IfOk result (λ v. Means
        (tables strings.new line_strings.new ranges.new locations.new) v
        (image_of R.reading image)) }
    ensures err { IfErr result (λ e. e ≡ NoMemory) }
    ensures kept { OnErr result (tables strings.new line_strings.new ranges.new locations.new
        ≡ tables strings.old line_strings.old ranges.old locations.old) }
{
    match image {
        Image::Value(value) => Ok(value),
        Image::String(text) => match strings.add(text.to_slice()) {
            Ok(id) => Ok(AttributeValue::StringRef(id)),
            Err(_) => Err(ConvertError::NoMemory),
        },
        Image::LineString(text) => match line_strings.add(text.to_slice()) {
            Ok(id) => Ok(AttributeValue::LineStringRef(id)),
            Err(_) => Err(ConvertError::NoMemory),
        },
        Image::Ranges(list) => match ranges.add(list) {
            Ok(id) => Ok(AttributeValue::RangeListRef(id)),
            Err(_) => Err(ConvertError::NoMemory),
        },
        Image::Locations(list) => match locations.add(list) {
            Ok(id) => Ok(AttributeValue::LocationListRef(id)),
            Err(_) => Err(ConvertError::NoMemory),
        },
    }
}
