//! Range lists (DWARF 5, 2.17.3).

ghost use Rattle.std.specs.Prelude.{◌≡◌, ◌⊎◌, ◌++◌, [], ◌∷◌, IfOk, IfErr};
ghost use Rattle.std.specs.List.{filter};
ghost use Rattle.dw_sources.specs.declared.convert_error.ConvertError.TheVariants.{NoMemory};
ghost use Rattle.dw_convert.specs.Ranges.{kept};
ghost use Rattle.dw_convert.specs.RangeLists.{IsRangeList, RefusesRangeList};
ghost use Rattle.dw_convert.specs.WrittenLists.{IsWrittenRangeList};

use crate::range::{convert_range, is_base, is_empty};
use dw_base::{Address, RangeListsOffset};
use dw_lists::{Range, RangeList};
use dw_read::Reader;
use dw_read_units::UnitRef;
use dw_sources::{ConvertResult, raw_ranges};
use std::alloc::Global;

/// Converts the range list at an offset of `.debug_rnglists`, or up to version 4 of
/// `.debug_ranges`. Addresses become what `convert_address` answers for them; ranges that are
/// empty then are left out. An address without an answer is `InvalidAddress`, a pair behind a base
/// whose two answers aren't both constants `InvalidRangeRelativeAddress`.
///
/// ```
/// let list = range_list(alloc, unit, offset, &|address| Some(Address::Constant(address)))?;
/// ```
pub fn range_list<R: Reader, F: Fn(u64) -> Option<Address>>(
    alloc: Global,
    unit: UnitRef<'_, R>,
    offset: RangeListsOffset,
    convert_address: &F,
) -> ConvertResult<RangeList>
    requires { F.IsAlwaysCallable convert_address.now }
    ensures ok { IfOk result
        (IsRangeList R.reading (F.post convert_address.now) unit.entry offset.0) }
    ensures written { IfOk result
        (IsWrittenRangeList R.reading (F.post convert_address.now) unit.entry offset.0) }
    ensures err { IfErr result (λ e. (e ≡ NoMemory) ⊎ RefusesRangeList R.reading
        (F.post convert_address.now) unit.entry offset.0 e) }
{
    let mut items = raw_ranges(unit, offset)?;
    let mut has_base = unit.unit.low_pc != 0;
    let mut ranges = Vec::new(alloc);
    'items: while let Some(item) = items.next()? {
        let range = convert_range(item, unit, has_base, convert_address)?;
        has_base |= is_base(item);
        keep(&mut ranges, range)?;
    }
    Ok(RangeList(ranges))
}

/// Adds a range to others where it isn't empty.
fn keep(ranges: &mut Vec<Range>, range: Range) -> ConvertResult<()>
    ensures ok { IfOk result (λ _. ranges.new.items ≡ ranges.old.items ++ kept (range ∷ [])) }
    ensures err { IfErr result (λ e. e ≡ NoMemory) }
{
    if is_empty(range) {
        return Ok(());
    }
    ranges.push(range)?;
    Ok(())
}
