//! That the definition of written lists and that of items that are read are one.

ghost use Rattle.dw_read_back.specs.Laws.{EntriesAreOne};
ghost use Rattle.dw_read_back.specs.Laws.{LocationItemsAreOne, LocationListsAreOne};
ghost use Rattle.dw_read_back.specs.Laws.{LocationTablesAreReadBack};
ghost use Rattle.dw_read_back.specs.Laws.{RangeItemsAreOne, RangeListsAreOne};
ghost use Rattle.dw_read_back.specs.Laws.{RangeTablesAreReadBack};

/// A theorem of range lists, in any bytes, byte order, version and format, with addresses of 1, 2,
/// 4 or 8 bytes (DWARF 4, 2.17.3; DWARF 5, 2.17.3 and 7.25). `item`: each item is read as the
/// definition of written lists has it, and the same bytes are passed. `list`: so are the items up
/// to the close, and no others. `table`: each list of a table that `RangeListTable::write` wrote
/// is found and read as it was built. The function does nothing.
pub fn range_lists_are_one()
    ensures item { RangeItemsAreOne }
    ensures list { RangeListsAreOne }
    ensures table { RangeTablesAreReadBack }
{}

/// The same theorem of location lists, with the bytes of each expression (DWARF 4, 2.6.2; DWARF 5,
/// 2.6.2 and 7.7.3). The function does nothing.
pub fn location_lists_are_one()
    ensures item { LocationItemsAreOne }
    ensures list { LocationListsAreOne }
    ensures table { LocationTablesAreReadBack }
{}

/// A theorem of the entries that tables of lists have in version 5 (DWARF 5, 7.28 and 7.29): the
/// place that the entry of a number tells is the one that `UnitRef::ranges_offset` or
/// `UnitRef::locations_offset` of `dw_read_units` finds by it, from the same base. The function
/// does nothing.
pub fn list_entries_are_one()
    ensures { EntriesAreOne }
{}
